//! The tokens of expressions and patterns.

ghost use Rattle.std.specs.Prelude.{◌≡◌};
ghost use Rattle.expr_token.specs.Tokens.{cut};

use ast_core::BinaryOp;
use text_core::Text;

/// A kind of closing bracket.
#[derive(Clone, Copy, Debug, PartialEq, Eq)]
pub enum Bracket {
    /// `)`
    Round,
    /// `]`
    Square,
    /// `}`, but where it ends a part of a text
    Curly,
}

/// A token of an expression. Texts are taken apart: `"a#{b}c"` is `Quote("a")`, `PartOpening`, the tokens of `b`,
/// `PartClosing("c")` and `QuoteEnd`.
#[derive(Debug, Drop)]
pub enum Token {
    /// A number that is not too large.
    Number(i64),
    /// Digits of a number above the greatest.
    BadNumber,
    /// A name, and the byte at which it stands.
    Word { at: usize, name: Text },
    /// What can only be the name of a call, since a module stands before it or it ends in `?` or `!`; and its place.
    Function { at: usize, name: Text },
    /// `:a`, without its colon.
    Atom(Text),
    /// `nil`
    Nil,
    /// `true` and `false`
    Boolean(bool),
    /// `@`
    At,
    /// The dot directly behind a value.
    Dot,
    /// An operator between two operands; `-` also before one.
    Operator(BinaryOp),
    /// `!`
    Bang,
    /// `not`
    NotWord,
    /// `|>`
    Pipe,
    /// `,`
    Comma,
    /// The colon behind a key.
    Colon,
    /// `=>`
    Arrow,
    /// `if`
    If,
    /// `do:`
    DoColon,
    /// `else:`
    ElseColon,
    /// A parenthesis that is not directly behind a name.
    OpeningRound,
    /// The parenthesis directly behind the name of a call.
    CallOpening,
    /// A square bracket that is not directly behind a value.
    OpeningSquare,
    /// The square bracket directly behind a value.
    IndexOpening,
    /// `{`
    OpeningCurly,
    /// `%{`
    OpeningMap,
    /// `)`, `]` and `}`
    Closing(Bracket),
    /// The quote that begins a text, and what the characters up to its first part or its end stand for.
    Quote(Text),
    /// `#{`
    PartOpening,
    /// The `}` that ends a part, and what the characters behind it stand for.
    PartClosing(Text),
    /// The quote that ends a text.
    QuoteEnd,
    /// What stands in no expression: a character that begins no token, an escape that there is not, a word that is
    /// reserved for blocks, a module without a call's name, a colon before a letter that begins no atom, a dot that
    /// is not directly behind a value.
    Foreign,
}

/// A token, and the byte at which it begins.
#[derive(Debug, Drop)]
pub struct Placed {
    pub at: usize,
    pub token: Token,
}

/// What a token opens.
#[derive(Clone, Copy, Debug, PartialEq, Eq)]
pub enum Opening {
    /// A text.
    Quoted,
    /// A part of a text.
    Parted,
    /// A bracket or a parenthesis.
    Bracketed,
}

/// An opening that is not closed, and its byte.
#[derive(Clone, Copy, Debug, PartialEq, Eq)]
pub struct Opened {
    pub at: usize,
    pub kind: Opening,
}

/// What ends directly before a place.
#[derive(Clone, Copy, Debug, PartialEq, Eq)]
pub(crate) struct Near {
    /// Whether a value does.
    pub value: bool,
    /// Whether what may be the name of a call does.
    pub name: bool,
}

/// What a text begins with: a token, or none where that is passed over; and how many bytes it has.
#[derive(Debug, Drop)]
pub(crate) struct Cut {
    pub token: Option<Token>,
    pub size: usize,
}

/// What some characters of a text stand for, and how many bytes they have.
#[derive(Debug, Drop)]
pub(crate) struct Piece {
    pub text: Text,
    pub size: usize,
}

/// A token of so many bytes.
pub(crate) fn sized(token: Token, size: usize) -> Cut
    ensures { result ≡ cut token size }
{
    Cut {
        token: Some(token),
        size,
    }
}
