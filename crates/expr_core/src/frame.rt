//! What the reader of expressions has begun, and what comes next.

use crate::value::{Callee, Meant, Style, Value};
use ast_core::{BinaryOp, Expr, Pair, TextPart, UnaryOp};
use text_core::{Seq, Text};

/// What an open list of items is.
#[derive(Drop)]
pub(crate) enum Opener {
    Listing,
    Tupling,
    Calling(Callee),
    /// With what stands before the `|>`.
    Piping(Value, Callee),
}

/// What is begun and waits for more. Lists have the first unknown call of what they hold beside them.
#[derive(Drop)]
pub(crate) enum Frame {
    Operand(BinaryOp, Value),
    Ahead(UnaryOp),
    Paren,
    Indexed(Value),
    Items(Opener, Seq<Expr>, Option<usize>),
    Putting(Seq<TextPart>, Option<usize>),
    Valued(Seq<Pair>, Option<usize>, Text),
    /// An `if`, where its test may begin with a parenthesis of its own.
    Test,
    /// An `if` with its parenthesis.
    InnerTest,
    Yes(Style, Meant),
    No(Style, Meant, Meant),
}

/// What comes next.
#[derive(Drop)]
pub(crate) enum Mode {
    Want,
    Have(Value),
    WantAssign,
    WantField(Value),
    WantCall(Value),
    WantArguments(Opener),
    WantIf,
    WantDo(Style, Meant),
    WantElse(Style, Meant, Meant),
    /// In a text: a part or its end.
    WantPart(Seq<TextPart>, Option<usize>),
    /// In a map: a key, and what ends one.
    WantKey(Seq<Pair>, Option<usize>),
    WantColon(Seq<Pair>, Option<usize>, Text),
    WantQuote(Seq<Pair>, Option<usize>, Text),
    WantArrow(Seq<Pair>, Option<usize>, Text),
}
