//! Tokens of templates.

use text_core::{Seq, Text};

/// A token: which bytes of the text it spans, and what it is.
#[derive(Debug, Drop)]
pub struct Token {
    pub start: usize,
    /// The byte behind its last one.
    pub end: usize,
    pub form: TokenForm,
}

/// What a token is.
#[derive(Debug, Drop)]
pub enum TokenForm {
    /// `<%!-- .. --%>`, of which nothing is left.
    Dropped,
    /// Text as it stands, comments and doctypes among it.
    Text,
    /// `<%= .. %>`
    Put,
    /// `<% .. %>`
    Block,
    /// `{ .. }`
    Curly,
    /// `<name .. >`. The name of a call keeps its dot, and that of a slot its colon.
    StartTag {
        name: Text,
        attributes: RawAttributes,
        end: TagEnd,
    },
    /// `</name>`
    EndTag {
        name: Text,
    },
}

/// How a start tag ends.
#[derive(Clone, Copy, Debug, PartialEq, Eq)]
pub enum TagEnd {
    /// With `>`.
    Open,
    /// With `/>`.
    SelfClosed,
}

/// An attribute as it is written.
#[derive(Debug, Drop)]
pub struct RawAttribute {
    /// The byte of its name, or of the `{` of a spread.
    pub start: usize,
    /// Empty for a spread.
    pub name: Text,
    /// The first byte between its quotes or braces; where there is no value, the byte behind the name.
    pub value_start: usize,
    pub value: RawValue,
}

/// The value of an attribute as it is written.
#[derive(Debug, Drop)]
pub enum RawValue {
    /// `name="a"`
    Double(Text),
    /// `name='a'`
    Single(Text),
    /// `name`
    Bare,
    /// `name={a}`
    Braces(Text),
    /// `{a}`
    Spread(Text),
}

/// The attributes of a tag, in order.
pub type RawAttributes = Seq<RawAttribute>;

/// The tokens of a text, in order.
pub type Tokens = Seq<Token>;

/// Why a text has no tokens.
#[derive(Debug, Drop)]
pub enum TokenFault {
    /// The text is refused at this byte.
    Refused { at: usize, kind: TokenKind },
    /// There was not memory enough.
    OutOfMemory,
}

/// What is wrong with a text.
#[derive(Clone, Copy, Debug, PartialEq, Eq)]
pub enum TokenKind {
    /// A tag does not end; at its `<`.
    UnclosedTag,
    /// An interpolation or a block tag does not end; at its first byte.
    UnclosedExpr,
    /// A comment or a doctype does not end; at its `<`.
    UnclosedComment,
    /// A `<` begins no tag, or one without a name or with a name that begins with an upper-case letter; at the `<`.
    BadTagName,
    /// Something in a tag is no attribute; at its first byte.
    BadAttribute,
}
