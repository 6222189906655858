//! Nodes of templates.

use crate::{Expr, Pattern};
use text_core::{Seq, Text};

/// Where something stands in its file: line and column, both from 1, columns in characters.
#[derive(Clone, Copy, Debug, PartialEq, Eq)]
pub struct Location {
    pub line: u32,
    pub column: u32,
}

/// A node of a template.
#[cycle(node)]
#[derive(Debug, Drop)]
pub enum Node {
    /// A text as it stands, never empty.
    Text(Text),
    /// An element.
    Element {
        at: Location,
        name: Text,
        attributes: Seq<Attribute>,
        children: Seq<Node>,
    },
    /// Something that changes from rendering to rendering.
    Place {
        at: Location,
        place: Place,
    },
}

/// What changes from rendering to rendering.
#[cycle(node)]
#[derive(Debug, Drop)]
pub enum Place {
    /// The text of a value.
    Put(Expr),
    /// One of two bodies.
    If {
        test: Expr,
        yes: Seq<Node>,
        no: Seq<Node>,
    },
    /// The body of the first clause that matches.
    Case {
        value: Expr,
        clauses: Seq<Clause>,
    },
    /// A body for each item of a list that matches.
    For {
        pattern: Pattern,
        list: Expr,
        body: Seq<Node>,
    },
    /// A call of a template with its attributes, its content and its slot entries.
    Call {
        template: Text,
        attributes: Seq<Attribute>,
        content: SlotBody,
        entries: Seq<Entry>,
    },
    /// A call of a LiveComponent; linking refuses content and entries.
    LiveCall {
        attributes: Seq<Attribute>,
        content: SlotBody,
        entries: Seq<Entry>,
    },
    /// The bodies of a slot's entries, with an argument.
    RenderSlot {
        value: Expr,
        argument: Option<Expr>,
    },
    /// A body for each item of a stream: the stream's name, the variable of the dom id and the pattern of the item.
    StreamFor {
        stream: Text,
        id: Text,
        pattern: Pattern,
        body: Seq<Node>,
    },
}

/// A clause of a `case`.
#[cycle(node)]
#[derive(Debug, Drop)]
pub struct Clause {
    pub pattern: Pattern,
    pub body: Seq<Node>,
}

/// A slot body: its number, the pattern of its `:let`, and its nodes.
#[cycle(node)]
#[derive(Debug, Drop)]
pub struct SlotBody {
    pub number: u64,
    pub pattern: Option<Pattern>,
    pub nodes: Seq<Node>,
}

/// A slot entry of a call: its slot, its `:for` and `:if`, its attributes and its body.
#[cycle(node)]
#[derive(Debug, Drop)]
pub struct Entry {
    pub at: Location,
    pub slot: Text,
    pub generator: Option<Generator>,
    pub test: Option<Expr>,
    pub attributes: Seq<Attribute>,
    pub body: SlotBody,
}

/// `:for={pattern <- list}`
#[derive(Debug, Drop)]
pub struct Generator {
    pub pattern: Pattern,
    pub list: Expr,
}

/// An attribute of an element, a call or a slot entry. The name of a spread is empty.
#[derive(Debug, Drop)]
pub struct Attribute {
    pub at: Location,
    pub name: Text,
    pub value: AttributeValue,
}

/// The value of an attribute.
#[derive(Debug, Drop)]
pub enum AttributeValue {
    /// In double quotes.
    Double(Text),
    /// In single quotes.
    Single(Text),
    /// None written.
    Bare,
    /// `name={a}`
    Put(Expr),
    /// `{a}`
    Spread(Expr),
    /// `module={Name}` of a call of a LiveComponent.
    Module(Text),
}

/// A list of nodes. No two texts stand side by side.
pub type Nodes = Seq<Node>;

/// The clauses of a `case`.
pub type Clauses = Seq<Clause>;

/// The attributes of a tag, as they are written.
pub type Attributes = Seq<Attribute>;

/// The slot entries of a call, as they are written.
pub type Entries = Seq<Entry>;
