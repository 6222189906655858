//! What the tokens of a template say, each for itself.

use crate::TemplateKind;
use ast_core::{Attributes, Expr, Generator, Pattern, Place};
use text_core::Text;

/// A tag: its name with its dot or colon, its attributes, and its `:for`, `:if` and `:let`.
#[derive(Drop)]
pub(crate) struct Tag {
    pub name: Text,
    pub attributes: Attributes,
    pub generator: Option<Generator>,
    pub test: Option<Expr>,
    pub binds: Option<Pattern>,
}

/// The head of a block.
#[derive(Drop)]
pub(crate) enum Block {
    If(Expr),
    For(Generator),
    Case(Expr),
}

/// What a token says.
#[derive(Drop)]
pub(crate) enum Sign {
    /// A comment of which nothing is left.
    Dropped,
    Words(Text),
    /// An interpolation.
    Value(Place),
    /// A tag that opens nothing.
    Whole(Tag),
    Opens(Tag),
    /// An end tag, by its name.
    Closes(Text),
    Block(Block),
    /// `<% P -> %>`
    ClauseHead(Pattern),
    /// `<% else %>`
    Otherwise,
    /// `<% end %>`
    Ends,
    /// A token with a fault of its own at this byte, which would open nothing.
    Broken { at: usize, kind: TemplateKind },
    /// One that would open a tag or a block.
    BrokenOpening { at: usize, kind: TemplateKind },
}
