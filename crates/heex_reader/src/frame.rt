//! What is open while signs are read.

use crate::content::Content;
use crate::sign::Tag;
use ast_core::{Clauses, Expr, Generator, Location, Nodes, Pattern};

/// A byte, and where it stands in its file.
#[derive(Clone, Copy)]
pub(crate) struct Spot {
    pub byte: usize,
    pub location: Location,
}

/// A tag or a block that is open, with what its head says and what of it is read.
#[derive(Drop)]
pub(crate) enum Open {
    Tag(Tag),
    /// The first branch of an `if`.
    Yes(Expr),
    /// The other branch, with the nodes of the first.
    No(Expr, Nodes),
    Loop(Generator),
    /// A `case` before its first clause.
    BeforeClauses(Expr),
    /// A clause, with those before it.
    Clause(Expr, Clauses, Pattern),
}

/// What is open, with its `<` and what stands before it.
#[derive(Drop)]
pub(crate) struct Frame {
    pub spot: Spot,
    pub before: Content,
    pub form: Open,
}
