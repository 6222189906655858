//! The syntax of templates: expressions, patterns and nodes.
#![tactic(auto)]

mod expr;
mod laws;
mod linked;
mod node;
mod operators;
mod pattern;
mod reading;
mod walk;
mod walk_expr;
mod walk_node;

pub use expr::{Expr, Exprs, Operand, Pair, Pairs, Parts, PathStep, PipeCall, TextPart};
pub use laws::{reads_exactly, reads_in_order};
pub use linked::{Bodies, Linked, Module, Modules, Template, Templates};
pub use node::{
    Attribute, AttributeValue, Attributes, Clause, Clauses, Entries, Entry, Generator, Location,
    Node, Nodes, Place, SlotBody,
};
pub use operators::{BinaryOp, Function, UnaryOp};
pub use pattern::{Pattern, PatternPair, PatternPairs, Patterns};
pub use reading::{expr_reads, place_reads, reads};
pub use walk::Reads;
