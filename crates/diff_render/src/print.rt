//! What is remembered of a rendering.
use crate::choice::Choice;
use text_core::Seq;

/// What is remembered of a place. Whether it is kept at the next rendering hangs on this.
#[cycle(print)]
#[derive(Debug, Drop)]
pub enum Print {
    /// It showed a text: a value, or no branch.
    Text,
    /// It showed a branch.
    Branch { choice: Choice, places: Prints },
    /// It went over a list: what is remembered of each row.
    Rows(Seq<Prints>),
}

/// What is remembered of the places of a node, in order.
pub type Prints = Seq<Print>;
