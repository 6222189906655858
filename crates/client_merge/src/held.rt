//! Trees as a client holds them.
use text_core::{Names, Seq, Text};

/// A tree as a client holds it.
#[cycle(held)]
#[derive(Debug, Drop)]
pub enum HeldNode {
    /// A text.
    Text(Text),
    /// A node: its statics, and what stands at the places between them.
    Node {
        statics: Names,
        places: Seq<HeldNode>,
    },
    /// A list: the statics of each row, and the rows.
    List {
        statics: Names,
        rows: Seq<HeldRow>,
    },
}

/// A row of a list: what stands at the places between its statics.
#[cycle(held)]
#[derive(Debug, Drop)]
pub struct HeldRow {
    pub values: Seq<HeldNode>,
}
