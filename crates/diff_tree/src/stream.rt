//! The operations on a stream, as they are sent.
use text_core::{Names, Seq, Text};

/// What is sent of a stream beside its rows: its name, and what happened to it since the last frame.
#[derive(Debug, Drop)]
pub struct StreamPart {
    pub name: Text,
    /// One for each row, in order.
    pub inserts: Seq<StreamInsert>,
    /// The ids of rows that are taken out.
    pub deletes: Names,
    /// Whether all rows before are gone.
    pub reset: bool,
}

/// Where a row goes.
#[derive(Debug, Drop)]
pub struct StreamInsert {
    /// The id that the row has.
    pub id: Text,
    /// The place that it gets where the id is new, or -1 for the end.
    pub at: i64,
    /// How many rows are kept, the last few where it is negative.
    pub limit: Option<i64>,
}
