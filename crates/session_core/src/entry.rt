//! The entries of a journal, and what waits in an inbox.
use text_core::{Bytes, Frames};
use value_core::Value;

/// An entry of a process's journal.
#[derive(Debug, Drop)]
pub enum Entry {
    /// A text was put into the inbox.
    Heard(Bytes),
    /// The message at the front was handled, and gave these frames.
    Handled(Frames),
    /// Memory was wanting at the message at the front, which gave these frames.
    Fell(Frames),
}

/// A message that waits.
#[derive(Debug, Drop)]
pub enum Waiting {
    /// A text of the browser.
    Heard(Bytes),
    /// A value that the process sent itself, under the generation of then.
    Sent { generation: u64, value: Value },
}
