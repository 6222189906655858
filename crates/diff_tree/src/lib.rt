//! Trees, diffs and what a client makes of them.
#![tactic(auto)]

mod component_reading;
mod diff;
mod event_reading;
mod fault;
pub mod laws;
mod list_reading;
mod node_reading;
mod part;
mod plain;
mod push;
mod reading;
mod stream;
mod stream_reading;
mod writing;

pub use diff::{ComponentPart, Diff};
pub use fault::DiffFault;
pub use part::{Part, PartBody, PlaceValue, Row};
pub use push::{Push, Pushes};
pub use reading::{read_diff, read_diff_value};
pub use stream::{StreamInsert, StreamPart};
pub use writing::{diff_value, write_diff};
