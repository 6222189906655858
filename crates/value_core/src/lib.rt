//! The values of the template language: when two are the same, their text, and their JSON.
#![tactic(auto)]

mod copying;
mod equality;
mod laws;
mod nesting;
mod printing;
mod raise;
mod reading;
mod value;
mod writing;

pub use copying::{copy, copy_assigns, copy_values};
pub use equality::same;
pub use laws::same_is_equality;
pub use nesting::depth;
pub use printing::{PrintFault, to_html, to_text};
pub use raise::Raise;
pub use reading::{JsonFault, from_json};
pub use value::{Assigns, SlotValue, Value, Values};
pub use writing::{ToJsonFault, to_json};
