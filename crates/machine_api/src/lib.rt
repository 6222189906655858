//! What a value under a lock logs, and a process as a machine that logs each of its steps.
#![tactic(auto)]

mod logged;
mod machine;

pub use logged::Logged;
pub use machine::{Action, Actions, Down, Handled, Machine, PostFault};
