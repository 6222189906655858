//! What a view is to a process: its handlers, each with a pure meaning, and the effects that they ask for.
#![tactic(auto)]

mod effect;
mod greeting;
mod views;

pub use effect::{Effect, Effects};
pub use greeting::Greeting;
pub use views::{Owner, ViewFault, Views};
