//! One process as a machine: its journal, its inbox, and the headline that its type keeps.
#![tactic(auto)]

mod entry;
mod frames;
mod message;
mod post;
mod session;
mod written;

pub use entry::{Entry, Waiting};
pub use session::Session;
