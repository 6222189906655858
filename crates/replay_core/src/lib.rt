//! Replay scripts: what a script does, and what it writes.
#![tactic(auto)]

mod message;
mod player;
mod run;

pub use run::{ReplayEnd, replay};
