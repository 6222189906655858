//! What patterns bind, and what a generator goes over.
#![tactic(auto)]

mod bind;
mod generator;
mod matching;

pub use bind::{binding, bindings};
pub use generator::{ItemsFault, items};
pub use matching::matches;
