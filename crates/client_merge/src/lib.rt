//! A client's tree, what diffs make of it, and its page.
#![tactic(auto)]

mod client;
mod fault;
mod frames;
mod held;
pub mod laws;
mod merging;
mod number;
mod plan;
mod showing;
mod take;

pub use client::Client;
pub use fault::MergeFault;
pub use held::{HeldNode, HeldRow};
pub use merging::merge;
pub use showing::show;
pub use take::take_tree;
