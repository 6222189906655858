//! The renderer: the whole tree of a page's first rendering, and the lean diff of each later one.
#![tactic(auto)]

mod choice;
mod fault;
mod lean;
mod place;
mod plain;
mod print;
mod render;
mod rows;
mod scope;
mod values;
mod whole;

pub use choice::Choice;
pub use fault::RenderFault;
pub use plain::{page_text, render_plain};
pub use print::{Print, Prints};
pub(crate) use render::LEVELS;
pub use render::{first, next};
