//! Replay scripts: what a script is, and how it is read.
#![tactic(auto)]

mod fit;
mod read;
mod script;
mod shape;

pub use read::{MOST_BYTES, read_script, script_law};
pub use script::{Line, Script, ScriptFault};
