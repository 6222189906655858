//! One process between two messages, and what each message makes of it.
#![tactic(auto)]

mod answering;
mod diffs;
mod frames;
mod fresh;
mod join;
mod leave;
mod outcome;
mod process;
mod shown;
mod turn;

pub use answering::answer;
pub use outcome::Outcome;
pub use process::{Process, Up};
pub use shown::page_text;
pub use turn::told;
