//! A ticket lock whose passes know a beginning of the journal of the value under the lock.
#![tactic(auto)]

mod pass;
mod steps;
mod turnstile;
mod view;

pub use pass::Pass;
pub use turnstile::{Spent, Turn, Turnstile};
pub use view::{Stage, TicketOrder, View};
