//! What a server speaks through: links that carry texts, and listeners that accept links.
#![tactic(auto)]

mod failing;
mod held;
mod link;
#[cfg(test)]
mod tests;
mod web;
mod web_listener;
mod wire;

pub use failing::{FailingLink, FailingListener};
pub use held::{HeldLink, HeldListener, Look};
pub use link::{Accepted, Answer, Got, Link, Listener, Sent};
pub use web::WebLink;
pub use web_listener::WebListener;
