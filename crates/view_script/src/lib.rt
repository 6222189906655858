//! Views whose handlers are the steps of a manifest.
#![tactic(auto)]

mod script;
mod views;

pub use views::ScriptViews;
