//! Bundles: folders with a manifest and a template.
#![tactic(auto)]

mod bundle;
mod fault;
mod files;
mod loading;
mod manifest;
mod steps;

pub use bundle::{Bundle, Events, Step, Steps};
pub use fault::LoadFault;
pub use loading::load;
