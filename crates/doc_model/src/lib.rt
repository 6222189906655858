//! The meaning of templates, and the laws under the diff.
#![tactic(auto)]

pub mod laws;
