//! Which folders spell a bundle, as a grammar, and the law that a bundle is read exactly as it is spelled.
#![tactic(auto)]

pub mod laws;
