//! The reader of the templates and the expressions in bundles.
#![tactic(auto)]

mod formula;
mod laws;
mod template;

pub use formula::read_formula;
pub use laws::{formulas_are_spelled, templates_are_spelled};
pub use template::read_template;
