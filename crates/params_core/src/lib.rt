//! The value of a form or a query by its pairs.
#![tactic(auto)]

mod form;
mod path;
mod putting;

pub use form::read_form;
