//! How the attributes and the spreads of elements are printed.
#![tactic(auto)]

mod attribute;
mod class_list;
mod fault;
mod spread;

pub use attribute::attribute_text;
pub use fault::AttributeFault;
pub use spread::spread_text;
