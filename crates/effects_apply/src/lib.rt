//! What a handler's effects do to its process, applied in order.
#![tactic(auto)]

mod apply;
mod fault;
mod judge;
mod rest;

pub use apply::apply_effects;
pub use fault::EffectFault;
pub use judge::holds_slot;
pub use rest::Rest;
