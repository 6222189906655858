//! The reader of expressions and patterns.
#![tactic(auto)]

mod answer;
mod behind;
mod call;
mod chain;
mod close;
mod expr;
mod fault;
mod frame;
mod functions;
mod pattern_frame;
mod pattern_read;
mod pattern_step;
mod pile;
mod read;
mod reduce;
mod step;
mod value;
mod want;

pub use expr::{read_expr, read_pattern};
pub use fault::{ExprFault, ExprKind};
