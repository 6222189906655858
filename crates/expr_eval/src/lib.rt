//! The value of an expression.
#![tactic(auto)]

mod arithmetic;
mod evaluate;
mod fault;
mod functions;
mod held;
mod judge;
mod lists;
mod maps;
mod operators;
mod right_chain;
mod scope;
mod text;
mod variables;

pub use evaluate::{eval, eval_over};
pub use fault::EvalFault;
pub use judge::is_true;
pub use variables::{Bindings, Variables, value_in};
