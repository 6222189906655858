//! The tokens of expressions and patterns.
#![tactic(auto)]

mod byte;
mod lexer;
mod module;
mod number;
mod opening;
mod piece;
mod sign;
mod token;
mod word;

pub use lexer::{Tokens, lex};
pub use token::{Bracket, Opened, Opening, Placed, Token};
