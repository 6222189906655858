//! The tokens of HEEx templates.
#![tactic(auto)]

mod byte;
mod lexer;
mod piece;
mod reader;
mod region;
mod scan;
mod tag;
mod token;
mod value;
mod void;

pub use lexer::tokens;
pub use token::{
    RawAttribute, RawAttributes, RawValue, TagEnd, Token, TokenFault, TokenForm, TokenKind, Tokens,
};
pub use void::is_void;
