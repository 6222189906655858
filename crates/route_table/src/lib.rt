//! Paths to the numbers of views, by `matchit`.
#![tactic(auto)]

mod find;
mod route;
mod table;
mod url;

pub use find::Found;
pub use table::{Paths, RouteFault, Routes};
