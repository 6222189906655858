//! A page that is up: how a join brings it up, and what events, params and messages make of it.
#![tactic(auto)]

mod app;
mod destination;
mod fault;
mod page;

pub use app::App;
pub use destination::Destination;
pub use fault::PageFault;
pub use page::LivePage;
