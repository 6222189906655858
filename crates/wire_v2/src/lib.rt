//! The messages of a browser, the frames that answer them, and the bytes that spell both.
#![tactic(auto)]

mod event;
mod frame;
mod frame_laws;
mod frame_reading;
mod frame_writing;
mod head;
mod message;
mod page_reading;
mod payload;
mod push;
mod wholes;

pub use event::EventValue;
pub use frame::{Frame, FrameBody};
pub use frame_laws::frames_agree;
pub use frame_reading::read_frame;
pub use frame_writing::write_frame;
pub use head::MessageHead;
pub use message::{Message, MessageFault, read_message};
pub use push::push_of_value;
