//! The state of a process between two messages.
use live_page::LivePage;
use text_core::Frames;

/// A process: the generation, which is the number of joins that found a route, and what is up.
#[derive(Drop)]
pub struct Process {
    pub generation: u64,
    pub up: Option<Up>,
}

/// What is up: the page, and the frames that tell its browser that memory was wanting. They are made ready when the
/// page comes up, so that going down for want of memory takes none.
#[derive(Drop)]
pub struct Up {
    pub page: LivePage,
    pub last_words: Frames,
}
