//! What a message gives beside the state.
ghost use Rattle.std.specs.Prelude.{◌≡◌, [], false, map};

use machine_api::Actions;
use std::alloc::Global;
use text_core::{Frames, Seq};
use value_core::Values;

/// What a message gives beside the state: its frames, the values that the process sent itself, what is asked of the
/// outside, and whether it raised.
#[derive(Drop)]
pub struct Outcome {
    pub frames: Frames,
    pub sent: Values,
    pub actions: Actions,
    pub crashed: bool,
}

/// Frames, and nothing else.
pub(crate) fn only(alloc: Global, frames: Frames, crashed: bool) -> Outcome
    ensures { result ≡ record { frames = frames; sent = []; actions = []; crashed = crashed } }
{
    Outcome {
        frames,
        sent: Seq::new(alloc),
        actions: Seq::new(alloc),
        crashed,
    }
}

/// Nothing at all.
pub(crate) fn silent(alloc: Global) -> Outcome
    ensures { result ≡ record { frames = []; sent = []; actions = []; crashed = false } }
{
    only(alloc, Seq::new(alloc), false)
}
