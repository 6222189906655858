//! What a message has done so far beside the assigns.
ghost use Rattle.std.specs.Prelude.{◌≡◌, []};

use diff_tree::Pushes;
use machine_api::Actions;
use std::alloc::Global;
use text_core::Seq;
use value_core::Values;

/// What a message has done so far beside the assigns.
#[derive(Debug, Drop)]
pub struct Rest {
    /// The generation of the process.
    pub generation: u64,
    /// How many more messages the inbox may take.
    pub free: u32,
    /// The values that the process sent itself, in order.
    pub sent: Values,
    /// What is asked of the outside, in order.
    pub actions: Actions,
    /// The events for the client, in order.
    pub pushed: Pushes,
}

impl Rest {
    /// Of a message that has done nothing yet. It takes no memory.
    pub fn new(alloc: Global, generation: u64, free: u32) -> Rest
        ensures generation { result.generation ≡ generation }
        ensures free { result.free ≡ free }
        ensures sent { result.sent ≡ [] }
        ensures actions { result.actions ≡ [] }
        ensures pushed { result.pushed ≡ [] }
    {
        Rest {
            generation,
            free,
            sent: Seq::new(alloc),
            actions: Seq::new(alloc),
            pushed: Seq::new(alloc),
        }
    }
}
