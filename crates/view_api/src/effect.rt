//! What a handler asks for.

use text_core::{Seq, Text};
use value_core::Value;

/// One effect of a handler.
#[derive(Debug, Drop)]
pub enum Effect {
    /// Sets an assign.
    Assign {
        name: Text,
        value: Value,
    },
    /// Puts an item into a stream: at the end where `at` is -1, else at that place, the first being 0. A positive
    /// `limit` keeps the first so many items, a negative one the last.
    StreamInsert {
        name: Text,
        dom_id: Text,
        item: Value,
        at: i64,
        limit: Option<i64>,
    },
    /// Takes the item of that dom id out of a stream.
    StreamDelete {
        name: Text,
        dom_id: Text,
    },
    /// Takes all items out of a stream.
    StreamReset {
        name: Text,
    },
    /// To be mailed what is published on a topic.
    Subscribe {
        topic: Text,
    },
    /// Ends that.
    Unsubscribe {
        topic: Text,
    },
    /// Mails a value to each process that is subscribed to a topic.
    Publish {
        topic: Text,
        value: Value,
    },
    /// Mails a value to the process itself.
    SendSelf {
        value: Value,
    },
    /// Gives the client an event.
    PushEvent {
        name: Text,
        value: Value,
    },
}

/// Effects in their order.
pub type Effects = Seq<Effect>;
