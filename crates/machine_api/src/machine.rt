//! A process as a machine.
ghost use Rattle.std.specs.Prelude.{◌≡◌, ℕ, ◌+◌, Bool, List, [], ◌∷◌, ◌++◌, length, drop, IfOk};
ghost use Rattle.std.specs.Arc.{arc_value};
ghost use Rattle.machine_api.specs.declared.machine.Action.{Action};
ghost use Rattle.machine_api.specs.declared.machine.Down.{Down};
ghost use Rattle.machine_api.specs.Journals.{frames_in, journal_size};
ghost use Rattle.machine_api.specs.Steps.{Posts, Handles, PutsDown};

use crate::logged::Logged;
use std::alloc::Global;
use std::sync::Arc;
use text_core::{Bytes, Frames, OutOfMemory, Seq};

/// Why a message was not put into the inbox.
#[derive(Debug, Drop)]
pub enum PostFault {
    /// The inbox holds all the messages that it may.
    Full,
    /// The journal would grow too large: its size, and the size that was asked for.
    JournalFull { kept: u64, asked: u64 },
    /// Memory was wanting.
    OutOfMemory,
}

/// What became of the next message.
#[derive(Debug, Drop)]
pub enum Handled {
    /// No message waits.
    Idle,
    /// It was handled, and asks this of the outside.
    Done(Actions),
    /// It raised, and the process is down.
    Crashed,
    /// Memory was wanting, and the process is down.
    Fell,
}

/// Why a process is put down.
#[derive(Debug, Clone, Copy)]
pub enum Down {
    /// A limit was met.
    Limit,
    /// Memory was wanting.
    Memory,
}

/// What a message asks of the outside.
#[derive(Debug, Drop)]
pub enum Action {
    /// To mail what is published on the topic to this process, under this generation.
    Subscribe { topic: Bytes, generation: u64 },
    /// To end that subscription.
    Unsubscribe { topic: Bytes, generation: u64 },
    /// To mail the value to each process that is subscribed to the topic.
    Publish { topic: Bytes, value: Bytes },
}

/// Actions in their order.
pub type Actions = Seq<Action>;

/// A process: what it does follows from what it stands on and from its journal.
pub trait Machine: Logged + Send + Drop + Sized {
    // The entry of a text, and that of a mail: topic, generation, value.
    ghost heard: { List ℕ → Self.Entry };

    ghost mailed: { List ℕ → ℕ → List ℕ → Self.Entry };

    // Which entries tell the outcome of a message, want of memory during one, and that the process was put down.
    ghost is_handled: { Self.Entry → Bool };

    ghost is_fell: { Self.Entry → Bool };

    ghost is_overrun: { Down → Self.Entry → Bool };

    // The texts and the frames that an entry carries.
    ghost texts: { Self.Entry → List (List ℕ) };

    ghost frames: { Self.Entry → List (List ℕ) };

    // What follows from the basis and a journal: how many messages wait, whether the process is up,
    // and of a journal whose last entry is the outcome of a message whether that raised, and what it asks.
    ghost inbox: { Self.App → List (ℕ × Self.Entry) → ℕ };

    ghost is_up_after: { Self.App → List (ℕ × Self.Entry) → Bool };

    ghost raised: { Self.App → List (ℕ × Self.Entry) → Bool };

    ghost asked: { Self.App → List (ℕ × Self.Entry) → List Action };

    /// A machine on this app. Its journal is empty.
    fn start(alloc: Global, app: &Arc<Self::App>) -> Result<Self, OutOfMemory>
        ensures journal { IfOk result (λ m. Self.journal m ≡ []) }
        ensures basis { IfOk result (λ m. Self.basis m ≡ arc_value app.now) };

    /// Puts a text into the inbox, under the number. Answers the place of its entry.
    fn hear(&mut self, by: u32, text: &[u8]) -> Result<u64, PostFault>
        ensures basis { Self.basis self.new ≡ Self.basis self.old }
        ensures posts { Posts by (heard text.now) (64 + length text.now)
            (inbox (Self.basis self.old) (Self.journal self.old))
            (journal_size texts frames (Self.journal self.old)) (Self.journal self.old) result (Self.journal self.new) };

    /// Puts a mail into the inbox, under the number. Answers the place of its entry.
    fn mail(
        &mut self,
        by: u32,
        topic: &[u8],
        generation: u64,
        value: &[u8],
    ) -> Result<u64, PostFault>
        ensures basis { Self.basis self.new ≡ Self.basis self.old }
        ensures posts { Posts by (mailed topic.now generation value.now)
            (64 + length topic.now + length value.now) (inbox (Self.basis self.old) (Self.journal self.old))
            (journal_size texts frames (Self.journal self.old)) (Self.journal self.old) result (Self.journal self.new) };

    /// Handles the next message.
    fn handle(&mut self, by: u32) -> Handled
        ensures basis { Self.basis self.new ≡ Self.basis self.old }
        ensures handles { Handles is_handled is_fell by (inbox (Self.basis self.old) (Self.journal self.old))
            (raised (Self.basis self.old)) (asked (Self.basis self.old))
            (Self.journal self.old) result (Self.journal self.new) };

    /// Puts the process down, if it is up.
    fn put_down(&mut self, by: u32, why: Down)
        ensures basis { Self.basis self.new ≡ Self.basis self.old }
        ensures puts_down { PutsDown (is_overrun why) by (is_up_after (Self.basis self.old) (Self.journal self.old))
            (Self.journal self.old) (Self.journal self.new) };

    /// The frames of the journal from this number on, the first being 0.
    fn frames_from(&self, alloc: Global, from: u64) -> Result<Frames, OutOfMemory>
        ensures { IfOk result (λ found. found ≡ drop from (frames_in frames (Self.journal self.now))) };

    /// How many messages wait.
    fn waiting(&self) -> u32
        ensures { result ≡ inbox (Self.basis self.now) (Self.journal self.now) };

    /// Whether the process is up.
    fn is_up(&self) -> bool
        ensures { result ≡ is_up_after (Self.basis self.now) (Self.journal self.now) };

    // A text's entry carries that text, and a mail's its topic and value. Neither carries frames.
    ghost carried_by_text: { (text : List ℕ) → (texts (heard text) ≡ text ∷ []) × (frames (heard text) ≡ []) };

    ghost carried_by_mail: { (topic : List ℕ) (generation : ℕ) (value : List ℕ)
        → (texts (mailed topic generation value) ≡ topic ∷ value ∷ []) × (frames (mailed topic generation value) ≡ []) };
}
