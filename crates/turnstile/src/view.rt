//! What each pass knows, and the rule of the table.
use atomic_table::TableRule;
use machine_api::Logged;
use std::collections::LinkedList;
use std::marker::PhantomData;
use std::snapshot::Snapshot;

/// Where a pass is.
pub enum Stage {
    /// It has no ticket.
    Away,
    /// It waits with this ticket.
    Waiting(u64),
    /// Its ticket is served, and it has the value.
    Inside(u64),
    /// It is to bring the first value.
    Filling,
}

/// What a pass knows. No value of it is made.
pub struct View<E, G> {
    pub stage: Stage,
    /// What the value stands on. A pass that was joined to another has none.
    pub basis: Option<G>,
    /// The beginning of the journal that it has seen.
    pub seen: LinkedList<(u64, E)>,
    /// Its own number with the entries that it made, and then those that were joined to it.
    pub made: LinkedList<(u64, LinkedList<E>)>,
    /// A number that it drew for a new pass.
    pub spare: Option<u64>,
    /// How many passes were made, as far as it has seen.
    pub known: u64,
}

/// The rule of a turnstile's table.
pub struct TicketOrder<K> {
    of: PhantomData<K>,
}

impl<K: Logged> TableRule<Option<K>, View<K::Entry, K::App>, Snapshot<K>> for TicketOrder<K> {
    ghost use Rattle.turnstile.specs.Rules.{Orderly, founder};

    ghost holds = { λ key. Orderly K.journal K.basis K.lawful (K.basis key.value) };

    ghost first = { λ key. founder (K.basis key.value) };
}
