//! What each step on the table tells. Between the step that takes the value out and the one that gives it back,
//! its slot is read and written as plain memory.
ghost use Rattle.turnstile.specs.Steps.{DrawsTicket, LooksServed, BringsFirst, ServesNext, ChecksPassCount, DrawsPassNumber, kept_half, new_half, joined, spent};

use crate::view::View;
use atomic_table::{Join, Play, Split};
use machine_api::Logged;

/// A ticket is drawn.
pub struct DrawTicket;

impl<K: Logged> Play<Option<K>, View<K::Entry, K::App>> for DrawTicket {
    ghost then = { DrawsTicket };
}

/// The ticket that is served is read. Where it is the seat's, the value goes out with the seat.
pub struct LookServed;

impl<K: Logged> Play<Option<K>, View<K::Entry, K::App>> for LookServed {
    ghost then = { LooksServed K.journal K.basis K.lawful };
}

/// The empty slot goes out with the seat that is to bring the first value.
pub struct BringFirst;

impl<K: Logged> Play<Option<K>, View<K::Entry, K::App>> for BringFirst {
    ghost then = { BringsFirst };
}

/// The value comes back, and the next ticket is served.
pub struct ServeNext;

impl<K: Logged> Play<Option<K>, View<K::Entry, K::App>> for ServeNext {
    ghost then = { ServesNext K.journal };
}

/// The count of passes is read.
pub struct CheckPassCount;

impl<K: Logged> Play<Option<K>, View<K::Entry, K::App>> for CheckPassCount {
    ghost then = { ChecksPassCount };
}

/// A number for a new pass is drawn.
pub struct DrawPassNumber;

impl<K: Logged> Play<Option<K>, View<K::Entry, K::App>> for DrawPassNumber {
    ghost then = { DrawsPassNumber };
}

/// A pass with the number that was drawn splits off.
pub struct SplitPass;

impl<E, G> Split<View<E, G>> for SplitPass {
    ghost left = { kept_half };

    ghost right = { new_half };
}

/// A pass takes in another.
pub struct JoinPass;

impl<E, G> Join<View<E, G>> for JoinPass {
    ghost both = { joined };

    ghost spent = { spent };
}
