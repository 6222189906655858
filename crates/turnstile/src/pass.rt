//! A pass.
ghost use Rattle.std.specs.Prelude.{◌≡◌, Some};

use crate::view::View;
use atomic_table::Seat;
use machine_api::Logged;
use std::marker::Model;

/// What one caller knows of a turnstile: a beginning of the journal, and which entries are its own.
#[derive(Drop)]
pub struct Pass<K: Logged> {
    pub(crate) number: u32,
    pub(crate) seat: Seat<Option<K>, View<K::Entry, K::App>>,
}

impl<K: Logged> Model for Pass<K> {
    ghost use Rattle.turnstile.specs.Known.{Known};
    ghost use Rattle.turnstile.specs.Seats.{Sound, known_of};

    ghost Value = { Known K.Entry K.App };

    ghost view = { λ p. known_of p.number p.seat };

    ghost invariant = { λ p. Sound K.lawful p.number p.seat };
}

impl<K: Logged> Pass<K> {
    /// The number under which it makes entries.
    pub fn number(&self) -> u32
        ensures number { result ≡ self.now.number }
        ensures lawful { (on : K.App) × (self.now.basis ≡ Some on) × K.lawful on self.now.seen }
    {
        self.number
    }
}
