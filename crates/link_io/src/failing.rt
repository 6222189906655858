//! A link and a listener in memory that fail at chosen calls.
ghost use Rattle.std.specs.Prelude.{◌≡◌, ◌+◌, ◌-◌, ◌^◌, ◌≤◌, ◌++◌, ◌∷◌, [], ◌↔◌, ◌⊎◌, IsTrue, Contains, min, true};

use crate::held::{HeldLink, HeldListener};
use crate::link::{Accepted, Answer, Got, Link, Listener, Sent};
use std::alloc::Global;
use text_core::Seq;

// Whether a call of that number is to fail.
fn is_among(numbers: &Seq<u64>, number: u64) -> bool
    ensures { IsTrue result ↔ Contains numbers.now number }
{
    numbers.as_slice().contains(&number)
}

/// A link in memory whose receives and sends of these numbers fail. The first call of each has number 1.
#[derive(Drop)]
pub struct FailingLink {
    held: HeldLink,
    failing_receives: Seq<u64>,
    failing_sends: Seq<u64>,
    receives: u64,
    sends: u64,
    faults: u64,
}

impl FailingLink {
    ghost use Rattle.text_core.specs.Outside.{Rose};
    ghost use Rattle.link_io.specs.Links.{Gives};
    ghost use Rattle.link_io.specs.declared.link.Got.TheVariants as got;
    ghost use Rattle.std.specs.Prelude.{Some};

    pub fn new(held: HeldLink, failing_receives: Seq<u64>, failing_sends: Seq<u64>) -> FailingLink
        ensures held { result.held ≡ held }
        ensures receives { result.failing_receives ≡ failing_receives }
        ensures sends { result.failing_sends ≡ failing_sends }
        ensures counts { (result.receives ≡ 0) × (result.sends ≡ 0) × (result.faults ≡ 0) }
    {
        FailingLink {
            held,
            failing_receives,
            failing_sends,
            receives: 0,
            sends: 0,
            faults: 0,
        }
    }

    /// What was given and sent so far.
    pub fn held(&self) -> &HeldLink
        ensures { result.now ≡ self.now.held }
    {
        &self.held
    }

    // Answers Failed, where the answer can be listed.
    fn fail(&mut self) -> Got
        ensures answer { (result ≡ got.OutOfMemory) × (self.new ≡ self.old) ⊎ (result ≡ got.Failed) × Rose self.old.faults self.new.faults × (self.old.faults ≤ self.new.faults) × (self.new ≡ record self.old { held = record self.old.held { given = self.old.held.given ++ got.Failed ∷ [] }; faults = self.new.faults }) }
    {
        match self.held.note(Got::Failed) {
            Ok(()) => {
                self.faults = self.faults.saturating_add(1);
                Got::Failed
            }
            Err(_) => Got::OutOfMemory,
        }
    }
}

/// A failing call leaves the script as it is.
impl Link for FailingLink {
    ghost use Rattle.std.specs.Prelude.{Some};
    ghost use Rattle.link_io.specs.Links.{Gives, GotCause, Takes, SentCause};
    ghost use Rattle.link_io.specs.Held.{Follows, Fails, SendFails};

    ghost answers = { λ l. Some l.held.given };

    ghost texts = { λ l. Some l.held.taken };

    ghost failed = { λ l. l.faults };

    ghost quieted = { λ l. l.held.quiets };

    fn receive(&mut self, alloc: Global) -> Got
        ensures answers { Gives (Some self.old.held.given) (Some self.new.held.given) result }
        ensures texts { self.new.held.taken ≡ self.old.held.taken }
        ensures cause { GotCause self.old.faults self.new.faults self.old.held.quiets self.new.held.quiets result }
        ensures script { Follows self.old.held.script.items self.new.held.script.items result }
        ensures number { self.new.receives ≡ min (self.old.receives + 1) (2 ^ 64 - 1) }
        ensures fails { Fails self.old.failing_receives self.new.receives result }
        ensures rest { self.new ≡ record self.old { held = self.new.held; receives = self.new.receives; faults = self.new.faults } }
    {
        self.receives = self.receives.saturating_add(1);
        if is_among(&self.failing_receives, self.receives) {
            return self.fail();
        }
        self.held.receive(alloc)
    }

    fn send(&mut self, alloc: Global, text: &[u8]) -> Sent
        ensures texts { Takes (Some self.old.held.taken) (Some self.new.held.taken) text.now result }
        ensures answers { self.new.held.given ≡ self.old.held.given }
        ensures cause { SentCause self.old.faults self.new.faults result }
        ensures quiets { self.old.held.quiets ≤ self.new.held.quiets }
        ensures number { self.new.sends ≡ min (self.old.sends + 1) (2 ^ 64 - 1) }
        ensures script { self.new.held ≡ record self.old.held { taken = self.new.held.taken } }
        ensures fails { SendFails self.old.failing_sends self.new.sends result }
        ensures rest { self.new ≡ record self.old { held = self.new.held; sends = self.new.sends; faults = self.new.faults } }
    {
        self.sends = self.sends.saturating_add(1);
        if is_among(&self.failing_sends, self.sends) {
            self.faults = self.faults.saturating_add(1);
            return Sent::Failed;
        }
        self.held.send(alloc, text)
    }

    fn close(&mut self)
        ensures answers { self.new.held.given ≡ self.old.held.given }
        ensures texts { self.new.held.taken ≡ self.old.held.taken }
        ensures faults { self.old.faults ≤ self.new.faults }
        ensures quiets { self.old.held.quiets ≤ self.new.held.quiets }
        ensures closed { self.new ≡ record self.old { held = record self.old.held { is_closed = true } } }
    {
        self.held.close();
    }

    fn quiets(&self) -> u64 {
        self.held.quiets()
    }

    fn faults(&self) -> u64 {
        self.faults
    }
}

/// A listener in memory whose accepts of these numbers fail. The first call has number 1.
#[derive(Drop)]
pub struct FailingListener<K: Drop> {
    held: HeldListener<K>,
    failing: Seq<u64>,
    accepts: u64,
    faults: u64,
}

impl<K: Drop> FailingListener<K> {
    pub fn new(held: HeldListener<K>, failing: Seq<u64>) -> FailingListener<K>
        ensures held { result.held ≡ held }
        ensures failing { result.failing ≡ failing }
        ensures counts { (result.accepts ≡ 0) × (result.faults ≡ 0) }
    {
        FailingListener {
            held,
            failing,
            accepts: 0,
            faults: 0,
        }
    }

    /// What was answered so far.
    pub fn held(&self) -> &HeldListener<K>
        ensures { result.now ≡ self.now.held }
    {
        &self.held
    }
}

/// A failing call keeps the links.
impl<K: Link> Listener for FailingListener<K> {
    ghost use Rattle.std.specs.Prelude.{Some};
    ghost use Rattle.link_io.specs.Links.{Accepts, AcceptedCause};
    ghost use Rattle.link_io.specs.Held.{Hands, AcceptFails};

    type L = K;

    ghost answers = { λ l. Some l.held.given };

    ghost failed = { λ l. l.faults };

    fn accept(&mut self, alloc: Global) -> Accepted<K>
        ensures answers { Accepts (Some self.old.held.given) (Some self.new.held.given) result }
        ensures cause { AcceptedCause self.old.faults self.new.faults result }
        ensures links { Hands self.old.held.links.items self.new.held.links.items result }
        ensures number { self.new.accepts ≡ min (self.old.accepts + 1) (2 ^ 64 - 1) }
        ensures fails { AcceptFails self.old.failing self.new.accepts result }
        ensures kept { self.new.failing ≡ self.old.failing }
    {
        self.accepts = self.accepts.saturating_add(1);
        if is_among(&self.failing, self.accepts) {
            return match self.held.note(Answer::Failed) {
                Ok(()) => {
                    self.faults = self.faults.saturating_add(1);
                    Accepted::Failed
                }
                Err(_) => Accepted::OutOfMemory,
            };
        }
        self.held.accept(alloc)
    }

    fn faults(&self) -> u64 {
        self.faults
    }
}
