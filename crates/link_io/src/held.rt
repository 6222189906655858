//! A link and a listener in memory that never fail.
ghost use Rattle.std.specs.Prelude.{◌≡◌, ◌++◌, ◌∷◌, [], IfOk, OnOk, OnErr, true, false};

use crate::link::{Accepted, Answer, Got, Link, Listener, Sent};
use std::alloc::Global;
use std::collections::VecDeque;
use text_core::{Bytes, OutOfMemory, Seq};

/// What the other end of a link in memory does at a look.
#[derive(Debug, Drop)]
pub enum Look {
    Text(Bytes),
    Quiet,
}

/// A link in memory: it gives a script of looks, and is closed at its end.
#[derive(Drop)]
pub struct HeldLink {
    script: VecDeque<Look>,
    given: Seq<Got>,
    taken: Seq<Bytes>,
    quiets: u64,
    is_closed: bool,
}

impl HeldLink {
    ghost use Rattle.link_io.specs.Held.{first_of};

    pub fn new(alloc: Global) -> HeldLink
        ensures script { result.script.items ≡ [] }
        ensures given { result.given ≡ [] }
        ensures taken { result.taken ≡ [] }
        ensures quiets { result.quiets ≡ 0 }
        ensures open { result.is_closed ≡ false }
    {
        HeldLink {
            script: VecDeque::new(alloc),
            given: Seq::new(alloc),
            taken: Seq::new(alloc),
            quiets: 0,
            is_closed: false,
        }
    }

    /// Puts a look at the end of the script.
    pub fn push(&mut self, look: Look) -> Result<(), OutOfMemory>
        ensures ok { OnOk result (self.new.script.items ≡ self.old.script.items ++ look ∷ []) }
        ensures err { OnErr result (self.new.script.items ≡ self.old.script.items) }
        ensures rest { self.new ≡ record self.old { script = self.new.script } }
    {
        self.script.push_back(look)?;
        Ok(())
    }

    /// The answers of `receive` so far.
    pub fn given(&self) -> &[Got]
        ensures { result.now ≡ self.now.given }
    {
        self.given.as_slice()
    }

    /// The texts that were sent, in order.
    pub fn sent(&self) -> &[Bytes]
        ensures { result.now ≡ self.now.taken }
    {
        self.taken.as_slice()
    }

    /// Whether this end closed the link.
    pub fn is_closed(&self) -> bool
        ensures { result ≡ self.now.is_closed }
    {
        self.is_closed
    }

    // What the script gives next.
    fn next(&self, alloc: Global) -> Result<Got, OutOfMemory>
        ensures { IfOk result (λ g. g ≡ first_of self.now.script.items) }
    {
        match self.script.front() {
            Some(Look::Text(text)) => Ok(Got::Text(Bytes::copy_of(alloc, text.as_slice())?)),
            Some(Look::Quiet) => Ok(Got::Quiet),
            None => Ok(Got::Closed),
        }
    }

    // Lists an answer.
    pub(crate) fn note(&mut self, answer: Got) -> Result<(), OutOfMemory>
        ensures ok { OnOk result (self.new ≡ record self.old { given = self.old.given ++ answer ∷ [] }) }
        ensures err { OnErr result (self.new ≡ self.old) }
    {
        self.given.push(answer)?;
        Ok(())
    }

    // The next answer, listed.
    fn listed(&mut self, alloc: Global) -> Result<Got, OutOfMemory>
        ensures ok { IfOk result (λ g. (g ≡ first_of self.old.script.items) × (self.new ≡ record self.old { given = self.old.given ++ g ∷ [] })) }
        ensures err { OnErr result (self.new ≡ self.old) }
    {
        let copy = self.next(alloc)?;
        let got = self.next(alloc)?;
        self.note(copy)?;
        Ok(got)
    }
}

/// It never fails. After its script it answers Closed.
impl Link for HeldLink {
    ghost use Rattle.std.specs.Prelude.{Some, ◌≤◌};
    ghost use Rattle.link_io.specs.Links.{Gives, GotCause, Takes, SentCause};
    ghost use Rattle.link_io.specs.Held.{Follows};

    ghost answers = { λ l. Some l.given };

    ghost texts = { λ l. Some l.taken };

    ghost failed = { λ _. 0 };

    ghost quieted = { λ l. l.quiets };

    fn receive(&mut self, alloc: Global) -> Got
        ensures answers { Gives (Some self.old.given) (Some self.new.given) result }
        ensures texts { self.new.taken ≡ self.old.taken }
        ensures cause { GotCause 0 0 self.old.quiets self.new.quiets result }
        ensures script { Follows self.old.script.items self.new.script.items result }
        ensures rest { self.new ≡ record self.old { script = self.new.script; given = self.new.given; quiets = self.new.quiets } }
    {
        let Ok(got) = self.listed(alloc) else {
            return Got::OutOfMemory;
        };
        let _ = self.script.pop_front();
        if matches!(got, Got::Quiet) {
            self.quiets = self.quiets.saturating_add(1);
        }
        got
    }

    fn send(&mut self, alloc: Global, text: &[u8]) -> Sent
        ensures texts { Takes (Some self.old.taken) (Some self.new.taken) text.now result }
        ensures answers { self.new.given ≡ self.old.given }
        ensures cause { SentCause 0 0 result }
        ensures quiets { self.old.quiets ≤ self.new.quiets }
        ensures rest { self.new ≡ record self.old { taken = self.new.taken } }
    {
        let Ok(text) = Bytes::copy_of(alloc, text) else {
            return Sent::OutOfMemory;
        };
        match self.taken.push(text) {
            Ok(()) => Sent::Whole,
            Err(_) => Sent::OutOfMemory,
        }
    }

    fn close(&mut self)
        ensures answers { self.new.given ≡ self.old.given }
        ensures texts { self.new.taken ≡ self.old.taken }
        ensures quiets { self.old.quiets ≤ self.new.quiets }
        ensures closed { self.new ≡ record self.old { is_closed = true } }
    {
        self.is_closed = true;
    }

    fn quiets(&self) -> u64 {
        self.quiets
    }

    fn faults(&self) -> u64 {
        0
    }
}

/// A listener in memory: it gives its links in order, and then Stop.
#[derive(Drop)]
pub struct HeldListener<K: Drop> {
    links: VecDeque<K>,
    given: Seq<Answer>,
}

impl<K: Drop> HeldListener<K> {
    pub fn new(alloc: Global) -> HeldListener<K>
        ensures links { result.links.items ≡ [] }
        ensures given { result.given ≡ [] }
    {
        HeldListener {
            links: VecDeque::new(alloc),
            given: Seq::new(alloc),
        }
    }

    /// Puts a link behind the others.
    pub fn push(&mut self, link: K) -> Result<(), OutOfMemory>
        ensures ok { OnOk result (self.new.links.items ≡ self.old.links.items ++ link ∷ []) }
        ensures err { OnErr result (self.new.links.items ≡ self.old.links.items) }
        ensures given { self.new.given ≡ self.old.given }
    {
        self.links.push_back(link)?;
        Ok(())
    }

    /// The answers of `accept` so far.
    pub fn given(&self) -> &[Answer]
        ensures { result.now ≡ self.now.given }
    {
        self.given.as_slice()
    }

    // Lists an answer.
    pub(crate) fn note(&mut self, answer: Answer) -> Result<(), OutOfMemory>
        ensures ok { OnOk result (self.new ≡ record self.old { given = self.old.given ++ answer ∷ [] }) }
        ensures err { OnErr result (self.new ≡ self.old) }
    {
        self.given.push(answer)?;
        Ok(())
    }
}

/// It never fails.
impl<K: Link> Listener for HeldListener<K> {
    ghost use Rattle.std.specs.Prelude.{Some};
    ghost use Rattle.link_io.specs.Links.{Accepts, AcceptedCause};
    ghost use Rattle.link_io.specs.Held.{Hands};

    type L = K;

    ghost answers = { λ l. Some l.given };

    ghost failed = { λ _. 0 };

    fn accept(&mut self, _alloc: Global) -> Accepted<K>
        ensures answers { Accepts (Some self.old.given) (Some self.new.given) result }
        ensures cause { AcceptedCause 0 0 result }
        ensures links { Hands self.old.links.items self.new.links.items result }
    {
        let answer = if self.links.is_empty() {
            Answer::Stop
        } else {
            Answer::Link
        };
        if self.note(answer).is_err() {
            return Accepted::OutOfMemory;
        }
        match self.links.pop_front() {
            Some(link) => Accepted::Link(link),
            None => Accepted::Stop,
        }
    }

    fn faults(&self) -> u64 {
        0
    }
}
