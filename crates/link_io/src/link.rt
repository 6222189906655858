//! A link that carries texts, and a listener that accepts links.
ghost use Rattle.std.specs.Prelude.{◌≡◌, ◌≤◌, List, ℕ, Option};

use std::alloc::Global;
use text_core::Bytes;

/// What a look at a link gave.
#[derive(Debug, Drop)]
pub enum Got {
    /// A text of the other end, whole.
    Text(Bytes),
    /// No text came in time.
    Quiet,
    /// The other end closed the link, ended the stream, or sent what is no text.
    Closed,
    Failed,
    OutOfMemory,
}

/// How the sending of a text ended.
#[derive(Clone, Copy, Debug, PartialEq, Eq)]
pub enum Sent {
    Whole,
    Failed,
    OutOfMemory,
}

/// A link to one client.
pub trait Link: Send + Drop {
    ghost use Rattle.link_io.specs.declared.link.Got.{Got};
    ghost use Rattle.link_io.specs.Links.{Gives, GotCause, Takes, SentCause};

    /// The answers of `receive` so far, where it tells them. Want of memory is none of them.
    ghost answers: { Self → Option (List Got) };

    /// The texts sent whole, where it tells them.
    ghost texts: { Self → Option (List (List ℕ)) };

    /// How often it has failed.
    ghost failed: { Self → ℕ };

    /// How many looks were quiet.
    ghost quieted: { Self → ℕ };

    /// The next text of the other end. Want of memory gives nothing.
    fn receive(&mut self, alloc: Global) -> Got
        ensures answers { Gives (answers self.old) (answers self.new) result }
        ensures texts { texts self.new ≡ texts self.old }
        ensures cause { GotCause (failed self.old) (failed self.new) (quieted self.old) (quieted self.new) result };

    /// Sends a text whole. A text that is not UTF-8 may fail.
    fn send(&mut self, alloc: Global, text: &[u8]) -> Sent
        ensures texts { Takes (texts self.old) (texts self.new) text.now result }
        ensures answers { answers self.new ≡ answers self.old }
        ensures cause { SentCause (failed self.old) (failed self.new) result }
        ensures quiets { quieted self.old ≤ quieted self.new };

    /// Ends the link.
    fn close(&mut self)
        ensures answers { answers self.new ≡ answers self.old }
        ensures texts { texts self.new ≡ texts self.old }
        ensures faults { failed self.old ≤ failed self.new }
        ensures quiets { quieted self.old ≤ quieted self.new };

    /// The count of quiet looks, which never falls.
    fn quiets(&self) -> u64
        ensures { result ≡ quieted self.now };

    /// The count of failures, which never falls.
    fn faults(&self) -> u64
        ensures { result ≡ failed self.now };
}

/// What a listener answered.
#[derive(Drop)]
pub enum Accepted<L> {
    Link(L),
    /// No more links are accepted.
    Stop,
    Failed,
    OutOfMemory,
}

/// An answer of a listener that it lists: the link itself and want of memory are left out.
#[derive(Clone, Copy, Debug, PartialEq, Eq)]
pub enum Answer {
    Link,
    Stop,
    Failed,
}

/// Where links come from.
pub trait Listener {
    ghost use Rattle.link_io.specs.declared.link.Answer.{Answer};
    ghost use Rattle.link_io.specs.Links.{Accepts, AcceptedCause};

    type L: Link;

    /// Its answers so far, where it tells them. Want of memory is none of them.
    ghost answers: { Self → Option (List Answer) };

    /// How often it has failed.
    ghost failed: { Self → ℕ };

    /// The next link. Want of memory gives nothing.
    fn accept(&mut self, alloc: Global) -> Accepted<Self::L>
        ensures answers { Accepts (answers self.old) (answers self.new) result }
        ensures cause { AcceptedCause (failed self.old) (failed self.new) result };

    /// The count of failures, which never falls.
    fn faults(&self) -> u64
        ensures { result ≡ failed self.now };
}
