//! The listener over a TCP listener. It tells nothing of its answers.
ghost use Rattle.std.specs.Prelude.{◌≡◌, is_some, false, None, Option};

use crate::link::{Accepted, Listener};
use crate::web::{WebLink, Welcome, greet};
use std::alloc::Global;
use std::io;
use std::io::ErrorKind;
use std::net::{Net, TcpListener, TcpStream};
use std::time::Clock;

/// Accepts clients at an address, up to a number of links.
#[derive(Drop)]
pub struct WebListener<R> {
    rt: R,
    // None where the address was refused.
    listener: Option<TcpListener>,
    // How many links are still accepted; none for no limit.
    links: Option<u64>,
    faults: u64,
}

impl<R: Net<Listener = TcpListener, Stream = TcpStream> + Clock + Clone + Drop> WebListener<R> {
    ghost use Rattle.link_io.specs.declared.web.Welcome.TheVariants as welcome;

    /// Binds an address, as `127.0.0.1:4000`. Where that is refused, each `accept` fails.
    pub fn bind(rt: R, address: &str, links: Option<u64>) -> WebListener<R>
        ensures { result.links ≡ links }
    {
        let listener = TcpListener::bind(&rt, address).ok();
        WebListener {
            rt,
            listener,
            links,
            faults: 0,
        }
    }

    /// The port that is bound; none where the address was refused.
    pub fn port(&self) -> Option<u16>
        ensures { is_some self.now.listener ≡ false → result ≡ None }
    {
        let listener = self.listener.as_ref()?;
        let address = listener.local_addr().ok()?;
        Some(address.port())
    }

    // The next client, and what became of it.
    fn next_client(&self, alloc: Global) -> Welcome<R>
        ensures { is_some self.now.listener ≡ false → result ≡ welcome.Failed }
    {
        let Some(listener) = &self.listener else {
            return Welcome::Failed;
        };
        match listener.accept() {
            Ok((stream, _)) => match self.rt.clone() {
                Ok(clock) => greet(alloc, clock, stream),
                Err(_) => Welcome::OutOfMemory,
            },
            Err(error) => judge(&error),
        }
    }

    // The next client that is not dropped.
    fn next_link(&self, alloc: Global) -> Welcome<R>
        ensures { is_some self.now.listener ≡ false → result ≡ welcome.Failed }
    {
        for _ in 0..u64::MAX {
            match self.next_client(alloc) {
                Welcome::Dropped => {}
                other => return other,
            }
        }
        Welcome::Failed
    }
}

// A client that is gone before it was accepted is dropped.
fn judge<R>(error: &io::Error) -> Welcome<R> {
    match error.kind() {
        ErrorKind::ConnectionAborted | ErrorKind::Interrupted => Welcome::Dropped,
        ErrorKind::OutOfMemory => Welcome::OutOfMemory,
        _ => Welcome::Failed,
    }
}

impl<R: Net<Listener = TcpListener, Stream = TcpStream> + Clock + Clone + Send + Drop> Listener
    for WebListener<R> {
    ghost use Rattle.std.specs.Prelude.{None};
    ghost use Rattle.link_io.specs.Links.{Accepts, AcceptedCause};
    ghost use Rattle.link_io.specs.Real.{Counts, IsRefused};

    type L = WebLink<R>;

    ghost answers = { λ _. None };

    ghost failed = { λ l. l.faults };

    fn accept(&mut self, alloc: Global) -> Accepted<WebLink<R>>
        ensures answers { Accepts None None result }
        ensures cause { AcceptedCause self.old.faults self.new.faults result }
        ensures links { Counts self.old.links self.new.links result }
        ensures refused { IsRefused (is_some self.old.listener) self.old.links result }
    {
        if self.links == Some(0) {
            return Accepted::Stop;
        }
        match self.next_link(alloc) {
            Welcome::Link(link) => {
                self.links = self.links.map(|left| left.saturating_sub(1));
                Accepted::Link(link)
            }
            Welcome::OutOfMemory => Accepted::OutOfMemory,
            Welcome::Failed | Welcome::Dropped => {
                self.faults = self.faults.saturating_add(1);
                Accepted::Failed
            }
        }
    }

    fn faults(&self) -> u64 {
        self.faults
    }
}
