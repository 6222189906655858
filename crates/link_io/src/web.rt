//! The link over a WebSocket on a TCP stream. It tells nothing of its answers and texts.
ghost use Rattle.std.specs.Prelude.{◌≡◌, ◌≤◌};

use crate::link::{Got, Link, Sent};
use crate::wire::Wire;
use std::alloc::Global;
use std::io::ErrorKind;
use std::net::TcpStream;
use std::time::Clock;
use std::{io, str};
use text_core::Bytes;
use tungstenite::handshake::server::start;
use tungstenite::{
    CloseCode, CloseFrame, Error, HandshakeError, Message, NoCallback, NoMask, Utf8Bytes,
    WebSocket, WebSocketConfig,
};
use websocket::error::ProtocolError;

/// How many looks a handshake may take.
const HANDSHAKE_LOOKS: u32 = 40;

/// How many messages and looks the end of a link may take.
const CLOSE_LOOKS: u32 = 20;

/// How many bytes one read asks for.
const READ: usize = 1 << 14;

/// The longest message that is taken off the wire, far above the longest text that a page takes.
const LONGEST: usize = 1 << 24;

type Socket<R> = WebSocket<Wire<R>, NoMask>;

/// The link of one client.
#[derive(Drop)]
pub struct WebLink<R> {
    socket: Socket<R>,
    faults: u64,
    quiets: u64,
    // The link gave its last answer but Closed.
    is_over: bool,
}

/// What became of a client.
#[derive(Drop)]
pub(crate) enum Welcome<R> {
    Link(WebLink<R>),
    Dropped,
    Failed,
    OutOfMemory,
}

fn config() -> WebSocketConfig {
    WebSocketConfig::default()
        .read_buffer_size(READ)
        .max_message_size(Some(LONGEST))
        .max_frame_size(Some(LONGEST))
}

/// The link of a client whose handshake succeeds within its looks.
pub(crate) fn greet<R: Clock + Drop>(alloc: Global, clock: R, stream: TcpStream) -> Welcome<R> {
    let Ok(wire) = Wire::new(clock, stream) else {
        return Welcome::Dropped;
    };
    let mut waiting = start(alloc, wire, NoCallback, Some(config()));
    for _ in 0..HANDSHAKE_LOOKS {
        waiting.get_mut().begin_look();
        match waiting.handshake() {
            Ok(socket) => return Welcome::Link(WebLink::new(socket)),
            Err(HandshakeError::Interrupted(again)) => waiting = again,
            Err(HandshakeError::Failure(Error::OutOfMemory)) => return Welcome::OutOfMemory,
            Err(HandshakeError::Failure(_)) => return Welcome::Dropped,
        }
    }
    Welcome::Dropped
}

// The next message that is no ping and no pong, within one look.
fn next_message<R: Clock + Drop>(socket: &mut Socket<R>) -> Result<Message, Error> {
    socket.get_mut().begin_look();
    for _ in 0..u32::MAX {
        match socket.read()? {
            Message::Ping(_) | Message::Pong(_) => {}
            message => return Ok(message),
        }
    }
    Err(Error::Io(io::Error::from(ErrorKind::WouldBlock)))
}

// Begins the end of a link with a code that says why.
fn refuse<R: Clock + Drop>(socket: &mut Socket<R>, code: CloseCode) {
    let _ = socket.close(Some(CloseFrame {
        code,
        reason: Utf8Bytes::from_static(""),
    }));
}

// Reads until the other end has closed too, or gives up.
fn finish<R: Clock + Drop>(socket: &mut Socket<R>) {
    for _ in 0..CLOSE_LOOKS {
        if let Err(error) = next_message(socket) {
            if !is_quiet(&error) {
                return;
            }
        }
    }
}

fn is_quiet(error: &Error) -> bool {
    match error {
        Error::Io(error) => error.kind() == ErrorKind::WouldBlock,
        _ => false,
    }
}

impl<R: Clock + Drop> WebLink<R> {
    ghost use Rattle.link_io.specs.Links.{GotCause, SentCause};

    fn new(socket: Socket<R>) -> WebLink<R> {
        WebLink {
            socket,
            faults: 0,
            quiets: 0,
            is_over: false,
        }
    }

    fn fail(&mut self) -> Got
        ensures { GotCause self.old.faults self.new.faults self.old.quiets self.new.quiets result }
    {
        self.faults = self.faults.saturating_add(1);
        Got::Failed
    }

    fn wait(&mut self) -> Got
        ensures { GotCause self.old.faults self.new.faults self.old.quiets self.new.quiets result }
    {
        self.quiets = self.quiets.saturating_add(1);
        Got::Quiet
    }

    fn end(&mut self) -> Got
        ensures { GotCause self.old.faults self.new.faults self.old.quiets self.new.quiets result }
    {
        self.is_over = true;
        Got::Closed
    }

    // A text that finds no memory is lost, so nothing may follow it.
    fn lose(&mut self) -> Got
        ensures { GotCause self.old.faults self.new.faults self.old.quiets self.new.quiets result }
    {
        self.is_over = true;
        Got::OutOfMemory
    }

    fn take(&mut self, alloc: Global, message: Message) -> Got
        ensures { GotCause self.old.faults self.new.faults self.old.quiets self.new.quiets result }
    {
        match message {
            Message::Text(text) => match Bytes::copy_of(alloc, text.as_bytes()) {
                Ok(bytes) => Got::Text(bytes),
                Err(_) => self.lose(),
            },
            Message::Close(_) => self.end(),
            _ => {
                refuse(&mut self.socket, CloseCode::Unsupported);
                self.end()
            }
        }
    }

    // What an error says of the link. A stream that ends without a close frame is closed too.
    fn judge(&mut self, error: Error) -> Got
        ensures { GotCause self.old.faults self.new.faults self.old.quiets self.new.quiets result }
    {
        if is_quiet(&error) {
            return self.wait();
        }
        match error {
            Error::ConnectionClosed
            | Error::AlreadyClosed
            | Error::Protocol(ProtocolError::ResetWithoutClosingHandshake) => self.end(),
            Error::OutOfMemory => self.lose(),
            Error::Utf8 => self.fail_with(CloseCode::Invalid),
            Error::Capacity(_) => self.fail_with(CloseCode::Size),
            Error::Protocol(_) => self.fail_with(CloseCode::Protocol),
            _ => self.fail(),
        }
    }

    fn fail_with(&mut self, code: CloseCode) -> Got
        ensures { GotCause self.old.faults self.new.faults self.old.quiets self.new.quiets result }
    {
        refuse(&mut self.socket, code);
        self.fail()
    }

    fn fail_to_send(&mut self) -> Sent
        ensures cause { SentCause self.old.faults self.new.faults result }
        ensures quiets { self.new.quiets ≡ self.old.quiets }
    {
        self.faults = self.faults.saturating_add(1);
        Sent::Failed
    }
}

impl<R: Clock + Send + Drop> Link for WebLink<R> {
    ghost use Rattle.std.specs.Prelude.{None};

    ghost answers = { λ _. None };

    ghost texts = { λ _. None };

    ghost failed = { λ l. l.faults };

    ghost quieted = { λ l. l.quiets };

    fn receive(&mut self, alloc: Global) -> Got {
        if self.is_over {
            return Got::Closed;
        }
        match next_message(&mut self.socket) {
            Ok(message) => self.take(alloc, message),
            Err(error) => self.judge(error),
        }
    }

    fn send(&mut self, alloc: Global, text: &[u8]) -> Sent {
        let Ok(words) = str::from_utf8(text) else {
            return self.fail_to_send();
        };
        let Ok(message) = Message::text(alloc, words) else {
            return Sent::OutOfMemory;
        };
        match self.socket.send(message) {
            Ok(()) => Sent::Whole,
            Err(Error::OutOfMemory) => Sent::OutOfMemory,
            Err(_) => self.fail_to_send(),
        }
    }

    fn close(&mut self) {
        let _ = self.socket.close(None);
        finish(&mut self.socket);
    }

    fn quiets(&self) -> u64 {
        self.quiets
    }

    fn faults(&self) -> u64 {
        self.faults
    }
}
