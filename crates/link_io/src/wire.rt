//! A TCP stream whose reads end with the look that they belong to.

use std::io;
use std::io::{ErrorKind, Read, Write};
use std::net::TcpStream;
use std::time::{Clock, Duration, Instant};

/// How long a look lasts, in milliseconds.
const LOOK: u64 = 50;

/// How long a write may wait for the other end, in milliseconds.
const WRITE: u64 = 5000;

/// A stream that would block once a look has lasted.
#[derive(Drop)]
pub(crate) struct Wire<R> {
    stream: TcpStream,
    clock: R,
    // When the look began; it begins with its first read.
    began: Option<Instant>,
}

impl<R: Clock> Wire<R> {
    pub(crate) fn new(clock: R, stream: TcpStream) -> io::Result<Wire<R>>
    where
        R: Drop,
    {
        stream.set_nodelay(true)?;
        stream.set_write_timeout(Some(Duration::from_millis(WRITE)))?;
        Ok(Wire {
            stream,
            clock,
            began: None,
        })
    }

    /// Begins a look.
    pub(crate) fn begin_look(&mut self) {
        self.began = None;
    }

    // How long the next read may wait.
    fn left_of_look(&mut self) -> io::Result<Duration> {
        let now = Instant::now(&self.clock)?;
        let look = Duration::from_millis(LOOK);
        let Some(began) = self.began else {
            self.began = Some(now);
            return Ok(look);
        };
        match look.checked_sub(now.duration_since(began)) {
            Some(left) if left >= Duration::from_millis(1) => Ok(left),
            _ => Err(io::Error::from(ErrorKind::WouldBlock)),
        }
    }
}

/// Whether nothing came in time.
fn is_quiet(error: &io::Error) -> bool {
    matches!(
        error.kind(),
        ErrorKind::WouldBlock | ErrorKind::TimedOut | ErrorKind::Interrupted
    )
}

impl<R: Clock> Read for Wire<R> {
    ghost use Rattle.std.specs.Prelude.{None};

    ghost remaining = { λ _. None };

    fn read(&mut self, into: &mut [u8]) -> io::Result<usize> {
        let left = self.left_of_look()?;
        self.stream.set_read_timeout(Some(left))?;
        match self.stream.read(into) {
            Ok(count) => Ok(count),
            Err(error) => if is_quiet(&error) {
                Err(io::Error::from(ErrorKind::WouldBlock))
            } else {
                Err(error)
            },
        }
    }
}

impl<R: Clock> Write for Wire<R> {
    ghost use Rattle.std.specs.Prelude.{None};

    ghost contents = { λ _. None };

    fn write(&mut self, piece: &[u8]) -> io::Result<usize> {
        self.stream.write(piece)
    }

    fn flush(&mut self) -> io::Result<()> {
        self.stream.flush()
    }
}
