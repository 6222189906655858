//! How the program ends.
ghost use Rattle.std.specs.Prelude.{◌≡◌};
ghost use Rattle.live_cli.specs.Exit.{exit_code};

/// How a call ended.
#[derive(Clone, Copy, Debug, PartialEq, Eq)]
pub enum Status {
    /// The command was done to its end.
    Done,
    /// The words are none of the program's.
    Usage,
    /// The folder is no bundle.
    Refused,
    /// The script has a line that cannot be read, or is too long.
    BadScript,
    /// The folder or the source failed.
    ReadFault,
    /// The sink failed.
    WriteFault,
    /// Memory was wanting.
    OutOfMemory,
}

impl Status {
    /// The number with which the program ends.
    pub fn code(self) -> u8
        ensures { result ≡ exit_code self }
    {
        match self {
            Status::Done => 0,
            Status::Usage => 1,
            Status::Refused => 2,
            Status::BadScript => 3,
            Status::ReadFault => 4,
            Status::WriteFault => 5,
            Status::OutOfMemory => 6,
        }
    }
}
