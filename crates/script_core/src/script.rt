//! A replay script as its lines.
ghost use Rattle.std.specs.Prelude.{◌≡◌};

use text_core::{OutOfMemory, Seq, Text};

/// A line of a script that does something.
///
/// A name is one to eight ASCII letters or digits. Its words stand with one space between them;
/// a word is one or more bytes that are no space.
#[derive(Debug, Drop)]
pub enum Line {
    /// `browser B`: declares a browser.
    Browser {
        name: Text,
    },
    /// `join B /`: the browser joins the page at a URL, which is `/`. It may join again.
    Join {
        name: Text,
        url: Text,
    },
    /// `event B TYPE NAME JSON`: the browser sends an event of a type, a word other than `form`,
    /// and a name, a word. `value` is the rest of the line as it stands there: a JSON text
    /// (RFC 8259) in which each number is a whole number of 64 bits signed, and arrays and objects
    /// nest at most 100 deep.
    Event {
        name: Text,
        kind: Text,
        event: Text,
        value: Text,
    },
    /// `step B`: the browser's process takes one message.
    Step {
        name: Text,
    },
    /// `run B`: what waits for the browser's process is done.
    Run {
        name: Text,
    },
    /// `html B`: shows the page as the browser has it.
    Html {
        name: Text,
    },
    /// `frames B`: shows the frames that came for the browser.
    Frames {
        name: Text,
    },
}

/// A script's lines in order, without those that do nothing.
pub type Script = Seq<Line>;

/// Why bytes are no script.
#[derive(Clone, Copy, Debug, PartialEq, Eq)]
pub enum ScriptFault {
    /// The line of this number, counted from 1, is the first that cannot be read.
    BadLine(u32),
    /// Memory was wanting.
    OutOfMemory,
}

impl From<OutOfMemory> for ScriptFault {
    ghost use Rattle.script_core.specs.declared.script.ScriptFault.TheVariants as fault;

    ghost from_gives = { λ _ e. e ≡ fault.OutOfMemory };

    fn from(_: OutOfMemory) -> Self {
        ScriptFault::OutOfMemory
    }
}
