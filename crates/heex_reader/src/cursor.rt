//! Where bytes stand in their file.
ghost use Rattle.std.specs.Prelude.{◌≡◌, ◌≤◌, ◌<◌, ◌+◌, ℕ, List, [], ◌∷◌, length, min};
ghost use Rattle.ast_core.specs.NodeView.{location_of};
ghost use Rattle.heex_reader.specs.Located.{goes_on, location_at, location_from};
ghost use Rattle.heex_reader.specs.Fits.{Follows};

use ast_core::Location;

/// A byte of a file, and its line and column.
#[derive(Clone, Copy)]
pub(crate) struct Cursor {
    pub byte: usize,
    pub location: Location,
}

// Whether a byte is not the first one of its character.
fn goes_on(byte: u8) -> bool
    ensures { result ≡ goes_on byte }
{
    byte >= 128 && byte < 192
}

// Where the byte behind this one stands.
fn behind(location: Location, byte: u8) -> Location
    requires line { location.line < 4294967295 }
    requires column { location.column < 4294967295 }
    ensures { location_of result ≡ location_from (location_of location) (byte ∷ []) }
{
    if byte == b'\n' {
        return Location {
            line: location.line + 1,
            column: 1,
        };
    }
    if goes_on(byte) {
        return location;
    }
    Location {
        line: location.line,
        column: location.column + 1,
    }
}

// A cursor before this byte: the given one, unless it stands behind it.
fn before(text: &str, cursor: Cursor, at: usize) -> Cursor
    requires { Follows text.now cursor }
    ensures follows { Follows text.now result }
    ensures before { result.byte ≤ at }
{
    if at < cursor.byte {
        Cursor::new()
    } else {
        cursor
    }
}

// A cursor that goes on up to this byte, or the end of the file.
fn advanced(text: &str, cursor: Cursor, at: usize) -> Cursor
    requires small { length text.now < 4294967295 }
    requires follows { Follows text.now cursor }
    requires before { cursor.byte ≤ at }
    ensures follows { Follows text.now result }
    ensures at { result.byte ≡ min at (length text.now) }
{
    let bytes = text.as_bytes();
    let mut byte = cursor.byte;
    let mut location = cursor.location;
    'more: while byte < at && byte < bytes.len() {
        location = behind(location, bytes[byte]);
        byte += 1;
    }
    Cursor { byte, location }
}

impl Cursor {
    /// At the beginning of any file.
    pub(crate) fn new() -> Cursor
        ensures start { result.byte ≡ 0 }
        ensures follows { (text : List ℕ) → Follows text result }
    {
        Cursor {
            byte: 0,
            location: Location { line: 1, column: 1 },
        }
    }

    /// Where a byte stands. The time for bytes in order is that of one pass over the file.
    pub(crate) fn location(&mut self, text: &str, at: usize) -> Location
        requires small { length text.now < 4294967295 }
        requires follows { Follows text.now self.old }
        ensures location { location_of result ≡ location_at text.now at }
        ensures follows { Follows text.now self.new }
    {
        let from = before(text, *self, at);
        let there = advanced(text, from, at);
        *self = there;
        there.location
    }
}
