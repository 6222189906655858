//! White space alone.
ghost use Rattle.std.specs.Prelude.{◌≡◌};
ghost use Rattle.heex_reader.specs.Grammar.{is_blank};

use crate::white::is_white;

fn all_white(bytes: &[u8]) -> bool
    ensures { result ≡ is_blank bytes.now }
{
    bytes.iter().all(|byte| is_white(*byte))
}

/// Whether a text is white space alone.
pub(crate) fn is_blank(text: &str) -> bool
    ensures { result ≡ is_blank text.now }
{
    all_white(text.as_bytes())
}
