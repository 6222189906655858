//! The script, read from a source.
ghost use Rattle.std.specs.Prelude.{◌≡◌, ◌≤◌, ℕ, Err, IfOk, IfSome};
ghost use Rattle.text_core.specs.Outside.{Rose};
ghost use Rattle.live_cli.specs.Script.{IsEnough, IsScriptOf, IsBadLineOf};

use script_core::{MOST_BYTES, Script, ScriptFault, read_script};
use std::alloc::Global;
use text_core::{Bytes, OutOfMemory, Source, Taken};

/// Why a source gave no script.
#[derive(Clone, Copy, Debug, PartialEq, Eq)]
pub enum SourceFault {
    /// The line of this number, counted from 1, is the first that cannot be read.
    BadLine(u32),
    /// The source failed.
    ReadFault,
    /// Memory was wanting.
    OutOfMemory,
}

impl From<OutOfMemory> for SourceFault {
    ghost use Rattle.live_cli.specs.declared.script.SourceFault.TheVariants as fault;

    ghost from_gives = { λ _ e. e ≡ fault.OutOfMemory };

    fn from(_: OutOfMemory) -> Self {
        SourceFault::OutOfMemory
    }
}

// All that the source has, or so much that it is too long for a script.
fn read_bytes<R: Source>(alloc: Global, source: &mut R) -> Result<Bytes, SourceFault>
    ensures enough { IfOk result (λ bytes. IfSome (R.left source.old) (IsEnough bytes)) }
    ensures cause { result ≡ Err SourceFault.ReadFault → Rose (R.failed source.old) (R.failed source.new) }
    ensures line { (n : ℕ) → result ≡ Err (SourceFault.BadLine n) → ⊥ }
{
    let mut bytes = Bytes::new(alloc);
    let mut chunk = [0u8; 4096];
    while bytes.len() <= MOST_BYTES {
        match source.read(&mut chunk) {
            Taken::Count(n) => bytes.push_slice(&chunk[..n])?,
            Taken::End => return Ok(bytes),
            Taken::Failed => return Err(SourceFault::ReadFault),
        }
    }
    Ok(bytes)
}

/// The script that the source has. A source of more bytes than a script may have is not read to
/// its end, and its line is the one in which the first byte past the limit stands.
pub fn read_source<R: Source>(alloc: Global, source: &mut R) -> Result<Script, SourceFault>
    ensures script { IfOk result (IsScriptOf (R.left source.old)) }
    ensures bad_line { (n : ℕ) → result ≡ Err (SourceFault.BadLine n) → IsBadLineOf (R.left source.old) n }
    ensures cause { result ≡ Err SourceFault.ReadFault → Rose (R.failed source.old) (R.failed source.new) }
{
    let bytes = read_bytes(alloc, source)?;
    match read_script(alloc, bytes.as_slice()) {
        Ok(script) => Ok(script),
        Err(ScriptFault::BadLine(n)) => Err(SourceFault::BadLine(n)),
        Err(ScriptFault::OutOfMemory) => Err(SourceFault::OutOfMemory),
    }
}
