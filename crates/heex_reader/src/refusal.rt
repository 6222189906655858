//! Why signs are not read.

use crate::TemplateKind;
use text_core::OutOfMemory;

/// Why signs are not read.
#[derive(Debug, Drop)]
pub(crate) enum ReadFault {
    /// This is wrong at this byte.
    Faulty { at: usize, kind: TemplateKind },
    /// There was not memory enough.
    OutOfMemory,
}

impl From<OutOfMemory> for ReadFault {
    ghost use Rattle.std.specs.Prelude.{◌≡◌};
    ghost use Rattle.heex_reader.specs.declared.refusal.ReadFault.TheVariants.{OutOfMemory};

    ghost from_gives = { λ _ e. e ≡ OutOfMemory };

    fn from(_e: OutOfMemory) -> ReadFault {
        ReadFault::OutOfMemory
    }
}
