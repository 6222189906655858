//! What a text that is read may lack.
use std::alloc::{AllocError, AllocFailed};
use text_core::OutOfMemory;

/// Why no diff was read.
#[derive(Clone, Copy, Debug, PartialEq, Eq)]
pub enum DiffFault {
    /// It is not spelled as a diff is.
    BadDiff,
    /// Memory was wanting.
    OutOfMemory,
}

impl From<OutOfMemory> for DiffFault {
    ghost use Rattle.std.specs.Prelude.{◌≡◌};
    ghost use Rattle.diff_tree.specs.declared.fault.DiffFault.TheVariants as fault;

    ghost from_gives = { λ _ e. e ≡ fault.OutOfMemory };

    fn from(_: OutOfMemory) -> DiffFault {
        DiffFault::OutOfMemory
    }
}

impl From<AllocError> for DiffFault {
    ghost use Rattle.std.specs.Prelude.{◌≡◌};
    ghost use Rattle.diff_tree.specs.declared.fault.DiffFault.TheVariants as fault;

    ghost from_gives = { λ _ e. e ≡ fault.OutOfMemory };

    fn from(_: AllocError) -> DiffFault {
        DiffFault::OutOfMemory
    }
}
