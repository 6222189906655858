//! Why a client took no frame.
use std::alloc::{AllocError, AllocFailed};
use text_core::OutOfMemory;

/// Why a client did not take what was sent.
#[derive(Clone, Copy, Debug, PartialEq, Eq)]
pub enum MergeFault {
    /// It is no tree, or it does not fit the tree that is held.
    BadFrame,
    /// Memory was wanting.
    OutOfMemory,
}

impl From<OutOfMemory> for MergeFault {
    ghost use Rattle.std.specs.Prelude.{◌≡◌};
    ghost use Rattle.client_merge.specs.declared.fault.MergeFault.TheVariants as fault;

    ghost from_gives = { λ _ e. e ≡ fault.OutOfMemory };

    fn from(_: OutOfMemory) -> MergeFault {
        MergeFault::OutOfMemory
    }
}

impl From<AllocError> for MergeFault {
    ghost use Rattle.std.specs.Prelude.{◌≡◌};
    ghost use Rattle.client_merge.specs.declared.fault.MergeFault.TheVariants as fault;

    ghost from_gives = { λ _ e. e ≡ fault.OutOfMemory };

    fn from(_: AllocError) -> MergeFault {
        MergeFault::OutOfMemory
    }
}
