//! Why a folder gives no bundle.
ghost use Rattle.std.specs.Prelude.{◌≡◌};

use text_core::{FolderFault, OutOfMemory};

/// Why a folder gave no bundle.
#[derive(Clone, Copy, Debug, PartialEq, Eq)]
pub enum LoadFault {
    /// The folder or one of its files could not be read.
    ReadFault,
    /// The folder is no bundle.
    Refused,
    /// Memory was wanting.
    OutOfMemory,
}

impl From<OutOfMemory> for LoadFault {
    ghost use Rattle.bundle_files.specs.declared.fault.LoadFault.TheVariants as fault;

    ghost from_gives = { λ _ e. e ≡ fault.OutOfMemory };

    fn from(_: OutOfMemory) -> Self {
        LoadFault::OutOfMemory
    }
}

impl From<FolderFault> for LoadFault {
    ghost use Rattle.bundle_files.specs.Fault.{fault_of};

    ghost from_gives = { λ f e. e ≡ fault_of f };

    fn from(fault: FolderFault) -> Self {
        match fault {
            FolderFault::Failed => LoadFault::ReadFault,
            FolderFault::OutOfMemory => LoadFault::OutOfMemory,
        }
    }
}
