//! Why bytes were not written.

ghost use Rattle.std.specs.Prelude.{◌≡◌};
ghost use Rattle.dexout.specs.declared.faults.StoreFault.TheVariants.{Memory, Io};

use dexio::DeviceFault;
use std::alloc::{AllocError, AllocFailed};

/// Why a file or a listing was not written.
#[derive(Clone, Copy, Debug, PartialEq, Eq)]
pub enum StoreFault {
    /// An allocation failed. Nothing was written.
    Memory,
    /// The writer failed. A prefix of the bytes was written.
    Io,
}

impl From<AllocError> for StoreFault {
    ghost from_gives = { λ _ e. e ≡ Memory };

    fn from(_e: AllocError) -> StoreFault {
        StoreFault::Memory
    }
}

impl<T: Drop> From<AllocFailed<T>> for StoreFault {
    ghost from_gives = { λ _ e. e ≡ Memory };

    fn from(_e: AllocFailed<T>) -> StoreFault {
        StoreFault::Memory
    }
}

impl From<DeviceFault> for StoreFault {
    ghost from_gives = { λ _ e. e ≡ Io };

    fn from(_e: DeviceFault) -> StoreFault {
        StoreFault::Io
    }
}
