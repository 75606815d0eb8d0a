//! Why an item was not read.

ghost use Rattle.std.specs.Prelude.{◌≡◌};
ghost use Rattle.dexpool.specs.declared.faults.ItemFault.TheVariants as items;

use std::alloc::{AllocError, AllocFailed};

/// Why an item of a file was not read.
#[derive(Clone, Copy, Debug, PartialEq, Eq)]
pub enum ItemFault {
    /// The number of a condition that the item does not meet.
    Refused(u8),
    /// An allocation failed.
    Memory,
}

impl From<AllocError> for ItemFault {
    ghost from_gives = { λ _ e. e ≡ items.Memory };

    fn from(_e: AllocError) -> ItemFault {
        ItemFault::Memory
    }
}

impl<T: Drop> From<AllocFailed<T>> for ItemFault {
    ghost from_gives = { λ _ e. e ≡ items.Memory };

    fn from(_e: AllocFailed<T>) -> ItemFault {
        ItemFault::Memory
    }
}
