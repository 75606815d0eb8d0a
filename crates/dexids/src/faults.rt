//! Why pools were not read.

ghost use Rattle.std.specs.Prelude.{◌≡◌};
ghost use Rattle.dexspec.specs.Accepted.{number};
ghost use Rattle.dexhead.specs.Conditions.{condition_meant};
ghost use Rattle.dexids.specs.declared.faults.ReadFault.TheVariants.{Refused, Memory};

use dexhead::{Condition, Refusal};
use std::alloc::{AllocError, AllocFailed};

/// Why the pools of a file were not read.
#[derive(Clone, Copy, Debug, PartialEq, Eq)]
pub enum ReadFault {
    /// A condition that the file does not meet, and where it fails. Of the conditions 1 to 16 it is the first that
    /// fails, at its least row; of 17 to 23 it is one that fails, with the row of the class at which it does.
    Refused(Refusal),
    /// An allocation failed.
    Memory,
}

// The refusal of a row by a condition.
pub(crate) fn refused(condition: Condition, row: u32) -> ReadFault
    ensures { result
        ≡ Refused (record { number = number (condition_meant condition); place = row }) }
{
    ReadFault::Refused(Refusal {
        number: condition.number(),
        place: row,
    })
}

impl From<AllocError> for ReadFault {
    ghost from_gives = { λ _ e. e ≡ Memory };

    fn from(_e: AllocError) -> ReadFault {
        ReadFault::Memory
    }
}

impl<T: Drop> From<AllocFailed<T>> for ReadFault {
    ghost from_gives = { λ _ e. e ≡ Memory };

    fn from(_e: AllocFailed<T>) -> ReadFault {
        ReadFault::Memory
    }
}

impl From<Refusal> for ReadFault {
    ghost from_gives = { λ r e. e ≡ Refused r };

    fn from(refusal: Refusal) -> ReadFault {
        ReadFault::Refused(refusal)
    }
}
