//! Why programs were not merged.

ghost use Rattle.dexmerge.specs.declared.faults.MergeFault.TheVariants as merge_fault;
ghost use Rattle.dexmerge.specs.declared.faults.PlanFault.TheVariants as plan_fault;
ghost use Rattle.std.specs.Prelude.{◌≡◌};

use dexstr::Name;
use std::alloc::{AllocError, AllocFailed};

/// Why there is no merged program.
#[derive(Drop)]
pub enum MergeFault {
    /// Two different classes have this name.
    Conflict(Name),
    /// The class of this name is above itself, or below such a class.
    Cycle(Name),
    /// The classes exceed a cap: the number of its kind, [`CapKind::number`](crate::CapKind::number).
    Cap(u8),
    /// An allocation failed.
    Memory,
}

/// Why a plan was not carried out.
#[derive(Drop)]
pub enum PlanFault {
    /// The plan names a file that there is not, or does not name one that there is, or is deeper than 64.
    BadPlan,
    /// The files cannot be merged, or an allocation failed.
    Merge(MergeFault),
}

impl From<AllocError> for MergeFault {
    ghost from_gives = { λ _ e. e ≡ merge_fault.Memory };

    fn from(_e: AllocError) -> MergeFault {
        MergeFault::Memory
    }
}

impl<T: Drop> From<AllocFailed<T>> for MergeFault {
    ghost from_gives = { λ _ e. e ≡ merge_fault.Memory };

    fn from(_e: AllocFailed<T>) -> MergeFault {
        MergeFault::Memory
    }
}

impl From<AllocError> for PlanFault {
    ghost from_gives = { λ _ e. e ≡ plan_fault.Merge merge_fault.Memory };

    fn from(_e: AllocError) -> PlanFault {
        PlanFault::Merge(MergeFault::Memory)
    }
}

impl From<MergeFault> for PlanFault {
    ghost from_gives = { λ f e. e ≡ plan_fault.Merge f };

    fn from(fault: MergeFault) -> PlanFault {
        PlanFault::Merge(fault)
    }
}
