//! Arrays of static values that are checked, each once.

ghost use Rattle.std.specs.Prelude.{ℕ, List, IfOk, IfErr, OnOk};
ghost use Rattle.dexspec.specs.Mentions.{Mentions};
ghost use Rattle.dexpool.specs.Pools.{ArePools};
ghost use Rattle.dexval.specs.CheckedStatics.{AreCheckedStatics};
ghost use Rattle.dexval.specs.Reading.{IsStaticsFault};
ghost use Rattle.dexval.specs.Results.{HasStaticsShape};

use crate::value_checking::{StaticsShape, check_statics};
use dexhead::Frame;
use dexpool::{ItemFault, Pools};
use std::alloc::Global;
use std::collections::HashMap;

/// The arrays of static values of a file that were checked: the shape of each, by its offset. Each is checked once, even
/// if several classes name it.
#[derive(Drop)]
pub struct CheckedStatics {
    pub(crate) shapes: HashMap<u32, StaticsShape>,
}

impl CheckedStatics {
    /// An empty record: no array is checked yet.
    pub fn none(alloc: Global) -> CheckedStatics
        ensures { (b : List ℕ) (m : Mentions) → AreCheckedStatics b m result }
    {
        CheckedStatics {
            shapes: HashMap::new(alloc),
        }
    }
}

/// The shape of the encoded_array_item at an offset, which is checked, as [`check_statics`] does, if it was not before.
///
/// Condition: the arrays in `checked` are of this file.
///
/// Errors: `Refused(21)` exactly if [`read_statics`](crate::read_statics) refuses the values; `Memory` if an allocation
/// failed.
///
/// Source: "encoded_array_item".
pub fn checked_statics_at(
    frame: &Frame<'_>,
    pools: &Pools<'_>,
    off: u32,
    checked: &mut CheckedStatics,
) -> Result<StaticsShape, ItemFault>
    requires { ArePools frame.now pools.now → AreCheckedStatics frame.now pools.now checked.old }
    ensures checked { ArePools frame.now pools.now
        → OnOk result (AreCheckedStatics frame.now pools.now checked.new) }
    ensures values { ArePools frame.now pools.now
        → IfOk result (HasStaticsShape frame.now off pools.now) }
    ensures refused { ArePools frame.now pools.now → IfErr result (IsStaticsFault frame.now off) }
{
    if let Some(shape) = checked.shapes.get(&off) {
        return Ok(*shape);
    }
    let shape = check_statics(frame, pools, off)?;
    checked.shapes.insert(off, shape)?;
    Ok(shape)
}
