//! Debug programs that were checked, each once.

ghost use Rattle.std.specs.Prelude.{ℕ, List, IfOk, IfErr, OnOk};
ghost use Rattle.dexpool.specs.Pools.{ArePools};
ghost use Rattle.dexdebug.specs.Checking.{AreCheckedDebugs, HasDebugAt};
ghost use Rattle.dexdebug.specs.DebugReading.{IsDebugFault};

use crate::debug_reading::check_debug;
use dexhead::Frame;
use dexpool::{ItemFault, Pools};
use std::alloc::Global;
use std::collections::HashMap;

/// The debug programs of a file that were checked, each by its offset with its weight. Each is checked once, however
/// many code items name it.
#[derive(Drop)]
pub struct CheckedDebugs {
    /// What is checked with it is allocated by this.
    pub alloc: Global,
    // The weight of each.
    pub(crate) weights: HashMap<u32, u64>,
}

impl CheckedDebugs {
    /// Returns an empty cache. What is checked with it is allocated by the same allocator.
    pub fn none(alloc: Global) -> CheckedDebugs
        ensures { (b : List ℕ) → AreCheckedDebugs b result }
    {
        let weights = HashMap::new(alloc);
        CheckedDebugs { alloc, weights }
    }
}

/// Returns the weight of the debug program at an offset. One that was checked before is not checked again.
///
/// Condition: what was checked before is of this file, whose pools these are.
///
/// Error: as of [`check_debug`]. The contents of `checked` are then unspecified.
pub fn checked_debug_at(
    frame: &Frame<'_>,
    pools: &Pools<'_>,
    off: u32,
    checked: &mut CheckedDebugs,
) -> Result<u64, ItemFault>
    requires { ArePools frame.now pools.now → AreCheckedDebugs frame.now checked.old }
    ensures checked { ArePools frame.now pools.now
        → OnOk result (AreCheckedDebugs frame.now checked.new) }
    ensures debug { ArePools frame.now pools.now → IfOk result (HasDebugAt frame.now off) }
    ensures refused { ArePools frame.now pools.now → IfErr result (IsDebugFault frame.now off) }
{
    if let Some(weight) = checked.weights.get(&off) {
        return Ok(*weight);
    }
    let shape = check_debug(frame, pools, off)?;
    checked.weights.insert(off, shape.weight)?;
    Ok(shape.weight)
}
