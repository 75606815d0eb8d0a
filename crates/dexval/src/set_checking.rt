//! Checks sets of annotations in place in a file.

ghost use Rattle.std.specs.Prelude.{◌≡◌, IfOk, IfErr};
ghost use Rattle.dexpool.specs.Pools.{ArePools};
ghost use Rattle.dexpool.specs.declared.faults.ItemFault.TheVariants.{Refused};
ghost use Rattle.dexval.specs.Nesting.{HasPools};
ghost use Rattle.dexval.specs.Reading.{IsSetFault};
ghost use Rattle.dexval.specs.Results.{HasSetShape};
ghost use Rattle.dexval.specs.internal.Found.{MeasuresSet};

use crate::set_reading::offset_count;
use crate::value_checking::ValueChecker;
use crate::value_reading::MOST_DEPTH;
use dexhead::{Condition, Frame, u32_at};
use dexpool::{ItemFault, Pools};

/// The greatest visibility.
const MOST_VISIBILITY: u8 = 2;

/// The number of annotations of a set, and its weight.
#[derive(Clone, Copy, Debug)]
pub struct SetShape {
    /// The number of annotations.
    pub count: u32,
    /// The weight of the set: its [`AnnotationSet::weight`](crate::AnnotationSet::weight).
    pub weight: u64,
}

// The shape of the annotation_set_item at an offset, or `None` if there is no such item.
fn set_shape(frame: &Frame<'_>, pools: &Pools<'_>, off: u32) -> Option<SetShape>
    ensures { HasPools frame.now pools.now → MeasuresSet frame.now off pools.now result }
{
    let count = offset_count(frame, off)?;
    let bytes = frame.bytes();
    let checker = ValueChecker { bytes, pools };
    let mut weight = 8;
    let mut least = 0;
    for i in 0..count {
        let place = u32_at(bytes, off as usize + 4 + 4 * i as usize);
        let at = place as usize;
        if place < frame.data_off() || at >= bytes.len() || bytes[at] > MOST_VISIBILITY {
            return None;
        }
        let (typ, annotation) = checker.annotation_measure(at + 1, MOST_DEPTH)?;
        if u64::from(typ) < least {
            return None;
        }
        least = u64::from(typ) + 1;
        weight += 4 + annotation.weight;
    }
    let weight = if count == 0 { 0 } else { weight };
    Some(SetShape { count, weight })
}

/// Checks the annotation_set_item at an offset, and the annotations that it refers to. Their indices refer to the
/// pools, which are those of the file. Nothing is kept, and no memory is allocated.
///
/// Error: `Refused(22)` exactly if [`read_set`](crate::read_set) refuses the set.
///
/// Source: "annotation_set_item" and "annotation_item".
pub fn check_set(frame: &Frame<'_>, pools: &Pools<'_>, off: u32) -> Result<SetShape, ItemFault>
    ensures set { ArePools frame.now pools.now → IfOk result (HasSetShape frame.now off pools.now) }
    ensures refused { ArePools frame.now pools.now → IfErr result (IsSetFault frame.now off) }
    ensures number { IfErr result (λ fault. fault ≡ Refused 22) }
{
    pools.numbering().is_numbering();
    set_shape(frame, pools, off).ok_or(ItemFault::Refused(Condition::Annotations as u8))
}
