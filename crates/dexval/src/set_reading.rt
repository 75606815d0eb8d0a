//! Reads sets of annotations from a file.

ghost use Rattle.std.specs.Prelude.{◌≡◌, ◌+◌, ◌<◌, ◌≤◌, length, IfOk, IfErr, MatchOption};
ghost use Rattle.dexspec.specs.Bytes.{uint_at};
ghost use Rattle.dexpool.specs.Pools.{ArePools};
ghost use Rattle.dexval.specs.Code.{visibility_of};
ghost use Rattle.dexval.specs.Nesting.{HasPools};
ghost use Rattle.dexval.specs.Reading.{IsSetFault};
ghost use Rattle.dexval.specs.Items.{NoItemAt, NoSetAt, HasOffsets, IsRefusal};
ghost use Rattle.dexval.specs.Results.{IsReadSet};
ghost use Rattle.dexval.specs.internal.Found.{IsOffsetCount, IsReadItem};
ghost use Rattle.dexval.specs.internal.Room.{IsEmptyWithin};

use crate::value_reading::{MOST_DEPTH, ValueReader, with_room};
use crate::{Annotation, AnnotationSet, Visibility};
use dexhead::{Condition, Frame, u32_at};
use dexpool::{ItemFault, Pools};
use std::alloc::Global;

// The visibility of a number.
fn visibility_of(number: u8) -> Result<Visibility, ItemFault>
    ensures visibility { IfOk result (λ visibility. visibility_of visibility ≡ number) }
    ensures refused { IfErr result (IsRefusal (2 < number)) }
{
    match number {
        0 => Ok(Visibility::Build),
        1 => Ok(Visibility::Runtime),
        2 => Ok(Visibility::System),
        _ => Err(ItemFault::Refused(Condition::Annotations as u8)),
    }
}

// The annotation of the annotation_item at an offset. Error: there is no such item.
fn item_at(
    alloc: Global,
    frame: &Frame<'_>,
    pools: &Pools<'_>,
    off: u32,
) -> Result<Annotation, ItemFault>
    ensures read { HasPools frame.now pools.now → IfOk result (IsReadItem frame.now off pools.now) }
    ensures refused { HasPools frame.now pools.now
        → IfErr result (IsRefusal (NoItemAt frame.now off)) }
{
    let bytes = frame.bytes();
    let at = off as usize;
    if off < frame.data_off() || at >= bytes.len() {
        return Err(ItemFault::Refused(Condition::Annotations as u8));
    }
    let visibility = visibility_of(bytes[at])?;
    let reader = ValueReader {
        alloc,
        bytes,
        pools,
        number: Condition::Annotations as u8,
    };
    let (annotation, _) = reader.annotation_at(at + 1, MOST_DEPTH)?;
    Ok(Annotation {
        visibility,
        annotation,
    })
}

/// The number that the four bytes at an offset of a file encode.
///
/// Condition: the four bytes are there.
#[inline(always)]
pub(crate) fn uint_at(frame: &Frame<'_>, at: usize) -> u32
    requires { at + 4 ≤ length frame.now }
    ensures { result ≡ uint_at frame.now at }
{
    u32_at(frame.bytes(), at)
}

/// The number of offsets of an annotation_set_item or an annotation_set_ref_list at an offset, or `None` if the item is
/// not inside the data at a multiple of 4.
pub(crate) fn offset_count(frame: &Frame<'_>, off: u32) -> Option<u32>
    ensures { MatchOption result (HasOffsets frame.now off → ⊥) (IsOffsetCount frame.now off) }
{
    if off % 4 != 0 || !frame.is_in_data(off, 4) {
        return None;
    }
    let count = uint_at(frame, off as usize);
    if !frame.is_in_data(off, 4 + 4 * u64::from(count)) {
        return None;
    }
    Some(count)
}

/// As [`offset_count`]. Error: the item is not inside the data at a multiple of 4.
pub(crate) fn count_at(frame: &Frame<'_>, off: u32) -> Result<u32, ItemFault>
    ensures count { IfOk result (IsOffsetCount frame.now off) }
    ensures refused { IfErr result (IsRefusal (HasOffsets frame.now off → ⊥)) }
{
    offset_count(frame, off).ok_or(ItemFault::Refused(Condition::Annotations as u8))
}

// Reads the annotations of the annotation_set_item at an offset, which are `count`, into an empty vector. Error: there is
// no such set.
fn annotations_at(
    alloc: Global,
    frame: &Frame<'_>,
    pools: &Pools<'_>,
    off: u32,
    count: u32,
    mut annotations: Vec<Annotation>,
) -> Result<AnnotationSet, ItemFault>
    requires count { IsOffsetCount frame.now off count }
    requires room { IsEmptyWithin (length frame.now) annotations }
    ensures set { HasPools frame.now pools.now → IfOk result (IsReadSet frame.now off pools.now) }
    ensures refused { HasPools frame.now pools.now
        → IfErr result (IsRefusal (NoSetAt frame.now off)) }
{
    let mut least = 0;
    for i in 0..count {
        let place = uint_at(frame, off as usize + 4 + 4 * i as usize);
        let annotation = item_at(alloc, frame, pools, place)?;
        if u64::from(annotation.annotation.typ) < least {
            return Err(ItemFault::Refused(Condition::Annotations as u8));
        }
        least = u64::from(annotation.annotation.typ) + 1;
        annotations.push(annotation)?;
    }
    Ok(AnnotationSet { annotations })
}

/// Reads the annotation_set_item at an offset, and the annotations that it refers to. Their indices refer to the pools,
/// which are those of the file.
///
/// Errors: `Refused(22)` exactly if no such set is at the offset: the item is not inside the data at a multiple of 4,
/// an annotation is not in the data, has an unknown visibility, an index that is out of range, names that do not rise,
/// or a value that is invalid or nests deeper than 32, or the types of the annotations do not rise; `Memory` if an
/// allocation failed.
///
/// Source: "annotation_set_item" and "annotation_item".
pub fn read_set(
    alloc: Global,
    frame: &Frame<'_>,
    pools: &Pools<'_>,
    off: u32,
) -> Result<AnnotationSet, ItemFault>
    ensures set { ArePools frame.now pools.now → IfOk result (IsReadSet frame.now off pools.now) }
    ensures refused { ArePools frame.now pools.now → IfErr result (IsSetFault frame.now off) }
{
    pools.numbering().is_numbering();
    let count = count_at(frame, off)?;
    let annotations = with_room(alloc, count, frame.bytes().len())?;
    annotations_at(alloc, frame, pools, off, count, annotations)
}
