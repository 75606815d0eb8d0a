//! What class rows declare, read from a file.

ghost use Rattle.std.specs.Prelude.{ℕ, IfOk, IfErr, OnOk};
ghost use Rattle.dexpool.specs.Pools.{ArePools};
ghost use Rattle.dexval.specs.CheckedStatics.{AreCheckedStatics};
ghost use Rattle.dexmembers.specs.Checking.{AreChecks};
ghost use Rattle.dexmembers.specs.ClassDefs.{IsClassDef};
ghost use Rattle.dexmembers.specs.Reading.{AreReadWithin, IsMembersFaultWithin, InClass};
ghost use Rattle.dexmembers.specs.SharedMembers.{AreSharedMembers};
ghost use Rattle.dexmembers.specs.TooHeavy.{IfTooHeavy};
ghost use Rattle.dexmembers.specs.internal.RowParts.{IsPartFault};

use crate::class_data::read_class_data;
use crate::row_reader::{RowReader, too_heavy};
use crate::{Checks, ClassDef, Members, SharedMembers, check_members, members_weight_law};
use dexcode::code_meaning_law;
use dexhead::{Condition, Frame};
use dexpool::{ItemFault, Pools};
use dexval::CheckedStatics;
use std::alloc::Global;

// Reads what a class row declares, and stops at the part by which it weighs more than `most`. Static values that are
// checked already are not checked again.
fn read_row<'a>(
    alloc: Global,
    frame: &Frame<'a>,
    pools: &Pools<'_>,
    row: &ClassDef,
    most: u32,
    shared: &mut SharedMembers<'a>,
    checked: &mut CheckedStatics,
) -> Result<(Members<'a>, u32), ItemFault>
    requires shared { ArePools frame.now pools.now
        → AreSharedMembers frame.now pools.now shared.old }
    requires checked { ArePools frame.now pools.now
        → AreCheckedStatics frame.now pools.now checked.old }
    ensures shared { ArePools frame.now pools.now
        → OnOk result (AreSharedMembers frame.now pools.now shared.new) }
    ensures checked { ArePools frame.now pools.now
        → OnOk result (AreCheckedStatics frame.now pools.now checked.new) }
    ensures heavy { ArePools frame.now pools.now
        → IfErr result (IfTooHeavy (AreCheckedStatics frame.now pools.now checked.new)) }
    ensures read { (r : ℕ) → IsClassDef frame.now r row.now
        → InClass frame.now pools.now r (IfOk result (AreReadWithin frame.now r pools.now most)) }
    ensures refused { (r : ℕ) → IsClassDef frame.now r row.now
        → InClass frame.now pools.now r (IfErr result (IsPartFault frame.now r most)) }
{
    pools.numbering().is_numbering();
    code_meaning_law();
    members_weight_law();
    let declared = read_class_data(alloc, frame, pools, row)?;
    let reader = RowReader {
        alloc,
        frame,
        pools,
        row,
        declared: &declared,
        most: u64::from(most),
    };
    let (contents, codes) = reader.read_contents(shared, checked)?;
    let weight = contents.weight_with(codes);
    if weight > u64::from(most) {
        return Err(too_heavy());
    }
    let members = Members { contents };
    Ok((members, weight as u32))
}

/// Reads what a class row declares: its members with their code and annotations, its own annotations, and its static
/// values. It returns them with their weight, in the bytes of [`Members::weight`]. What is kept at a time weighs at most
/// four times `most`, besides the lists of members and one item.
///
/// What the contract says of the result holds for rows of the file that meet condition 16. Error: `Refused` with a
/// number from 17 to 22, a condition that fails at the row; `Refused(23)` exactly if all that the row declares is there,
/// and weighs more than `most`; `Memory` if an allocation failed.
///
/// Source: "class_def_item", the fields `annotations_off`, `class_data_off` and `static_values_off`.
pub fn read_members<'a>(
    alloc: Global,
    frame: &Frame<'a>,
    pools: &Pools<'_>,
    row: &ClassDef,
    most: u32,
) -> Result<(Members<'a>, u32), ItemFault>
    ensures read { (r : ℕ) → IsClassDef frame.now r row.now
        → InClass frame.now pools.now r (IfOk result (AreReadWithin frame.now r pools.now most)) }
    ensures refused { (r : ℕ) → IsClassDef frame.now r row.now
        → InClass frame.now pools.now r (IfErr result (IsMembersFaultWithin frame.now r most)) }
{
    let (mut shared, mut checks) = (SharedMembers::none(), Checks::none(alloc));
    read_shared_members(alloc, frame, pools, row, most, &mut shared, &mut checks)
}

/// Reads what a class row declares, as [`read_members`] does. If classes share what they declare, its sets of
/// annotations, static values, code and debug programs are in the memory of `shared`; sets and values are read only if
/// they were not before. Static values that are in `checks` are not checked again, and others are added to it. A row that
/// weighs too much is checked as [`check_members`] does, with `checks`.
///
/// Condition: what is shared and what is checked already are of this file. Error: as of [`read_members`]; the contents of
/// `shared` are then unspecified, and so are those of `checks` after any error but `Refused(23)`.
///
/// Source: "class_def_item", the fields `annotations_off`, `class_data_off` and `static_values_off`.
pub fn read_shared_members<'a>(
    alloc: Global,
    frame: &Frame<'a>,
    pools: &Pools<'_>,
    row: &ClassDef,
    most: u32,
    shared: &mut SharedMembers<'a>,
    checks: &mut Checks,
) -> Result<(Members<'a>, u32), ItemFault>
    requires shared { ArePools frame.now pools.now
        → AreSharedMembers frame.now pools.now shared.old }
    requires checks { ArePools frame.now pools.now → AreChecks frame.now pools.now checks.old }
    ensures shared { ArePools frame.now pools.now
        → OnOk result (AreSharedMembers frame.now pools.now shared.new) }
    ensures checks { ArePools frame.now pools.now
        → OnOk result (AreChecks frame.now pools.now checks.new) }
    ensures heavy { (r : ℕ) → IsClassDef frame.now r row.now → InClass frame.now pools.now r
        (IfErr result (IfTooHeavy (AreChecks frame.now pools.now checks.new))) }
    ensures read { (r : ℕ) → IsClassDef frame.now r row.now
        → InClass frame.now pools.now r (IfOk result (AreReadWithin frame.now r pools.now most)) }
    ensures refused { (r : ℕ) → IsClassDef frame.now r row.now
        → InClass frame.now pools.now r (IfErr result (IsMembersFaultWithin frame.now r most)) }
{
    let statics = &mut checks.statics;
    let number = match read_row(alloc, frame, pools, row, most, shared, statics) {
        Ok(read) => return Ok(read),
        Err(ItemFault::Memory) => return Err(ItemFault::Memory),
        Err(ItemFault::Refused(number)) => number,
    };
    if number != Condition::Weight as u8 {
        return Err(ItemFault::Refused(number));
    }
    // It is too heavy only if all of it is there.
    check_members(alloc, frame, pools, row, checks)?;
    Err(ItemFault::Refused(number))
}
