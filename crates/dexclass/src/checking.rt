//! Checking a whole file.

ghost use Rattle.std.specs.Prelude.{◌≡◌, ◌<◌, All, IfOk, IfErr, OnOk};
ghost use Rattle.dexspec.specs.Header.{ClassDefs, table_size};
ghost use Rattle.dexspec.specs.Accepted.{HoldBelow, IsFrame};
ghost use Rattle.dexpool.specs.Pools.{ArePools};
ghost use Rattle.dexmembers.specs.Checking.{AreChecks};
ghost use Rattle.dexids.specs.declared.faults.ReadFault.TheVariants.{Memory};
ghost use Rattle.dexclass.specs.Programs.{IsFaultOf};
ghost use Rattle.dexclass.specs.Checking.{HaveBodiesOf, IsCheckedAs};

use crate::class_checks::check_classes;
use crate::reading::{
    MOST_WEIGHT, at_row, interface_count, read_rows, row_weight, too_heavy, whole_weight,
};
use dexhead::{Frame, Table};
use dexmembers::{Checks, ClassDef, check_members};
use dexpool::{Pools, ReadFault};
use std::alloc::Global;

/// Checks a file, and returns the number of its class definitions: that of the program that [`read`](crate::read)
/// returns. What a class row declares is not kept once the row is checked.
///
/// Error: as of [`read`](crate::read), also that it is not `Memory` for a file whose header or map is refused.
///
/// Source: "Dalvik Executable format".
pub fn check(alloc: Global, bytes: &[u8]) -> Result<usize, ReadFault>
    ensures accepted { IfOk result (IsCheckedAs bytes.now) }
    ensures refused { IfErr result (IsFaultOf bytes.now) }
    ensures memory { IfErr result (λ fault. fault ≡ Memory → IsFrame bytes.now) }
{
    let frame = Frame::open(bytes)?;
    check_frame(alloc, &frame)
}

/// Checks a file whose header and map are in order, and returns what [`check`] returns of it.
///
/// Error: as of [`check`].
///
/// Source: "Dalvik Executable format".
pub fn check_frame(alloc: Global, frame: &Frame<'_>) -> Result<usize, ReadFault>
    ensures accepted { IfOk result (IsCheckedAs frame.now) }
    ensures refused { IfErr result (IsFaultOf frame.now) }
{
    let pools = Pools::read(alloc, frame)?;
    check_classes(alloc, frame, &pools)?;
    let bodies = check_rows(alloc, frame, &pools)?;
    if let Some(_weight) = whole_weight(pools.numbering(), bodies) {
        return Ok(frame.size(Table::ClassDefs) as usize);
    }
    // Of the symbols of the pools only those count that the classes mention.
    are_bytes(frame.bytes());
    let program = read_rows(alloc, frame, pools)?;
    Ok(program.len())
}

// The numbers of bytes are below 256.
fn are_bytes(bytes: &[u8])
    ensures { All (λ byte. byte < 256) bytes.now }
{}

// Checks the class rows of a file of which conditions 1 to 16 hold, from row 0 on, until they weigh too much. Returns
// what they weigh together.
fn check_rows(alloc: Global, frame: &Frame<'_>, pools: &Pools<'_>) -> Result<u64, ReadFault>
    requires pools { ArePools frame.now pools.now }
    requires holds { HoldBelow 17 frame.now }
    ensures accepted { IfOk result (HaveBodiesOf frame.now (table_size frame.now ClassDefs)) }
    ensures refused { IfErr result (IsFaultOf frame.now) }
{
    check_rows_with(alloc, frame, pools, &mut Checks::none(alloc))
}

/// Checks class rows as `check_rows` does. What is checked already is not checked again, and what is checked is added to
/// `checks`, whose contents are unspecified after an error.
pub(crate) fn check_rows_with(
    alloc: Global,
    frame: &Frame<'_>,
    pools: &Pools<'_>,
    checks: &mut Checks,
) -> Result<u64, ReadFault>
    requires pools { ArePools frame.now pools.now }
    requires holds { HoldBelow 17 frame.now }
    requires checks { AreChecks frame.now pools.now checks.old }
    ensures checks { OnOk result (AreChecks frame.now pools.now checks.new) }
    ensures accepted { IfOk result (HaveBodiesOf frame.now (table_size frame.now ClassDefs)) }
    ensures refused { IfErr result (IsFaultOf frame.now) }
{
    let mut weight: u64 = 0;
    for r in 0..frame.size(Table::ClassDefs) {
        let row = ClassDef::at(frame, r);
        let interfaces = interface_count(frame, row.interfaces_off);
        let members = match check_members(alloc, frame, pools, &row, checks) {
            Ok(members) => members,
            Err(fault) => return Err(at_row(fault, r)),
        };
        let before = weight.saturating_add(row_weight(interfaces));
        weight = before.saturating_add(members);
        if weight > MOST_WEIGHT {
            return Err(too_heavy(r));
        }
    }
    Ok(weight)
}
