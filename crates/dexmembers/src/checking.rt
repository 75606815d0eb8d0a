//! What class rows declare, checked and not kept.

ghost use Rattle.std.specs.Prelude.{ℕ, List, IfOk, IfErr, OnOk};
ghost use Rattle.dexspec.specs.Mentions.{Mentions};
ghost use Rattle.dexpool.specs.Pools.{ArePools};
ghost use Rattle.dexmembers.specs.ClassDefs.{IsClassDef};
ghost use Rattle.dexmembers.specs.Reading.{IsMembersFault, InClass};
ghost use Rattle.dexmembers.specs.Checking.{AreChecks, HasMembersOf};

use crate::class_data::read_class_data;
use crate::class_def::ClassDef;
use crate::codes::CheckedCodes;
use crate::row_reader::RowReader;
use dexhead::Frame;
use dexpool::{ItemFault, Pools};
use dexval::{CheckedSets, CheckedStatics};
use std::alloc::Global;

/// What was checked of a file, lent from one class row to the next: its code, its sets of annotations, its lists of sets
/// and its static values. Each is checked once, however many rows name it.
#[derive(Drop)]
pub struct Checks {
    pub(crate) sets: CheckedSets,
    pub(crate) codes: CheckedCodes,
    pub(crate) statics: CheckedStatics,
}

impl Checks {
    /// Nothing yet.
    pub fn none(alloc: Global) -> Checks
        ensures { (b : List ℕ) (m : Mentions) → AreChecks b m result }
    {
        Checks {
            sets: CheckedSets::none(alloc),
            codes: CheckedCodes::none(alloc),
            statics: CheckedStatics::none(alloc),
        }
    }

    /// Of what was checked the static values alone, the only part that a reader of class rows looks up.
    pub fn only_statics(self, alloc: Global) -> Checks
        ensures { (b : List ℕ) (m : Mentions) → AreChecks b m self → AreChecks b m result }
    {
        Checks {
            sets: CheckedSets::none(alloc),
            codes: CheckedCodes::none(alloc),
            statics: self.statics,
        }
    }
}

/// Checks what a class row declares: its members with their code and annotations, its own annotations, and its static
/// values. It returns what they weigh, in the bytes of [`Members::weight`](crate::Members::weight), or 2^64 - 1 where
/// that is more. Nothing of them is kept beside `checks` and, while the row is checked, the lists of its members. What is
/// checked already is not checked again.
///
/// Condition: what is checked already is of this file. What is said of the result is said of rows of the file that meet
/// condition 16. Error: `Refused` with a number from 17 to 22, a condition that fails at the row; `Memory` where an
/// allocation failed.
///
/// Source: "class_def_item", the fields `annotations_off`, `class_data_off` and `static_values_off`.
pub fn check_members(
    alloc: Global,
    frame: &Frame<'_>,
    pools: &Pools<'_>,
    row: &ClassDef,
    checks: &mut Checks,
) -> Result<u64, ItemFault>
    requires { ArePools frame.now pools.now → AreChecks frame.now pools.now checks.old }
    ensures checks { ArePools frame.now pools.now
        → OnOk result (AreChecks frame.now pools.now checks.new) }
    ensures checked { (r : ℕ) → IsClassDef frame.now r row.now
        → InClass frame.now pools.now r (IfOk result (HasMembersOf frame.now r)) }
    ensures refused { (r : ℕ) → IsClassDef frame.now r row.now
        → InClass frame.now pools.now r (IfErr result (IsMembersFault frame.now r)) }
{
    pools.numbering().is_numbering();
    let declared = read_class_data(alloc, frame, pools, row)?;
    let reader = RowReader {
        alloc,
        frame,
        pools,
        row,
        declared: &declared,
        most: u64::MAX,
    };
    let annotations = reader.check_annotations(&mut checks.sets)?;
    let direct = reader.check_codes(&declared.direct_methods, &mut checks.codes)?;
    let virtuals = reader.check_codes(&declared.virtual_methods, &mut checks.codes)?;
    let values = reader.check_static_values(&mut checks.statics)?;
    let statics = 18u64.saturating_mul(declared.static_fields.len() as u64);
    let instances = 18u64.saturating_mul(declared.instance_fields.len() as u64);
    let fields = statics
        .saturating_add(instances)
        .saturating_add(annotations);
    let codes = direct.saturating_add(virtuals);
    Ok(fields.saturating_add(codes).saturating_add(values))
}
