//! Reading a whole file.

ghost use Rattle.std.specs.Prelude.{◌≡◌, ℕ, List, ◌+◌, ◌*◌, ◌<◌, ◌≤◌, All, length, IfOk, IfErr, MatchOption};
ghost use Rattle.dexspec.specs.Mentions.{Mentions};
ghost use Rattle.dexspec.specs.Header.{ClassDefs, table_size};
ghost use Rattle.dexspec.specs.Accepted.{HoldBelow, IsFrame};
ghost use Rattle.dexspec.specs.Weight.{most_weight};
ghost use Rattle.dexpool.specs.Pools.{ArePools};
ghost use Rattle.dexmembers.specs.Checking.{AreChecks};
ghost use Rattle.dexmembers.specs.SharedMembers.{AreSharedMembers};
ghost use Rattle.dexids.specs.declared.faults.ReadFault.TheVariants.{Refused, Memory};
ghost use Rattle.dexids.specs.Reading.{listed};
ghost use Rattle.dexclass.specs.internal.Rows.{HasInterfaceList};
ghost use Rattle.dexclass.specs.internal.Checked.{IsFaultAtRow};
ghost use Rattle.dexclass.specs.Programs.{IsReadAs, IsFaultOf};
ghost use Rattle.dexclass.specs.internal.Reading.{AreBodies, AreHeavy, IsWhole};
ghost use Rattle.dexclass.specs.internal.ReadWithin.{IsFaultWithin, IfTooHeavy};

use crate::checking::check_rows_with;
use crate::class_checks::check_classes;
use crate::classes::{Class, number_of};
use crate::interface_lists::Interfaces;
use crate::programs::Program;
use crate::trimming::into_trimmed;
use dexhead::{Condition, Frame, Refusal, Table};
use dexlaws::denotes::good::denoted_is_good;
use dexmembers::{Checks, ClassDef, SharedMembers, read_shared_members};
use dexpool::{ItemFault, Numbering, Pools, ReadFault, type_list_len};
use std::alloc::Global;

/// The most that a program may weigh.
pub(crate) const MOST_WEIGHT: u64 = 1 << 30;

/// Reads a file: the program of its class definitions. The classes that are kept before all class rows are checked weigh
/// at most four times the file's size and 65,536.
///
/// Error: `Refused` with the number of a condition and the row at which it fails, as [`ReadFault`] says; `Memory` if an
/// allocation failed, and never for a file whose header or map is refused. Nothing is kept then.
///
/// Source: "Dalvik Executable format".
pub fn read<'a>(alloc: Global, bytes: &'a [u8]) -> Result<Program<'a>, ReadFault>
    ensures accepted { IfOk result (IsReadAs bytes.now) }
    ensures refused { IfErr result (IsFaultOf bytes.now) }
    ensures memory { IfErr result (λ fault. fault ≡ Memory → IsFrame bytes.now) }
{
    let frame = Frame::open(bytes)?;
    let pools = Pools::read(alloc, &frame)?;
    check_classes(alloc, &frame, &pools)?;
    read_rows(alloc, &frame, pools)
}

/// The number of interfaces that are listed at the offset of a class row.
///
/// Source: "class_def_item", the field `interfaces_off`, and "type_list".
pub(crate) fn interface_count(frame: &Frame<'_>, off: u32) -> u32
    requires { HasInterfaceList frame.now off }
    ensures { result ≡ length (listed frame.now off) }
{
    if off == 0 {
        return 0;
    }
    type_list_len(frame, off).unwrap_or(0)
}

/// The weight of a class row with `interfaces` interfaces, without what it declares.
pub(crate) fn row_weight(interfaces: u32) -> u64
    ensures { result ≡ 96 + 2 * interfaces }
{
    96 + 2 * u64::from(interfaces)
}

/// The refusal of class row `r` by condition 23.
pub(crate) fn too_heavy(r: u32) -> ReadFault
    ensures { result ≡ Refused (record { number = 23; place = r }) }
{
    at_row(ItemFault::Refused(Condition::Weight as u8), r)
}

/// The fault of what class row `r` declares.
pub(crate) fn at_row(fault: ItemFault, r: u32) -> ReadFault
    ensures { IsFaultAtRow fault r result }
{
    match fault {
        ItemFault::Refused(number) => ReadFault::Refused(Refusal { number, place: r }),
        ItemFault::Memory => ReadFault::Memory,
    }
}

// The classes of the first rows, with the indices of the file as numbers, and what they weigh without the symbols that
// they name.
#[derive(Drop)]
struct Bodies<'a> {
    classes: Vec<Class<'a>>,
    weight: u64,
}

// Reads the class rows, from row 0 on, until the classes weigh more than `most`. What the members of a row may weigh is
// what is left for them: what is read is not weighed again. What several rows have is in the memory of `shared`, if that
// is not nothing. What is checked already is not checked again; what is checked is added to `checks`, and is of this file
// where the classes weigh too much.
fn read_bodies_within<'a>(
    alloc: Global,
    frame: &Frame<'a>,
    pools: &Pools<'a>,
    most: u64,
    mut shared: SharedMembers<'a>,
    checks: &mut Checks,
) -> Result<Bodies<'a>, ReadFault>
    requires pools { ArePools frame.now pools.now }
    requires before { HoldBelow 17 frame.now }
    requires most { most ≤ most_weight }
    requires shared { AreSharedMembers frame.now pools.now shared }
    requires checks { AreChecks frame.now pools.now checks.old }
    ensures accepted { IfOk result
        (AreBodies frame.now pools.now (table_size frame.now ClassDefs)) }
    ensures light { IfOk result (λ bodies. bodies.weight ≤ most) }
    ensures refused { IfErr result (IsFaultWithin most frame.now) }
    ensures checks { IfErr result (IfTooHeavy (AreChecks frame.now pools.now checks.new)) }
{
    pools.numbering().is_numbering();
    let rows = frame.size(Table::ClassDefs);
    let mut bodies = Bodies {
        classes: Vec::with_capacity(alloc, rows as usize)?,
        weight: 0,
    };
    for r in 0..rows {
        let row = ClassDef::at(frame, r);
        let count = interface_count(frame, row.interfaces_off);
        let own = row_weight(count);
        let before = bodies.weight + own;
        let left = most.saturating_sub(before) as u32;
        let (members, weight) = match read_shared_members(
            alloc,
            frame,
            pools,
            &row,
            left,
            &mut shared,
            checks,
        ) {
            Ok(found) => found,
            Err(fault) => return Err(at_row(fault, r)),
        };
        if before > most {
            return Err(too_heavy(r));
        }
        let body = own + u64::from(weight);
        let interfaces = Interfaces::listed(alloc, frame, row.interfaces_off, count);
        let class = Class {
            name: row.class_idx as usize,
            flags: row.access_flags,
            superclass: number_of(row.superclass_idx),
            interfaces,
            source: number_of(row.source_file_idx),
            members,
            weight: body,
        };
        bodies.classes.push(class)?;
        bodies.weight += body;
    }
    Ok(bodies)
}

// What classes may weigh before all rows are checked. Those of compilers weigh less.
fn most_unchecked(frame: &Frame<'_>) -> u64
    ensures most { result ≤ most_weight }
    ensures few { result ≤ 4 * length frame.now + 65536 }
{
    let len = frame.bytes().len() as u64;
    len.saturating_mul(4)
        .saturating_add(65_536)
        .min(MOST_WEIGHT)
}

// What the classes of a file share: nothing where it has one class, which then has all in memory of its own.
fn shared_members<'a>(alloc: Global, frame: &Frame<'_>) -> SharedMembers<'a>
    ensures { (b : List ℕ) (m : Mentions) → AreSharedMembers b m result }
{
    if frame.size(Table::ClassDefs) > 1 {
        SharedMembers::empty(alloc)
    } else {
        SharedMembers::none()
    }
}

// Reads the class rows. If the classes weigh much more than the file, as where many rows share an item, all rows are
// checked before more of them is kept, and what is kept of an item is shared. What was checked for one of these steps is
// not checked again in the next.
fn read_bodies<'a>(
    alloc: Global,
    frame: &Frame<'a>,
    pools: &Pools<'a>,
) -> Result<Bodies<'a>, ReadFault>
    requires pools { ArePools frame.now pools.now }
    requires before { HoldBelow 17 frame.now }
    ensures accepted { IfOk result
        (AreBodies frame.now pools.now (table_size frame.now ClassDefs)) }
    ensures refused { IfErr result (IsFaultOf frame.now) }
{
    let most = most_unchecked(frame);
    let (unshared, mut checks) = (SharedMembers::none(), Checks::none(alloc));
    let refusal = match read_bodies_within(alloc, frame, pools, most, unshared, &mut checks) {
        Ok(bodies) => return Ok(bodies),
        Err(ReadFault::Memory) => return Err(ReadFault::Memory),
        Err(ReadFault::Refused(refusal)) => refusal,
    };
    if refusal.number != Condition::Weight as u8 {
        return Err(ReadFault::Refused(refusal));
    }
    check_rows_with(alloc, frame, pools, &mut checks)?;
    // Reading checks static values alone.
    let mut checks = checks.only_statics(alloc);
    let shared = shared_members(alloc, frame);
    read_bodies_within(alloc, frame, pools, MOST_WEIGHT, shared, &mut checks)
}

/// The weight of classes with all symbols of a numbering, or `None` if it is too much; `bodies` is that of the classes
/// alone.
pub(crate) fn whole_weight(numbering: &Numbering<'_>, bodies: u64) -> Option<u64>
    ensures { MatchOption result (AreHeavy numbering.now bodies) (IsWhole numbering.now bodies) }
{
    let symbols = numbering.weight().saturating_add(1024);
    let weight = symbols.saturating_add(bodies);
    (weight <= MOST_WEIGHT).then_some(weight)
}

/// Reads the class rows of a file of which conditions 1 to 16 hold. Its pools are given up: where the classes mention
/// every symbol, their tables are those of the program.
pub(crate) fn read_rows<'a>(
    alloc: Global,
    frame: &Frame<'a>,
    pools: Pools<'a>,
) -> Result<Program<'a>, ReadFault>
    requires bytes { All (λ byte. byte < 256) frame.now }
    requires pools { ArePools frame.now pools }
    requires before { HoldBelow 17 frame.now }
    ensures accepted { IfOk result (IsReadAs frame.now) }
    ensures refused { IfErr result (IsFaultOf frame.now) }
{
    denoted_is_good();
    let mut bodies = read_bodies(alloc, frame, &pools)?;
    let numbering = into_trimmed(alloc, pools.into_numbering(), &mut bodies.classes)?;
    let Some(total) = whole_weight(&numbering, bodies.weight) else {
        return Err(too_heavy(frame.size(Table::ClassDefs).saturating_sub(1)));
    };
    Ok(Program::weighing(alloc, numbering, bodies.classes, total)?)
}
