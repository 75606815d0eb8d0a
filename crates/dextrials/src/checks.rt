//! Checks what must hold of a merge.

ghost use Rattle.std.specs.Prelude.{◌≡◌, false, IfOk};
ghost use Rattle.dexruns.specs.Runs.{AllWork};
ghost use Rattle.dexio.specs.Device.{is_broken};

use crate::causes::{is_reported, is_same};
use crate::drawing::{Drawn, Known};
use crate::fault::Trouble;
use crate::merging::{cause_of, check_file, parts_of};
use crate::plans::DrawnPlan;
use crate::stripping::check_stripped;
use crate::tally::Ending;
use dexcanon::to_bytes;
use dexclass::Program;
use dexhead::Device;
use dexmerge::{Caps, MergeFault, merge};
use dexruns::{MergeCause, RunFault, merge_run};
use std::alloc::{AllocError, Global};

/// Returns a device over each of the files with these numbers.
pub fn devices<'a>(
    alloc: Global,
    stored: &'a [Vec<u8>],
    files: &[usize],
) -> Result<Vec<Device<&'a [u8]>>, AllocError>
    ensures { IfOk result (λ devices. AllWork is_broken devices.items) }
{
    let mut devices = Vec::with_capacity(alloc, files.len())?;
    for number in files {
        if let Some(file) = stored.get(*number) {
            devices.push(Device::new(file.as_slice()))?;
        }
    }
    Ok(devices)
}

// Runs the plan over devices, and returns the cause if the merge is refused.
fn reported_by_plan(
    alloc: Global,
    drawn: &Drawn,
    inputs: &mut [Device<&[u8]>],
    out: &mut Device<Vec<u8>>,
) -> Result<Option<MergeCause>, Trouble>
    requires inputs { AllWork is_broken inputs.old }
    requires out { is_broken out.old ≡ false }
{
    match merge_run(alloc, inputs, &drawn.plan.plan, &drawn.caps, out) {
        Ok(()) => Ok(None),
        Err(RunFault::Merge(cause)) => Ok(Some(cause)),
        Err(RunFault::Memory) => Err(Trouble::Memory),
        Err(_) => Err(Trouble::Run),
    }
}

// Runs the plan over devices, and returns the bytes or the cause.
fn run_plan(
    alloc: Global,
    drawn: &Drawn,
    stored: &[Vec<u8>],
) -> Result<Result<Vec<u8>, MergeCause>, Trouble> {
    let mut inputs = devices(alloc, stored, &drawn.files)?;
    let mut out = Device::new(Vec::new(alloc));
    match reported_by_plan(alloc, drawn, inputs.as_mut_slice(), &mut out)? {
        None => Ok(Ok(out.into_inner())),
        Some(cause) => Ok(Err(cause)),
    }
}

// Asserts that files which merge are not known to be refused.
fn check_known_merge(known: &Known) -> Result<(), Trouble> {
    match known {
        Known::Nothing | Known::Merges => Ok(()),
        Known::Exceeds(_) => Err(Trouble::Exceeded),
        Known::Refused(_) => Err(Trouble::First),
    }
}

// Asserts that refused files are not known to merge, or to be refused for another cause.
fn check_known_cause(known: &Known, cause: &MergeFault) -> Result<(), Trouble> {
    match (known, cause) {
        (_, MergeFault::Memory) => Err(Trouble::Memory),
        (Known::Nothing, _) => Ok(()),
        (Known::Merges, _) => Err(Trouble::Needed),
        (Known::Exceeds(cap), MergeFault::Cap(reported)) if cap == reported => Ok(()),
        (Known::Exceeds(_), _) => Err(Trouble::Exceeded),
        (Known::Refused(known), reported) if is_same(known, reported) => Ok(()),
        (Known::Refused(_), _) => Err(Trouble::First),
    }
}

// Asserts that the files in another order give this file.
fn check_order(
    alloc: Global,
    drawn: &Drawn,
    programs: &[&Program<'_>],
    right: &[u8],
) -> Result<(), Trouble> {
    let parts = parts_of(alloc, programs, &drawn.reordered)?;
    check_file(alloc, &parts, &drawn.caps, right, Trouble::Order)
}

// Asserts that the plan gives this file.
fn check_plan(
    alloc: Global,
    drawn: &Drawn,
    stored: &[Vec<u8>],
    right: &[u8],
) -> Result<(), Trouble> {
    match run_plan(alloc, drawn, stored)? {
        Ok(file) => Trouble::Plan.unless(file.as_slice() == right),
        Err(_) => Err(Trouble::Plan),
    }
}

// Asserts that the files give the file of this program in another order and by the plan.
fn check_same(
    alloc: Global,
    drawn: &Drawn,
    stored: &[Vec<u8>],
    programs: &[&Program<'_>],
    merged: &Program<'_>,
) -> Result<(), Trouble> {
    let right = to_bytes(alloc, merged)?;
    check_order(alloc, drawn, programs, &right)?;
    check_plan(alloc, drawn, stored, &right)
}

// Asserts that the files give the file of this program in another order and by the plan, and that stripping commutes.
fn check_merged(
    alloc: Global,
    drawn: &Drawn,
    stored: &[Vec<u8>],
    programs: &[&Program<'_>],
    merged: &Program<'_>,
) -> Result<Ending, Trouble> {
    check_known_merge(&drawn.known)?;
    check_same(alloc, drawn, stored, programs, merged)?;
    let parts = parts_of(alloc, programs, &drawn.files)?;
    check_stripped(alloc, &parts, &drawn.plan, &drawn.caps, merged)?;
    Ok(Ending::Merged)
}

// Asserts that the files in another order are refused for this cause.
fn check_cause(
    alloc: Global,
    drawn: &Drawn,
    programs: &[&Program<'_>],
    cause: &MergeFault,
) -> Result<(), Trouble> {
    let parts = parts_of(alloc, programs, &drawn.reordered)?;
    match cause_of(alloc, &parts, &drawn.caps) {
        None => Err(Trouble::Order),
        Some(MergeFault::Memory) => Err(Trouble::Memory),
        Some(reported) => Trouble::Order.unless(is_same(cause, &reported)),
    }
}

// Returns whether a merge of these files is refused for this cause.
fn is_cause_of(
    alloc: Global,
    parts: &[&Program<'_>],
    files: &[usize],
    caps: &Caps,
    reported: &MergeCause,
) -> Result<bool, AllocError> {
    let parts = parts_of(alloc, parts, files)?;
    match cause_of(alloc, &parts, caps) {
        None => Ok(false),
        Some(MergeFault::Memory) => Err(AllocError),
        Some(cause) => Ok(is_reported(&cause, reported)),
    }
}

// Returns whether a merge of the files of some node of the plan is refused for this cause.
fn is_cause_of_a_node(
    alloc: Global,
    plan: &DrawnPlan,
    parts: &[&Program<'_>],
    caps: &Caps,
    reported: &MergeCause,
) -> Result<bool, AllocError> {
    for node in &plan.nodes {
        if is_cause_of(alloc, parts, plan.files(node), caps, reported)? {
            return Ok(true);
        }
    }
    Ok(false)
}

// Asserts that a merge of the files of some node of the plan is refused for this cause.
fn check_reported_cause(
    alloc: Global,
    drawn: &Drawn,
    programs: &[&Program<'_>],
    reported: &MergeCause,
) -> Result<(), Trouble> {
    let parts = parts_of(alloc, programs, &drawn.files)?;
    Trouble::Cause.unless(is_cause_of_a_node(alloc, &drawn.plan, &parts, &drawn.caps, reported)?)
}

// Asserts that the plan is refused, for a cause of the files of one of its nodes.
fn check_reported_fault(
    alloc: Global,
    drawn: &Drawn,
    stored: &[Vec<u8>],
    programs: &[&Program<'_>],
) -> Result<(), Trouble> {
    match run_plan(alloc, drawn, stored)? {
        Ok(_) => Err(Trouble::Plan),
        Err(reported) => check_reported_cause(alloc, drawn, programs, &reported),
    }
}

// Asserts that the files are refused for this cause in another order, and that the plan is refused.
fn check_refused(
    alloc: Global,
    drawn: &Drawn,
    stored: &[Vec<u8>],
    programs: &[&Program<'_>],
    cause: &MergeFault,
) -> Result<Ending, Trouble> {
    check_known_cause(&drawn.known, cause)?;
    check_cause(alloc, drawn, programs, cause)?;
    check_reported_fault(alloc, drawn, stored, programs)?;
    Ok(Ending::of(cause))
}

/// Runs the merge, and returns how it ends.
///
/// Error: what does not hold of the merge.
pub fn check(
    alloc: Global,
    drawn: &Drawn,
    stored: &[Vec<u8>],
    programs: &[&Program<'_>],
) -> Result<Ending, Trouble> {
    let parts = parts_of(alloc, programs, &drawn.files)?;
    match merge(alloc, &parts, &drawn.caps) {
        Ok(merged) => check_merged(alloc, drawn, stored, programs, &merged),
        Err(cause) => check_refused(alloc, drawn, stored, programs, &cause),
    }
}
