//! Merges that are stripped before, between and after.

use crate::fault::Trouble;
use crate::merging::{check_file, parts_of};
use crate::plans::DrawnPlan;
use dexcanon::to_bytes;
use dexclass::{Program, strip};
use dexmerge::{Caps, MergeFault, merge};
use std::alloc::{AllocError, Global};

// Strips each of the programs.
fn stripped_each<'a>(
    alloc: Global,
    programs: &[&Program<'a>],
) -> Result<Vec<Program<'a>>, AllocError> {
    let mut stripped = Vec::with_capacity(alloc, programs.len())?;
    for program in programs {
        stripped.push(strip(alloc, program)?)?;
    }
    Ok(stripped)
}

// Merges the programs, and strips the merged program.
fn stripped_merge<'a>(
    alloc: Global,
    programs: &[&Program<'a>],
    caps: &Caps,
) -> Result<Program<'a>, Trouble> {
    match merge(alloc, programs, caps) {
        Ok(program) => Ok(strip(alloc, &program)?),
        Err(MergeFault::Memory) => Err(Trouble::Memory),
        Err(_) => Err(Trouble::Between),
    }
}

// Merges the programs of each part of a plan, and strips each merged program.
fn stripped_parts<'a>(
    alloc: Global,
    programs: &[&Program<'a>],
    plan: &DrawnPlan,
    caps: &Caps,
) -> Result<Vec<Program<'a>>, Trouble> {
    let mut stripped = Vec::with_capacity(alloc, plan.parts.len())?;
    for part in &plan.parts {
        let group = parts_of(alloc, programs, plan.files(part))?;
        stripped.push(stripped_merge(alloc, &group, caps)?)?;
    }
    Ok(stripped)
}

// Asserts that the merged programs give this file.
//
// Error: `trouble` if they do not.
fn check_merge(
    alloc: Global,
    programs: &[Program<'_>],
    caps: &Caps,
    right: &[u8],
    trouble: Trouble,
) -> Result<(), Trouble> {
    let parts: Vec<&Program<'_>> = programs.iter().collect(alloc)?;
    check_file(alloc, &parts, caps, right, trouble)
}

// Asserts that a stripped program gives this file when it is stripped again.
fn check_twice(alloc: Global, stripped: &Program<'_>, right: &[u8]) -> Result<(), Trouble> {
    let twice = strip(alloc, stripped)?;
    let file = to_bytes(alloc, &twice)?;
    Trouble::Twice.unless(file.as_slice() == right)
}

// Asserts that the programs give this file if each is stripped before the merge.
fn check_before(
    alloc: Global,
    programs: &[&Program<'_>],
    caps: &Caps,
    right: &[u8],
) -> Result<(), Trouble> {
    let stripped = stripped_each(alloc, programs)?;
    check_merge(alloc, &stripped, caps, right, Trouble::Before)
}

// Asserts that the programs give this file if the merged program of each part of the plan is stripped and these are
// merged.
fn check_between(
    alloc: Global,
    programs: &[&Program<'_>],
    plan: &DrawnPlan,
    caps: &Caps,
    right: &[u8],
) -> Result<(), Trouble> {
    let stripped = stripped_parts(alloc, programs, plan, caps)?;
    check_merge(alloc, &stripped, caps, right, Trouble::Between)
}

// Asserts that the programs, whose merge gives this program stripped, give its file stripped twice, before and between.
fn check_same(
    alloc: Global,
    programs: &[&Program<'_>],
    plan: &DrawnPlan,
    caps: &Caps,
    stripped: &Program<'_>,
) -> Result<(), Trouble> {
    let right = to_bytes(alloc, stripped)?;
    check_twice(alloc, stripped, &right)?;
    check_before(alloc, programs, caps, &right)?;
    check_between(alloc, programs, plan, caps, &right)
}

/// Asserts that the programs, which merge to this one, give the same bytes stripped before the merge, between two
/// merges of which the first merges each part of the plan, after the merge, and twice.
///
/// Error: what does not hold.
pub fn check_stripped(
    alloc: Global,
    programs: &[&Program<'_>],
    plan: &DrawnPlan,
    caps: &Caps,
    merged: &Program<'_>,
) -> Result<(), Trouble> {
    let stripped = strip(alloc, merged)?;
    check_same(alloc, programs, plan, caps, &stripped)
}
