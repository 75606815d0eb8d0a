//! Calls that are made again and again, with a little more memory each time.

use crate::fault::Fault;
use crate::files::{stored_file, stored_files};
use crate::memory::calls::{Call, Callee};
use crate::memory::hoard::Hoard;
use crate::memory::trial::Trial;
use std::alloc::{AllocError, Global};
use std::fmt;
use std::rt::Files;

// How much memory a call gets at most while all other is held.
const ROOM: usize = 120_000;

// How much more it gets each time.
const STEP: usize = 16;

/// How often a call is made.
#[derive(Clone, Copy, PartialEq, Eq)]
pub enum Rounds {
    /// Once, with all memory.
    One,
    /// Until it is right, with a little more memory each time.
    UntilRight,
}

// What came of a call.
#[derive(Clone, Copy)]
enum Ending {
    // It was made once.
    Once(Trial),
    // It was out of memory that often before.
    After(u32, Trial),
}

impl Ending {
    // Returns whether a call that was made once did nothing wrong, or one with more memory each time was out of memory
    // again and again, and right in the end.
    fn is_right(self) -> bool {
        match self {
            Ending::Once(trial) => trial != Trial::Wrong,
            Ending::After(failures, trial) => failures > 1 && trial == Trial::Right,
        }
    }
}

impl fmt::Display for Ending {
    fn fmt<W: fmt::Write>(&self, f: &mut fmt::Formatter<W>) -> fmt::Result {
        match self {
            Ending::Once(trial) => trial.fmt(f),
            Ending::After(0 | 1, Trial::Right) => f.write_str("never out of memory"),
            Ending::After(_, Trial::Right) => {
                f.write_str("out of memory with nothing written, and right once there is enough")
            }
            Ending::After(_, Trial::Memory) => f.write_str("always out of memory"),
            Ending::After(_, Trial::Wrong) => f.write_str("wrong"),
        }
    }
}

// Makes a call with a little more memory each time, until it is not out of memory. At last it gets all there is.
//
// Error: there was no memory for the start.
fn tried(alloc: Global, call: &Call) -> Result<Ending, AllocError> {
    match tried_in_room(alloc, call)? {
        Ending::After(failures, Trial::Memory) => Ok(Ending::After(failures, call.made(alloc))),
        ending => Ok(ending),
    }
}

// Makes the call while all other memory is held.
fn tried_in_room(alloc: Global, call: &Call) -> Result<Ending, AllocError> {
    let mut hoard = Hoard::take(alloc, ROOM)?;
    let mut failures: u32 = 0;
    for step in 1..=ROOM / STEP {
        let held = ROOM.saturating_sub(step.saturating_mul(STEP));
        let trial = made_beside(alloc, call, &mut hoard, held);
        if trial != Trial::Memory {
            return Ok(Ending::After(failures, trial));
        }
        failures = failures.saturating_add(1);
    }
    Ok(Ending::After(failures, Trial::Memory))
}

// Makes the call beside a block of this size.
fn made_beside(alloc: Global, call: &Call, hoard: &mut Hoard, size: usize) -> Trial {
    if !hoard.hold(size) {
        return Trial::Memory;
    }
    let trial = call.made(alloc);
    hoard.release();
    trial
}

// Makes a call over files of these names, prints what came of it, and returns whether it is right. A blank separates
// the names.
fn is_right<R: Files + Print + AllocGlobal>(
    rt: &R,
    rounds: Rounds,
    callee: Callee,
    names: &str,
    right: &str,
) -> Result<bool, Fault> {
    let ending = ending_of(rt, rounds, callee, names, right)?;
    println!(rt; "{callee} {names}: {ending}")?;
    Ok(ending.is_right())
}

// Makes a call over files of these names.
fn ending_of<R: Files + AllocGlobal>(
    rt: &R,
    rounds: Rounds,
    callee: Callee,
    names: &str,
    right: &str,
) -> Result<Ending, Fault> {
    let call = call_over(rt, callee, names, right)?;
    match rounds {
        Rounds::One => Ok(Ending::Once(call.made(rt.alloc()))),
        Rounds::UntilRight => Ok(tried(rt.alloc(), &call)?),
    }
}

// Reads the files of a call.
fn call_over<R: Files + AllocGlobal>(
    rt: &R,
    callee: Callee,
    names: &str,
    right: &str,
) -> Result<Call, Fault> {
    let names: Vec<&str> = names.split(" ").collect(rt.alloc())?;
    Ok(Call {
        callee,
        files: stored_files(rt, &names)?,
        right: stored_file(rt, right)?,
    })
}

/// Makes each call, prints what came of it, and returns whether all are right.
pub fn try_calls<R: Files + Print + AllocGlobal>(rt: &R, rounds: Rounds) -> Result<bool, Fault> {
    let mut are_right = true;
    for (callee, names, right) in [
        (Callee::NormaliseRun, "field.dex", "field.dex"),
        (Callee::ToBytes, "field.dex", "field.dex"),
        (Callee::DumpRun, "hi.dex", "hi.txt"),
        (
            Callee::MergeRun,
            "la.dex lb-under-la.dex la.dex",
            "la-lb.dex",
        ),
        (Callee::MergeRun, "hi.dex lb.dex", "hi-lb.dex"),
        (
            Callee::MergeStripRun,
            "la-source.dex la-source.dex",
            "la.dex",
        ),
        (Callee::Merge, "hi.dex lb.dex", "hi-lb.dex"),
        (
            Callee::MergePlan,
            "la.dex lc.dex lb-under-la.dex",
            "la-lc-lb.dex",
        ),
    ] {
        are_right &= is_right(rt, rounds, callee, names, right)?;
    }
    Ok(are_right)
}
