//! Tries what no list of cases can have: a thousand merges that are drawn, and calls that run out of memory.
//!
//! The arguments are the names of the files to draw from.
//!
//! First merges are drawn. A generator whose seed is the number of the merge draws its files, its plan and its caps. The
//! program asserts the following of each merge, and prints the number of each merge of which one does not hold:
//!
//! - merged at once, in any order, the files give the same bytes or the same cause;
//! - merged by the plan, over devices, they give the bytes that they give merged at once; or both merges are refused,
//!   and the cause of the plan is that of files that the plan merges in one node;
//! - stripped before the merge, between two merges, after the merge or twice, they give the same bytes;
//! - they merge under caps of just what they need, and do not merge if one of these caps is one less;
//! - no call returns that allocation failed.
//!
//! Then each of eight calls is made while all memory that can be had is taken, but for some room, of which it gets 16
//! bytes more each time, so that now one allocation and now another is the first that fails. Each time the call has to
//! report that it is out of memory, with nothing written: a writer sees no call. Once it has enough it has to return
//! the right bytes. The program prints what came of each.
//!
//! With the one argument `once` each of the eight calls is made once, and nothing is drawn: `tests/faults/run` makes one
//! allocation fail in such a run.
//!
//! The status is 0 if all of this holds and enough merges ended in each way, 1 if something does not hold, 2 if no file
//! is named, 3 if a file cannot be read or is refused, and 4 if the output cannot be written or allocation failed.
#![tactic(auto)]

mod causes;
mod checks;
mod drawing;
mod fault;
mod files;
mod memory;
mod merging;
mod needs;
mod plans;
mod stripping;
mod tally;

use checks::check;
use dexclass::Program;
use drawing::draw;
use fault::{Fault, Trouble};
use files::{programs, stored_files};
use memory::{Rounds, try_calls};
use std::alloc::Global;
use std::process::ExitCode;
use std::rt::{Env, Files};
use std::{env, io};
use tally::{Ending, Tally};

/// How many merges are drawn.
const MERGES: u64 = 1000;

// Draws the merge of this number, checks it, and returns how it ends, or what does not hold of it.
fn ending(
    alloc: Global,
    number: u64,
    stored: &[Vec<u8>],
    programs: &[&Program<'_>],
) -> Result<Ending, Trouble> {
    let drawn = draw(alloc, number, programs)?;
    check(alloc, &drawn, stored, programs)
}

// Runs all merges, and prints each that does not hold.
fn run_merges<R: Print + AllocGlobal>(
    rt: &R,
    stored: &[Vec<u8>],
    programs: &[&Program<'_>],
) -> io::Result<Tally> {
    let mut tally = Tally::default();
    for number in 0..MERGES {
        match ending(rt.alloc(), number, stored, programs) {
            Ok(ending) => tally.count(ending),
            Err(trouble) => {
                println!(rt; "merge {number}: {trouble}")?;
                tally.count(Ending::Wrong);
            }
        }
    }
    if tally.is_right() {
        println!(rt; "{MERGES} merges are right")?;
    } else {
        println!(rt; "{tally:?}")?;
    }
    Ok(tally)
}

// Runs all merges over the files of these names, and returns whether they are right.
fn are_merges_right<R: Files + Print + AllocGlobal>(rt: &R, names: &[&str]) -> Result<bool, Fault> {
    let stored = stored_files(rt, names)?;
    let programs = programs(rt.alloc(), names, &stored)?;
    let lent: Vec<&Program<'_>> = programs.iter().collect(rt.alloc())?;
    Ok(run_merges(rt, &stored, &lent)?.is_right())
}

// Tries the merges over the files of these names, and then the calls, and returns whether all are right. What is left of
// the address space after the calls can be too little for the stack of the merges.
fn are_all_right<R: Files + Print + AllocGlobal>(rt: &R, names: &[String]) -> Result<bool, Fault> {
    let names: Vec<&str> = names.iter().map(String::as_str).collect(rt.alloc())?;
    let are_merges_right = are_merges_right(rt, &names)?;
    Ok(try_calls(rt, Rounds::UntilRight)? && are_merges_right)
}

fn run<R: Files + Print + Env + AllocGlobal>(rt: &R) -> Result<bool, Fault> {
    let words: Vec<String> = env::args(rt)?.collect(rt.alloc())?;
    match words.as_slice() {
        [] | [_] => Err(Fault::Words),
        [_, word] if word.as_str() == "once" => try_calls(rt, Rounds::One),
        [_, names @ ..] => are_all_right(rt, names),
    }
}

fn main(rt: HostRuntime) -> ExitCode {
    match run(&rt) {
        Ok(true) => ExitCode::SUCCESS,
        Ok(false) => ExitCode::FAILURE,
        Err(fault) => {
            let _ = eprintln!(rt; "dextrials: {fault}");
            ExitCode::from(fault.status())
        }
    }
}
