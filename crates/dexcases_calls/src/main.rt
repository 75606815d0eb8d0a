//! Runs files of right answers through the calls of the libraries, and prints the lines that fail.
//!
//! The arguments are the names of such files. `leb.txt`, `puts.txt`, `text.txt`, `names.txt`, `split.txt`,
//! `opcodes.txt`, `debug.txt`, `sums.txt` and `flags.txt` have a call on each line. An `index.txt` has a case on each
//! line, over files in its folder. A line that begins with `#` describes the lines after it. Lines are counted by kind;
//! a line that fails is printed whole, with its file and number.
//!
//! The status is 0 if no line failed, 1 if a line failed or a file cannot be read or has no case, 2 on a usage error, 4
//! if the output cannot be written or allocation failed.
#![tactic(auto)]

mod calls;
mod check;
mod check_run;
mod class;
mod count_run;
mod cuts;
mod devices;
mod digest_run;
mod dump;
mod files;
mod index;
mod join;
mod kind;
mod measure;
mod merge;
mod normalise;
mod open_plan;
mod plans;
mod pools;
mod program;
mod random;
mod regroup;
mod repair_run;
mod run_answer;
mod slices;
mod strip;
mod symbol;
mod weight;
mod words;

use kind::Kind;
use std::process::ExitCode;

fn main(rt: HostRuntime) -> ExitCode {
    dexcases::run::<Kind, HostRuntime>(&rt)
}
