//! The program: it runs the files that the command line names.

use crate::cases::Cases;
use crate::fault::CaseFault;
use crate::file::run_file;
use crate::tally::Tally;
use std::env;
use std::process::ExitCode;
use std::rt::{Env, Files};

/// Runs the files that the command line names, and returns the exit status: 0 if no line failed, 1 if a line failed or
/// a file cannot be read or has no case, 2 on a usage error, 4 if the output cannot be written or allocation failed.
pub fn run<K: Cases, R: Files + Print + Eprint + Env + AllocGlobal>(rt: &R) -> ExitCode {
    match run_files::<K, R>(rt) {
        Ok(all) if all.failed() == 0 => ExitCode::SUCCESS,
        Ok(_) => ExitCode::FAILURE,
        Err(fault) => {
            let program = K::PROGRAM;
            let _ = eprintln!(rt; "{program}: {fault}");
            ExitCode::from(fault.status())
        }
    }
}

// Runs each file that the command line names, and adds up the tallies.
fn run_files<K: Cases, R: Files + Print + Env + AllocGlobal>(rt: &R) -> Result<Tally, CaseFault> {
    let words: Vec<String> = env::args(rt)?.collect(rt.alloc())?;
    match words.as_slice() {
        [] | [_] => Err(CaseFault::Words(K::WORDS)),
        [_, names @ ..] => run_named::<K, R>(rt, names),
    }
}

// Runs each file of these names, and adds up the tallies.
fn run_named<K: Cases, R: Files + Print + AllocGlobal>(
    rt: &R,
    names: &[String],
) -> Result<Tally, CaseFault> {
    let mut all = Tally::default();
    for name in names {
        all = all.with(run_file::<K, R>(rt, name.as_str())?);
    }
    println!(rt; "all: {all}")?;
    Ok(all)
}
