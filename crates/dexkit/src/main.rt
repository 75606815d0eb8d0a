//! The program `dexkit`: checks, lists, normalises, merges, repairs and counts DEX files, and writes digests of their
//! classes.
//!
//! Its arguments are those of `dexargs`, with lists of arguments expanded, and what it does for them is `run_named` of
//! `dexcmd`, over the devices of the system. The exit status is 0 if all was done, or help or the version was asked
//! for, 1 if a file or a merge was refused, 2 for a usage error, 3 if input or output failed, and 4 if it ran out of
//! memory.
#![tactic(auto)]

ghost use Rattle.std.specs.Prelude.{[], ◌≡◌, ◌≢◌, ◌⊎◌, IfOk};
ghost use Rattle.clap.specs.Values.{kind_of};
ghost use Rattle.clap.specs.declared.error.kind.ErrorKind.TheVariants.{DisplayHelp, DisplayVersion};
ghost use Rattle.dexcmd.specs.Reports.{IsReport};

use clap::Error;
use clap::error::ErrorKind;
use dexargs::{MEANINGS, REMEDIES, is_verbose};
use dexcmd::{
    DeviceError, ExitStatus, ListsFault, Reasons, Remedies, Report, SystemDevices, ending_of,
    expand_arguments, explain_argument, explain_lists, explain_output, print_report, read_words,
    run_named,
};
use dexhead::Device;
use std::alloc::{AllocError, Global};
use std::env::FillError;
use std::io::Input;
use std::process::ExitCode;
use std::rt::{Env, Files};
use std::str::from_utf8;
use std::{env, io};

// What is said of each condition.
fn remedies() -> Remedies<'static> {
    Remedies {
        meanings: &MEANINGS,
        remedies: &REMEDIES,
    }
}

// The reason of one input.
fn reason_of_input(alloc: Global, error: Option<DeviceError>) -> Result<Reasons, AllocError> {
    let mut reasons = Reasons::new(alloc);
    reasons.add_input(alloc, error)?;
    Ok(reasons)
}

// The reason of an output.
fn reason_of_output(alloc: Global, error: Option<DeviceError>) -> Result<Reasons, AllocError> {
    let mut reasons = Reasons::new(alloc);
    reasons.set_output(alloc, error)?;
    Ok(reasons)
}

// Prints why there is no job: the help, the version or the fault of a usage. The status is 2 for a usage, 0 where the help
// or the version was printed, and 3 where it could not be.
fn explain<R: Print + Eprint>(
    rt: &R,
    alloc: Global,
    error: &Error,
    is_verbose: bool,
) -> Result<Report, AllocError>
    ensures usage { kind_of error.now ≢ DisplayHelp → kind_of error.now ≢ DisplayVersion
        → IfOk result (IsReport 2 []) }
    ensures shown { (kind_of error.now ≡ DisplayHelp) ⊎ (kind_of error.now ≡ DisplayVersion)
        → IfOk result (λ report. (report.status ≡ 0) ⊎ (report.status ≡ 3)) }
{
    if error.kind() == ErrorKind::OutOfMemory {
        return Err(AllocError);
    }
    let printed = error.print(rt);
    if error.use_stderr() {
        return Ok(Report::of_status(alloc, ExitStatus::Usage));
    }
    match printed {
        Ok(()) => Ok(Report::of_status(alloc, ExitStatus::Done)),
        Err(error) => {
            let report = explain_output(alloc, error.kind() == io::ErrorKind::BrokenPipe)?;
            if !is_verbose {
                return Ok(report);
            }
            let reasons = reason_of_output(alloc, Some(DeviceError::of(error)));
            Ok(report.explained_or_plain(alloc, reasons, &remedies()))
        }
    }
}

// Reports why arguments were not expanded.
fn explain_unread(
    alloc: Global,
    fault: ListsFault<'_>,
    is_verbose: bool,
) -> Result<Report, AllocError> {
    let report = explain_lists(alloc, fault)?;
    if !is_verbose {
        return Ok(report);
    }
    let reasons = reason_of_input(alloc, fault.error());
    Ok(report.explained_or_plain(alloc, reasons, &remedies()))
}

// Does what the arguments ask for.
fn start<R: Files + Print + Eprint + Input>(
    rt: &R,
    alloc: Global,
    arguments: &[String],
) -> Result<Report, AllocError> {
    let devices = SystemDevices::new(rt);
    let ending = ending_of(arguments);
    let expanded = match expand_arguments(alloc, &devices, ending, arguments) {
        Ok(expanded) => expanded,
        Err(fault) => return explain_unread(alloc, fault, is_verbose(arguments)),
    };
    let words: Vec<&str> = expanded.iter().map(String::as_str).collect(alloc)?;
    match read_words(alloc, &words, ending) {
        Ok(job) => {
            let all = remedies();
            let remedies = is_verbose(&expanded).then_some(&all);
            run_named(alloc, &devices, &job, remedies)
        }
        Err(error) => explain(rt, alloc, &error, is_verbose(&expanded)),
    }
}

// Returns whether an argument is UTF-8, if there is one with this number.
fn is_text(rt: &impl Env, alloc: Global, i: usize) -> Result<Option<bool>, AllocError> {
    let mut room: usize = 256;
    for _ in 0..usize::BITS {
        let mut bytes = vec![in alloc; 0u8; room]?;
        match rt.arg(i, bytes.as_mut_slice()) {
            Ok(len) => return Ok(Some(from_utf8(&bytes[..len]).is_ok())),
            Err(FillError::NotPresent) => return Ok(None),
            Err(FillError::TooLong) => room = room.saturating_mul(2),
        }
    }
    Err(AllocError)
}

// The number of the first argument that is not UTF-8; the program's name has the number 0.
fn first_bad(rt: &impl Env, alloc: Global) -> Result<usize, AllocError> {
    let mut number = 0;
    for i in 0..usize::MAX {
        number = i;
        if is_text(rt, alloc, i)? != Some(true) {
            break;
        }
    }
    Ok(number)
}

// Does what the command line asks for.
fn run(rt: &HostRuntime) -> Result<Report, AllocError> {
    let alloc = rt.alloc();
    match env::args(rt) {
        Ok(mut args) => {
            let _name = args.next();
            let arguments: Vec<String> = args.collect(alloc)?;
            start(rt, alloc, arguments.as_slice())
        }
        Err(error) if error.kind() == io::ErrorKind::InvalidData => {
            explain_argument(alloc, first_bad(rt, alloc)?)
        }
        Err(_) => Err(AllocError),
    }
}

fn main(rt: HostRuntime) -> ExitCode {
    let report = run(&rt);
    let mut err = Device::new(rt.stderr());
    ExitCode::from(print_report(rt.alloc(), &report, &mut err))
}
