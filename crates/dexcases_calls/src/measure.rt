//! Unions measured: `measure files FILE.. is T P F M S W C N`, the numbers of types, protos, fields, methods, short
//! strings, weight, classes and strings of the union of the files, or `.. is conflict CLASS`, `.. is cycle CLASS`. `-`
//! denotes no files. The programs are measured, and then devices over the files are counted as the program does.

use crate::count_run;
use crate::files::files_of;
use crate::merge::{cause_in, cause_text, programs_of};
use dexcases::{CaseFault, Folder, Outcome};
use dexclass::Program;
use dexmerge::{Counts, measure};
use std::alloc::{AllocError, Global};
use std::rt::Files;

/// Runs a line. `case` is the text after the word of its kind.
pub fn run<R: Files + AllocGlobal>(
    folder: Folder<'_, R>,
    case: &str,
) -> Result<Outcome, CaseFault> {
    let files = case.strip_prefix("files ").ok_or(CaseFault::Form)?;
    let (names, right) = files.split_once(" is ").ok_or(CaseFault::Form)?;
    let files = files_of(folder, names)?;
    check_files(folder.alloc(), &files, right)
}

// Returns the outcome of a line over these files.
fn check_files(alloc: Global, files: &[Vec<u8>], right: &str) -> Result<Outcome, CaseFault> {
    match Outcome::of(measured_files(alloc, files)?, right) {
        Outcome::Passed => count_run::run_over(alloc, files, right),
        failed => Ok(failed),
    }
}

// Returns the counts of the union of files, or the cause.
fn measured_files(alloc: Global, files: &[Vec<u8>]) -> Result<String, CaseFault> {
    let programs = programs_of(alloc, files)?;
    Ok(measured(alloc, &programs)?)
}

// Returns the counts of a union, or the cause.
fn measured(alloc: Global, programs: &[Program<'_>]) -> Result<String, AllocError> {
    let mut parts = Vec::new(alloc);
    for program in programs {
        parts.push(program)?;
    }
    match measure(alloc, &parts) {
        Ok(counts) => text_of(alloc, counts),
        Err(fault) => cause_text(alloc, &cause_in(fault)?),
    }
}

// Returns the counts as a line has them.
fn text_of(alloc: Global, counts: Counts) -> Result<String, AllocError> {
    let Counts {
        types,
        protos,
        fields,
        methods,
        short_strings,
        weight,
        classes,
        strings,
    } = counts;
    format!(in alloc;
        "{types} {protos} {fields} {methods} {short_strings} {weight} {classes} {strings}"
    )
}
