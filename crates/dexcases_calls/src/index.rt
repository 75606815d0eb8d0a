//! Lines of an index: cases over the files in its folder. `wrong LINE returns TEXT` is a line that must fail: what is
//! printed of it is TEXT.

use crate::kind::Kind;
use crate::{
    check, check_run, class, count_run, cuts, digest_run, dump, join, measure, merge, normalise,
    regroup, repair_run, slices, strip, symbol, weight,
};
use dexcases::{CaseFault, Cases, Folder, Outcome, first_word};
use std::alloc::Global;
use std::rt::Files;

/// Runs a line of the index of a folder. `case` is the text after the word of its kind.
pub fn run_case<R: Files + AllocGlobal>(
    folder: Folder<'_, R>,
    kind: Kind,
    case: &str,
) -> Result<Outcome, CaseFault> {
    match kind {
        Kind::Wrong => run_wrong(folder, case),
        _ => run_right(folder, kind, case),
    }
}

// Runs a line that must fail.
fn run_wrong<R: Files + AllocGlobal>(
    folder: Folder<'_, R>,
    case: &str,
) -> Result<Outcome, CaseFault> {
    let (line, right) = case.split_once(" returns ").ok_or(CaseFault::Form)?;
    let (word, case) = first_word(line)?;
    let answered = match run_right(folder, Kind::of_case(word), case) {
        Err(CaseFault::Form) => String::from_str(folder.alloc(), "not a line of this kind")?,
        Ok(Outcome::Failed(answered)) | Err(CaseFault::Failed(answered)) => answered,
        Ok(Outcome::Passed) => String::from_str(folder.alloc(), "nothing: it passed")?,
        Err(fault) => return Err(fault),
    };
    Ok(Outcome::of(answered, right))
}

// Runs a line that must pass.
fn run_right<R: Files + AllocGlobal>(
    folder: Folder<'_, R>,
    kind: Kind,
    case: &str,
) -> Result<Outcome, CaseFault> {
    match kind {
        Kind::Merge => merge::run(folder, case),
        Kind::MergeStrip => merge::run_stripped(folder, case),
        Kind::Measure => measure::run(folder, case),
        Kind::CountRun => count_run::run(folder, case),
        Kind::RepairRun => repair_run::run(folder, case),
        Kind::Join => join::run(folder, case),
        Kind::Regroup => regroup::run(folder, case),
        Kind::Slices => slices::run(folder, case),
        Kind::Wrong | Kind::Unknown => Err(CaseFault::Form),
        _ => run_over_file(folder, kind, case),
    }
}

// Runs a line whose first word is the name of a file.
fn run_over_file<R: Files + AllocGlobal>(
    folder: Folder<'_, R>,
    kind: Kind,
    case: &str,
) -> Result<Outcome, CaseFault> {
    let (name, asked) = first_word(case)?;
    let bytes = folder.read(name)?;
    match kind {
        Kind::Normalise | Kind::Strip | Kind::Dump => compare(folder, kind, &bytes, asked),
        Kind::CheckRun => check_run::run(folder.alloc(), name, &bytes, asked),
        Kind::DigestRun => digest_run::run(folder.alloc(), name, false, &bytes, asked),
        Kind::DigestStrip => digest_run::run(folder.alloc(), name, true, &bytes, asked),
        _ => ask(folder.alloc(), kind, &bytes, asked),
    }
}

// Runs a line that names a file and the file that the call must give.
fn compare<R: Files + AllocGlobal>(
    folder: Folder<'_, R>,
    kind: Kind,
    bytes: &[u8],
    right: &str,
) -> Result<Outcome, CaseFault> {
    let right = folder.read(right)?;
    match kind {
        Kind::Normalise => normalise::run(folder.alloc(), bytes, &right),
        Kind::Strip => strip::run(folder.alloc(), bytes, &right),
        Kind::Dump => dump::run(folder.alloc(), bytes, &right),
        _ => Err(CaseFault::Form),
    }
}

// Runs a line over one file.
fn ask(alloc: Global, kind: Kind, bytes: &[u8], asked: &str) -> Result<Outcome, CaseFault> {
    match kind {
        Kind::Check => check::run(alloc, bytes, asked),
        Kind::Cuts => cuts::run(alloc, bytes, asked),
        Kind::Symbol => symbol::run(alloc, bytes, asked),
        Kind::Weight => weight::run(alloc, bytes, asked),
        Kind::Class => class::run(alloc, bytes, asked),
        _ => Err(CaseFault::Form),
    }
}
