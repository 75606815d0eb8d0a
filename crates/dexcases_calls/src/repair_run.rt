//! Files repaired as the program does: `repairrun FILE ok REPAIRED`, where REPAIRED is the file with its checksum and
//! signature set right and nothing else changed, or `repairrun FILE fault CAUSE`.

use crate::run_answer::RunAnswer;
use dexcases::{CaseFault, Folder, Outcome, first_word};
use dexhead::Device;
use dexruns::repair_run;
use std::alloc::Global;
use std::rt::Files;

/// Runs a line. `case` is the text after the word of its kind.
pub fn run<R: Files + AllocGlobal>(
    folder: Folder<'_, R>,
    case: &str,
) -> Result<Outcome, CaseFault> {
    let (name, right) = first_word(case)?;
    let bytes = folder.read(name)?;
    let right = answer_in(folder, right)?;
    check(folder.alloc(), &bytes, &right)
}

// Returns the outcome of a line over these bytes.
fn check(alloc: Global, bytes: &[u8], right: &RunAnswer<'_>) -> Result<Outcome, CaseFault> {
    let mut input = Device::new(bytes);
    let mut out = Device::new(Vec::new(alloc));
    let returned = repair_run(alloc, &mut input, &mut out);
    right.outcome(alloc, &returned, out.into_inner().as_slice())
}

// Parses what is right.
fn answer_in<'a, R: Files + AllocGlobal>(
    folder: Folder<'_, R>,
    right: &'a str,
) -> Result<RunAnswer<'a>, CaseFault> {
    if let Some(repaired) = right.strip_prefix("ok ") {
        return Ok(RunAnswer::Written(folder.read(repaired)?));
    }
    match right.strip_prefix("fault ") {
        Some(cause) => Ok(RunAnswer::Cause(cause)),
        None => Err(CaseFault::Form),
    }
}
