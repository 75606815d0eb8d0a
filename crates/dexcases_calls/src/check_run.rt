//! Files checked as the program does: `checkrun FILE STATUS LINE`, with the status and the line that is written for the
//! file.

use dexcases::{CaseFault, Outcome, first_word, number};
use dexhead::Device;
use dexruns::{ConditionSet, NameForm, RunFault, check_run};
use std::alloc::Global;

/// Runs a line, given the name of the file and its bytes. `right` is the text after the name.
pub fn run(alloc: Global, name: &str, bytes: &[u8], right: &str) -> Result<Outcome, CaseFault> {
    let (status, line) = first_word(right)?;
    if is_checked_as(alloc, name, bytes, number(status)?.parse()?, line)? {
        return Ok(Outcome::Passed);
    }
    Err(CaseFault::failed(alloc, "another line or status"))
}

// Returns whether the check of a file of this name has this status, and writes this line only.
fn is_checked_as(
    alloc: Global,
    name: &str,
    bytes: &[u8],
    right: u8,
    line: &str,
) -> Result<bool, CaseFault> {
    let mut inputs = [Device::new(bytes)];
    let mut out = Device::new(Vec::new(alloc));
    let mut conditions = ConditionSet::new();
    match check_run(
        alloc,
        NameForm::Escaped,
        &[name],
        &mut inputs,
        &mut out,
        &mut conditions,
    ) {
        Ok(status) => Ok(status == right && is_line(out.into_inner().as_slice(), line)),
        Err(RunFault::Memory) => Err(CaseFault::Memory),
        Err(_) => Ok(false),
    }
}

// Returns whether bytes are a line, with its line feed.
fn is_line(bytes: &[u8], line: &str) -> bool {
    bytes.strip_suffix(b"\n") == Some(line.as_bytes())
}
