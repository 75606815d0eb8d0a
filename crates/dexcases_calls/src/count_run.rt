//! Unions counted as the program does: `countrun files FILE.. is T P F M S W C N`, the numbers of types, protos,
//! fields, methods, short strings, weight, classes and strings of the union of the files, or `.. is CAUSE`. `-` denotes
//! no files. One file alone has the same numbers in one line.

use crate::devices::devices;
use crate::files::files_of;
use crate::run_answer::RunAnswer;
use dexcases::{CaseFault, Folder, Outcome, Printed};
use dexhead::Device;
use dexruns::{Leftover, NameForm, count_file_run, count_run};
use std::alloc::{AllocError, Global};
use std::rt::Files;

// The text before and after the number of each line.
const LINES: [(&str, &str); 8] = [
    ("types ", " of 65535\n"),
    ("protos ", " of 65535\n"),
    ("fields ", " of 65536\n"),
    ("methods ", " of 65536\n"),
    ("short-strings ", " of 65536\n"),
    ("weight ", " of 1073741824\n"),
    ("classes ", "\n"),
    ("strings ", "\n"),
];

/// Runs a line. `case` is the text after the word of its kind.
pub fn run<R: Files + AllocGlobal>(
    folder: Folder<'_, R>,
    case: &str,
) -> Result<Outcome, CaseFault> {
    let files = case.strip_prefix("files ").ok_or(CaseFault::Form)?;
    let (names, right) = files.split_once(" is ").ok_or(CaseFault::Form)?;
    let files = files_of(folder, names)?;
    run_over(folder.alloc(), &files, right)
}

/// Counts the union of files, and returns the outcome of a line with this right answer.
pub fn run_over(alloc: Global, files: &[Vec<u8>], right: &str) -> Result<Outcome, CaseFault> {
    match run_together(alloc, files, right)? {
        Outcome::Passed => match files {
            [file] => run_alone(alloc, file.as_slice(), right),
            _ => Ok(Outcome::Passed),
        },
        failed => Ok(failed),
    }
}

// The name of a file that is counted alone.
const NAME: &str = "a b";

// Counts a file alone.
fn run_alone(alloc: Global, file: &[u8], right: &str) -> Result<Outcome, CaseFault> {
    let right = if are_counts(right) {
        RunAnswer::Written(line_of(alloc, right)?.into_bytes())
    } else {
        RunAnswer::Cause(right)
    };
    let mut input = Device::new(file);
    let mut out = Device::new(Vec::new(alloc));
    let returned = count_file_run(alloc, NameForm::Escaped, NAME, &mut input, &mut out);
    right.outcome(alloc, &returned, out.into_inner().as_slice())
}

// Counts the union of files.
fn run_together(alloc: Global, files: &[Vec<u8>], right: &str) -> Result<Outcome, CaseFault> {
    let right = answer_in(alloc, right)?;
    let mut inputs = devices(alloc, files)?;
    let mut out = Device::new(Vec::new(alloc));
    let returned = count_run(alloc, inputs.as_mut_slice(), &mut out, Leftover::Dropped);
    right.outcome(alloc, &returned, out.into_inner().as_slice())
}

// Returns whether what is right is counts, and no cause.
fn are_counts(right: &str) -> bool {
    right.starts_with(|letter: char| letter.is_ascii_digit())
}

// Parses what is right.
fn answer_in(alloc: Global, right: &str) -> Result<RunAnswer<'_>, CaseFault> {
    if are_counts(right) {
        return Ok(RunAnswer::Written(lines_of(alloc, right)?.into_bytes()));
    }
    Ok(RunAnswer::Cause(right))
}

// Returns the lines of these numbers, one for each.
fn lines_of(alloc: Global, counts: &str) -> Result<String, CaseFault> {
    if counts.split(' ').count() != LINES.len() {
        return Err(CaseFault::Form);
    }
    let mut lines = Printed::new(alloc);
    for ((name, cap), count) in LINES.iter().zip(counts.split(' ')) {
        lines.add(name);
        lines.add(count);
        lines.add(cap);
    }
    Ok(lines.finish()?)
}

// Returns the line of a file with these numbers.
fn line_of(alloc: Global, counts: &str) -> Result<String, AllocError> {
    let mut line = Printed::new(alloc);
    for count in counts.split(' ') {
        line.add(count);
        line.add("\t");
    }
    line.add(NAME);
    line.add("\n");
    line.finish()
}
