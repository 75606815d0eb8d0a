//! Classes digested as the program does: `digestrun FILE ok CLASSES`, with the digest and the name of each class in
//! canonical order, all separated by tabs, or `-` if there is no class; or `digestrun FILE fault CAUSE`. The digests of
//! a program that is borrowed are the same. `digeststrip` is for the classes without debug programs and source texts.

use crate::program::program_of;
use crate::run_answer::RunAnswer;
use dexcanon::digests;
use dexcases::{CaseFault, Outcome, Printed};
use dexhead::Device;
use dexruns::{NameForm, digest_or_strip_run, digest_run, kept};
use std::alloc::{AllocError, Global};

/// Runs a line, given the name of the file, whether its classes are stripped, and its bytes. `right` is the text after
/// the name.
pub fn run(
    alloc: Global,
    name: &str,
    is_stripped: bool,
    bytes: &[u8],
    right: &str,
) -> Result<Outcome, CaseFault> {
    if let Some(classes) = right.strip_prefix("ok ") {
        if borrowed_digests(alloc, is_stripped, bytes)? != digests_in(alloc, classes)? {
            return Err(CaseFault::failed(alloc, "other digests"));
        }
    }
    let right = answer_in(alloc, name, right)?;
    let mut input = Device::new(bytes);
    let mut out = Device::new(Vec::new(alloc));
    let form = NameForm::Escaped;
    let returned = if is_stripped {
        digest_or_strip_run(alloc, form, name, true, &mut input, &mut out)
    } else {
        digest_run(alloc, form, name, &mut input, &mut out)
    };
    right.outcome(alloc, &returned, out.into_inner().as_slice())
}

// Parses what is right.
fn answer_in<'a>(alloc: Global, name: &str, right: &'a str) -> Result<RunAnswer<'a>, CaseFault> {
    if let Some(classes) = right.strip_prefix("ok ") {
        return Ok(RunAnswer::Written(lines_of(alloc, name, classes)?.into_bytes()));
    }
    match right.strip_prefix("fault ") {
        Some(cause) => Ok(RunAnswer::Cause(cause)),
        None => Err(CaseFault::Form),
    }
}

// Returns the lines of classes, given by their digests and names.
fn lines_of(alloc: Global, name: &str, classes: &str) -> Result<String, AllocError> {
    let mut lines = Printed::new(alloc);
    if classes == "-" {
        return lines.finish();
    }
    let mut is_digest = true;
    for part in classes.split('\t') {
        lines.add(part);
        lines.add("\t");
        if !is_digest {
            lines.add(name);
            lines.add("\n");
        }
        is_digest = !is_digest;
    }
    lines.finish()
}

// Returns the digests of the classes of a file, one after the other, by the call that borrows the program.
fn borrowed_digests(alloc: Global, is_stripped: bool, bytes: &[u8]) -> Result<String, CaseFault> {
    let program = kept(alloc, program_of(alloc, bytes)?, is_stripped)?;
    let mut text = Printed::new(alloc);
    for digest in &digests(alloc, &program)? {
        for byte in digest {
            text.add_hex(u64::from(*byte), 2);
        }
    }
    Ok(text.finish()?)
}

// Returns the digests of classes, one after the other, given by their digests and names.
fn digests_in(alloc: Global, classes: &str) -> Result<String, AllocError> {
    let mut text = Printed::new(alloc);
    for (i, part) in classes.split('\t').enumerate() {
        if i % 2 == 0 && part != "-" {
            text.add(part);
        }
    }
    text.finish()
}
