//! Slices in which files are written: `slices FILE MOST COUNT CANON`. The canonical file of FILE is written in at most
//! COUNT slices of at most MOST bytes each, which together are CANON.

ghost use Rattle.std.specs.Prelude.{false, []};

use crate::program::program_of;
use dexcanon::{StoreFault, write_to};
use dexcases::{CaseFault, Folder, Outcome, first_word, number};
use dexclass::Program;
use dexhead::{DeviceFault, Sink};
use std::alloc::Global;
use std::rt::Files;

// A writer that compares the slices with the right bytes.
#[derive(Drop)]
struct Slices<'a> {
    count: usize,
    longest: usize,
    // The right bytes that are still to come; `None` after other bytes came.
    rest: Option<&'a [u8]>,
}

impl<'a> Slices<'a> {
    fn of(right: &'a [u8]) -> Slices<'a> {
        Slices {
            count: 0,
            longest: 0,
            rest: Some(right),
        }
    }

    // Returns whether all right bytes came, and no others.
    fn are_whole(&self) -> bool {
        self.rest.is_some_and(<[u8]>::is_empty)
    }
}

impl Sink for Slices<'_> {
    ghost reports = { λ _. ⊥ };

    ghost taken = { λ _. [] };

    ghost has_failed = { λ _. false };

    fn failed(&self) -> bool {
        false
    }

    fn write(&mut self, bytes: &[u8]) -> Result<usize, DeviceFault> {
        self.count = self.count.saturating_add(1);
        self.longest = self.longest.max(bytes.len());
        self.rest = match self.rest {
            Some(rest) => rest.strip_prefix(bytes),
            None => None,
        };
        Ok(bytes.len())
    }
}

/// Runs a line. `case` is the text after the word of its kind.
pub fn run<R: Files + AllocGlobal>(
    folder: Folder<'_, R>,
    case: &str,
) -> Result<Outcome, CaseFault> {
    let (name, rest) = first_word(case)?;
    let (most, rest) = first_word(rest)?;
    let (count, right) = first_word(rest)?;
    let (most, count) = (number(most)?.parse()?, number(count)?.parse()?);
    let bytes = folder.read(name)?;
    let right = folder.read(right)?;
    let slices = slices_of(folder.alloc(), &bytes, &right)?;
    reported(folder.alloc(), &slices, most, count)
}

// Returns the outcome of a line with these slices: it passes if they are right, at most `count`, and at most `most`
// bytes each.
fn reported(
    alloc: Global,
    slices: &Slices<'_>,
    most: usize,
    count: usize,
) -> Result<Outcome, CaseFault> {
    if !slices.are_whole() {
        return Err(CaseFault::failed(alloc, "other bytes"));
    }
    if slices.longest <= most && slices.count <= count {
        return Ok(Outcome::Passed);
    }
    let Slices { count, longest, .. } = slices;
    Ok(Outcome::Failed(format!(in alloc; "{longest} {count}")?))
}

// Writes the canonical file of a file, and returns its slices, compared with the right bytes.
fn slices_of<'a>(alloc: Global, bytes: &[u8], right: &'a [u8]) -> Result<Slices<'a>, CaseFault> {
    let program = program_of(alloc, bytes)?;
    written(alloc, &program, right)
}

// Writes the canonical file of a program, and returns its slices, compared with the right bytes. The line fails if the
// writer is said to have failed, which it never does.
fn written<'a>(
    alloc: Global,
    program: &Program<'_>,
    right: &'a [u8],
) -> Result<Slices<'a>, CaseFault> {
    let mut out = Slices::of(right);
    match write_to(alloc, program, &mut out) {
        Ok(()) => Ok(out),
        Err(StoreFault::Memory) => Err(CaseFault::Memory),
        Err(StoreFault::Io) => Err(CaseFault::failed(alloc, "a fault of the writer")),
    }
}
