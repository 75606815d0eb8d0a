//! Files normalised: `normalise FILE CANON`. The canonical file is built in memory, a copy of the program is written to
//! a device, the length is that of the layout, and the run over devices writes the same file.

ghost use Rattle.std.specs.Prelude.{◌≡◌, IfOk, IsTrue};
ghost use Rattle.dexspec.specs.Canonical.{canonical};
ghost use Rattle.dexcases_calls.specs.Reported.{Normalises};

use crate::program::program_of;
use dexcanon::{Layout, StoreFault, to_bytes, write_to};
use dexcases::{CaseFault, Outcome};
use dexclass::Program;
use dexhead::Device;
use dexruns::{Leftover, RunFault, normalise_run};
use std::alloc::{AllocError, Global};

/// Runs a line, given the bytes of the file and of its canonical file.
pub fn run(alloc: Global, bytes: &[u8], right: &[u8]) -> Result<Outcome, CaseFault>
    ensures { IfOk result (λ outcome. outcome ≡ Outcome.Passed → Normalises bytes.now right.now) }
{
    if is_written_by_the_run(alloc, bytes, right)? {
        return built(alloc, bytes, right);
    }
    Err(CaseFault::failed(alloc, "other bytes by the run"))
}

// Returns the outcome of a line whose run writes the right bytes: it passes if the program is built and written as them.
fn built(alloc: Global, bytes: &[u8], right: &[u8]) -> Result<Outcome, CaseFault>
    ensures { IfOk result (λ outcome. outcome ≡ Outcome.Passed → Normalises bytes.now right.now) }
{
    let program = program_of(alloc, bytes)?;
    if is_canonical(alloc, &program, right)? {
        return Ok(Outcome::Passed);
    }
    Err(CaseFault::failed(alloc, "other bytes"))
}

// Returns whether the run over devices writes these bytes for a file.
fn is_written_by_the_run(alloc: Global, bytes: &[u8], right: &[u8]) -> Result<bool, CaseFault> {
    let mut input = Device::new(bytes);
    let mut out = Device::new(Vec::new(alloc));
    match normalise_run(alloc, &mut input, &mut out, Leftover::Dropped) {
        Ok(()) => Ok(out.into_inner().as_slice() == right),
        Err(RunFault::Memory) => Err(CaseFault::Memory),
        Err(_) => Ok(false),
    }
}

// Returns whether a copy of the program is written to a device as these bytes, and the program is built as them.
fn is_canonical(alloc: Global, program: &Program<'_>, right: &[u8]) -> Result<bool, AllocError>
    ensures { IfOk result (λ is. IsTrue is → right.now ≡ canonical program.now) }
{
    if !is_given_copied(alloc, program, right)? || !is_as_long(alloc, program, right)? {
        return Ok(false);
    }
    is_written_as(alloc, program, right)
}

/// Returns whether the canonical file of the program has these bytes.
pub fn is_written_as(alloc: Global, program: &Program<'_>, right: &[u8]) -> Result<bool, AllocError>
    ensures { IfOk result (λ is. IsTrue is → right.now ≡ canonical program.now) }
{
    let written = to_bytes(alloc, program)?;
    Ok(right == written.as_slice())
}

// Returns whether the layout of the program has the length of these bytes.
fn is_as_long(alloc: Global, program: &Program<'_>, right: &[u8]) -> Result<bool, AllocError> {
    let layout = Layout::of(alloc, program)?;
    Ok(layout.len() as usize == right.len())
}

// Returns whether a copy of the program is written to a device as these bytes.
fn is_given_copied(alloc: Global, program: &Program<'_>, right: &[u8]) -> Result<bool, AllocError> {
    let copy = program.copy()?;
    is_given(alloc, &copy, right)
}

// Returns whether the program is written to a device as these bytes.
fn is_given(alloc: Global, program: &Program<'_>, right: &[u8]) -> Result<bool, AllocError> {
    let mut out = Device::new(Vec::new(alloc));
    match write_to(alloc, program, &mut out) {
        Ok(()) => Ok(out.into_inner().as_slice() == right),
        Err(StoreFault::Memory) => Err(AllocError),
        Err(StoreFault::Io) => Ok(false),
    }
}
