//! Files weighed: `weight FILE WEIGHT`.

ghost use Rattle.std.specs.Prelude.{◌≡◌, IfOk, IsTrue};
ghost use Rattle.dexspec.specs.Files.{definitions};
ghost use Rattle.dexspec.specs.Weight.{weight};
ghost use Rattle.dexcases_calls.specs.Reported.{Weighs};

use crate::program::program_of;
use dexcases::{CaseFault, Outcome, number};
use dexclass::Program;
use std::alloc::Global;

/// Runs a line. `right` is the text after the file's name.
pub fn run(alloc: Global, bytes: &[u8], right: &str) -> Result<Outcome, CaseFault> {
    weighed(alloc, bytes, number(right)?.parse()?)
}

// Returns the outcome of a line: it passes if the classes of its file have this weight.
fn weighed(alloc: Global, bytes: &[u8], right: u64) -> Result<Outcome, CaseFault>
    ensures { IfOk result (λ outcome. outcome ≡ Outcome.Passed → Weighs bytes.now right) }
{
    let program = program_of(alloc, bytes)?;
    if weighs(&program, right) {
        return Ok(Outcome::Passed);
    }
    Err(other_weight(alloc, program.weight()))
}

// Returns the fault that the weight of the classes is another.
fn other_weight(alloc: Global, weight: u64) -> CaseFault {
    match format!(in alloc; "{weight}") {
        Ok(weight) => CaseFault::Failed(weight),
        Err(_) => CaseFault::Memory,
    }
}

// Returns whether the classes of a program have this weight.
fn weighs(program: &Program<'_>, right: u64) -> bool
    ensures { IsTrue result → right ≡ weight (definitions program.now) }
{
    right == program.weight()
}
