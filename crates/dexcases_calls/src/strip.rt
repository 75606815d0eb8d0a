//! Files stripped: `strip FILE CANON`, where CANON is the canonical file without debug programs and source texts.

ghost use Rattle.std.specs.Prelude.{◌≡◌, IfOk, IsTrue};
ghost use Rattle.dexspec.specs.Canonical.{canonical};
ghost use Rattle.dexspec.specs.Stripping.{strip_collection};
ghost use Rattle.dexcases_calls.specs.Reported.{Strips};

use crate::normalise::is_written_as;
use crate::program::program_of;
use dexcases::{CaseFault, Outcome};
use dexclass::{Program, strip};
use std::alloc::{AllocError, Global};

/// Runs a line, given the bytes of the file and of the canonical file of the stripped program.
pub fn run(alloc: Global, bytes: &[u8], right: &[u8]) -> Result<Outcome, CaseFault>
    ensures { IfOk result (λ outcome. outcome ≡ Outcome.Passed → Strips bytes.now right.now) }
{
    let program = program_of(alloc, bytes)?;
    if is_stripped_to(alloc, &program, right)? {
        return Ok(Outcome::Passed);
    }
    Err(CaseFault::failed(alloc, "other bytes"))
}

// Returns whether the canonical file of the stripped program has these bytes.
fn is_stripped_to(alloc: Global, program: &Program<'_>, right: &[u8]) -> Result<bool, AllocError>
    ensures { IfOk result (λ is. IsTrue is → right.now ≡ canonical (strip_collection program.now)) }
{
    let stripped = strip(alloc, program)?;
    is_written_as(alloc, &stripped, right)
}
