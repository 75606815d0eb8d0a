//! Reads the programs of files.

ghost use Rattle.std.specs.Prelude.{IfOk};
ghost use Rattle.dexclass.specs.Programs.{IsReadAs};

use dexcases::CaseFault;
use dexclass::{Program, read};
use dexhead::Refusal;
use dexpool::ReadFault;
use std::alloc::Global;

/// Reads the program of a file. A line whose file is refused fails, and the refusal is printed.
pub fn program_of(alloc: Global, bytes: &[u8]) -> Result<Program<'_>, CaseFault>
    ensures { IfOk result (IsReadAs bytes.now) }
{
    match read(alloc, bytes) {
        Ok(program) => Ok(program),
        Err(ReadFault::Refused(Refusal { number, place })) => Err(CaseFault::Failed(
            format!(in alloc; "refused {number} {place}")?,
        )),
        Err(ReadFault::Memory) => Err(CaseFault::Memory),
    }
}
