//! Right answers of runs over devices: bytes that are written, or a cause that is reported while nothing is written.

use crate::merge::cause_text;
use dexcases::{CaseFault, Outcome};
use dexhead::Refusal;
use dexruns::RunFault;
use std::alloc::{AllocError, Global};

/// The right answer of a run.
#[derive(Drop)]
pub enum RunAnswer<'a> {
    /// These bytes are written.
    Written(Vec<u8>),
    /// This cause is reported: `input I refused NUMBER PLACE`, `conflict CLASS` or `cycle CLASS`.
    Cause(&'a str),
}

impl RunAnswer<'_> {
    /// Returns the outcome of a line, given what its run returned and wrote.
    pub fn outcome(
        &self,
        alloc: Global,
        returned: &Result<(), RunFault>,
        written: &[u8],
    ) -> Result<Outcome, CaseFault> {
        match returned {
            Ok(()) => Ok(self.outcome_of_bytes(alloc, written)?),
            Err(RunFault::Memory) => Err(CaseFault::Memory),
            Err(_) if !written.is_empty() => Err(CaseFault::failed(alloc, "bytes and a fault")),
            Err(fault) => Ok(self.outcome_of_fault(alloc, fault)?),
        }
    }

    // Returns the outcome of a line whose run wrote these bytes.
    fn outcome_of_bytes(&self, alloc: Global, written: &[u8]) -> Result<Outcome, AllocError> {
        match self {
            RunAnswer::Written(right) if right.as_slice() == written => Ok(Outcome::Passed),
            RunAnswer::Written(_) => Outcome::failed(alloc, "other bytes"),
            RunAnswer::Cause(_) => Outcome::failed(alloc, "no fault"),
        }
    }

    // Returns the outcome of a line whose run reported this fault.
    fn outcome_of_fault(&self, alloc: Global, fault: &RunFault) -> Result<Outcome, AllocError> {
        let cause = fault_text(alloc, fault)?;
        match self {
            RunAnswer::Cause(right) => Ok(Outcome::of(cause, *right)),
            RunAnswer::Written(_) => Ok(Outcome::Failed(cause)),
        }
    }
}

// Returns a fault as a line has it.
fn fault_text(alloc: Global, fault: &RunFault) -> Result<String, AllocError> {
    match fault {
        RunFault::Input(i, Refusal { number, place }) => {
            format!(in alloc; "input {i} refused {number} {place}")
        }
        RunFault::Merge(cause) => cause_text(alloc, cause),
        _ => String::from_str(alloc, "another fault"),
    }
}
