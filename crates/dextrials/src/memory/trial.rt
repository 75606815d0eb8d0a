//! What came of a call.

ghost use Rattle.std.specs.Prelude.{false, []};

use dexhead::{DeviceFault, Sink};
use dexruns::RunFault;
use std::alloc::{AllocError, AllocFailed};
use std::fmt;

/// What came of a call.
#[derive(Clone, Copy, PartialEq, Eq)]
pub enum Trial {
    /// The right bytes.
    Right,
    /// It is out of memory, and nothing is written.
    Memory,
    /// Anything else.
    Wrong,
}

impl Trial {
    /// What came of a run, given what it returned and its writer.
    pub fn of_run(answer: &Result<(), RunFault>, out: &Compare<'_>) -> Trial {
        match answer {
            Ok(()) if out.is_whole() => Trial::Right,
            Err(RunFault::Memory) if out.is_uncalled() => Trial::Memory,
            _ => Trial::Wrong,
        }
    }

    /// What came of a call that returns bytes, where these are right.
    pub fn of_bytes(answer: &Result<Vec<u8>, AllocError>, right: &[u8]) -> Trial {
        match answer {
            Ok(bytes) if bytes.as_slice() == right => Trial::Right,
            Ok(_) => Trial::Wrong,
            Err(_) => Trial::Memory,
        }
    }
}

impl From<AllocError> for Trial {
    fn from(_error: AllocError) -> Trial {
        Trial::Memory
    }
}

impl<T: Drop> From<AllocFailed<T>> for Trial {
    fn from(_error: AllocFailed<T>) -> Trial {
        Trial::Memory
    }
}

impl fmt::Display for Trial {
    fn fmt<W: fmt::Write>(&self, f: &mut fmt::Formatter<W>) -> fmt::Result {
        f.write_str(match self {
            Trial::Right => "right",
            Trial::Memory => "out of memory with nothing written",
            Trial::Wrong => "wrong",
        })
    }
}

/// A writer that compares what it is given with the right bytes, and takes no memory.
#[derive(Drop)]
pub struct Compare<'a> {
    // The right bytes that are still to come; `None` after others came.
    rest: Option<&'a [u8]>,
    calls: usize,
}

impl<'a> Compare<'a> {
    /// A writer to which nothing was written yet.
    pub fn with(right: &'a [u8]) -> Compare<'a> {
        Compare {
            rest: Some(right),
            calls: 0,
        }
    }

    // Returns whether all the right bytes came, and no others.
    fn is_whole(&self) -> bool {
        match self.rest {
            Some(rest) => rest.is_empty(),
            None => false,
        }
    }

    // Returns whether it was never called.
    fn is_uncalled(&self) -> bool {
        self.calls == 0
    }
}

impl Sink for Compare<'_> {
    ghost reports = { λ _. ⊥ };

    ghost taken = { λ _. [] };

    ghost has_failed = { λ _. false };

    fn failed(&self) -> bool {
        false
    }

    fn write(&mut self, bytes: &[u8]) -> Result<usize, DeviceFault> {
        self.calls = self.calls.saturating_add(1);
        self.rest = match self.rest {
            Some(rest) => rest.strip_prefix(bytes),
            None => None,
        };
        Ok(bytes.len())
    }
}
