//! Why the program ends, and what does not hold of a merge.

use std::alloc::{AllocError, AllocFailed};
use std::io;
use thiserror::Error;

/// Why the program ends.
#[derive(Debug, Drop, Error)]
pub enum Fault {
    /// Usage error: no file is named.
    #[error("usage: dextrials FILE.. | once")]
    Words,
    /// A file cannot be read.
    #[error("{name}: cannot be read: {error}")]
    File {
        name: String,
        error: io::Error,
    },
    /// A file is refused, by a condition at a place.
    #[error("{name}: refused {number} {place}")]
    Refused {
        name: String,
        number: u8,
        place: u32,
    },
    /// The output cannot be written.
    #[error("{0}")]
    Output(io::Error),
    #[error("out of memory")]
    Memory,
}

impl Fault {
    /// Returns the exit status of the program.
    pub fn status(&self) -> u8 {
        match self {
            Fault::Words => 2,
            Fault::File { .. } | Fault::Refused { .. } => 3,
            Fault::Output(_) | Fault::Memory => 4,
        }
    }
}

impl From<io::Error> for Fault {
    fn from(error: io::Error) -> Fault {
        Fault::Output(error)
    }
}

impl From<AllocError> for Fault {
    fn from(_error: AllocError) -> Fault {
        Fault::Memory
    }
}

impl<T: Drop> From<AllocFailed<T>> for Fault {
    fn from(_error: AllocFailed<T>) -> Fault {
        Fault::Memory
    }
}

/// What does not hold of a merge.
#[derive(Clone, Copy, Debug, PartialEq, Eq, Drop, Error)]
pub enum Trouble {
    #[error("merged at once in another order, the files give something else")]
    Order,
    #[error("merged by the plan, the files give something else")]
    Plan,
    #[error("the cause that is reported for the plan is of no files that it merges by themselves")]
    Cause,
    #[error("the plan is refused, or a device fails")]
    Run,
    #[error("the files do not merge under caps of what they need")]
    Needed,
    #[error("the files merge under a cap of less than what they need, or another cause is reported")]
    Exceeded,
    #[error("under caps another cause is reported than without")]
    First,
    #[error("stripped before they are merged, the files give something else")]
    Before,
    #[error("stripped between two merges, the files give something else")]
    Between,
    #[error("stripped twice, they give something else")]
    Twice,
    #[error("out of memory")]
    Memory,
}

impl Trouble {
    /// Returns this trouble as an error unless the condition holds.
    pub fn unless(self, holds: bool) -> Result<(), Trouble> {
        if holds { Ok(()) } else { Err(self) }
    }
}

impl From<AllocError> for Trouble {
    fn from(_error: AllocError) -> Trouble {
        Trouble::Memory
    }
}

impl<T: Drop> From<AllocFailed<T>> for Trouble {
    fn from(_error: AllocFailed<T>) -> Trouble {
        Trouble::Memory
    }
}
