//! Why the program ends, or a line is not run.

use hex::FromHexError;
use std::alloc::{AllocError, AllocFailed, Global};
use std::num::ParseIntError;
use std::{fmt, io};
use thiserror::Error;

/// Why the program ends, or a line is not run.
#[derive(Debug, Drop, Error)]
pub enum CaseFault {
    /// Usage error: an argument is not the name of a file of right answers. The text lists these names.
    #[error("usage: {0}")]
    Words(&'static str),
    /// A line does not have the form of its kind. It counts as failed, and the program continues.
    #[error("not a line of this kind")]
    Form,
    /// A line fails before its calls, for this reason. The program continues.
    #[error("{0}")]
    Failed(String),
    /// The output cannot be written.
    #[error("{0}")]
    Output(io::Error),
    #[error("out of memory")]
    Memory,
}

impl CaseFault {
    /// Returns the fault of a line that fails for this reason.
    pub fn failed(alloc: Global, reason: &str) -> CaseFault {
        match String::from_str(alloc, reason) {
            Ok(reason) => CaseFault::Failed(reason),
            Err(_) => CaseFault::Memory,
        }
    }

    /// Returns the exit status of the program.
    pub fn status(&self) -> u8 {
        match self {
            CaseFault::Form | CaseFault::Failed(_) => 1,
            CaseFault::Words(_) => 2,
            CaseFault::Output(_) | CaseFault::Memory => 4,
        }
    }
}

impl From<io::Error> for CaseFault {
    fn from(error: io::Error) -> CaseFault {
        CaseFault::Output(error)
    }
}

impl From<AllocError> for CaseFault {
    fn from(_error: AllocError) -> CaseFault {
        CaseFault::Memory
    }
}

impl<T: Drop> From<AllocFailed<T>> for CaseFault {
    fn from(_error: AllocFailed<T>) -> CaseFault {
        CaseFault::Memory
    }
}

impl From<FromHexError> for CaseFault {
    fn from(error: FromHexError) -> CaseFault {
        match error {
            FromHexError::OutOfMemory => CaseFault::Memory,
            _ => CaseFault::Form,
        }
    }
}

impl From<ParseIntError> for CaseFault {
    fn from(_error: ParseIntError) -> CaseFault {
        CaseFault::Form
    }
}

impl From<fmt::Error> for CaseFault {
    fn from(_error: fmt::Error) -> CaseFault {
        CaseFault::Memory
    }
}
