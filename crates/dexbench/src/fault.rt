//! Why the program ends.

use std::alloc::AllocError;
use std::io;
use thiserror::Error;

/// Why the program ends.
#[derive(Debug, Drop, Error)]
pub enum BenchFault {
    /// Usage error: no file is named.
    #[error("usage: dexbench FILE..")]
    Words,
    /// Of several files the file of this number is refused, by a condition at a place.
    #[error("file {0} is refused by condition {1} at {2}")]
    Refused(usize, u8, u32),
    /// Several files cannot be merged.
    #[error("the files cannot be merged")]
    Unmerged,
    /// A file cannot be read.
    #[error("cannot read a file: {0}")]
    File(io::Error),
    /// A file does not end within 2^30 bytes.
    #[error("a file has more than 2^30 bytes")]
    Long,
    /// The clock failed, or the output cannot be written.
    #[error("{0}")]
    Device(io::Error),
    #[error("out of memory")]
    Memory,
}

impl BenchFault {
    /// Returns the exit status of the program.
    pub fn status(&self) -> u8 {
        match self {
            BenchFault::Refused(..) | BenchFault::Unmerged => 1,
            BenchFault::Words => 2,
            BenchFault::File(_) | BenchFault::Long => 3,
            BenchFault::Device(_) | BenchFault::Memory => 4,
        }
    }
}

impl From<io::Error> for BenchFault {
    fn from(error: io::Error) -> BenchFault {
        BenchFault::Device(error)
    }
}

impl From<AllocError> for BenchFault {
    fn from(_error: AllocError) -> BenchFault {
        BenchFault::Memory
    }
}
