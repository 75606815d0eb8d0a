//! Merges files in one join, and writes the merged file.

use crate::fault::BenchFault;
use dexcanon::to_bytes;
use dexclass::{Program, read};
use dexhead::{Refusal, adler};
use dexmerge::{Caps, MergeFault, merge};
use dexpool::ReadFault;
use sha1::Sha1;
use std::alloc::{AllocError, Global};

/// Returns the number of bytes of all files.
pub fn bytes_of(files: &[Vec<u8>]) -> usize {
    let mut all = 0usize;
    for file in files {
        all = all.saturating_add(file.len());
    }
    all
}

// Reads the program of file `i`.
fn program<'a>(alloc: Global, i: usize, file: &'a [u8]) -> Result<Program<'a>, BenchFault> {
    match read(alloc, file) {
        Ok(program) => Ok(program),
        Err(ReadFault::Refused(Refusal { number, place })) => {
            Err(BenchFault::Refused(i, number, place))
        }
        Err(ReadFault::Memory) => Err(BenchFault::Memory),
    }
}

/// Reads the programs of the files.
///
/// Error: `Refused` with the number of the first file that is refused, and its refusal.
pub fn programs<'a>(alloc: Global, files: &'a [Vec<u8>]) -> Result<Vec<Program<'a>>, BenchFault> {
    let mut programs = Vec::with_capacity(alloc, files.len())?;
    for (i, file) in files.iter().enumerate() {
        programs
            .push(program(alloc, i, file)?)
            .map_err(AllocError::from)?;
    }
    Ok(programs)
}

// Returns the number of classes of a file; 0 if it is refused.
fn classes_of(alloc: Global, file: &[u8]) -> u64 {
    match read(alloc, file) {
        Ok(program) => program.len() as u64,
        Err(_) => 0,
    }
}

/// Reads each file, and returns the number of classes of all that are not refused.
pub fn read_files(alloc: Global, files: &[Vec<u8>]) -> u64 {
    let mut classes = 0u64;
    for file in files {
        classes = classes.saturating_add(classes_of(alloc, file));
    }
    classes
}

/// Merges programs in one join, under the greatest caps.
///
/// Error: `Unmerged` if the merge is refused.
pub fn merged<'a>(alloc: Global, parts: &[&Program<'a>]) -> Result<Program<'a>, BenchFault> {
    match merge(alloc, parts, &Caps::greatest()) {
        Ok(program) => Ok(program),
        Err(MergeFault::Memory) => Err(BenchFault::Memory),
        Err(_) => Err(BenchFault::Unmerged),
    }
}

/// Merges programs, and returns the number of classes; 0 if the merge is refused.
pub fn merge_all(alloc: Global, parts: &[&Program<'_>]) -> u64 {
    match merged(alloc, parts) {
        Ok(program) => program.len() as u64,
        Err(_) => 0,
    }
}

/// Writes the file of a program, and returns its number of bytes; 0 if allocation failed.
pub fn write(alloc: Global, program: &Program<'_>) -> u64 {
    match to_bytes(alloc, program) {
        Ok(file) => file.len() as u64,
        Err(_) => 0,
    }
}

/// Returns the Adler-32 of a file plus the first byte of its SHA-1.
pub fn sums(file: &[u8]) -> u64 {
    let [first, ..] = Sha1::digest(file);
    u64::from(adler(file)).saturating_add(u64::from(first))
}
