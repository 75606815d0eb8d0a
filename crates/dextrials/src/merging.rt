//! Merges of programs.

use crate::fault::Trouble;
use dexcanon::to_bytes;
use dexclass::Program;
use dexmerge::{Caps, MergeFault, merge};
use std::alloc::{AllocError, Global};

// Returns the file of the merged programs.
fn merged_file(alloc: Global, parts: &[&Program<'_>], caps: &Caps) -> Result<Vec<u8>, MergeFault> {
    let program = merge(alloc, parts, caps)?;
    Ok(to_bytes(alloc, &program)?)
}

/// Returns the cause if a merge of the programs is refused.
pub fn cause_of(alloc: Global, parts: &[&Program<'_>], caps: &Caps) -> Option<MergeFault> {
    match merge(alloc, parts, caps) {
        Ok(_) => None,
        Err(cause) => Some(cause),
    }
}

/// Asserts that the merged programs give this file.
///
/// Error: `trouble` if they do not.
pub fn check_file(
    alloc: Global,
    parts: &[&Program<'_>],
    caps: &Caps,
    right: &[u8],
    trouble: Trouble,
) -> Result<(), Trouble> {
    match merged_file(alloc, parts, caps) {
        Ok(file) => trouble.unless(file.as_slice() == right),
        Err(MergeFault::Memory) => Err(Trouble::Memory),
        Err(_) => Err(trouble),
    }
}

/// Returns the programs with these numbers.
pub fn parts_of<'p, 'a>(
    alloc: Global,
    parts: &[&'p Program<'a>],
    places: &[usize],
) -> Result<Vec<&'p Program<'a>>, AllocError> {
    let mut group = Vec::with_capacity(alloc, places.len())?;
    for place in places {
        if let Some(part) = parts.get(*place) {
            group.push(*part)?;
        }
    }
    Ok(group)
}
