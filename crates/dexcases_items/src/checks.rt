//! Conditions under which a line passes.

use dexcases::CaseFault;
use std::alloc::Global;

/// Fails a line for the reason `otherwise` unless a condition holds.
pub fn check(alloc: Global, holds: bool, otherwise: &str) -> Result<(), CaseFault> {
    if holds {
        return Ok(());
    }
    Err(CaseFault::failed(alloc, otherwise))
}

/// Fails a line unless the bytes `put` are at `at`, and returns their number. The caller compares the number, because a
/// prefix of the right bytes passes too.
pub fn check_bytes(alloc: Global, bytes: &[u8], at: u32, put: &[u8]) -> Result<usize, CaseFault> {
    let is_at = match bytes.get(at as usize..) {
        Some(rest) => rest.starts_with(put),
        None => false,
    };
    if is_at {
        return Ok(put.len());
    }
    Err(CaseFault::Failed(format!(in alloc; "other bytes at {at}")?))
}
