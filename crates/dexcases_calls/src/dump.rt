//! Files listed: `dump FILE LISTING`. The file is read from a device, and its listing is written to one.

use dexcases::{CaseFault, Outcome};
use dexhead::Device;
use dexruns::{Detail, Leftover, RunFault, dump_run};
use std::alloc::Global;

/// Runs a line, given the bytes of the file and of its listing.
pub fn run(alloc: Global, bytes: &[u8], right: &[u8]) -> Result<Outcome, CaseFault> {
    if is_listed_as(alloc, bytes, right)? {
        return Ok(Outcome::Passed);
    }
    Err(CaseFault::failed(alloc, "another listing"))
}

// Returns whether these bytes are written to a device as the listing of a file.
fn is_listed_as(alloc: Global, bytes: &[u8], right: &[u8]) -> Result<bool, CaseFault> {
    let mut input = Device::new(bytes);
    let mut out = Device::new(Vec::new(alloc));
    match dump_run(
        alloc,
        Detail::Short,
        &mut input,
        &mut out,
        Leftover::Dropped,
    ) {
        Ok(()) => Ok(out.into_inner().as_slice() == right),
        Err(RunFault::Memory) => Err(CaseFault::Memory),
        Err(_) => Ok(false),
    }
}
