//! Reads frames and pools.

use dexcases::CaseFault;
use dexhead::Frame;
use dexpool::{Pools, ReadFault};
use std::alloc::Global;

/// Opens a file. A line fails if the header or the map of its file is wrong.
pub fn frame_of(alloc: Global, bytes: &[u8]) -> Result<Frame<'_>, CaseFault> {
    match Frame::open(bytes) {
        Ok(frame) => Ok(frame),
        Err(_) => Err(CaseFault::failed(alloc, "no file")),
    }
}

/// Reads the pools of a file. A line fails if the pools of its file are wrong.
pub fn pools_of<'a>(alloc: Global, frame: &Frame<'a>) -> Result<Pools<'a>, CaseFault> {
    match Pools::read(alloc, frame) {
        Ok(pools) => Ok(pools),
        Err(ReadFault::Memory) => Err(CaseFault::Memory),
        Err(_) => Err(CaseFault::failed(alloc, "no pools")),
    }
}
