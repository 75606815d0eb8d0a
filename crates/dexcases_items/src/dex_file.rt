//! Files with their pools.

ghost use Rattle.std.specs.Prelude.{IfOk};
ghost use Rattle.dexpool.specs.Pools.{ArePools};

use dexcases::CaseFault;
use dexhead::Frame;
use dexpool::{Numbering, Pools, ReadFault};
use std::alloc::Global;

/// A file whose header, map and pools are right.
#[derive(Drop)]
pub struct DexFile<'a> {
    pub frame: Frame<'a>,
    pub pools: Pools<'a>,
}

impl<'a> DexFile<'a> {
    /// Opens a file. A line fails if the header, the map or the pools of its file are wrong.
    pub fn open(alloc: Global, bytes: &'a [u8]) -> Result<DexFile<'a>, CaseFault>
        ensures { IfOk result (λ file. ArePools file.frame file.pools) }
    {
        let frame = match Frame::open(bytes) {
            Ok(frame) => frame,
            Err(_) => return Err(CaseFault::failed(alloc, "no file")),
        };
        match Pools::read(alloc, &frame) {
            Ok(pools) => Ok(DexFile { frame, pools }),
            Err(ReadFault::Memory) => Err(CaseFault::Memory),
            Err(_) => Err(CaseFault::failed(alloc, "no pools")),
        }
    }
}
