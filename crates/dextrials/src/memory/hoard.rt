//! Memory that is held.

use std::alloc::{AllocError, Global};

// The greatest block that is asked for.
const GREATEST: usize = 1 << 46;

// From a block of the greatest size, an eighth less each time, down to one of few bytes.
const SIZES: usize = 260;

// How many blocks are held at most.
const MOST_BLOCKS: usize = 200_000;

/// All memory that can be had, but for some room, of which a part can be held too.
#[derive(Drop)]
pub struct Hoard {
    alloc: Global,
    blocks: Vec<Vec<u8>>,
    // The block that is held of the room, if one is.
    room: Vec<Vec<u8>>,
}

impl Hoard {
    /// Takes all memory that can be had, but for a block of `room` bytes, which is free then.
    ///
    /// Error: there was no memory for that block, or for the list of those that are held.
    pub fn take(alloc: Global, room: usize) -> Result<Hoard, AllocError> {
        let mut hoard = Hoard {
            alloc,
            blocks: Vec::with_capacity(alloc, MOST_BLOCKS)?,
            room: Vec::with_capacity(alloc, 1)?,
        };
        if !hoard.hold(room) {
            return Err(AllocError);
        }
        hoard.fill();
        hoard.release();
        Ok(hoard)
    }

    /// Holds a block of the room, and returns whether there was memory for it.
    pub fn hold(&mut self, size: usize) -> bool {
        match Vec::with_capacity(self.alloc, size) {
            Ok(block) => self.room.push(block).is_ok(),
            Err(_) => false,
        }
    }

    /// Gives the block of the room back.
    pub fn release(&mut self) {
        self.room.pop();
    }

    // Takes blocks of each size while there are some.
    fn fill(&mut self) {
        let mut size = GREATEST;
        for _ in 0..SIZES {
            for _ in 0..MOST_BLOCKS {
                if !self.add(size) {
                    break;
                }
            }
            size -= size / 8;
        }
    }

    // Takes one more block, and returns whether there was memory for it.
    fn add(&mut self, size: usize) -> bool {
        if self.blocks.len() >= MOST_BLOCKS {
            return false;
        }
        match Vec::with_capacity(self.alloc, size) {
            Ok(block) => self.blocks.push(block).is_ok(),
            Err(_) => false,
        }
    }
}
