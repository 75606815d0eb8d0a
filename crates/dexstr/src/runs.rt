//! Runs of units in a file, found once for all the texts that lie in them.

ghost use Rattle.std.specs.Prelude.{◌≡◌, ℕ, List, ◌+◌, ◌<◌, ◌≤◌, ◌^◌, ◌-◌, length, IfOk, IfSome};
ghost use Rattle.dexstr.specs.internal.Runs.{IsRun, AreBlocks};

use crate::units::first_unit;
use std::alloc::{AllocError, Global};

// The number of places in a block.
const BLOCK_LEN: usize = 64;

/// The runs that begin at the last three places of a block, from the first one on. A unit has at most three bytes, so a
/// walk comes to one of them.
pub(crate) type Block = [Run; 3];

/// A run of units, up to where no unit begins.
#[derive(Clone, Copy)]
pub(crate) struct Run {
    /// How many units it has.
    pub(crate) count: usize,
    /// How many bytes of the file are left after it.
    pub(crate) left: usize,
}

impl Run {
    // With one unit more, before it.
    fn after_unit(self) -> Run
        requires { self.count + self.left < 2 ^ 64 - 1 }
        ensures { result ≡ record { count = self.count + 1; left = self.left } }
    {
        Run {
            count: self.count + 1,
            ..self
        }
    }
}

/// The blocks of a file, from its end on.
pub(crate) fn blocks_of(alloc: Global, bytes: &[u8]) -> Result<Vec<Block>, AllocError>
    ensures { IfOk result (λ blocks. AreBlocks bytes.now blocks.items) }
{
    let mut kept = Vec::with_capacity(alloc, bytes.len() / BLOCK_LEN + 1)?;
    let mut latest = [Run { count: 0, left: 0 }; 3];
    'places: for left in 0..bytes.len() {
        let run = match first_unit(&bytes[bytes.len() - left..]) {
            Some((_, rest)) => latest[left - rest.len() - 1].after_unit(),
            None => Run { count: 0, left },
        };
        latest = [run, latest[0], latest[1]];
        if left % BLOCK_LEN == 2 {
            kept.push(latest)?;
        }
    }
    Ok(kept)
}

// The run that begins where `left` bytes are left, if a block has it.
fn run_at(blocks: &[Block], left: usize) -> Option<Run>
    ensures { IfSome result
        (λ run. (bytes : List ℕ) → AreBlocks bytes blocks.now → IsRun bytes left run) }
{
    let (number, place) = (left / BLOCK_LEN, left % BLOCK_LEN);
    (number < blocks.len() && place < 3).then(|| blocks[number][2 - place])
}

/// The run that begins where `left` bytes are left.
pub(crate) fn run_from(bytes: &[u8], blocks: &[Block], left: usize) -> Run
    requires blocks { AreBlocks bytes.now blocks.now }
    requires left { left ≤ length bytes.now }
    ensures { IsRun bytes.now left result }
{
    if let Some(run) = run_at(blocks, left) {
        return run;
    }
    match first_unit(&bytes[bytes.len() - left..]) {
        Some((_, rest)) => run_from(bytes, blocks, rest.len()).after_unit(),
        None => Run { count: 0, left },
    }
}
