//! Where instructions begin, and memory for it that is passed from one code_item to the next.

ghost use Rattle.std.specs.Prelude.{◌≡◌, OnOk, replicate, false, slice_index_or};
ghost use Rattle.dexinsn.specs.Bits.{bits_in};

use crate::start_bits::has_place;
use std::alloc::{AllocError, Global};
use std::marker::Model;

/// The units of a code_item at which instructions begin. Contracts see for each unit whether one does.
#[derive(Drop)]
pub struct InstructionStarts<'s> {
    // A bit for each unit.
    words: &'s [u64],
}

impl<'s> Model for InstructionStarts<'s> {
    ghost use Rattle.std.specs.Prelude.{List, Bool};
    ghost use Rattle.dexinsn.specs.Bits.{bits_in};

    ghost Value = { List Bool };

    ghost view = { λ s. bits_in s.words.now };
}

impl<'s> InstructionStarts<'s> {
    /// Returns whether an instruction begins at an address, in units from the first one.
    ///
    /// Source: "code_item", the field `insns`.
    pub fn contains(&self, address: u32) -> bool
        ensures { result ≡ slice_index_or self.now address false }
    {
        has_place(self.words, i64::from(address))
    }
}

/// Memory for the bits of one code_item, passed from one to the next. Contracts see for each unit of the code_item that
/// was checked last whether an instruction begins there.
#[derive(Drop)]
pub struct Scratch {
    // A bit for each unit at which an instruction begins.
    pub(crate) starts: Vec<u64>,
    // A bit for each unit at which a payload, or an instruction with a branch offset, begins.
    pub(crate) noted: Vec<u64>,
}

impl Model for Scratch {
    ghost use Rattle.std.specs.Prelude.{List, Bool};
    ghost use Rattle.dexinsn.specs.Bits.{bits_in};

    ghost Value = { List Bool };

    ghost view = { λ s. bits_in s.starts.items };
}

impl Scratch {
    /// Without memory yet.
    pub fn new(alloc: Global) -> Scratch {
        Scratch {
            starts: Vec::new(alloc),
            noted: Vec::new(alloc),
        }
    }

    /// The units at which instructions begin, of the code_item that was checked last.
    pub fn starts(&self) -> InstructionStarts<'_>
        ensures { result ≡ self.now }
    {
        let words = &self.starts;
        InstructionStarts { words }
    }
}

/// Makes `count` words, none of which has a bit set.
pub(crate) fn wipe(words: &mut Vec<u64>, count: usize) -> Result<(), AllocError>
    ensures { OnOk result (words.new.items ≡ replicate count 0) }
{
    words.clear();
    words.resize(count, 0)
}
