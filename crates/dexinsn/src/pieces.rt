//! The pieces of a code_item, with numbers for symbols.

ghost use Rattle.std.specs.Prelude.{◌≡◌, ◌*◌, length};
ghost use Rattle.dexinsn.specs.Numbered.{numbered_bytes};

use crate::code_units::Units;
use std::marker::Model;

/// The number of the symbol that an instruction's index names.
#[derive(Clone, Copy, Debug, PartialEq, Eq)]
pub(crate) struct Index {
    /// The unit at which the instruction begins.
    pub(crate) unit: u32,
    pub(crate) number: u32,
}

/// The registers and the pieces of a code_item. Its units are borrowed from the file; the numbers of its symbols are
/// stored beside them. Contracts see three numbers, and pieces with a number for each symbol.
///
/// Source: "code_item"; the Android page "Dalvik bytecode".
#[derive(Clone, Drop)]
pub struct Pieces<'a> {
    pub(crate) registers: u16,
    pub(crate) ins: u16,
    pub(crate) outs: u16,
    // Two for each unit.
    pub(crate) bytes: &'a [u8],
    // In the order of the instructions, one for each that has an index.
    pub(crate) indices: Vec<Index>,
}

impl<'a> Model for Pieces<'a> {
    ghost use Rattle.dexinsn.specs.Units.{units_in};
    ghost use Rattle.dexinsn.specs.Numbered.{NumberedCode};
    ghost use Rattle.dexinsn.specs.Stored.{parts_in, pieces_with, AreStored};

    ghost Value = { NumberedCode };

    ghost view = { λ p. record { registers = p.registers; ins = p.ins; outs = p.outs; pieces = pieces_with (parts_in (units_in p.bytes.now)) p.indices.items } };

    ghost invariant = { λ p. AreStored (units_in p.bytes.now) p.indices.items };
}

impl<'a> Pieces<'a> {
    /// Returns the number of registers.
    ///
    /// Source: "code_item", the field `registers_size`.
    pub fn registers(&self) -> u16
        ensures { result ≡ self.now.registers }
    {
        self.registers
    }

    /// Returns the number of registers for the arguments of the code.
    ///
    /// Source: "code_item", the field `ins_size`.
    pub fn ins(&self) -> u16
        ensures { result ≡ self.now.ins }
    {
        self.ins
    }

    /// Returns the number of registers for the arguments of the calls that the code makes.
    ///
    /// Source: "code_item", the field `outs_size`.
    pub fn outs(&self) -> u16
        ensures { result ≡ self.now.outs }
    {
        self.outs
    }

    /// The number of units: half the number of bytes that [`put_pieces`](crate::put_pieces) appends.
    ///
    /// Source: "code_item", the field `insns_size`.
    pub fn units(&self) -> u32
        ensures { 2 * result ≡ length (numbered_bytes self.now.pieces) }
    {
        Units::of_bytes(self.bytes).len() as u32
    }
}
