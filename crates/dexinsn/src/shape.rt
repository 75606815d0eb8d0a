//! The counts of a code_item's pieces.

ghost use Rattle.std.specs.Prelude.{◌≡◌};

/// The counts of registers, units and indices of a code_item, as [`check_pieces`](crate::check_pieces) finds them.
///
/// Source: "code_item".
#[derive(Clone, Copy, Debug, PartialEq, Eq)]
pub struct PiecesShape {
    pub(crate) registers: u16,
    pub(crate) ins: u16,
    pub(crate) outs: u16,
    pub(crate) units: u32,
    pub(crate) indices: usize,
}

impl PiecesShape {
    /// Returns the number of registers.
    ///
    /// Source: "code_item", the field `registers_size`.
    pub fn registers(self) -> u16
        ensures { result ≡ self.registers }
    {
        self.registers
    }

    /// Returns the number of registers for the arguments of the code.
    ///
    /// Source: "code_item", the field `ins_size`.
    pub fn ins(self) -> u16
        ensures { result ≡ self.ins }
    {
        self.ins
    }

    /// Returns the number of registers for the arguments of the calls that the code makes.
    ///
    /// Source: "code_item", the field `outs_size`.
    pub fn outs(self) -> u16
        ensures { result ≡ self.outs }
    {
        self.outs
    }

    /// The number of units.
    ///
    /// Source: "code_item", the field `insns_size`.
    pub fn units(self) -> u32
        ensures { result ≡ self.units }
    {
        self.units
    }

    /// Returns the number of instructions with an index.
    pub fn indices(self) -> usize
        ensures { result ≡ self.indices }
    {
        self.indices
    }
}
