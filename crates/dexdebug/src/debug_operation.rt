//! The operations of debug programs, with numbers for symbols.

ghost use Rattle.std.specs.Prelude.{◌≡◌, ◌<◌, ◌≤◌, length};
ghost use Rattle.dexspec.specs.Weight as weights;

/// An operation of a debug program. A name or a signature is the number of a text, a type that of a type, and `None`
/// is NO_INDEX.
///
/// Source: "debug_info_item", "Byte code values".
#[derive(Clone, Copy, Debug, PartialEq, Eq, Hash)]
pub enum Operation {
    /// `DBG_ADVANCE_PC`: `addr_diff`, the amount to add to the address register, in 16-bit code units.
    AdvancePc(u32),
    /// `DBG_ADVANCE_LINE`: `line_diff`, the amount to change the line register by, in lines.
    AdvanceLine(i32),
    /// `DBG_START_LOCAL`: a local variable begins in a register.
    StartLocal {
        /// The register that will contain the local variable.
        register_num: u32,
        /// The number of the text that is its name.
        name_idx: Option<u32>,
        /// The number of its type.
        type_idx: Option<u32>,
    },
    /// `DBG_START_LOCAL_EXTENDED`: the same, with a type signature.
    StartLocalExtended {
        /// The register that will contain the local variable.
        register_num: u32,
        /// The number of the text that is its name.
        name_idx: Option<u32>,
        /// The number of its type.
        type_idx: Option<u32>,
        /// The number of the text that is its type signature.
        sig_idx: Option<u32>,
    },
    /// `DBG_END_LOCAL`: `register_num`, the register whose local variable ends.
    EndLocal(u32),
    /// `DBG_RESTART_LOCAL`: `register_num`, the register whose last local variable begins again.
    RestartLocal(u32),
    /// `DBG_SET_PROLOGUE_END`.
    SetPrologueEnd,
    /// `DBG_SET_EPILOGUE_BEGIN`.
    SetEpilogueBegin,
    /// `DBG_SET_FILE`: `name_idx`, the number of the text that is the source file's name from here on.
    SetFile(Option<u32>),
    /// A special opcode, from 0x0a on: it moves the line and the address, and records a position.
    Special(u8),
}

impl Operation {
    ghost use Rattle.dexdebug.specs.Debug.{name_of, type_of, signature_of, with_numbers, unindexed_operation};
    ghost use Rattle.dexdebug.specs.DebugReading.{indices_of};

    /// The number of the name of a local variable or of a source file.
    pub fn name_idx(&self) -> Option<u32>
        ensures { result ≡ name_of self.now }
    {
        match self {
            Operation::StartLocal { name_idx, .. } => *name_idx,
            Operation::StartLocalExtended { name_idx, .. } => *name_idx,
            Operation::SetFile(name_idx) => *name_idx,
            _ => None,
        }
    }

    /// The number of the type of a local variable.
    pub fn type_idx(&self) -> Option<u32>
        ensures { result ≡ type_of self.now }
    {
        match self {
            Operation::StartLocal { type_idx, .. } => *type_idx,
            Operation::StartLocalExtended { type_idx, .. } => *type_idx,
            _ => None,
        }
    }

    /// The number of the text that is the signature of a local variable's type.
    pub fn sig_idx(&self) -> Option<u32>
        ensures { result ≡ signature_of self.now }
    {
        match self {
            Operation::StartLocalExtended { sig_idx, .. } => *sig_idx,
            _ => None,
        }
    }

    // Returns the number of places for the numbers of symbols.
    pub(crate) fn index_count(&self) -> usize
        ensures count { result ≡ length (indices_of self.now) }
        ensures few { result ≤ 3 }
    {
        match self {
            Operation::StartLocal { .. } => 2,
            Operation::StartLocalExtended { .. } => 3,
            Operation::SetFile(_) => 1,
            _ => 0,
        }
    }

    // The operation with the numbers of these places: the name, and then a type and a signature.
    pub(crate) fn with_numbers(
        self,
        name_idx: Option<u32>,
        type_idx: Option<u32>,
        sig_idx: Option<u32>,
    ) -> Operation
        ensures { result ≡ with_numbers self name_idx type_idx sig_idx }
    {
        match self {
            Operation::StartLocal { register_num, .. } => Operation::StartLocal {
                register_num,
                name_idx,
                type_idx,
            },
            Operation::StartLocalExtended { register_num, .. } => Operation::StartLocalExtended {
                register_num,
                name_idx,
                type_idx,
                sig_idx,
            },
            Operation::SetFile(_) => Operation::SetFile(name_idx),
            operation => operation,
        }
    }

    // Returns the number of operands.
    pub(crate) fn operands(&self) -> u64
        ensures count { result ≡ weights.operands (unindexed_operation self.now) }
        ensures few { result < 5 }
    {
        match self {
            Operation::StartLocal { .. } => 3,
            Operation::StartLocalExtended { .. } => 4,
            Operation::SetPrologueEnd | Operation::SetEpilogueBegin | Operation::Special(_) => 0,
            _ => 1,
        }
    }
}
