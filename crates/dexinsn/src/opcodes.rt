ghost use Rattle.std.specs.Prelude.{◌≡◌, Option};
ghost use Rattle.std.specs.Option.{option_map, option_and_then};
ghost use Rattle.dexspec.specs.Opcodes.{opcode_of, units_in};
ghost use Rattle.dexspec.specs.Pieces.{has_zero_byte};
ghost use Rattle.dexinsn.specs.Numbered.{kind_of_pool};
ghost use Rattle.dexinsn.specs.Opcode.{AreMnemonics, AreRows, IsRowOf, format_of, kind_of_index, mnemonic_of};

use crate::format::Format;
use crate::format::Format::{
    Format3rc, Format10t, Format10x, Format11n, Format11x, Format12x, Format20t, Format21c,
    Format21h, Format21s, Format21t, Format22b, Format22c, Format22s, Format22t, Format22x,
    Format23x, Format30t, Format31c, Format31i, Format31t, Format32x, Format35c, Format51l,
};
use crate::opcodes::IndexKind::{Absent, Field, Method, Text, Typ};
use dexpool::SymbolKind;

/// The kind of symbol that an index names. It has one byte, which an `Option<SymbolKind>` does not.
#[derive(Clone, Copy)]
pub(crate) enum IndexKind {
    Text,
    Typ,
    Proto,
    Field,
    Method,
    /// There is no index.
    Absent,
}

impl IndexKind {
    /// The kind of symbol, if there is an index.
    fn symbol(self) -> Option<SymbolKind>
        ensures { result ≡ kind_of_index self }
    {
        match self {
            Text => Some(SymbolKind::Text),
            Typ => Some(SymbolKind::Typ),
            IndexKind::Proto => Some(SymbolKind::Proto),
            Field => Some(SymbolKind::Field),
            Method => Some(SymbolKind::Method),
            Absent => None,
        }
    }
}

/// What version 035 makes of an opcode.
#[derive(Clone, Copy)]
pub(crate) struct Row {
    /// The format of its instructions; `None` where the opcode is unused.
    pub(crate) format: Option<Format>,
    /// What their index names, if they have one.
    pub(crate) index: IndexKind,
    /// The number of their units; 0 where the opcode is unused.
    pub(crate) units: u8,
    /// Whether they have a branch offset.
    pub(crate) branches: bool,
    /// A first unit up to this one begins an instruction with no index or one of 16 bits, if its units are there.
    pub(crate) greatest: u16,
}

/// Any first unit begins an instruction.
const ANY: u16 = 0xffff;

/// The high byte of the first unit is zero.
const ZERO_BYTE: u16 = 0x00ff;

/// The highest four bits of the first unit count up to five registers.
const COUNTED: u16 = 0x5fff;

// The row of opcodes: their format, index, number of units, whether they branch, and greatest first unit.
macro_rules! row {
    ($format:expr, $index:expr, $units:expr, $branches:expr, $greatest:expr) => {
        Row {
            format: Some($format),
            index: $index,
            units: $units,
            branches: $branches,
            greatest: $greatest,
        }
    };
}

const UNUSED: Row = Row {
    format: None,
    index: Absent,
    units: 0,
    branches: false,
    greatest: 0,
};

const F10X: Row = row!(Format10x, Absent, 1, false, ZERO_BYTE);

const F12X: Row = row!(Format12x, Absent, 1, false, ANY);

const F11N: Row = row!(Format11n, Absent, 1, false, ANY);

const F11X: Row = row!(Format11x, Absent, 1, false, ANY);

const F10T: Row = row!(Format10t, Absent, 1, true, ANY);

const F20T: Row = row!(Format20t, Absent, 2, true, ZERO_BYTE);

const F22X: Row = row!(Format22x, Absent, 2, false, ANY);

const F21T: Row = row!(Format21t, Absent, 2, true, ANY);

const F21S: Row = row!(Format21s, Absent, 2, false, ANY);

const F21H: Row = row!(Format21h, Absent, 2, false, ANY);

const F21C_TEXT: Row = row!(Format21c, Text, 2, false, ANY);

const F21C_TYPE: Row = row!(Format21c, Typ, 2, false, ANY);

const F21C_FIELD: Row = row!(Format21c, Field, 2, false, ANY);

const F23X: Row = row!(Format23x, Absent, 2, false, ANY);

const F22B: Row = row!(Format22b, Absent, 2, false, ANY);

const F22S: Row = row!(Format22s, Absent, 2, false, ANY);

const F22T: Row = row!(Format22t, Absent, 2, true, ANY);

const F22C_TYPE: Row = row!(Format22c, Typ, 2, false, ANY);

const F22C_FIELD: Row = row!(Format22c, Field, 2, false, ANY);

const F30T: Row = row!(Format30t, Absent, 3, true, ZERO_BYTE);

const F32X: Row = row!(Format32x, Absent, 3, false, ZERO_BYTE);

const F31I: Row = row!(Format31i, Absent, 3, false, ANY);

const F31T: Row = row!(Format31t, Absent, 3, true, ANY);

const F31C_TEXT: Row = row!(Format31c, Text, 3, false, 0);

const F35C_TYPE: Row = row!(Format35c, Typ, 3, false, COUNTED);

const F35C_METH: Row = row!(Format35c, Method, 3, false, COUNTED);

const F3RC_TYPE: Row = row!(Format3rc, Typ, 3, false, ANY);

const F3RC_METH: Row = row!(Format3rc, Method, 3, false, ANY);

const F51L: Row = row!(Format51l, Absent, 5, false, ANY);

/// The rows of the opcodes of version 035, by number.
static ROWS: [Row; 256] = [
    // 0x00
    F10X, F12X, F22X, F32X, F12X, F22X, F32X, F12X, F22X, F32X, F11X, F11X, F11X, F11X, F10X, F11X,
    // 0x10
    F11X, F11X, F11N, F21S, F31I, F21H, F21S, F31I, F51L, F21H, F21C_TEXT, F31C_TEXT, F21C_TYPE,
    F11X, F11X, F21C_TYPE,
    // 0x20
    F22C_TYPE, F12X, F21C_TYPE, F22C_TYPE, F35C_TYPE, F3RC_TYPE, F31T, F11X, F10T, F20T, F30T,
    F31T, F31T, F23X, F23X, F23X,
    // 0x30
    F23X, F23X, F22T, F22T, F22T, F22T, F22T, F22T, F21T, F21T, F21T, F21T, F21T, F21T, UNUSED,
    UNUSED,
    // 0x40
    UNUSED, UNUSED, UNUSED, UNUSED, F23X, F23X, F23X, F23X, F23X, F23X, F23X, F23X, F23X, F23X,
    F23X, F23X,
    // 0x50
    F23X, F23X, F22C_FIELD, F22C_FIELD, F22C_FIELD, F22C_FIELD, F22C_FIELD, F22C_FIELD, F22C_FIELD,
    F22C_FIELD, F22C_FIELD, F22C_FIELD, F22C_FIELD, F22C_FIELD, F22C_FIELD, F22C_FIELD,
    // 0x60
    F21C_FIELD, F21C_FIELD, F21C_FIELD, F21C_FIELD, F21C_FIELD, F21C_FIELD, F21C_FIELD, F21C_FIELD,
    F21C_FIELD, F21C_FIELD, F21C_FIELD, F21C_FIELD, F21C_FIELD, F21C_FIELD, F35C_METH, F35C_METH,
    // 0x70
    F35C_METH, F35C_METH, F35C_METH, UNUSED, F3RC_METH, F3RC_METH, F3RC_METH, F3RC_METH, F3RC_METH,
    UNUSED, UNUSED, F12X, F12X, F12X, F12X, F12X,
    // 0x80
    F12X, F12X, F12X, F12X, F12X, F12X, F12X, F12X, F12X, F12X, F12X, F12X, F12X, F12X, F12X, F12X,
    // 0x90
    F23X, F23X, F23X, F23X, F23X, F23X, F23X, F23X, F23X, F23X, F23X, F23X, F23X, F23X, F23X, F23X,
    // 0xa0
    F23X, F23X, F23X, F23X, F23X, F23X, F23X, F23X, F23X, F23X, F23X, F23X, F23X, F23X, F23X, F23X,
    // 0xb0
    F12X, F12X, F12X, F12X, F12X, F12X, F12X, F12X, F12X, F12X, F12X, F12X, F12X, F12X, F12X, F12X,
    // 0xc0
    F12X, F12X, F12X, F12X, F12X, F12X, F12X, F12X, F12X, F12X, F12X, F12X, F12X, F12X, F12X, F12X,
    // 0xd0
    F22S, F22S, F22S, F22S, F22S, F22S, F22S, F22S, F22B, F22B, F22B, F22B, F22B, F22B, F22B, F22B,
    // 0xe0
    F22B, F22B, F22B, UNUSED, UNUSED, UNUSED, UNUSED, UNUSED, UNUSED, UNUSED, UNUSED, UNUSED,
    UNUSED, UNUSED, UNUSED, UNUSED,
    // 0xf0
    UNUSED, UNUSED, UNUSED, UNUSED, UNUSED, UNUSED, UNUSED, UNUSED, UNUSED, UNUSED, UNUSED, UNUSED,
    UNUSED, UNUSED, UNUSED, UNUSED,
];

/// The mnemonics of the opcodes of version 035, by number; empty for the unused.
#[rattlefmt::skip]
static MNEMONICS: [&str; 256] = [
    // 0x00
    "nop", "move", "move/from16", "move/16", "move-wide", "move-wide/from16", "move-wide/16",
    "move-object", "move-object/from16", "move-object/16", "move-result", "move-result-wide",
    "move-result-object", "move-exception", "return-void", "return",
    // 0x10
    "return-wide", "return-object", "const/4", "const/16", "const", "const/high16", "const-wide/16",
    "const-wide/32", "const-wide", "const-wide/high16", "const-string", "const-string/jumbo",
    "const-class", "monitor-enter", "monitor-exit", "check-cast",
    // 0x20
    "instance-of", "array-length", "new-instance", "new-array", "filled-new-array",
    "filled-new-array/range", "fill-array-data", "throw", "goto", "goto/16", "goto/32",
    "packed-switch", "sparse-switch", "cmpl-float", "cmpg-float", "cmpl-double",
    // 0x30
    "cmpg-double", "cmp-long", "if-eq", "if-ne", "if-lt", "if-ge", "if-gt", "if-le", "if-eqz",
    "if-nez", "if-ltz", "if-gez", "if-gtz", "if-lez", "", "",
    // 0x40
    "", "", "", "", "aget", "aget-wide", "aget-object", "aget-boolean", "aget-byte", "aget-char",
    "aget-short", "aput", "aput-wide", "aput-object", "aput-boolean", "aput-byte",
    // 0x50
    "aput-char", "aput-short", "iget", "iget-wide", "iget-object", "iget-boolean", "iget-byte",
    "iget-char", "iget-short", "iput", "iput-wide", "iput-object", "iput-boolean", "iput-byte",
    "iput-char", "iput-short",
    // 0x60
    "sget", "sget-wide", "sget-object", "sget-boolean", "sget-byte", "sget-char", "sget-short",
    "sput", "sput-wide", "sput-object", "sput-boolean", "sput-byte", "sput-char", "sput-short",
    "invoke-virtual", "invoke-super",
    // 0x70
    "invoke-direct", "invoke-static", "invoke-interface", "", "invoke-virtual/range",
    "invoke-super/range", "invoke-direct/range", "invoke-static/range", "invoke-interface/range",
    "", "", "neg-int", "not-int", "neg-long", "not-long", "neg-float",
    // 0x80
    "neg-double", "int-to-long", "int-to-float", "int-to-double", "long-to-int", "long-to-float",
    "long-to-double", "float-to-int", "float-to-long", "float-to-double", "double-to-int",
    "double-to-long", "double-to-float", "int-to-byte", "int-to-char", "int-to-short",
    // 0x90
    "add-int", "sub-int", "mul-int", "div-int", "rem-int", "and-int", "or-int", "xor-int",
    "shl-int", "shr-int", "ushr-int", "add-long", "sub-long", "mul-long", "div-long", "rem-long",
    // 0xa0
    "and-long", "or-long", "xor-long", "shl-long", "shr-long", "ushr-long", "add-float",
    "sub-float", "mul-float", "div-float", "rem-float", "add-double", "sub-double", "mul-double",
    "div-double", "rem-double",
    // 0xb0
    "add-int/2addr", "sub-int/2addr", "mul-int/2addr", "div-int/2addr", "rem-int/2addr",
    "and-int/2addr", "or-int/2addr", "xor-int/2addr", "shl-int/2addr", "shr-int/2addr",
    "ushr-int/2addr", "add-long/2addr", "sub-long/2addr", "mul-long/2addr", "div-long/2addr",
    "rem-long/2addr",
    // 0xc0
    "and-long/2addr", "or-long/2addr", "xor-long/2addr", "shl-long/2addr", "shr-long/2addr",
    "ushr-long/2addr", "add-float/2addr", "sub-float/2addr", "mul-float/2addr", "div-float/2addr",
    "rem-float/2addr", "add-double/2addr", "sub-double/2addr", "mul-double/2addr",
    "div-double/2addr", "rem-double/2addr",
    // 0xd0
    "add-int/lit16", "rsub-int", "mul-int/lit16", "div-int/lit16", "rem-int/lit16", "and-int/lit16",
    "or-int/lit16", "xor-int/lit16", "add-int/lit8", "rsub-int/lit8", "mul-int/lit8",
    "div-int/lit8", "rem-int/lit8", "and-int/lit8", "or-int/lit8", "xor-int/lit8",
    // 0xe0
    "shl-int/lit8", "shr-int/lit8", "ushr-int/lit8", "", "", "", "", "", "", "", "", "", "", "", "",
    "",
    // 0xf0
    "", "", "", "", "", "", "", "", "", "", "", "", "", "", "", "",
];

impl Format {
    /// The format of an opcode; `None` exactly where version 035 leaves the opcode unused.
    ///
    /// Source: the heading "Summary of bytecode set" of the Android page "Dalvik bytecode".
    pub fn of(op: u8) -> Option<Format>
        ensures { option_map format_of result ≡ option_map (λ o. o.format) (opcode_of op) }
    {
        row_of(op).format
    }

    /// The number of 16-bit units.
    ///
    /// Source: the heading "Format IDs" of the Android page "Dalvik executable instruction formats".
    pub fn units(self) -> usize
        ensures { result ≡ units_in (format_of self) }
    {
        match self {
            Format10x | Format12x | Format11n | Format11x | Format10t => 1,
            Format30t | Format32x | Format31i | Format31t | Format31c | Format35c | Format3rc => 3,
            Format51l => 5,
            _ => 2,
        }
    }

    /// Returns whether the high byte of the first unit is zero in every instruction of the format.
    pub(crate) fn has_zero_byte(self) -> bool
        ensures { result ≡ has_zero_byte (format_of self) }
    {
        matches!(self, Format10x | Format20t | Format30t | Format32x)
    }
}

/// An opcode's mnemonic; `None` exactly where version 035 leaves the opcode unused.
///
/// Source: the heading "Summary of bytecode set" of the Android page "Dalvik bytecode".
#[tactic(auto, using(crate::proofs::Table::mnemonics_are))]
pub fn mnemonic(op: u8) -> Option<&'static str>
    ensures { option_map (λ text. text.now) result ≡ option_map (λ o. o.mnemonic) (opcode_of op) }
{
    Format::of(op).map(|_| mnemonic_in(&MNEMONICS, op))
}

/// The pool whose rows an opcode's index counts; `None` where the opcode has no index, or is unused.
///
/// Source: the heading "Summary of bytecode set" of the Android page "Dalvik bytecode".
pub fn index_kind(op: u8) -> Option<SymbolKind>
    ensures { result ≡ option_map kind_of_pool (option_and_then (λ o. o.index) (opcode_of op)) }
{
    row_of(op).index.symbol()
}

/// The row of an opcode.
pub(crate) fn row_of(op: u8) -> Row
    ensures { IsRowOf op result }
{
    row_in(&ROWS, op)
}

/// The row of an opcode in a table that is right.
fn row_in(rows: &[Row; 256], op: u8) -> Row
    requires { AreRows rows.now }
    ensures { IsRowOf op result }
{
    rows[op as usize]
}

/// What a table that is right has as an opcode's mnemonic.
#[tactic(auto, using(crate::proofs::Table::mnemonic_is))]
fn mnemonic_in(mnemonics: &[&'static str; 256], op: u8) -> &'static str
    requires { AreMnemonics mnemonics.now }
    ensures { result.now ≡ mnemonic_of op }
{
    mnemonics[op as usize]
}
