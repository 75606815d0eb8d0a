//! The lines of code.

ghost use Rattle.std.specs.Prelude.{◌<◌, ◌++◌, All, IfSome, codes};
ghost use Rattle.std.specs.List.{flat_map};
ghost use Rattle.dexspec.specs.Mentions.{Mentions};
ghost use Rattle.dexpool.specs.Pools.{count_of};
ghost use Rattle.dexinsn.specs.Opcode.{mnemonic_of};
ghost use Rattle.dexinsn.specs.Listing.{listed};
ghost use Rattle.dexcode.specs.Meaning.{IsKnownCode, code_in};
ghost use Rattle.dexinsn.specs.Numbered.{IsKnownPiece, piece_in};
ghost use Rattle.dexout.specs.Printed.{count_text};
ghost use Rattle.dexlisting.specs.Listing.{counts_line, code_lines};
ghost use Rattle.dexlisting.specs.internal.Known.{IsKnownKind, named_text, kind_text, listed_line};

use crate::names::Names;
use crate::parts::encode_symbol;
use dexcode::BorrowedCode;
use dexhead::Output;
use dexinsn::{Piece, PieceKind, Pieces, mnemonic};
use dexout::{encode_count, encode_place};
use dexpool::{Numbering, SymbolKind};

/// Writes the mnemonic of an opcode.
pub(crate) fn encode_mnemonic<O: Output>(opcode: u8, out: &mut O)
    ensures { O.gives (mnemonic_of opcode) out.old out.new }
{
    out.bytes(mnemonic(opcode).unwrap_or("").as_bytes());
}

// Writes the symbol of an instruction after a space, if it has one.
fn encode_named<O: Output>(
    numbering: &Numbering<'_>,
    symbol: Option<(SymbolKind, usize)>,
    out: &mut O,
)
    requires { IfSome symbol (λ s. s.1 < count_of s.0 numbering.now) }
    ensures { O.gives (named_text numbering.now symbol) out.old out.new }
{
    if let Some(symbol) = symbol {
        out.byte(b' ');
        encode_symbol(numbering, Names::Shown, symbol.0, symbol.1, out);
    }
}

/// Writes the size of a packed switch.
pub(crate) fn encode_packed_switch<O: Output>(size: u16, out: &mut O)
    ensures { O.gives (count_text (codes "packed-switch-payload size=") size) out.old out.new }
{
    encode_count(b"packed-switch-payload size=", usize::from(size), out);
}

/// Writes the size of a sparse switch.
pub(crate) fn encode_sparse_switch<O: Output>(size: u16, out: &mut O)
    ensures { O.gives (count_text (codes "sparse-switch-payload size=") size) out.old out.new }
{
    encode_count(b"sparse-switch-payload size=", usize::from(size), out);
}

/// Writes the width of the elements of array data, and their number.
pub(crate) fn encode_array_data<O: Output>(width: u16, size: u32, out: &mut O)
    ensures { O.gives (count_text (codes "fill-array-data-payload width=") width
        ++ count_text (codes " size=") size) out.old out.new }
{
    encode_count(b"fill-array-data-payload width=", usize::from(width), out);
    encode_count(b" size=", size as usize, out);
}

// Writes what an instruction or payload is.
fn encode_kind<O: Output>(numbering: &Numbering<'_>, kind: PieceKind, out: &mut O)
    requires { IsKnownKind numbering.now kind }
    ensures { O.gives (kind_text numbering.now kind) out.old out.new }
{
    match kind {
        PieceKind::Instruction(opcode, symbol) => {
            encode_mnemonic(opcode, out);
            encode_named(numbering, symbol, out);
        }
        PieceKind::PackedSwitch(size) => encode_packed_switch(size, out),
        PieceKind::SparseSwitch(size) => encode_sparse_switch(size, out),
        PieceKind::ArrayData(width, size) => encode_array_data(width, size, out),
    }
}

// Writes the line of an instruction or payload.
fn encode_piece<O: Output>(numbering: &Numbering<'_>, piece: &Piece, out: &mut O)
    requires { IsKnownKind numbering.now piece.now.kind }
    ensures { O.gives (listed_line numbering.now piece.now) out.old out.new }
{
    out.bytes(b"    ");
    encode_place(piece.unit, out);
    out.bytes(b": ");
    encode_kind(numbering, piece.kind, out);
    out.byte(b'\n');
}

// Writes the lines of instructions and payloads.
fn encode_pieces<O: Output>(numbering: &Numbering<'_>, pieces: &Pieces<'_>, out: &mut O)
    requires { All (IsKnownPiece numbering.now) pieces.now.pieces }
    ensures { O.gives (flat_map (listed_line numbering.now) (listed 0 pieces.now.pieces)) out.old
        out.new }
{
    for piece in pieces.iter() {
        encode_piece(numbering, &piece, out);
    }
}

/// Writes the line of what code has how many of.
pub(crate) fn encode_counts<O: Output>(code: &BorrowedCode<'_, '_>, out: &mut O)
    ensures { (m : Mentions) → O.gives (counts_line (code_in m code.now)) out.old out.new }
{
    let pieces = code.pieces();
    encode_count(b"    code registers=", usize::from(pieces.registers()), out);
    encode_count(b" ins=", usize::from(pieces.ins()), out);
    encode_count(b" outs=", usize::from(pieces.outs()), out);
    encode_count(b" units=", pieces.units() as usize, out);
    encode_count(b" tries=", code.tries().tries().len(), out);
    out.byte(b'\n');
}

/// Writes the lines of code.
pub(crate) fn encode_code<O: Output>(
    numbering: &Numbering<'_>,
    code: &BorrowedCode<'_, '_>,
    out: &mut O,
)
    requires { IsKnownCode numbering.now code.now }
    ensures { O.gives (code_lines (code_in numbering.now code.now)) out.old out.new }
{
    encode_counts(code, out);
    encode_pieces(numbering, code.pieces(), out);
}
