//! The lines of instructions and payloads in a full listing.

ghost use Rattle.std.specs.Prelude.{◌<◌, ◌≤◌, ◌+◌, ◌*◌, ◌^◌, ◌++◌, All, IfSome, length, map, codes};
ghost use Rattle.std.specs.List.{flat_map};
ghost use Rattle.dexspec.specs.Pieces.{ints_in};
ghost use Rattle.dexspec.specs.Symbols.{MethodSymbol};
ghost use Rattle.dexpool.specs.Pools.{count_of};
ghost use Rattle.dexinsn.specs.Blank.{blank_units};
ghost use Rattle.dexinsn.specs.Numbered.{IsKnownPiece, piece_in};
ghost use Rattle.dexval.specs.Numbered.{method_at};
ghost use Rattle.dexlisting.specs.Listing.{symbol_text};
ghost use Rattle.dexlisting.specs.FullListing.{plain, offsets_text, keys_text, units_text, full_piece_lines};
ghost use Rattle.dexlisting.specs.internal.Known.{IsKnownKind};
ghost use Rattle.dexlisting.specs.internal.FullPieces.{opcode_text, symbol_after, packed_entries, sparse_entries, full_kind_text, full_listed_line};

use crate::names::Names;
use crate::numbers::{encode_signed, encode_unit};
use crate::operands::{encode_literal, encode_operands};
use crate::parts::{encode_method, encode_symbol};
use crate::pieces::{
    encode_array_data, encode_mnemonic, encode_packed_switch, encode_sparse_switch,
};
use crate::units::Units;
use dexhead::Output;
use dexinsn::{Format, Piece, PieceKind, Pieces};
use dexout::encode_place;
use dexpool::{Numbering, SymbolKind};

// Writes signed numbers of two units each, the first at a place, each after a blank.
fn encode_offsets<O: Output>(units: &Units<'_, '_>, place: usize, count: u16, out: &mut O)
    requires { place < 2 ^ 31 }
    ensures { O.gives (offsets_text (ints_in units.now place count)) out.old out.new }
{
    for i in 0..usize::from(count) {
        out.byte(b' ');
        encode_signed(i64::from(units.int_at(place + 2 * i)), out);
    }
}

// Writes literals of two units each, the first at a place, each after a blank.
fn encode_keys<O: Output>(units: &Units<'_, '_>, place: usize, count: u16, out: &mut O)
    requires { place < 2 ^ 31 }
    ensures { O.gives (keys_text (ints_in units.now place count)) out.old out.new }
{
    for i in 0..usize::from(count) {
        out.byte(b' ');
        encode_literal(i64::from(units.int_at(place + 2 * i)), out);
    }
}

// Writes the first key of a packed switch and the distances of its targets.
fn encode_packed<O: Output>(units: &Units<'_, '_>, size: u16, out: &mut O)
    ensures { O.gives (packed_entries units.now size) out.old out.new }
{
    out.bytes(b" first=");
    encode_literal(i64::from(units.int_at(2)), out);
    out.bytes(b" targets=");
    encode_offsets(units, 4, size, out);
}

// Writes the keys of a sparse switch and the distances of their targets.
fn encode_sparse<O: Output>(units: &Units<'_, '_>, size: u16, out: &mut O)
    ensures { O.gives (sparse_entries units.now size) out.old out.new }
{
    out.bytes(b" keys=");
    encode_keys(units, 2, size, out);
    out.bytes(b" targets=");
    encode_offsets(units, 2 + 2 * usize::from(size), size, out);
}

// Writes the symbol of an instruction after its operands, if it has one.
fn encode_symbol_after<O: Output>(
    numbering: &Numbering<'_>,
    symbol: Option<(SymbolKind, usize)>,
    out: &mut O,
)
    requires { IfSome symbol (λ s. s.1 < count_of s.0 numbering.now) }
    ensures { O.gives (symbol_after numbering.now symbol) out.old out.new }
{
    if let Some(symbol) = symbol {
        out.bytes(b", ");
        encode_symbol(numbering, Names::Plain, symbol.0, symbol.1, out);
    }
}

// Writes the mnemonic and the operands of the instruction of an opcode at a unit.
fn encode_instruction<O: Output>(opcode: u8, at: u32, units: &Units<'_, '_>, out: &mut O)
    ensures { O.gives (opcode_text opcode at units.now) out.old out.new }
{
    encode_mnemonic(opcode, out);
    if let Some(format) = Format::of(opcode) {
        encode_operands(format, at, units, out);
    }
}

// Writes what an instruction or payload at a unit is.
fn encode_full_kind<O: Output>(
    numbering: &Numbering<'_>,
    kind: PieceKind,
    at: u32,
    units: &Units<'_, '_>,
    out: &mut O,
)
    requires { IsKnownKind numbering.now kind }
    ensures { O.gives (full_kind_text numbering.now kind at units.now) out.old out.new }
{
    match kind {
        PieceKind::Instruction(opcode, symbol) => {
            encode_instruction(opcode, at, units, out);
            encode_symbol_after(numbering, symbol, out);
        }
        PieceKind::PackedSwitch(size) => {
            encode_packed_switch(size, out);
            encode_packed(units, size, out);
        }
        PieceKind::SparseSwitch(size) => {
            encode_sparse_switch(size, out);
            encode_sparse(units, size, out);
        }
        PieceKind::ArrayData(width, size) => encode_array_data(width, size, out),
    }
}

// Writes units, each of four hexadecimal digits, and a blank after each.
fn encode_units<O: Output>(units: &Units<'_, '_>, out: &mut O)
    ensures { O.gives (units_text units.now) out.old out.new }
{
    for i in 0..units.len() {
        encode_unit(units.at(i), out);
        out.byte(b' ');
    }
}

// Writes the line of an instruction or payload of a method, which it names.
fn encode_full_piece<O: Output>(
    numbering: &Numbering<'_>,
    method: usize,
    pieces: &Pieces<'_>,
    piece: &Piece,
    out: &mut O,
)
    requires method { method < length numbering.now.methods }
    requires kind { IsKnownKind numbering.now piece.now.kind }
    requires within { piece.now.unit + piece.now.units
        ≤ length (flat_map blank_units pieces.now.pieces) }
    ensures { O.gives (full_listed_line numbering.now
        (symbol_text plain (MethodSymbol (method_at numbering.now method)))
        (flat_map blank_units pieces.now.pieces) piece.now) out.old out.new }
{
    let units = Units::of(pieces, piece);
    out.bytes(b"    ");
    encode_place(piece.unit, out);
    out.bytes(b": ");
    encode_units(&units, out);
    out.bytes(b"| ");
    encode_full_kind(numbering, piece.kind, piece.unit, &units, out);
    out.byte(b'\t');
    encode_method(numbering, Names::Plain, method, out);
    out.byte(b'\n');
}

/// Writes the lines of the instructions and payloads of a method.
pub(crate) fn encode_full_pieces<O: Output>(
    numbering: &Numbering<'_>,
    method: usize,
    pieces: &Pieces<'_>,
    out: &mut O,
)
    requires method { method < length numbering.now.methods }
    requires pieces { All (IsKnownPiece numbering.now) pieces.now.pieces }
    ensures { O.gives (full_piece_lines
        (symbol_text plain (MethodSymbol (method_at numbering.now method))) 0
        (map (piece_in numbering.now) pieces.now.pieces)) out.old out.new }
{
    for piece in pieces.iter() {
        encode_full_piece(numbering, method, pieces, &piece, out);
    }
}
