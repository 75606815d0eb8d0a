//! Pieces one by one, as a listing shows them.

ghost use Rattle.std.specs.Prelude.{◌≡◌, ◌<◌, ◌≤◌, ◌+◌, [], true, IfSome, IfNone, length, drop, slice_index};
ghost use Rattle.std.specs.Iterator.{YieldsFirst, item_count};
ghost use Rattle.dexspec.specs.Pieces.{index_pool, array_data_ident, is_payload_ident};
ghost use Rattle.dexinsn.specs.Units.{units_in};
ghost use Rattle.dexinsn.specs.Stored.{left_by};
ghost use Rattle.dexinsn.specs.Listing.{kind_from, symbol_by, listed, listing, IsListing, ListsFirst};

use crate::code_units::{Units, opcode_in};
use crate::instruction::kind_at;
use crate::payload::PayloadKind;
use crate::piece_step::piece_size;
use crate::pieces::{Index, Pieces};
use dexpool::SymbolKind;
use std::marker::Model;

/// An instruction or payload of a code_item.
///
/// Source: the Android pages "Dalvik bytecode" and "Dalvik executable instruction formats".
#[derive(Clone, Copy, Debug, PartialEq, Eq)]
pub struct Piece {
    /// The unit at which it begins.
    pub unit: u32,
    /// The number of its units.
    pub units: u32,
    pub kind: PieceKind,
}

/// What an instruction or payload is.
///
/// Source: the headings "packed-switch-payload format", "sparse-switch-payload format" and
/// "fill-array-data-payload format" of the Android page "Dalvik bytecode".
#[derive(Clone, Copy, Debug, PartialEq, Eq)]
pub enum PieceKind {
    /// An instruction: its opcode, and the kind and the number of the symbol that its index names, if it has one.
    Instruction(u8, Option<(SymbolKind, usize)>),
    /// A packed-switch-payload: its size.
    PackedSwitch(u16),
    /// A sparse-switch-payload: its size.
    SparseSwitch(u16),
    /// A fill-array-data-payload: the width of its elements and its size.
    ArrayData(u16, u32),
}

/// The pieces that are left, in order. Contracts see a list of them.
#[derive(Drop)]
pub struct PieceIter<'p> {
    // Two for each unit.
    bytes: &'p [u8],
    // The unit at which the next piece begins.
    unit: usize,
    // Those of the pieces that are left.
    indices: &'p [Index],
}

impl<'p> Model for PieceIter<'p> {
    ghost use Rattle.std.specs.Prelude.{List};
    ghost use Rattle.dexinsn.specs.declared.listing.Piece.{Piece};
    ghost use Rattle.dexinsn.specs.Units.{units_in};
    ghost use Rattle.dexinsn.specs.Listing.{listing, IsListing};

    ghost Value = { List Piece };

    ghost view = { λ p. listing (units_in p.bytes.now) p.unit p.indices.now };

    ghost invariant = { λ p. IsListing (units_in p.bytes.now) p.unit p.indices.now };
}

impl<'p> Iterator for PieceIter<'p> {
    type Item = Piece;

    ghost next_gives = { YieldsFirst (λ ps. ps) };

    ghost remaining = { item_count (λ ps. ps) };

    fn next(&mut self) -> Option<Piece> {
        let units = Units::of_bytes(self.bytes);
        let (piece, indices) = piece_at(&units, self.unit, self.indices)?;
        self.unit += piece.units as usize;
        self.indices = indices;
        Some(piece)
    }
}

// Returns the piece at a unit, and the indices after it; nothing at the end of the units.
fn piece_at<'p>(units: &Units<'_>, at: usize, indices: &'p [Index]) -> Option<(Piece, &'p [Index])>
    requires { IsListing units.now at indices.now }
    ensures found { IfSome result (λ x. ListsFirst units.now at indices.now x.0 x.1.now) }
    ensures none { IfNone result (listing units.now at indices.now ≡ []) }
{
    if units.len() <= at {
        return None;
    }
    let rest = units.rest(at);
    let size = piece_size(at, &rest)?;
    let (symbol, left) = symbol_at(units, at, indices);
    let piece = Piece {
        unit: at as u32,
        units: size as u32,
        kind: kind_of(&rest, symbol),
    };
    Some((piece, left))
}

// Returns the symbol of the piece at a unit, if it has an index, and the indices after it.
fn symbol_at<'p>(
    units: &Units<'_>,
    unit: usize,
    indices: &'p [Index],
) -> (Option<(SymbolKind, usize)>, &'p [Index])
    requires { unit < length units.now }
    ensures symbol { result.0 ≡ symbol_by (index_pool (drop unit units.now)) indices.now }
    ensures left { result.1.now ≡ left_by (index_pool (drop unit units.now)) indices.now }
{
    match (kind_at(units, unit), indices.split_first()) {
        (Some(kind), Some((index, left))) => (Some((kind, index.number as usize)), left),
        _ => (None, indices),
    }
}

// Returns what is shown of the first piece, if this is its symbol.
fn kind_of(units: &Units<'_>, symbol: Option<(SymbolKind, usize)>) -> PieceKind
    requires some { 0 < length units.now }
    requires two { is_payload_ident (slice_index units.now 0) ≡ true → 1 < length units.now }
    requires four { slice_index units.now 0 ≡ array_data_ident → 3 < length units.now }
    ensures { result ≡ kind_from units.now symbol }
{
    let first = units.at(0);
    match PayloadKind::of(first) {
        Some(PayloadKind::PackedSwitch) => PieceKind::PackedSwitch(units.at(1)),
        Some(PayloadKind::SparseSwitch) => PieceKind::SparseSwitch(units.at(1)),
        Some(PayloadKind::ArrayData) => {
            let size = u32::from(units.at(2)) + 0x1_0000 * u32::from(units.at(3));
            PieceKind::ArrayData(units.at(1), size)
        }
        None => PieceKind::Instruction(opcode_in(first), symbol),
    }
}

impl<'a> Pieces<'a> {
    /// The pieces, in order.
    ///
    /// Source: "code_item", the field `insns`.
    pub fn iter(&self) -> PieceIter<'_>
        ensures { result ≡ listed 0 self.now.pieces }
    {
        PieceIter {
            bytes: self.bytes,
            unit: 0,
            indices: &self.indices,
        }
    }
}
