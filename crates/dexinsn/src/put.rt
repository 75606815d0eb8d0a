//! Pieces written.

ghost use Rattle.std.specs.Prelude.{◌≡◌, ◌+◌, ◌*◌, ◌^◌, ◌<◌, ◌≤◌, ⊤, IsOk, length, false, vec_len, vec_capacity};
ghost use Rattle.std.specs.List.{flat_map};
ghost use Rattle.dexspec.specs.Bytes.{ushort};
ghost use Rattle.dexspec.specs.internal.Writing.{Puts};
ghost use Rattle.dexinsn.specs.Units.{units_in};
ghost use Rattle.dexinsn.specs.Numbered.{numbered_bytes, unit_count};
ghost use Rattle.dexinsn.specs.Stored.{AreStored, index_units, after_index};
ghost use Rattle.dexinsn.specs.internal.Writing.{bytes_between, bytes_with};
ghost use Rattle.dexinsn.specs.Put.{PutsDenoted};

use crate::code_units::{Units, unit_bytes};
use crate::instruction::is_wide_at;
use crate::laws::units_law;
use crate::pieces::{Index, Pieces};
use dexhead::{Encode, Output, put_with_len};
use dexpool::Numbering;
use std::alloc::AllocError;

// Writes the units from one place up to another.
fn encode_part<O: Output>(bytes: &[u8], from: usize, to: usize, out: &mut O)
    requires order { from ≤ to }
    requires within { 2 * to ≤ length bytes.now }
    ensures { O.gives (bytes_between (units_in bytes.now) from to) out.old out.new }
{
    out.bytes(unit_bytes(bytes, from, to));
}

// Writes an index.
fn encode_number<O: Output>(is_wide: bool, number: u32, out: &mut O)
    requires { is_wide ≡ false → number < 2 ^ 16 }
    ensures { O.gives (flat_map ushort (index_units is_wide number)) out.old out.new }
{
    if is_wide {
        out.u32(number);
    } else {
        out.u16(number as u16);
    }
}

// Returns the unit after the index of the instruction at a unit.
pub(crate) fn after_index(is_wide: bool, unit: usize) -> usize
    requires { unit < 2 ^ 62 }
    ensures { result ≡ after_index is_wide unit }
{
    if is_wide { unit + 3 } else { unit + 2 }
}

// Writes the units, their numbers put in.
fn encode_numbered<O: Output>(bytes: &[u8], indices: &[Index], out: &mut O)
    requires { AreStored (units_in bytes.now) indices.now }
    ensures { O.gives (bytes_with (units_in bytes.now) indices.now) out.old out.new }
{
    let units = Units::of_bytes(bytes);
    let mut from = 0;
    for index in indices {
        let unit = index.unit as usize;
        let is_wide = is_wide_at(&units, unit);
        encode_part(bytes, from, unit + 1, out);
        encode_number(is_wide, index.number, out);
        from = after_index(is_wide, unit);
    }
    encode_part(bytes, from, units.len(), out);
}

// The units of the pieces, the number of each symbol put in: two bytes for each unit, the lower first.
impl Encode for Pieces<'_> {
    ghost formed = { λ _. ⊤ };

    ghost bytes = { λ p. numbered_bytes p.pieces };

    fn encode<O: Output>(&self, out: &mut O) {
        encode_numbered(self.bytes, &self.indices, out);
    }
}

/// Appends the units of the pieces, the number of each symbol put in: two bytes for each unit, the lower first. They
/// are the units of the symbolic pieces that `pieces` denote in the numbering, each index the rank of its symbol.
///
/// Error: the allocation failed; the vector is then as it was. It does not fail where the spare room is at least two
/// bytes for each unit.
///
/// Source: "code_item", the field `insns`; the Android page "Dalvik executable instruction formats".
pub fn put_pieces(
    pieces: &Pieces<'_>,
    numbering: &Numbering<'_>,
    out: &mut Vec<u8>,
) -> Result<(), AllocError>
    ensures bytes { Puts (numbered_bytes pieces.now.pieces) out.old out.new result }
    ensures symbolic { PutsDenoted numbering.now pieces.now.pieces out.old out.new result }
    ensures bound { length (numbered_bytes pieces.now.pieces) ≤ 2 * unit_count pieces.now.pieces }
    ensures room { vec_len out.old + 2 * unit_count pieces.now.pieces ≤ vec_capacity out.old
        → IsOk result }
{
    numbering.is_numbering();
    units_law();
    put_with_len(pieces, 2 * pieces.units() as usize, out)
}
