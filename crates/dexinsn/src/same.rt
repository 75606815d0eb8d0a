//! Comparison of pieces.

ghost use Rattle.std.specs.Prelude.{◌≡◌, ◌↔◌, ◌≤◌, ◌*◌, IsTrue, All, length, map};
ghost use Rattle.std.specs.List.{AllZip};
ghost use Rattle.dexinsn.specs.Units.{units_in};
ghost use Rattle.dexinsn.specs.declared.pieces.Index.{Index};
ghost use Rattle.dexinsn.specs.Numbered.{renumbered, renumbered_piece};
ghost use Rattle.dexinsn.specs.Stored.{IsIndexed, Follow};
ghost use Rattle.dexinsn.specs.internal.Same.{Agree, AgreeBeside, AreEqualMapped};

use crate::code_units::{Units, unit_bytes};
use crate::instruction::{index_kind_at, is_wide_at};
use crate::pieces::{Index, Pieces};
use crate::put::after_index;
use dexpool::Remap;

// Returns whether the units from one place up to another are the same.
fn agree(bytes: &[u8], others: &[u8], from: usize, to: usize) -> bool
    requires order { from ≤ to }
    requires within { 2 * to ≤ length bytes.now }
    requires others { 2 * to ≤ length others.now }
    ensures { IsTrue result ↔ Agree (units_in bytes.now) (units_in others.now) from to }
{
    unit_bytes(bytes, from, to) == unit_bytes(others, from, to)
}

// Returns whether the units are the same but for the indices of the first.
fn agree_beside(bytes: &[u8], others: &[u8], indices: &[Index]) -> bool
    requires follow { Follow (units_in bytes.now) 0 indices.now }
    requires count { length (units_in bytes.now) ≡ length (units_in others.now) }
    ensures { IsTrue result ↔ AgreeBeside (units_in bytes.now) (units_in others.now) 0 indices.now }
{
    let units = Units::of_bytes(bytes);
    let mut from = 0;
    for index in indices {
        let unit = index.unit as usize;
        if !agree(bytes, others, from, unit + 1) {
            return false;
        }
        from = after_index(is_wide_at(&units, unit), unit);
    }
    agree(bytes, others, from, units.len())
}

// Returns whether both indices are at one unit and have one image, or neither has one.
fn eq_index(units: &Units<'_>, index: Index, mine: &Remap, other: Index, theirs: &Remap) -> bool
    requires { IsIndexed units.now index }
    ensures { IsTrue result ↔ AreEqualMapped mine.now theirs.now units.now index other }
{
    let kind = index_kind_at(units, index.unit as usize);
    index.unit == other.unit
        && mine.image(kind, index.number as usize) == theirs.image(kind, other.number as usize)
}

// Returns whether the indices are at the same units, which these are, and have the same images.
fn eq_indices(
    units: &Units<'_>,
    indices: &[Index],
    mine: &Remap,
    others: &[Index],
    theirs: &Remap,
) -> bool
    requires { All (IsIndexed units.now) indices.now }
    ensures { IsTrue result
        ↔ AllZip (AreEqualMapped mine.now theirs.now units.now) indices.now others.now }
{
    if indices.len() != others.len() {
        return false;
    }
    for (i, index) in indices.iter().enumerate() {
        if !eq_index(units, *index, mine, others[i], theirs) {
            return false;
        }
    }
    true
}

// Indices are equal exactly where they are the same. It does nothing: its contract is the law, for the comparison of lists
// of them.
fn index_equality_law()
    ensures { (x y : Index) → IsTrue (⟦<Index as PartialEq>⟧.eq x y) ↔ (x ≡ y) }
{}

impl<'a> Pieces<'a> {
    // Returns whether the pieces are the same once remapped.
    fn eq_pieces(&self, mine: &Remap, other: &Pieces<'_>, theirs: &Remap) -> bool
        ensures { IsTrue result ↔ (map (renumbered_piece mine.now) self.now.pieces
            ≡ map (renumbered_piece theirs.now) other.now.pieces) }
    {
        let units = Units::of_bytes(self.bytes);
        if units.len() != Units::of_bytes(other.bytes).len() {
            return false;
        }
        if !agree_beside(self.bytes, other.bytes, &self.indices) {
            return false;
        }
        eq_indices(&units, &self.indices, mine, &other.indices, theirs)
    }

    /// Returns whether these and other pieces are the same, and the three numbers of registers too, after each is
    /// mapped by its own map. Numbers without images count as the same.
    ///
    /// Source: "code_item".
    pub fn same_mapped(&self, mine: &Remap, other: &Pieces<'_>, theirs: &Remap) -> bool
        ensures { IsTrue result ↔ (renumbered mine.now self.now ≡ renumbered theirs.now other.now) }
    {
        self.registers == other.registers
            && self.ins == other.ins
            && self.outs == other.outs
            && self.eq_pieces(mine, other, theirs)
    }

    /// Returns whether these and other pieces have the same units and the same numbers. Where it is false they may still be
    /// the same, spelled with other indices in the file.
    pub fn is_same(&self, other: &Pieces<'_>) -> bool
        ensures { IsTrue result → self.now ≡ other.now }
    {
        if self.registers != other.registers || self.ins != other.ins || self.outs != other.outs {
            return false;
        }
        index_equality_law();
        self.bytes == other.bytes && self.indices == other.indices
    }
}
