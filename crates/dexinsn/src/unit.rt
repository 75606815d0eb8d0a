//! The units of pieces, one by one.

ghost use Rattle.std.specs.Prelude.{◌≡◌, ◌==◌, ◌&&◌, ◌||◌, ◌+◌, ◌*◌, ◌^◌, ◌<◌, length, drop, slice_index};
ghost use Rattle.std.specs.List.{flat_map, list_any};
ghost use Rattle.dexspec.specs.Pieces.{is_wide_index};
ghost use Rattle.dexinsn.specs.Blank.{IsCountBefore, Rise, blank_units, covers};
ghost use Rattle.dexinsn.specs.Numbered.{numbered_bytes};
ghost use Rattle.dexinsn.specs.Stored.{AreStored};

use crate::code_units::Units;
use crate::instruction::is_wide_at;
use crate::pieces::{Index, Pieces};

// Returns the number of indices before a unit.
fn count_before(indices: &[Index], unit: usize) -> usize
    requires { Rise indices.now }
    ensures { IsCountBefore indices.now unit result }
{
    indices.partition_point(|index| (index.unit as usize) < unit)
}

// Returns whether a unit is one of the index of the instruction that begins at another.
fn is_in_index(units: &Units<'_>, first: usize, unit: usize) -> bool
    requires few { length units.now < 2 ^ 32 }
    requires first { first < length units.now }
    ensures { result
        ≡ ((unit == first + 1) || ((unit == first + 2) && is_wide_index (drop first units.now))) }
{
    unit == first + 1 || unit == first + 2 && is_wide_at(units, first)
}

// Returns whether a unit is one of an index.
fn is_of_index(units: &Units<'_>, indices: &[Index], unit: usize) -> bool
    requires { AreStored units.now indices.now }
    ensures { result ≡ list_any (covers units.now unit) indices.now }
{
    let count = count_before(indices, unit);
    if count == 0 {
        return false;
    }
    is_in_index(units, indices[count - 1].unit as usize, unit)
}

impl<'a> Pieces<'a> {
    /// The unit at a place. The units of an index are zero.
    ///
    /// Condition: the place is below the number of units, which [`units`](Pieces::units) returns.
    ///
    /// Source: "code_item", the field `insns`.
    pub fn unit(&self, i: u32) -> u16
        requires { 2 * i < length (numbered_bytes self.now.pieces) }
        ensures { result ≡ slice_index (flat_map blank_units self.now.pieces) i }
    {
        let units = Units::of_bytes(self.bytes);
        let unit = i as usize;
        if is_of_index(&units, &self.indices, unit) {
            0
        } else {
            units.at(unit)
        }
    }
}
