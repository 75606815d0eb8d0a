//! The units of one instruction or payload, and the numbers in them.

ghost use Rattle.std.specs.Prelude.{◌≡◌, ◌+◌, ◌≤◌, ◌<◌, ◌*◌, ◌/◌, ◌%◌, ◌^◌, length, slice_index, take, drop};
ghost use Rattle.std.specs.List.{flat_map};
ghost use Rattle.dexspec.specs.Pieces.{int_in, two_units};
ghost use Rattle.dexinsn.specs.Blank.{blank_units};
ghost use Rattle.dexlisting.specs.FullListing.{third_nibble, fourth_nibble};

use dexinsn::{Piece, Pieces};
use std::marker::Model;

/// The units of an instruction or payload, those of an index zero. Contracts see a list of them.
#[derive(Drop)]
pub(crate) struct Units<'p, 'a> {
    pieces: &'p Pieces<'a>,
    // The unit at which it begins.
    first: u32,
    // The number of its units.
    count: u32,
}

impl<'p, 'a> Model for Units<'p, 'a> {
    ghost use Rattle.std.specs.Prelude.{ℕ, List, ◌+◌, ◌^◌, ◌<◌, ◌≤◌, length, take, drop};
    ghost use Rattle.std.specs.List.{flat_map};
    ghost use Rattle.dexinsn.specs.Blank.{blank_units};

    ghost Value = { List ℕ };

    ghost view = { λ u. take u.count (drop u.first (flat_map blank_units u.pieces.now.pieces)) };

    ghost invariant = { λ u. (u.first + u.count ≤ length (flat_map blank_units u.pieces.now.pieces)) × (length (flat_map blank_units u.pieces.now.pieces) < 2 ^ 32) };
}

impl<'p, 'a> Units<'p, 'a> {
    /// The units of one of the pieces.
    ///
    /// Condition: the pieces have its units.
    pub(crate) fn of(pieces: &'p Pieces<'a>, piece: &Piece) -> Units<'p, 'a>
        requires { piece.now.unit + piece.now.units
            ≤ length (flat_map blank_units pieces.now.pieces) }
        ensures { result ≡ take piece.now.units
            (drop piece.now.unit (flat_map blank_units pieces.now.pieces)) }
    {
        are_few(pieces);
        Units {
            pieces,
            first: piece.unit,
            count: piece.units,
        }
    }

    /// The number of units.
    pub(crate) fn len(&self) -> usize
        ensures { result ≡ length self.now }
    {
        self.count as usize
    }

    /// The unit at a place, or zero past the end.
    pub(crate) fn at(&self, place: usize) -> u16
        ensures { result ≡ slice_index self.now place }
    {
        if place < self.count as usize {
            let pieces = self.pieces;
            pieces.unit(self.first + place as u32)
        } else {
            0
        }
    }

    /// The number in the unit at a place and the next one, the lower first.
    pub(crate) fn two_at(&self, place: usize) -> u32
        requires { place < 2 ^ 32 }
        ensures { result ≡ two_units self.now place }
    {
        u32::from(self.at(place)) + 0x1_0000 * u32::from(self.at(place + 1))
    }

    /// The signed number in the unit at a place and the next one, the lower first.
    pub(crate) fn int_at(&self, place: usize) -> i32
        requires { place < 2 ^ 32 }
        ensures { result ≡ int_in self.now place }
    {
        self.two_at(place).cast_signed()
    }
}

// There are fewer than 2^32 units. The call does nothing: its contract states what holds of all pieces.
fn are_few(pieces: &Pieces<'_>)
    ensures { length (flat_map blank_units pieces.now.pieces) < 2 ^ 32 }
{
    let _count = pieces.units();
}

/// The bits 8 to 11 of a unit.
pub(crate) fn third_nibble(unit: u16) -> u16
    ensures { result ≡ third_nibble unit }
{
    unit / 0x100 % 0x10
}

/// The bits 12 to 15 of a unit.
pub(crate) fn fourth_nibble(unit: u16) -> u16
    ensures { result ≡ fourth_nibble unit }
{
    unit / 0x1000
}
