//! Code units as they are borrowed, and the numbers in them.

ghost use Rattle.std.specs.Prelude.{◌≡◌, ◌<◌, ◌≤◌, ◌+◌, ◌-◌, ◌*◌, ◌/◌, ◌^◌, length, take, drop, slice_index};
ghost use Rattle.dexspec.specs.Bytes.{ushorts_at};
ghost use Rattle.dexspec.specs.Pieces.{high_byte, int_in, low_byte};

use dexhead::u16_at;
use std::marker::Model;

/// What units are borrowed from.
#[derive(Clone, Copy)]
pub(crate) enum Source<'a> {
    Numbers(&'a [u16]),
    /// Two bytes for each unit, the lower first.
    Bytes(&'a [u8]),
}

/// 16-bit code units, borrowed. Contracts see a list of numbers.
#[derive(Drop)]
pub(crate) struct Units<'a>(Source<'a>);

impl<'a> Model for Units<'a> {
    ghost use Rattle.std.specs.Prelude.{ℕ, List};
    ghost use Rattle.dexinsn.specs.Units.{units_from, IsInMemory};

    ghost Value = { List ℕ };

    ghost view = { λ units. units_from units.0 };

    ghost invariant = { λ units. IsInMemory units.0 };
}

#[tactic(auto, using(crate::proofs::Halves::unit_from, crate::proofs::Halves::length_from, crate::proofs::Halves::rest_from))]
impl<'a> Units<'a> {
    /// The units that the numbers are.
    pub(crate) fn of_numbers(numbers: &'a [u16]) -> Units<'a>
        ensures { result ≡ numbers.now }
    {
        Units(Source::Numbers(numbers))
    }

    /// The units that the bytes encode, two bytes for each.
    pub(crate) fn of_bytes(bytes: &'a [u8]) -> Units<'a>
        ensures { result ≡ ushorts_at bytes.now 0 (length bytes.now / 2) }
    {
        Units(Source::Bytes(bytes))
    }

    /// The number of units.
    pub(crate) fn len(&self) -> usize
        ensures len { result ≡ length self.now }
        ensures small { length self.now < 2 ^ 62 }
    {
        match self.0 {
            Source::Numbers(numbers) => numbers.len(),
            Source::Bytes(bytes) => bytes.len() / 2,
        }
    }

    /// The unit at a place.
    pub(crate) fn at(&self, i: usize) -> u16
        requires { i < length self.now }
        ensures is { result ≡ slice_index self.now i }
        ensures small { length self.now < 2 ^ 62 }
    {
        match self.0 {
            Source::Numbers(numbers) => numbers[i],
            Source::Bytes(bytes) => u16_at(bytes, 2 * i),
        }
    }

    /// The units from a place on.
    pub(crate) fn rest(&self, at: usize) -> Units<'a>
        requires { at ≤ length self.now }
        ensures { result ≡ drop at self.now }
    {
        match self.0 {
            Source::Numbers(numbers) => Units::of_numbers(numbers.split_at(at).1),
            Source::Bytes(bytes) => Units::of_bytes(bytes.split_at(2 * at).1),
        }
    }
}

/// The bytes of the units from one place up to another, two for each.
pub(crate) fn unit_bytes(bytes: &[u8], from: usize, to: usize) -> &[u8]
    requires order { from ≤ to }
    requires within { 2 * to ≤ length bytes.now }
    ensures { result.now ≡ take (2 * (to - from)) (drop (2 * from) bytes.now) }
{
    bytes.split_at(2 * from).1.split_at(2 * (to - from)).0
}

/// The opcode of the instruction that begins with this unit.
pub(crate) fn opcode_in(unit: u16) -> u8
    ensures { result ≡ low_byte unit }
{
    (unit % 0x100) as u8
}

/// The byte above the opcode.
pub(crate) fn high_byte_of(unit: u16) -> u8
    ensures { result ≡ high_byte unit }
{
    (unit / 0x100) as u8
}

/// The signed number in the unit at `i` and the next one, the lower first.
pub(crate) fn int_at(units: &Units<'_>, i: usize) -> i32
    requires { i + 1 < length units.now }
    ensures { result ≡ int_in units.now i }
{
    (u32::from(units.at(i)) + 0x1_0000 * u32::from(units.at(i + 1))).cast_signed()
}
