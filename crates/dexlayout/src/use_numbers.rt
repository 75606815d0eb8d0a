//! The numbers of the items of uses that come in lists, of which many are equal.

ghost use Rattle.std.specs.Prelude.{◌≡◌, ◌∷◌, ◌++◌, ◌+◌, ◌<◌, ◌≤◌, [], All, IfSome, OnOk, drop, length, map, slice_index, take};
ghost use Rattle.dexpool.specs.Packed.{image_in};
ghost use Rattle.dexlayout.specs.internal.Placing.{use_offsets};

use crate::item_number::ItemNumber;
use crate::runs::{Runs, RunsLeft};
use crate::sharing::offset_of;
use std::alloc::{AllocError, Global};
use std::marker::Model;

/// For each use the number of its item, if it has one: of equal lists of numbers only one is kept. Contracts see a list
/// of options.
#[derive(Drop)]
pub(crate) struct UseNumbers {
    stored: Runs,
}

impl Model for UseNumbers {
    ghost use Rattle.std.specs.Prelude.{ℕ, List, Option, map};
    ghost use Rattle.dexpool.specs.Packed.{image_in};

    ghost Value = { List (Option ℕ) };

    ghost view = { λ u. map image_in u.stored };
}

impl UseNumbers {
    /// No uses.
    pub(crate) fn none(alloc: Global) -> UseNumbers
        ensures { result ≡ [] }
    {
        UseNumbers {
            stored: Runs::none(alloc),
        }
    }

    /// Adds the number of a use.
    pub(crate) fn push(&mut self, number: ItemNumber) -> Result<(), AllocError>
        ensures { OnOk result (self.new ≡ self.old ++ number ∷ []) }
    {
        self.stored.push(number.stored())
    }

    /// Ends a list of uses.
    pub(crate) fn end_list(&mut self) -> Result<(), AllocError>
        ensures { OnOk result (self.new ≡ self.old) }
    {
        self.stored.end_run()
    }

    // The numbers as they are stored.
    fn numbers(&self) -> RunsLeft<'_>
        ensures { map image_in result ≡ self.now }
    {
        self.stored.numbers()
    }
}

/// The offset of the item of each of the uses that are left, by their numbers and the offsets of the items that are
/// written. They are looked up where they are asked for. Contracts see a list of them.
#[derive(Drop)]
pub(crate) struct UseOffsets<'o> {
    numbers: RunsLeft<'o>,
    written: &'o [u32],
}

impl<'o> Model for UseOffsets<'o> {
    ghost use Rattle.std.specs.Prelude.{ℕ, List, ◌<◌, All, IfSome, length, map};
    ghost use Rattle.dexpool.specs.Packed.{image_in};
    ghost use Rattle.dexlayout.specs.internal.Placing.{use_offsets};

    ghost Value = { List ℕ };

    ghost view = { λ u. use_offsets (map image_in u.numbers) u.written.now };

    ghost invariant = { λ u. All (λ number. IfSome number (λ i. i < length u.written.now)) (map image_in u.numbers) };
}

impl<'o> UseOffsets<'o> {
    /// The offsets of uses with these numbers.
    ///
    /// Condition: each number is that of one of the items.
    pub(crate) fn of(numbers: &'o UseNumbers, written: &'o [u32]) -> UseOffsets<'o>
        requires { All (λ number. IfSome number (λ i. i < length written.now)) numbers.now }
        ensures { result ≡ use_offsets numbers.now written.now }
    {
        UseOffsets {
            numbers: numbers.numbers(),
            written,
        }
    }

    /// The next of them.
    ///
    /// Condition: there is one.
    pub(crate) fn next(&mut self) -> u32
        requires { 1 ≤ length self.old }
        ensures first { result ≡ slice_index self.old 0 }
        ensures others { self.new ≡ drop 1 self.old }
    {
        offset_of(ItemNumber::from_stored(self.numbers.next()), self.written)
    }

    /// Appends the next `count` of them.
    pub(crate) fn append_to(&mut self, count: usize, to: &mut Vec<u32>) -> Result<(), AllocError>
        requires { count ≤ length self.old }
        ensures appended { OnOk result (to.new.items ≡ to.old.items ++ take count self.old) }
        ensures others { OnOk result (self.new ≡ drop count self.old) }
    {
        to.reserve(count)?;
        for _ in 0..count {
            to.push(self.next())?;
        }
        Ok(())
    }

    /// Appends the next `count` of them, as a run.
    pub(crate) fn append_run_to(&mut self, count: usize, to: &mut Runs) -> Result<(), AllocError>
        requires { count ≤ length self.old }
        ensures appended { OnOk result (to.new ≡ to.old ++ take count self.old) }
        ensures others { OnOk result (self.new ≡ drop count self.old) }
    {
        for _ in 0..count {
            to.push(self.next())?;
        }
        to.end_run()
    }
}
