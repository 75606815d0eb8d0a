//! The number of an item that a use has, or none, in four bytes.

ghost use Rattle.std.specs.Prelude.{◌≡◌, IfOk};
ghost use Rattle.dexpool.specs.Packed.{image_in};

use std::alloc::AllocError;
use std::marker::Model;

// What is stored for no item.
const NO_ITEM: u32 = u32::MAX;

/// The number of one of less than 2^32 items, or none. Contracts see an option.
#[derive(Clone, Copy)]
pub(crate) struct ItemNumber {
    stored: u32,
}

impl Model for ItemNumber {
    ghost use Rattle.std.specs.Prelude.{ℕ, Option};
    ghost use Rattle.dexpool.specs.Packed.{image_in};
    ghost use Rattle.dexdebug.specs.Packed.{number_or_none, stored_back};

    ghost Value = { Option ℕ };

    ghost view = { λ i. image_in i.stored };

    ghost inverse = { λ number. record { stored = number_or_none number } };

    ghost inverse_ok = { λ i h. λ k. record { stored = stored_back i.stored k } };
}

impl ItemNumber {
    /// The number, or none.
    ///
    /// Error: the number is not less than 2^32 - 1.
    pub(crate) fn of(number: Option<usize>) -> Result<ItemNumber, AllocError>
        ensures { IfOk result (λ kept. kept ≡ number) }
    {
        let stored = match number {
            Some(number) if number >= NO_ITEM as usize => return Err(AllocError),
            Some(number) => number as u32,
            None => NO_ITEM,
        };
        Ok(ItemNumber { stored })
    }

    /// The number, or `None` where there is none.
    pub(crate) fn get(self) -> Option<usize>
        ensures { result ≡ self }
    {
        (self.stored != NO_ITEM).then_some(self.stored as usize)
    }

    /// What is stored for it.
    pub(crate) fn stored(self) -> u32
        ensures { image_in result ≡ self }
    {
        self.stored
    }

    /// The number, or none, for which this is stored.
    pub(crate) fn from_stored(stored: u32) -> ItemNumber
        ensures { result ≡ image_in stored }
    {
        ItemNumber { stored }
    }
}
