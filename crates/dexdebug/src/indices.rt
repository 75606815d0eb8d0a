//! Numbers of symbols, as a debug program stores them.

ghost use Rattle.std.specs.Prelude.{◌≡◌, All};
ghost use Rattle.dexdebug.specs.Debug.{FitsIndex, HasPlace, number_uses};
ghost use Rattle.dexdebug.specs.Operations.{renumbered_index};

use crate::debug_numbers::image;
use dexpool::{Remap, Renumber, SymbolKind, Symbols, Visitor};
use std::marker::Model;

/// What is stored for no number.
const NO_INDEX: u32 = u32::MAX;

/// A number below 2^32 - 1, or none, in four bytes. Contracts see an option.
#[derive(Clone, Copy)]
pub(crate) struct OptionalNumber {
    stored: u32,
}

impl Model for OptionalNumber {
    ghost use Rattle.std.specs.Prelude.{ℕ, Option};
    ghost use Rattle.dexpool.specs.Packed.{image_in};
    ghost use Rattle.dexdebug.specs.Packed.{number_or_none, stored_back};

    ghost Value = { Option ℕ };

    ghost view = { λ i. image_in i.stored };

    ghost inverse = { λ number. record { stored = number_or_none number } };

    ghost inverse_ok = { λ i h. λ k. record { stored = stored_back i.stored k } };
}

impl OptionalNumber {
    /// The number as it is stored.
    fn new(number: Option<u32>) -> OptionalNumber
        requires { FitsIndex number }
        ensures { result ≡ number }
    {
        OptionalNumber {
            stored: number.unwrap_or(NO_INDEX),
        }
    }

    /// The number, or `None` where there is none.
    pub(crate) fn get(self) -> Option<u32>
        ensures { result ≡ self }
    {
        (self.stored != NO_INDEX).then_some(self.stored)
    }
}

/// The number of a symbol in a debug program, or `None`, which is NO_INDEX.
#[derive(Clone, Copy)]
pub(crate) struct Index {
    pub(crate) kind: SymbolKind,
    pub(crate) number: OptionalNumber,
}

impl Index {
    /// The number of a symbol of a kind.
    pub(crate) fn new(kind: SymbolKind, number: Option<u32>) -> Index
        requires { FitsIndex number }
        ensures { result ≡ record { kind = kind; number = number } }
    {
        let number = OptionalNumber::new(number);
        Index { kind, number }
    }
}

impl Symbols for Index {
    ghost uses = { λ i. number_uses i.kind i.number };

    fn visit<V: Visitor>(&self, visitor: &mut V) {
        if let Some(number) = self.number.get() {
            visitor.symbol(self.kind, number);
        }
    }
}

impl Renumber for Index {
    ghost places = { λ r i. All (HasPlace r) (number_uses i.kind i.number) };

    ghost remapped = { renumbered_index };

    fn renumber(&mut self, remap: &Remap) {
        if let Some(image) = image(remap, self.kind, self.number.get()) {
            self.number = OptionalNumber::new(Some(image as u32));
        }
    }
}
