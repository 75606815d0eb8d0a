//! Code that several owners have in common memory.

ghost use Rattle.std.specs.Prelude.{◌≡◌, IsTrue};
ghost use Rattle.std.specs.Option.{option_map};
ghost use Rattle.dexcode.specs.Numbered.{NumberedItem};
ghost use Rattle.dexcode.specs.Renumbering.{HasPlaces, renumbered_item};

use crate::code::Code;
use dexdebug::Debug;
use dexpool::{Remap, Share};
use std::alloc::AllocError;

// Returns whether there is the same debug program, or none in both cases.
fn is_same_debug(debug: Option<&Debug<'_>>, other: Option<&Debug<'_>>) -> bool
    ensures { IsTrue result → option_map (λ debug. debug.now) debug.entry
        ≡ option_map (λ debug. debug.now) other.entry }
{
    match (debug, other) {
        (Some(debug), Some(other)) => debug.is_same(other),
        (None, None) => true,
        _ => false,
    }
}

impl Share for Code<'_> {
    ghost Item = { NumberedItem };

    ghost item_of = { λ code. code };

    ghost places = { HasPlaces };

    ghost remaps = { λ r old new. new ≡ renumbered_item r old };

    fn copied(&self) -> Result<Self, AllocError> {
        self.copy()
    }

    fn remap(&mut self, remap: &Remap) {
        self.renumber(remap);
    }

    fn is_same(&self, other: &Self) -> bool {
        self.pieces.is_same(&other.pieces)
            && self.tries().is_same(&other.tries())
            && is_same_debug(self.debug(), other.debug())
    }
}
