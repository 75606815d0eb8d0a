//! Debug programs that several owners have in common memory.

ghost use Rattle.std.specs.Prelude.{◌≡◌, All};
ghost use Rattle.dexdebug.specs.Debug.{NumberedDebug, HasPlace, debug_uses, renumbered_debug};

use crate::debug::Debug;
use dexpool::{Remap, Share};
use std::alloc::AllocError;

impl Share for Debug<'_> {
    ghost Item = { NumberedDebug };

    ghost item_of = { λ debug. debug };

    ghost places = { λ r debug. All (HasPlace r) (debug_uses debug) };

    ghost remaps = { λ r old new. new ≡ renumbered_debug r old };

    fn copied(&self) -> Result<Self, AllocError> {
        self.copy()
    }

    fn remap(&mut self, remap: &Remap) {
        self.renumber(remap);
    }

    fn is_same(&self, other: &Self) -> bool {
        Debug::is_same(self, other)
    }
}
