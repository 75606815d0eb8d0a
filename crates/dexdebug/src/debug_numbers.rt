//! Numbers of symbols in debug programs, and what becomes of them.

ghost use Rattle.std.specs.Prelude.{◌≡◌, All};
ghost use Rattle.dexspec.specs.Weight.{debug_weight};
ghost use Rattle.dexpool.specs.Uses.{HasMark, AreMarkedToo};
ghost use Rattle.dexdebug.specs.Debug.{unindexed, debug_uses, HasPlace, IsFormedDebug, image_or_none, renumbered_debug};

use crate::debug::Debug;
use dexpool::{Marks, Remap, SymbolKind, Symbols, Visitor, mark, renumber_all, visit_all};

// Returns the image of a number, if it has one.
pub(crate) fn image(remap: &Remap, kind: SymbolKind, number: Option<u32>) -> Option<usize>
    ensures { result ≡ image_or_none remap.now kind number }
{
    remap.image(kind, number? as usize)
}

impl Symbols for Debug<'_> {
    ghost uses = { debug_uses };

    fn visit<V: Visitor>(&self, visitor: &mut V) {
        visit_all(&self.indices, visitor);
    }
}

impl<'a> Debug<'a> {
    /// Returns the weight: as many bytes as [`put_debug`](crate::put_debug) appends, or more.
    pub fn weight(&self) -> u64
        ensures { result ≡ debug_weight (unindexed self.now) }
    {
        self.weight
    }

    /// Each number is below 2^32 - 1, and there are less than 2^32 names and less than 2^30 operations. The call does
    /// nothing: its contract states what holds of every debug program, for the proofs of callers.
    pub fn numbers_fit(&self)
        ensures { IsFormedDebug self.now }
    {
        let _line_start = self.line_start;
    }

    /// Maps each number to its image.
    ///
    /// Condition: each number has an image, below 2^32 - 1.
    pub fn renumber(&mut self, remap: &Remap)
        requires { All (HasPlace remap.now) (debug_uses self.old) }
        ensures { self.new ≡ renumbered_debug remap.now self.old }
    {
        renumber_all(&mut self.indices, remap);
    }

    /// Marks each symbol that occurs.
    ///
    /// Condition: there is a mark for each of them.
    pub fn mark(&self, marks: &mut Marks)
        requires { All (HasMark marks.old) (debug_uses self.now) }
        ensures { AreMarkedToo (debug_uses self.now) marks.old marks.new }
    {
        mark(self, marks);
    }
}
