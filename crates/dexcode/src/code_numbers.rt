//! Numbers of symbols in code items, and what becomes of them.

ghost use Rattle.std.specs.Prelude.{◌≡◌, ◌↔◌, IsTrue, All};
ghost use Rattle.dexpool.specs.Uses.{HasMark, AreMarkedToo};
ghost use Rattle.dexinsn.specs.Fitting.{IsGreatest, short_strings};
ghost use Rattle.dexcode.specs.Renumbering.{item_uses, HasPlaces, NumbersFit, renumbered_item};

use crate::borrowed_code::BorrowedCode;
use crate::code::Code;
use crate::extras::Extras;
use dexpool::{Marks, Remap, Symbols, Visitor, mark, renumber_all};

impl Symbols for BorrowedCode<'_, '_> {
    ghost uses = { item_uses };

    fn visit<V: Visitor>(&self, visitor: &mut V) {
        self.pieces.visit(visitor);
        self.tries.visit(visitor);
        if let Some(debug) = self.debug {
            debug.visit(visitor);
        }
    }
}

impl Symbols for Code<'_> {
    ghost uses = { item_uses };

    fn visit<V: Visitor>(&self, visitor: &mut V) {
        self.as_borrowed().visit(visitor);
    }
}

impl BorrowedCode<'_, '_> {
    /// As [`Code::numbers_fit`].
    #[tactic(auto, using(crate::proofs::CodePlaces::tries_small))]
    pub fn numbers_fit(&self)
        ensures { NumbersFit self.now }
    {
        self.pieces.numbers_fit();
        let (_tries, _handlers) = self.tries.parts();
        if let Some(debug) = self.debug {
            debug.numbers_fit();
        }
    }

    /// As [`Code::greatest_short_string`].
    ///
    /// Source: "code_item", the field `insns`.
    pub fn greatest_short_string(&self) -> Option<u32>
        ensures { IsGreatest (short_strings self.now.body.pieces) result }
    {
        self.pieces.greatest_short_string()
    }

    /// As [`Code::same_mapped`].
    ///
    /// Source: "code_item".
    pub fn same_mapped(&self, mine: &Remap, other: &BorrowedCode<'_, '_>, theirs: &Remap) -> bool
        ensures { IsTrue result
            ↔ (renumbered_item mine.now self.now ≡ renumbered_item theirs.now other.now) }
    {
        if !self.pieces.same_mapped(mine, other.pieces, theirs) {
            return false;
        }
        if !self.tries.same_mapped(mine, &other.tries, theirs) {
            return false;
        }
        match (self.debug, other.debug) {
            (Some(debug), Some(other)) => debug.same_mapped(mine, other, theirs),
            (None, None) => true,
            _ => false,
        }
    }
}

impl<'a> Code<'a> {
    /// Each number fits its place: it is below 2^16 in an instruction but for const-string/jumbo, below 2^32 for a type
    /// that is caught, and below 2^32 - 1 in the debug program. It does nothing: its contract states this of all code,
    /// for the proofs of callers.
    pub fn numbers_fit(&self)
        ensures { NumbersFit self.now }
    {
        self.as_borrowed().numbers_fit();
    }

    /// The greatest number of a text that a const-string names, not counting const-string/jumbo, or `None` where there
    /// is no const-string.
    ///
    /// Source: "code_item", the field `insns`.
    pub fn greatest_short_string(&self) -> Option<u32>
        ensures { IsGreatest (short_strings self.now.body.pieces) result }
    {
        self.pieces.greatest_short_string()
    }

    /// Replaces each number by the one that it maps to.
    ///
    /// Condition: each number maps to one that fits its place, one below 2^16 in an instruction but for
    /// const-string/jumbo, one below 2^32 for a type that is caught, and one below 2^32 - 1 in the debug program.
    ///
    /// Source: "code_item".
    pub fn renumber(&mut self, remap: &Remap)
        requires { HasPlaces remap.now self.old }
        ensures { self.new ≡ renumbered_item remap.now self.old }
    {
        self.pieces.renumber(remap);
        match &mut self.extras {
            Extras::None => {}
            Extras::Debug(debug) => debug.renumber(remap),
            Extras::Tries(both) => {
                remap.keeps_order();
                renumber_all(&mut both.tries.handlers, remap);
                if let Some(debug) = &mut both.debug {
                    debug.renumber(remap);
                }
            }
        }
    }

    /// Marks each symbol that occurs: those of instructions, the types that are caught, and those of the debug
    /// program.
    ///
    /// Condition: there is a mark for each of them.
    ///
    /// Source: "code_item".
    pub fn mark(&self, marks: &mut Marks)
        requires { All (HasMark marks.old) (item_uses self.now) }
        ensures { AreMarkedToo (item_uses self.now) marks.old marks.new }
    {
        mark(self, marks);
    }

    /// Returns whether this and other code are equal once the numbers of each are remapped by a map of its own. Of
    /// numbers that map to none, those of types that are caught stay, and the others count as equal.
    ///
    /// Source: "code_item".
    pub fn same_mapped(&self, mine: &Remap, other: &Code<'_>, theirs: &Remap) -> bool
        ensures { IsTrue result
            ↔ (renumbered_item mine.now self.now ≡ renumbered_item theirs.now other.now) }
    {
        self.as_borrowed()
            .same_mapped(mine, &other.as_borrowed(), theirs)
    }
}

/// The same as [`Code::renumber`].
pub fn renumber(code: &mut Code<'_>, remap: &Remap)
    requires { HasPlaces remap.now code.old }
    ensures { code.new ≡ renumbered_item remap.now code.old }
{
    code.renumber(remap);
}
