//! Numbers of types in tries, and what becomes of them.

ghost use Rattle.std.specs.Prelude.{◌∷◌, [], All};
ghost use Rattle.dexcode.specs.Renumbering.{catch_use, handler_uses, tries_uses, HasTypePlace, renumbered_catch, renumbered_handler};

use crate::handlers::{Catch, Handler};
use crate::tries::Tries;
use dexpool::{Remap, Renumber, SymbolKind, Symbols, Visitor, renumber_all, visit_all};

impl Renumber for Catch {
    ghost places = { λ r c. HasTypePlace r (catch_use c) };

    ghost remapped = { renumbered_catch };

    fn renumber(&mut self, remap: &Remap) {
        self.typ = remap.or_same(SymbolKind::Typ, self.typ as usize) as u32;
    }
}

impl Renumber for Handler {
    ghost places = { λ r h. All (HasTypePlace r) (handler_uses h) };

    ghost remapped = { renumbered_handler };

    fn renumber(&mut self, remap: &Remap) {
        renumber_all(&mut self.catches, remap);
    }
}

impl Symbols for Catch {
    ghost uses = { λ c. catch_use c ∷ [] };

    fn visit<V: Visitor>(&self, visitor: &mut V) {
        visitor.symbol(SymbolKind::Typ, self.typ);
    }
}

impl Symbols for Handler {
    ghost uses = { handler_uses };

    fn visit<V: Visitor>(&self, visitor: &mut V) {
        visit_all(&self.catches, visitor);
    }
}

impl Symbols for Tries<'_> {
    ghost uses = { tries_uses };

    fn visit<V: Visitor>(&self, visitor: &mut V) {
        let (_, handlers) = self.parts();
        visit_all(handlers, visitor);
    }
}
