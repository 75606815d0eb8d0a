//! Visitors of the symbols that occur in an item, and the change of their numbers.

ghost use Rattle.std.specs.Prelude.{◌≡◌, ◌∷◌, ◌↔◌, [], List, All, IsTrue, length, map};
ghost use Rattle.std.specs.List.{FoldsTo, flat_map};
ghost use Rattle.dexpool.specs.Numberings.{Maps};
ghost use Rattle.dexpool.specs.Images.{IsMapped, MapsUse};
ghost use Rattle.dexpool.specs.Uses.{Use, HasMark, AreMarkedToo, marks_of};

use crate::marks::Marks;
use crate::remap::Remap;
use crate::symbols::SymbolKind;

/// A visitor of symbols. A visit requires nothing: `step` says what the visitor does with a symbol, under a condition
/// of its own, such as that there is a mark for it.
pub trait Visitor {
    // the visitor before a call, the symbol, and the visitor after it
    ghost step: { Self → Use → Self → Type 0 };

    /// Visits the symbol of a kind and a number.
    fn symbol(&mut self, kind: SymbolKind, number: u32)
        ensures { step self.old (record { kind = kind; number = number }) self.new };
}

/// An item in which symbols occur.
pub trait Symbols {
    // those that occur, in order
    ghost uses: { Self → List Use };

    /// Passes each symbol to the visitor, in order.
    fn visit<V: Visitor>(&self, visitor: &mut V)
        ensures { FoldsTo V.step visitor.old (uses self.now) visitor.new };
}

/// Passes each symbol of each item to the visitor, in order.
pub fn visit_all<T: Symbols, V: Visitor>(items: &[T], visitor: &mut V)
    ensures { FoldsTo V.step visitor.old (flat_map T.uses items.now) visitor.new }
{
    for item in items {
        item.visit(visitor);
    }
}

// Returns the number of marks of a kind.
fn mark_count(marks: &Marks, kind: SymbolKind) -> usize
    ensures { result ≡ length (marks_of kind marks.now) }
{
    match kind {
        SymbolKind::Text => marks.strings.len(),
        SymbolKind::Typ => marks.types.len(),
        SymbolKind::Proto => marks.protos.len(),
        SymbolKind::Field => marks.fields.len(),
        SymbolKind::Method => marks.methods.len(),
    }
}

/// Marks each symbol for which there is a mark.
impl Visitor for Marks {
    ghost step = { λ a u b. HasMark a u → AreMarkedToo (u ∷ []) a b };

    fn symbol(&mut self, kind: SymbolKind, number: u32) {
        if (number as usize) < mark_count(self, kind) {
            self.mark(kind, number as usize);
        }
    }
}

/// Marks each symbol that occurs in the item.
///
/// Condition: there is a mark for each.
#[tactic(auto, using(crate::proofs::Visits::all_marked))]
pub fn mark<T: Symbols>(item: &T, marks: &mut Marks)
    requires { All (HasMark marks.old) (T.uses item.now) }
    ensures { AreMarkedToo (T.uses item.now) marks.old marks.new }
{
    item.visit(marks);
}

/// Whether each number that was visited has an image below 2^32.
#[derive(Drop)]
pub struct Fits<'a> {
    /// The images of numbers.
    pub remap: &'a Remap,
    /// Whether each number that was visited so far has one.
    pub fit: bool,
}

impl Visitor for Fits<'_> {
    ghost step = { λ a u b. (b.remap.now ≡ a.remap.now) × (IsTrue b.fit ↔ IsTrue a.fit × IsMapped a.remap.now u.kind u.number) };

    fn symbol(&mut self, kind: SymbolKind, number: u32) {
        let image = self.remap.image(kind, number as usize);
        self.fit = self.fit && image.is_some_and(|image| image < 0x1_0000_0000);
    }
}

/// Returns whether each number in the item has an image below 2^32.
#[tactic(auto, using(crate::proofs::Visits::all_fit))]
pub fn all_fit<T: Symbols>(item: &T, remap: &Remap) -> bool
    ensures { IsTrue result ↔ All (MapsUse remap.now) (T.uses item.now) }
{
    let mut fits = Fits { remap, fit: true };
    item.visit(&mut fits);
    fits.fit
}

/// An item whose numbers of symbols are replaced by their images.
pub trait Renumber {
    // whether each number has an image that fits its place
    ghost places: { Maps → Self → Type 0 };

    // the item with the images
    ghost remapped: { Maps → Self → Self };

    /// Replaces each number by its image.
    ///
    /// Condition: each has an image that fits its place.
    fn renumber(&mut self, remap: &Remap)
        requires { places remap.now self.old }
        ensures { self.new ≡ remapped remap.now self.old };
}

/// Replaces each number of each item by its image.
///
/// Condition: each has an image that fits its place.
pub fn renumber_all<T: Renumber>(items: &mut Vec<T>, remap: &Remap)
    requires { All (T.places remap.now) items.old.items }
    ensures { items.new.items ≡ map (T.remapped remap.now) items.old.items }
{
    for i in 0..items.len() {
        items[i].renumber(remap);
    }
}
