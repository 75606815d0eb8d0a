//! Numbers of symbols, and what becomes of them.

ghost use Rattle.std.specs.Prelude.{◌≡◌, ◌↔◌, ◌<◌, ◌++◌, ℕ, IsTrue, IfOk, All, List, map, drop, ◌∷◌, [], length};
ghost use Rattle.std.specs.List.{FoldsTo, flat_map};
ghost use Rattle.dexpool.specs.Uses.{HasMark, AreMarkedToo};
ghost use Rattle.dexinsn.specs.Fitting.{is_short_string, short_at, short_strings, IsGreatest};
ghost use Rattle.dexinsn.specs.Numbered.{uses_of, HasPlace, FitPlaces, renumbered, IsUseAt};
ghost use Rattle.dexinsn.specs.Stored.{HasPlaceAt, IsIndexed, renumbered_index, uses_at};

use crate::code_units::Units;
use crate::instruction::{index_kind_at, is_wide_at};
use crate::pieces::{Index, Pieces};
use dexpool::{Marks, Remap, SymbolKind, Symbols, Visitor, mark};
use std::alloc::AllocError;

// Replaces each number by the one that it maps to.
fn renumber_indices(units: &Units<'_>, indices: &mut Vec<Index>, remap: &Remap)
    requires indexed { All (IsIndexed units.now) indices.old.items }
    requires places { All (HasPlaceAt remap.now units.now) indices.old.items }
    ensures { indices.new.items ≡ map (renumbered_index remap.now units.now) indices.old.items }
{
    for i in 0..indices.len() {
        let index = indices[i];
        let kind = index_kind_at(units, index.unit as usize);
        let image = remap.image(kind, index.number as usize);
        let number = image.unwrap_or(0) as u32;
        indices[i] = Index { number, ..index };
    }
}

// Returns whether the index's number maps to one that fits the place.
fn has_place(units: &Units<'_>, index: Index, remap: &Remap) -> bool
    requires { IsIndexed units.now index }
    ensures { IsTrue result ↔ HasPlaceAt remap.now units.now index }
{
    let kind = index_kind_at(units, index.unit as usize);
    let room = if is_wide_at(units, index.unit as usize) {
        0x1_0000_0000
    } else {
        0x1_0000
    };
    match remap.image(kind, index.number as usize) {
        Some(image) => image < room,
        None => false,
    }
}

// Returns whether each number maps to one that fits its place.
fn have_places(units: &Units<'_>, indices: &[Index], remap: &Remap) -> bool
    requires { All (IsIndexed units.now) indices.now }
    ensures { IsTrue result ↔ All (HasPlaceAt remap.now units.now) indices.now }
{
    for index in indices {
        if !has_place(units, *index, remap) {
            return false;
        }
    }
    true
}

// Passes the symbols of all indices to the visitor.
fn visit_indices<V: Visitor>(units: &Units<'_>, indices: &[Index], visitor: &mut V)
    requires { All (IsIndexed units.now) indices.now }
    ensures { FoldsTo V.step visitor.old (uses_at units.now indices.now) visitor.new }
{
    for index in indices {
        visitor.symbol(index_kind_at(units, index.unit as usize), index.number);
    }
}

impl Symbols for Pieces<'_> {
    ghost uses = { λ code. uses_of code.pieces };

    fn visit<V: Visitor>(&self, visitor: &mut V) {
        let units = Units::of_bytes(self.bytes);
        visit_indices(&units, &self.indices, visitor);
    }
}

// Returns whether the index at a unit names a text and has 16 bits.
fn is_short_string(units: &Units<'_>, unit: usize) -> bool
    requires { unit < length units.now }
    ensures { result ≡ is_short_string (drop unit units.now) }
{
    index_kind_at(units, unit) == SymbolKind::Text && !is_wide_at(units, unit)
}

// The greatest of some numbers and one more, where it is known of those.
fn greater(greatest: Option<u32>, number: u32) -> Option<u32>
    ensures { (ns : List ℕ) → IsGreatest ns greatest → IsGreatest (ns ++ number ∷ []) result }
{
    match greatest {
        Some(most) => Some(most.max(number)),
        None => Some(number),
    }
}

// The greatest number of a text at an index of 16 bits.
fn greatest_short_string(units: &Units<'_>, indices: &[Index]) -> Option<u32>
    requires { All (IsIndexed units.now) indices.now }
    ensures { IsGreatest (flat_map (short_at units.now) indices.now) result }
{
    let mut greatest = None;
    for index in indices {
        if is_short_string(units, index.unit as usize) {
            greatest = greater(greatest, index.number);
        }
    }
    greatest
}

impl<'a> Pieces<'a> {
    /// Each number fits its place: it is below 2^16, or below 2^32 for const-string/jumbo. It does nothing: its
    /// contract states this of all pieces, for the proofs of callers.
    pub fn numbers_fit(&self)
        ensures { FitPlaces self.now.pieces }
    {
        let _bytes = self.bytes;
    }

    /// The greatest number of a text that a const-string names, not counting const-string/jumbo, or `None` where there
    /// is no const-string. As its index has 16 bits, this text alone decides whether other numbers have room.
    ///
    /// Source: "const-string" under the heading "Summary of bytecode set" of the Android page "Dalvik bytecode".
    pub fn greatest_short_string(&self) -> Option<u32>
        ensures { IsGreatest (short_strings self.now.pieces) result }
    {
        let units = Units::of_bytes(self.bytes);
        greatest_short_string(&units, &self.indices)
    }

    /// Replaces each number by the one that it maps to.
    ///
    /// Condition: each number maps to one that fits its place, which [`fits`](Pieces::fits) checks.
    pub fn renumber(&mut self, remap: &Remap)
        requires { All (HasPlace remap.now) self.old.pieces }
        ensures { self.new ≡ renumbered remap.now self.old }
    {
        let units = Units::of_bytes(self.bytes);
        renumber_indices(&units, &mut self.indices, remap);
    }

    /// Returns whether each number maps to one that fits its place: one below 2^16, or below 2^32 for
    /// const-string/jumbo.
    pub fn fits(&self, remap: &Remap) -> bool
        ensures { IsTrue result ↔ All (HasPlace remap.now) self.now.pieces }
    {
        let units = Units::of_bytes(self.bytes);
        have_places(&units, &self.indices, remap)
    }

    /// Marks each symbol that occurs.
    ///
    /// Condition: there is a mark for each of them.
    pub fn mark(&self, marks: &mut Marks)
        requires { All (HasMark marks.old) (uses_of self.now.pieces) }
        ensures { AreMarkedToo (uses_of self.now.pieces) marks.old marks.new }
    {
        mark(self, marks);
    }

    /// The same pieces, with numbers of their own.
    ///
    /// Error: the memory for the numbers was refused.
    pub fn copy(&self) -> Result<Pieces<'a>, AllocError>
        ensures { IfOk result (λ copy. copy ≡ self.now) }
    {
        self.clone()
    }

    /// How many symbols occur, each as often as it does.
    pub fn symbol_count(&self) -> usize
        ensures { result ≡ length (uses_of self.now.pieces) }
    {
        self.indices.len()
    }

    /// The kind and the number of a symbol, where those that occur are counted from 0 on, in the order of the
    /// instructions.
    ///
    /// Condition: `i` is below [`symbol_count`](Pieces::symbol_count).
    pub fn symbol(&self, i: usize) -> (SymbolKind, usize)
        requires { i < length (uses_of self.now.pieces) }
        ensures { IsUseAt (uses_of self.now.pieces) i result }
    {
        let units = Units::of_bytes(self.bytes);
        let index = self.indices[i];
        let kind = index_kind_at(&units, index.unit as usize);
        (kind, index.number as usize)
    }
}

/// Replaces each number of the pieces by the one that it maps to.
///
/// Condition: each number maps to one that fits its place, which [`fits`](Pieces::fits) checks.
pub fn renumber(pieces: &mut Pieces<'_>, remap: &Remap)
    requires { All (HasPlace remap.now) pieces.old.pieces }
    ensures { pieces.new ≡ renumbered remap.now pieces.old }
{
    pieces.renumber(remap);
}
