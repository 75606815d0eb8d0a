//! Whether what classes declare is the same once remapped.

ghost use Rattle.std.specs.Prelude.{◌≡◌, ◌↔◌, IsTrue, Option};
ghost use Rattle.std.specs.Option.{option_map};
ghost use Rattle.dexval.specs.Renumbering.{remapped, renumbered_set};
ghost use Rattle.dexval.specs.Numbered.{NumberedSet};
ghost use Rattle.dexcode.specs.Numbered.{NumberedItem};
ghost use Rattle.dexcode.specs.Renumbering.{renumbered_item};
ghost use Rattle.dexdebug.specs.internal.Same.{SameRemapped};
ghost use Rattle.dexmembers.specs.Renumbering.{renumbered_field, renumbered_method, renumbered_members};
ghost use Rattle.dexmembers.specs.Borrowed.{IsBorrowedCode, IsBorrowedSet};

use crate::{Field, Fields, Members, Method, Methods, ParameterSets};
use dexcode::BorrowedCode;
use dexpool::{Remap, SymbolKind};
use dexval::{AnnotationSet, eq_ends, same_values_mapped};

// The maps of the numbers of two things that are compared.
#[derive(Clone, Copy)]
struct Maps<'r> {
    mine: &'r Remap,
    theirs: &'r Remap,
}

impl Maps<'_> {
    // Returns whether two numbers of symbols of a kind are the same once remapped.
    fn same_number(&self, kind: SymbolKind, number: u32, other: u32) -> bool
        ensures { IsTrue result
            ↔ (remapped self.now.mine.now kind number ≡ remapped self.now.theirs.now kind other) }
    {
        eq_ends(kind, self.mine, number, self.theirs, other)
    }

    // Returns whether the code of two methods, if there is some, is the same once remapped.
    fn same_code(
        &self,
        code: Option<BorrowedCode<'_, '_>>,
        other: Option<BorrowedCode<'_, '_>>,
    ) -> bool
        ensures { (x y : Option NumberedItem) → IsBorrowedCode code.entry x
            → IsBorrowedCode other.entry y → IsTrue result
            ↔ (option_map (renumbered_item self.now.mine.now) x
            ≡ option_map (renumbered_item self.now.theirs.now) y) }
    {
        match (code, other) {
            (Some(code), Some(other)) => code.same_mapped(self.mine, &other, self.theirs),
            (None, None) => true,
            _ => false,
        }
    }

    // Returns whether two sets are the same once remapped. None is an empty one.
    fn same_set(&self, set: Option<&AnnotationSet>, other: Option<&AnnotationSet>) -> bool
        ensures { (x y : NumberedSet) → IsBorrowedSet set.entry x → IsBorrowedSet other.entry y
            → IsTrue result
            ↔ (renumbered_set self.now.mine.now x ≡ renumbered_set self.now.theirs.now y) }
    {
        match (set, other) {
            (Some(set), Some(other)) => set.same_mapped(self.mine, other, self.theirs),
            (Some(set), None) | (None, Some(set)) => set.is_empty(),
            (None, None) => true,
        }
    }

    // Returns whether two lists of sets are the same, one for one, once remapped.
    fn same_sets(&self, sets: ParameterSets<'_>, others: ParameterSets<'_>) -> bool
        ensures { IsTrue result ↔ SameRemapped renumbered_set
            self.now.mine.now self.now.theirs.now sets.entry others.entry }
    {
        if sets.len() != others.len() {
            return false;
        }
        for i in 0..sets.len() {
            if !self.same_set(sets.get(i), others.get(i)) {
                return false;
            }
        }
        true
    }

    // Returns whether two fields are the same once remapped.
    fn same_field(&self, own: &Field<'_>, other: &Field<'_>) -> bool
        ensures { IsTrue result ↔ (renumbered_field self.now.mine.now own.now
            ≡ renumbered_field self.now.theirs.now other.now) }
    {
        self.same_number(SymbolKind::Field, own.number(), other.number())
            && own.flags() == other.flags()
            && self.same_set(own.annotations(), other.annotations())
    }

    // Returns whether two lists of fields are the same, one for one, once remapped.
    fn same_fields(&self, fields: Fields<'_>, others: Fields<'_>) -> bool
        ensures { IsTrue result ↔ SameRemapped renumbered_field
            self.now.mine.now self.now.theirs.now fields.entry others.entry }
    {
        if fields.len() != others.len() {
            return false;
        }
        for i in 0..fields.len() {
            if !self.same_field(&fields.get(i), &others.get(i)) {
                return false;
            }
        }
        true
    }

    // Returns whether two methods are the same once remapped.
    fn same_method(&self, own: &Method<'_, '_>, other: &Method<'_, '_>) -> bool
        ensures { IsTrue result ↔ (renumbered_method self.now.mine.now own.now
            ≡ renumbered_method self.now.theirs.now other.now) }
    {
        self.same_number(SymbolKind::Method, own.number(), other.number())
            && own.flags() == other.flags()
            && self.same_code(own.code(), other.code())
            && self.same_set(own.annotations(), other.annotations())
            && self.same_sets(own.parameter_annotations(), other.parameter_annotations())
    }

    // Returns whether two lists of methods are the same, one for one, once remapped.
    fn same_methods(&self, methods: Methods<'_, '_>, others: Methods<'_, '_>) -> bool
        ensures { IsTrue result ↔ SameRemapped renumbered_method
            self.now.mine.now self.now.theirs.now methods.entry others.entry }
    {
        if methods.len() != others.len() {
            return false;
        }
        for i in 0..methods.len() {
            if !self.same_method(&methods.get(i), &others.get(i)) {
                return false;
            }
        }
        true
    }
}

impl<'a> Members<'a> {
    /// Returns whether what two classes declare is the same after each is mapped by its own map. Of numbers without
    /// images those in instructions and debug programs count as the same, and the others stay.
    pub fn same_mapped(&self, mine: &Remap, other: &Members<'_>, theirs: &Remap) -> bool
        ensures { IsTrue result
            ↔ (renumbered_members mine.now self.now ≡ renumbered_members theirs.now other.now) }
    {
        let maps = Maps { mine, theirs };
        maps.same_fields(self.static_fields(), other.static_fields())
            && maps.same_fields(self.instance_fields(), other.instance_fields())
            && maps.same_set(self.annotations(), other.annotations())
            && same_values_mapped(self.static_values(), mine, other.static_values(), theirs)
            && maps.same_methods(self.direct_methods(), other.direct_methods())
            && maps.same_methods(self.virtual_methods(), other.virtual_methods())
    }
}
