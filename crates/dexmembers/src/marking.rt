//! Visits of the symbols that occur in what classes declare, and marks on them.

ghost use Rattle.std.specs.Prelude.{All};
ghost use Rattle.std.specs.List.{FoldsTo, flat_map};
ghost use Rattle.dexpool.specs.Uses.{HasMark, AreMarkedToo};
ghost use Rattle.dexval.specs.Uses.{set_uses};
ghost use Rattle.dexmembers.specs.Uses.{declared_uses, field_uses, method_uses, members_uses};
ghost use Rattle.dexmembers.specs.Borrowed.{ForCode, ForSet};
ghost use Rattle.dexmembers.specs.internal.Parts.{optional_code_uses};

use crate::{Field, Fields, Members, Method, Methods, ParameterSets};
use dexcode::BorrowedCode;
use dexpool::{Marks, SymbolKind, Symbols, Visitor, mark};
use dexval::AnnotationSet;

// Passes the symbols of a set, if there is one, to the visitor.
fn visit_set<V: Visitor>(set: Option<&AnnotationSet>, visitor: &mut V)
    ensures { ForSet set.entry (λ visited.
        FoldsTo V.step visitor.old (set_uses visited) visitor.new) }
{
    if let Some(set) = set {
        set.visit(visitor);
    }
}

impl Symbols for ParameterSets<'_> {
    ghost uses = { λ sets. flat_map set_uses sets };

    fn visit<V: Visitor>(&self, visitor: &mut V) {
        for i in 0..self.len() {
            visit_set(self.get(i), visitor);
        }
    }
}

impl Symbols for Field<'_> {
    ghost uses = { field_uses };

    fn visit<V: Visitor>(&self, visitor: &mut V) {
        visitor.symbol(SymbolKind::Field, self.number());
        visit_set(self.annotations(), visitor);
    }
}

impl Symbols for Fields<'_> {
    ghost uses = { λ fields. flat_map field_uses fields };

    fn visit<V: Visitor>(&self, visitor: &mut V) {
        for i in 0..self.len() {
            self.get(i).visit(visitor);
        }
    }
}

// Passes the symbols of code, if there is some, to the visitor.
fn visit_code<V: Visitor>(code: Option<BorrowedCode<'_, '_>>, visitor: &mut V)
    ensures { ForCode code.entry (λ visited.
        FoldsTo V.step visitor.old (optional_code_uses visited) visitor.new) }
{
    if let Some(code) = code {
        code.visit(visitor);
    }
}

impl Symbols for Method<'_, '_> {
    ghost uses = { method_uses };

    fn visit<V: Visitor>(&self, visitor: &mut V) {
        visitor.symbol(SymbolKind::Method, self.number());
        visit_code(self.code(), visitor);
        visit_set(self.annotations(), visitor);
        self.parameter_annotations().visit(visitor);
    }
}

impl Symbols for Methods<'_, '_> {
    ghost uses = { λ methods. flat_map method_uses methods };

    fn visit<V: Visitor>(&self, visitor: &mut V) {
        for i in 0..self.len() {
            self.get(i).visit(visitor);
        }
    }
}

// What a class declares, without the static values.
#[derive(Drop)]
struct Declared<'m, 'a>(&'m Members<'a>);

impl Symbols for Declared<'_, '_> {
    ghost uses = { λ d. declared_uses d.0.now };

    fn visit<V: Visitor>(&self, visitor: &mut V) {
        visit_set(self.0.annotations(), visitor);
        self.0.static_fields().visit(visitor);
        self.0.instance_fields().visit(visitor);
        self.0.direct_methods().visit(visitor);
        self.0.virtual_methods().visit(visitor);
    }
}

impl Symbols for Members<'_> {
    ghost uses = { members_uses };

    fn visit<V: Visitor>(&self, visitor: &mut V) {
        Declared(self).visit(visitor);
        self.weighed_values().visit(visitor);
    }
}

impl<'a> Members<'a> {
    /// Marks each field and method, and each symbol that occurs in code, in annotations and in the initial values of
    /// static fields.
    ///
    /// Condition: there is a mark for each of them.
    ///
    /// Source: "class_data_item", "annotations_directory_item", "code_item", "encoded_array_item".
    pub fn mark(&self, marks: &mut Marks)
        requires { All (HasMark marks.old) (members_uses self.now) }
        ensures { AreMarkedToo (members_uses self.now) marks.old marks.new }
    {
        mark(&Declared(self), marks);
        self.weighed_values().mark(marks);
    }
}
