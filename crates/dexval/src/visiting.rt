//! Visits the symbols that occur in values and in sets of annotations: marks them, and checks whether their numbers map
//! to numbers of 32 bits.

ghost use Rattle.std.specs.Prelude.{map, All, ◌↔◌, IsTrue};
ghost use Rattle.std.specs.List.{FoldsTo};
ghost use Rattle.dexval.specs.Code.{value_of, element_of, encoded_of, annotation_of, set_of};
ghost use Rattle.dexval.specs.Numbered.{values_of_list};
ghost use Rattle.dexval.specs.Uses.{value_uses, values_uses, element_uses, annotation_uses, set_uses};
ghost use Rattle.dexpool.specs.Uses.{HasMark, AreMarkedToo};
ghost use Rattle.dexval.specs.Renumbering.{HasPlaces, HavePlaces, SetHasPlaces};

use crate::{Annotation, AnnotationSet, Element, EncodedAnnotation, Value};
use dexpool::{Fits, Marks, Remap, SymbolKind, Symbols, Visitor, all_fit, mark, visit_all};

/// Passes each symbol that occurs in values to the visitor, in order.
#[cycle(visiting)]
pub fn visit_values<V: Visitor>(values: &[Value], visitor: &mut V)
    ensures { FoldsTo V.step visitor.old
        (values_uses (values_of_list (map value_of values.now))) visitor.new }
{
    for value in values {
        value.visit(visitor);
    }
}

/// Marks each symbol that occurs in values, as those of static fields.
///
/// Condition: there is a mark for each of them.
#[tactic(auto, using(dexpool::proofs::Visits::all_marked))]
pub fn mark_values(values: &[Value], marks: &mut Marks)
    requires { All (HasMark marks.old) (values_uses (values_of_list (map value_of values.now))) }
    ensures { AreMarkedToo
        (values_uses (values_of_list (map value_of values.now))) marks.old marks.new }
{
    visit_values(values, marks);
}

/// Returns whether each number of a symbol in values, as those of static fields, maps to a number below 2^32.
#[tactic(auto, using(dexpool::proofs::Visits::all_fit))]
pub fn values_fit(values: &[Value], remap: &Remap) -> bool
    ensures { IsTrue result ↔ HavePlaces remap.now (values_of_list (map value_of values.now)) }
{
    let mut fits = Fits { remap, fit: true };
    visit_values(values, &mut fits);
    fits.fit
}

impl Value {
    /// Passes each symbol that occurs in the value to the visitor, in order.
    // Inlined, so that a value that holds no other is visited without a call.
    #[cycle(visiting)]
    #[inline(always)]
    pub fn visit<V: Visitor>(&self, visitor: &mut V)
        ensures { FoldsTo V.step visitor.old (value_uses (value_of self.now)) visitor.new }
    {
        match self {
            Value::String(number) => visitor.symbol(SymbolKind::Text, *number),
            Value::Typ(number) => visitor.symbol(SymbolKind::Typ, *number),
            Value::Field(number) => visitor.symbol(SymbolKind::Field, *number),
            Value::Method(number) => visitor.symbol(SymbolKind::Method, *number),
            Value::Enum(number) => visitor.symbol(SymbolKind::Field, *number),
            Value::Array(values) => visit_values(values, visitor),
            Value::Annotation(annotation) => annotation.visit(visitor),
            _ => {}
        }
    }

    /// Marks each symbol that occurs in the value.
    ///
    /// Condition: there is a mark for each of them.
    #[tactic(auto, using(dexpool::proofs::Visits::all_marked))]
    pub fn mark(&self, marks: &mut Marks)
        requires { All (HasMark marks.old) (value_uses (value_of self.now)) }
        ensures { AreMarkedToo (value_uses (value_of self.now)) marks.old marks.new }
    {
        self.visit(marks);
    }

    /// Returns whether each number of a symbol in the value maps to a number below 2^32.
    #[tactic(auto, using(dexpool::proofs::Visits::all_fit))]
    pub fn fits(&self, remap: &Remap) -> bool
        ensures { IsTrue result ↔ HasPlaces remap.now (value_of self.now) }
    {
        let mut fits = Fits { remap, fit: true };
        self.visit(&mut fits);
        fits.fit
    }
}

impl Element {
    /// Passes the name, and each symbol that occurs in the value, to the visitor, in order.
    #[cycle(visiting)]
    pub fn visit<V: Visitor>(&self, visitor: &mut V)
        ensures { FoldsTo V.step visitor.old (element_uses (element_of self.now)) visitor.new }
    {
        visitor.symbol(SymbolKind::Text, self.name);
        self.value.visit(visitor);
    }
}

impl EncodedAnnotation {
    // Passes the type, and each symbol that occurs in the elements, to the visitor, in order.
    #[cycle(visiting)]
    fn visit<V: Visitor>(&self, visitor: &mut V)
        ensures { FoldsTo V.step visitor.old (value_uses (encoded_of self.now)) visitor.new }
    {
        visitor.symbol(SymbolKind::Typ, self.typ);
        for element in &self.elements {
            element.visit(visitor);
        }
    }
}

impl Symbols for Value {
    ghost uses = { λ v. value_uses (value_of v) };

    fn visit<V: Visitor>(&self, visitor: &mut V) {
        Value::visit(self, visitor);
    }
}

impl Symbols for Annotation {
    ghost uses = { λ a. annotation_uses (annotation_of a) };

    fn visit<V: Visitor>(&self, visitor: &mut V) {
        self.annotation.visit(visitor);
    }
}

impl Symbols for AnnotationSet {
    ghost uses = { λ s. set_uses (set_of s) };

    fn visit<V: Visitor>(&self, visitor: &mut V) {
        visit_all(&self.annotations, visitor);
    }
}

impl AnnotationSet {
    /// Marks each symbol that occurs in the annotations.
    ///
    /// Condition: there is a mark for each of them.
    pub fn mark(&self, marks: &mut Marks)
        requires { All (HasMark marks.old) (set_uses (set_of self.now)) }
        ensures { AreMarkedToo (set_uses (set_of self.now)) marks.old marks.new }
    {
        mark(self, marks);
    }

    /// Returns whether each number of a symbol in the annotations maps to a number below 2^32.
    pub fn fits(&self, remap: &Remap) -> bool
        ensures { IsTrue result ↔ SetHasPlaces remap.now (set_of self.now) }
    {
        all_fit(self, remap)
    }
}
