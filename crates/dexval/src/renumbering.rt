//! Remaps the numbers of values and sets of annotations to those of another numbering.

ghost use Rattle.std.specs.Prelude.{◌≡◌, map};
ghost use Rattle.dexpool.specs.declared.symbols.SymbolKind.TheVariants as kinds;
ghost use Rattle.dexval.specs.Code.{value_of, element_of, encoded_of, annotation_of, set_of, values_of};
ghost use Rattle.dexval.specs.Numbered.{values_of_list};
ghost use Rattle.dexval.specs.Renumbering.{remapped, renumbered, renumbered_values, renumbered_element, renumbered_annotation, renumbered_set, HasPlaces, HavePlaces, ElementHasPlaces, AnnotationHasPlaces, SetHasPlaces};
ghost use Rattle.dexpool.specs.Images.{IsMapped};

use crate::{Annotation, AnnotationSet, Element, EncodedAnnotation, Value};
use dexpool::{Remap, SymbolKind};

/// The number that the number of a symbol of a kind maps to.
///
/// Condition: it maps to a number below 2^32.
pub fn remapped(remap: &Remap, kind: SymbolKind, number: u32) -> u32
    requires { IsMapped remap.now kind number }
    ensures { result ≡ remapped remap.now kind number }
{
    remap.or_same(kind, number as usize) as u32
}

/// Replaces each number of a symbol in values, as those of static fields, by the one that it maps to.
///
/// Condition: each number maps to a number below 2^32, which [`values_fit`](crate::values_fit) checks.
#[cycle(renumbering)]
pub fn renumber_values(values: &mut Vec<Value>, remap: &Remap)
    requires { HavePlaces remap.now (values_of_list (map value_of values.old.items)) }
    ensures { values_of values.new.items
        ≡ renumbered_values remap.now (values_of values.old.items) }
{
    for i in 0..values.len() {
        values[i].renumber(remap);
    }
}

impl Value {
    /// Replaces each number of a symbol in the value by the one that it maps to.
    ///
    /// Condition: each number maps to a number below 2^32, which [`fits`](Value::fits) checks.
    #[cycle(renumbering)]
    pub fn renumber(&mut self, remap: &Remap)
        requires { HasPlaces remap.now (value_of self.old) }
        ensures { value_of self.new ≡ renumbered remap.now (value_of self.old) }
    {
        match self {
            Value::String(number) => *number = remapped(remap, SymbolKind::Text, *number),
            Value::Typ(number) => *number = remapped(remap, SymbolKind::Typ, *number),
            Value::Field(number) => *number = remapped(remap, SymbolKind::Field, *number),
            Value::Method(number) => *number = remapped(remap, SymbolKind::Method, *number),
            Value::Enum(number) => *number = remapped(remap, SymbolKind::Field, *number),
            Value::Array(values) => renumber_values(values, remap),
            Value::Annotation(annotation) => annotation.renumber(remap),
            _ => {}
        }
    }
}

impl Element {
    /// Replaces the number of the name, and each number in the value, by the one that it maps to.
    ///
    /// Condition: each number maps to a number below 2^32.
    #[cycle(renumbering)]
    pub fn renumber(&mut self, remap: &Remap)
        requires { ElementHasPlaces remap.now (element_of self.old) }
        ensures { element_of self.new ≡ renumbered_element remap.now (element_of self.old) }
    {
        self.name = remapped(remap, SymbolKind::Text, self.name);
        self.value.renumber(remap);
    }
}

impl EncodedAnnotation {
    /// Replaces the number of the type, and each number in the elements, by the one that it maps to.
    ///
    /// Condition: each number maps to a number below 2^32.
    #[cycle(renumbering)]
    pub(crate) fn renumber(&mut self, remap: &Remap)
        requires { HasPlaces remap.now (encoded_of self.old) }
        ensures { encoded_of self.new ≡ renumbered remap.now (encoded_of self.old) }
    {
        for i in 0..self.elements.len() {
            self.elements[i].renumber(remap);
        }
        self.typ = remapped(remap, SymbolKind::Typ, self.typ);
    }
}

impl Annotation {
    /// Replaces the number of the type, and each number in the elements, by the one that it maps to.
    ///
    /// Condition: each number maps to a number below 2^32.
    pub fn renumber(&mut self, remap: &Remap)
        requires { AnnotationHasPlaces remap.now (annotation_of self.old) }
        ensures { annotation_of self.new
            ≡ renumbered_annotation remap.now (annotation_of self.old) }
    {
        self.annotation.renumber(remap);
    }
}

impl AnnotationSet {
    /// Replaces each number of a symbol in the annotations by the one that it maps to.
    ///
    /// Condition: each number maps to a number below 2^32, which [`fits`](AnnotationSet::fits) checks.
    pub fn renumber(&mut self, remap: &Remap)
        requires { SetHasPlaces remap.now (set_of self.old) }
        ensures { set_of self.new ≡ renumbered_set remap.now (set_of self.old) }
    {
        for i in 0..self.annotations.len() {
            self.annotations[i].renumber(remap);
        }
    }
}

/// The same as [`Value::renumber`].
pub fn renumber(value: &mut Value, remap: &Remap)
    requires { HasPlaces remap.now (value_of value.old) }
    ensures { value_of value.new ≡ renumbered remap.now (value_of value.old) }
{
    value.renumber(remap);
}

/// The same as [`AnnotationSet::renumber`].
pub fn renumber_set(set: &mut AnnotationSet, remap: &Remap)
    requires { SetHasPlaces remap.now (set_of set.old) }
    ensures { set_of set.new ≡ renumbered_set remap.now (set_of set.old) }
{
    set.renumber(remap);
}
