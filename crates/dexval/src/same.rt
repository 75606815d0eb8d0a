//! Whether values and sets of annotations are equal once their numbers are remapped.

ghost use Rattle.std.specs.Prelude.{◌≡◌, ◌↔◌, IsTrue, map};
ghost use Rattle.dexpool.specs.declared.symbols.SymbolKind.TheVariants as kinds;
ghost use Rattle.dexpool.specs.Numberings.{Maps};
ghost use Rattle.dexval.specs.Renumbering.{remapped, renumbered, renumbered_values, renumbered_set};
ghost use Rattle.dexval.specs.Same.{SameValue, SameValues, SameElement, SameElements, SameAnnotation, SameSet};
ghost use Rattle.dexval.specs.Code.{value_of, values_of, element_of, encoded_of, set_of};
ghost use Rattle.dexval.specs.internal.Heads.{head_of, held_values, held_elements, no_images};
ghost use Rattle.dexval.specs.Numbered.{values_of_list, elements_of_list};

use crate::{Annotation, AnnotationSet, Element, EncodedAnnotation, Value, type_codes as codes};
use dexpool::{Remap, SymbolKind};

/// A map of the numbers of symbols.
pub(crate) trait NumberMap {
    ghost maps: { Self → Maps };

    /// The number that the number of a symbol of a kind maps to; a number without an image is unchanged.
    fn end(&self, kind: SymbolKind, number: u32) -> usize
        ensures { result ≡ remapped (maps self.now) kind number };
}

impl NumberMap for Remap {
    ghost maps = { λ r. r };

    #[inline(always)]
    fn end(&self, kind: SymbolKind, number: u32) -> usize {
        self.or_same(kind, number as usize)
    }
}

/// The map that leaves each number as it is.
pub(crate) struct Unchanged;

impl NumberMap for Unchanged {
    ghost maps = { λ _. no_images };

    #[inline(always)]
    fn end(&self, _kind: SymbolKind, number: u32) -> usize {
        number as usize
    }
}

// What [`eq_ends`] returns, by any two maps.
#[inline(always)]
fn is_same_end<M: NumberMap, N: NumberMap>(
    kind: SymbolKind,
    mine: &M,
    number: u32,
    theirs: &N,
    other: u32,
) -> bool
    ensures { IsTrue result
        ↔ (remapped (M.maps mine.now) kind number ≡ remapped (N.maps theirs.now) kind other) }
{
    mine.end(kind, number) == theirs.end(kind, other)
}

/// Returns whether two numbers of symbols of a kind are equal, once each is remapped by its own map. A number without
/// an image is unchanged.
pub fn eq_ends(kind: SymbolKind, mine: &Remap, number: u32, theirs: &Remap, other: u32) -> bool
    ensures { IsTrue result ↔ (remapped mine.now kind number ≡ remapped theirs.now kind other) }
{
    is_same_end(kind, mine, number, theirs, other)
}

// Returns whether values are equal, one for one, once the numbers of each are remapped by its own map.
#[cycle(comparing)]
fn are_same<M: NumberMap, N: NumberMap>(
    mine: &M,
    values: &[Value],
    theirs: &N,
    others: &[Value],
) -> bool
    ensures { IsTrue result
        ↔ SameValues (M.maps mine.now) values.now (N.maps theirs.now) others.now }
{
    if values.len() != others.len() {
        return false;
    }
    for i in 0..values.len() {
        if !is_same(mine, &values[i], theirs, &others[i]) {
            return false;
        }
    }
    true
}

// Returns whether two values are equal, once the numbers of each are remapped by its own map. Inlined, so that values that
// hold no others are compared without a call.
#[cycle(comparing)]
#[inline(always)]
fn is_same<M: NumberMap, N: NumberMap>(mine: &M, value: &Value, theirs: &N, other: &Value) -> bool
    ensures { IsTrue result
        ↔ SameValue (M.maps mine.now) value.now (N.maps theirs.now) other.now }
{
    match (value, other) {
        (Value::Byte(number), Value::Byte(same)) => number == same,
        (Value::Short(number), Value::Short(same)) => number == same,
        (Value::Char(unit), Value::Char(same)) => unit == same,
        (Value::Int(number), Value::Int(same)) => number == same,
        (Value::Long(number), Value::Long(same)) => number == same,
        (Value::Float(bits), Value::Float(same)) => bits == same,
        (Value::Double(bits), Value::Double(same)) => bits == same,
        (Value::String(number), Value::String(same)) => {
            is_same_end(SymbolKind::Text, mine, *number, theirs, *same)
        }
        (Value::Typ(number), Value::Typ(same)) => {
            is_same_end(SymbolKind::Typ, mine, *number, theirs, *same)
        }
        (Value::Field(number), Value::Field(same)) => {
            is_same_end(SymbolKind::Field, mine, *number, theirs, *same)
        }
        (Value::Method(number), Value::Method(same)) => {
            is_same_end(SymbolKind::Method, mine, *number, theirs, *same)
        }
        (Value::Enum(number), Value::Enum(same)) => {
            is_same_end(SymbolKind::Field, mine, *number, theirs, *same)
        }
        (Value::Array(values), Value::Array(others)) => are_same(mine, values, theirs, others),
        (Value::Annotation(held), Value::Annotation(other)) => {
            is_same_encoded(mine, held, theirs, other)
        }
        (Value::Null, Value::Null) => true,
        (Value::Boolean(is), Value::Boolean(same)) => is == same,
        _ => false,
    }
}

// Returns whether two annotations have equal types and elements, once the numbers of each are remapped by its own map.
#[cycle(comparing)]
fn is_same_encoded<M: NumberMap, N: NumberMap>(
    mine: &M,
    annotation: &EncodedAnnotation,
    theirs: &N,
    other: &EncodedAnnotation,
) -> bool
    ensures { IsTrue result ↔ (renumbered (M.maps mine.now) (encoded_of annotation.now)
        ≡ renumbered (N.maps theirs.now) (encoded_of other.now)) }
{
    is_same_end(SymbolKind::Typ, mine, annotation.typ, theirs, other.typ)
        && are_same_elements(mine, &annotation.elements, theirs, &other.elements)
}

// Returns whether elements are equal, one for one, once the numbers of each are remapped by its own map.
#[cycle(comparing)]
fn are_same_elements<M: NumberMap, N: NumberMap>(
    mine: &M,
    elements: &[Element],
    theirs: &N,
    others: &[Element],
) -> bool
    ensures { IsTrue result
        ↔ SameElements (M.maps mine.now) elements.now (N.maps theirs.now) others.now }
{
    if elements.len() != others.len() {
        return false;
    }
    for i in 0..elements.len() {
        if !is_same_element(mine, &elements[i], theirs, &others[i]) {
            return false;
        }
    }
    true
}

// Returns whether two elements have equal names and values, once the numbers of each are remapped by its own map.
#[cycle(comparing)]
fn is_same_element<M: NumberMap, N: NumberMap>(
    mine: &M,
    element: &Element,
    theirs: &N,
    other: &Element,
) -> bool
    ensures { IsTrue result
        ↔ SameElement (M.maps mine.now) element.now (N.maps theirs.now) other.now }
{
    is_same_end(SymbolKind::Text, mine, element.name, theirs, other.name)
        && is_same(mine, &element.value, theirs, &other.value)
}

// Returns whether two annotations have equal visibilities, types and elements, once the numbers of each are remapped by
// its own map.
fn is_same_annotation<M: NumberMap, N: NumberMap>(
    mine: &M,
    annotation: &Annotation,
    theirs: &N,
    other: &Annotation,
) -> bool
    ensures { IsTrue result
        ↔ SameAnnotation (M.maps mine.now) annotation.now (N.maps theirs.now) other.now }
{
    annotation.visibility == other.visibility
        && is_same_encoded(mine, &annotation.annotation, theirs, &other.annotation)
}

/// Returns whether the annotations of two sets are equal, one for one, once the numbers of each are remapped by its own
/// map.
pub(crate) fn is_same_set<M: NumberMap, N: NumberMap>(
    mine: &M,
    set: &AnnotationSet,
    theirs: &N,
    other: &AnnotationSet,
) -> bool
    ensures { IsTrue result ↔ SameSet (M.maps mine.now) set.now (N.maps theirs.now) other.now }
{
    let (annotations, others) = (&set.annotations, &other.annotations);
    if annotations.len() != others.len() {
        return false;
    }
    for i in 0..annotations.len() {
        if !is_same_annotation(mine, &annotations[i], theirs, &others[i]) {
            return false;
        }
    }
    true
}

/// Returns whether values are the images of others: each number is the one that the number there maps to. Numbers
/// without images stay.
pub(crate) fn are_images(values: &[Value], remap: &Remap, images: &[Value]) -> bool
    ensures { IsTrue result
        ↔ (values_of images.now ≡ renumbered_values remap.now (values_of values.now)) }
{
    are_same(remap, values, &Unchanged, images)
}

/// Returns whether a set is the image of another, as [`are_images`] says of values.
pub(crate) fn is_image_set(set: &AnnotationSet, remap: &Remap, image: &AnnotationSet) -> bool
    ensures { IsTrue result ↔ (set_of image.now ≡ renumbered_set remap.now (set_of set.now)) }
{
    is_same_set(remap, set, &Unchanged, image)
}

/// Returns whether two lists of values, as those of static fields, are equal, one for one, once the numbers of each are
/// remapped by its own map. A number without an image is unchanged.
///
/// Source: "encoded_array format".
pub fn same_values_mapped(values: &[Value], mine: &Remap, others: &[Value], theirs: &Remap) -> bool
    ensures { IsTrue result ↔ SameValues mine.now values.now theirs.now others.now }
{
    are_same(mine, values, theirs, others)
}

impl Value {
    /// Returns whether this and another value are equal, once the numbers of each are remapped by its own map. A number
    /// without an image is unchanged.
    pub fn same_mapped(&self, mine: &Remap, other: &Value, theirs: &Remap) -> bool
        ensures { IsTrue result ↔ SameValue mine.now self.now theirs.now other.now }
    {
        is_same(mine, self, theirs, other)
    }
}

impl Element {
    /// Returns whether this and another element have equal names and values, once the numbers of each are remapped by
    /// its own map. A number without an image is unchanged.
    pub fn same_mapped(&self, mine: &Remap, other: &Element, theirs: &Remap) -> bool
        ensures { IsTrue result ↔ SameElement mine.now self.now theirs.now other.now }
    {
        is_same_element(mine, self, theirs, other)
    }
}

impl Annotation {
    /// Returns whether this and another annotation have equal visibilities, types and elements, once the numbers of
    /// each are remapped by its own map. A number without an image is unchanged.
    pub fn same_mapped(&self, mine: &Remap, other: &Annotation, theirs: &Remap) -> bool
        ensures { IsTrue result ↔ SameAnnotation mine.now self.now theirs.now other.now }
    {
        is_same_annotation(mine, self, theirs, other)
    }
}

impl AnnotationSet {
    /// Returns whether this and another set are equal, once the numbers of each are remapped by its own map. A number
    /// without an image is unchanged.
    pub fn same_mapped(&self, mine: &Remap, other: &AnnotationSet, theirs: &Remap) -> bool
        ensures { IsTrue result ↔ SameSet mine.now self.now theirs.now other.now }
    {
        is_same_set(mine, self, theirs, other)
    }
}

impl Value {
    /// The type code of the value and its number, remapped: all but the values that it holds. A number without an image
    /// is unchanged.
    pub(crate) fn head(&self, remap: &Remap) -> (u8, i128)
        ensures { result ≡ head_of (renumbered remap.now (value_of self.now)) }
    {
        match self {
            Value::Byte(number) => (codes::BYTE, i128::from(*number)),
            Value::Short(number) => (codes::SHORT, i128::from(*number)),
            Value::Char(unit) => (codes::CHAR, i128::from(*unit)),
            Value::Int(number) => (codes::INT, i128::from(*number)),
            Value::Long(number) => (codes::LONG, i128::from(*number)),
            Value::Float(bits) => (codes::FLOAT, i128::from(*bits)),
            Value::Double(bits) => (codes::DOUBLE, i128::from(*bits)),
            Value::String(number) => (codes::STRING, remap.end(SymbolKind::Text, *number) as i128),
            Value::Typ(number) => (codes::TYPE, remap.end(SymbolKind::Typ, *number) as i128),
            Value::Field(number) => (codes::FIELD, remap.end(SymbolKind::Field, *number) as i128),
            Value::Method(number) => (
                codes::METHOD,
                remap.end(SymbolKind::Method, *number) as i128,
            ),
            Value::Enum(number) => (codes::ENUM, remap.end(SymbolKind::Field, *number) as i128),
            Value::Array(_) => (codes::ARRAY, 0),
            Value::Annotation(held) => (
                codes::ANNOTATION,
                remap.end(SymbolKind::Typ, held.typ) as i128,
            ),
            Value::Null => (codes::NULL, 0),
            Value::Boolean(is) => (codes::BOOLEAN, i128::from(*is)),
        }
    }

    /// The values of an array. Other values hold none.
    pub(crate) fn held_values(&self) -> &[Value]
        ensures { values_of_list (map value_of result.now) ≡ held_values (value_of self.now) }
    {
        match self {
            Value::Array(values) => values,
            _ => &[],
        }
    }

    /// The elements of an annotation. Other values hold none.
    pub(crate) fn held_elements(&self) -> &[Element]
        ensures { elements_of_list (map element_of result.now) ≡ held_elements (value_of self.now) }
    {
        match self {
            Value::Annotation(annotation) => &annotation.elements,
            _ => &[],
        }
    }
}
