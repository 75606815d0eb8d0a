//! Copies of values and of sets of annotations, with their numbers remapped to those of another numbering.

ghost use Rattle.std.specs.Prelude.{◌≡◌, IfOk};
ghost use Rattle.dexval.specs.Code.{value_of, element_of, encoded_of, annotation_of, set_of, values_of};
ghost use Rattle.dexval.specs.Renumbering.{renumbered, renumbered_values, renumbered_element, renumbered_annotation, renumbered_set, HasPlaces, HavePlaces, ElementHasPlaces, AnnotationHasPlaces, SetHasPlaces};
ghost use Rattle.dexval.specs.Tables.{IsRemappedSet};

use crate::{Annotation, AnnotationSet, Element, EncodedAnnotation, Value, remapped};
use dexpool::{Remap, SymbolKind};
use std::alloc::AllocError;

/// A copy of values, as those of static fields, with each number of a symbol replaced by the one that it maps to.
///
/// Condition: each number maps to a number below 2^32. Error: an allocation failed.
#[cycle(copying_renumbered)]
pub(crate) fn renumbered_copies(
    values: &Vec<Value>,
    remap: &Remap,
) -> Result<Vec<Value>, AllocError>
    requires { HavePlaces remap.now (values_of values.now.items) }
    ensures { IfOk result (λ copies. values_of copies.items
        ≡ renumbered_values remap.now (values_of values.now.items)) }
{
    let mut copies = Vec::with_capacity(*values.allocator(), values.len())?;
    for value in values {
        copies.push_reserved(value.renumbered_copy(remap)?);
    }
    Ok(copies)
}

impl Value {
    // A copy of the value with each number of a symbol replaced by the one that it maps to. Inlined, so that a value that
    // holds no other is copied without a recursive call.
    //
    // Condition: each number maps to a number below 2^32.
    #[cycle(copying_renumbered)]
    #[inline(always)]
    fn renumbered_copy(&self, remap: &Remap) -> Result<Value, AllocError>
        requires { HasPlaces remap.now (value_of self.now) }
        ensures { IfOk result (λ copy. value_of copy ≡ renumbered remap.now (value_of self.now)) }
    {
        Ok(match self {
            Value::Byte(number) => Value::Byte(*number),
            Value::Short(number) => Value::Short(*number),
            Value::Char(unit) => Value::Char(*unit),
            Value::Int(number) => Value::Int(*number),
            Value::Long(number) => Value::Long(*number),
            Value::Float(bits) => Value::Float(*bits),
            Value::Double(bits) => Value::Double(*bits),
            Value::String(number) => Value::String(remapped(remap, SymbolKind::Text, *number)),
            Value::Typ(number) => Value::Typ(remapped(remap, SymbolKind::Typ, *number)),
            Value::Field(number) => Value::Field(remapped(remap, SymbolKind::Field, *number)),
            Value::Method(number) => Value::Method(remapped(remap, SymbolKind::Method, *number)),
            Value::Enum(number) => Value::Enum(remapped(remap, SymbolKind::Field, *number)),
            Value::Array(held) => {
                Value::Array(Box::new(*held.allocator(), renumbered_copies(held, remap)?)?)
            }
            Value::Annotation(held) => Value::Annotation(Box::new(
                *held.elements.allocator(),
                held.renumbered_copy(remap)?,
            )?),
            Value::Null => Value::Null,
            Value::Boolean(is) => Value::Boolean(*is),
        })
    }
}

impl Element {
    // A copy of the element with the number of its name, and each number in its value, replaced by the one that it maps
    // to. Inlined, as that of its value.
    //
    // Condition: each number maps to a number below 2^32.
    #[cycle(copying_renumbered)]
    #[inline(always)]
    fn renumbered_copy(&self, remap: &Remap) -> Result<Element, AllocError>
        requires { ElementHasPlaces remap.now (element_of self.now) }
        ensures { IfOk result
            (λ copy. element_of copy ≡ renumbered_element remap.now (element_of self.now)) }
    {
        Ok(Element {
            name: remapped(remap, SymbolKind::Text, self.name),
            value: self.value.renumbered_copy(remap)?,
        })
    }
}

impl EncodedAnnotation {
    // A copy of the annotation with the number of its type, and each number in its elements, replaced by the one that it
    // maps to.
    //
    // Condition: each number maps to a number below 2^32.
    #[cycle(copying_renumbered)]
    fn renumbered_copy(&self, remap: &Remap) -> Result<EncodedAnnotation, AllocError>
        requires { HasPlaces remap.now (encoded_of self.now) }
        ensures { IfOk result
            (λ copy. encoded_of copy ≡ renumbered remap.now (encoded_of self.now)) }
    {
        let typ = remapped(remap, SymbolKind::Typ, self.typ);
        let mut elements = Vec::with_capacity(*self.elements.allocator(), self.elements.len())?;
        for element in &self.elements {
            elements.push_reserved(element.renumbered_copy(remap)?);
        }
        Ok(EncodedAnnotation { typ, elements })
    }
}

impl Annotation {
    // A copy of the annotation with the number of its type, and each number in its elements, replaced by the one that it
    // maps to.
    //
    // Condition: each number maps to a number below 2^32.
    fn renumbered_copy(&self, remap: &Remap) -> Result<Annotation, AllocError>
        requires { AnnotationHasPlaces remap.now (annotation_of self.now) }
        ensures { IfOk result (λ copy. annotation_of copy
            ≡ renumbered_annotation remap.now (annotation_of self.now)) }
    {
        Ok(Annotation {
            visibility: self.visibility,
            annotation: self.annotation.renumbered_copy(remap)?,
        })
    }
}

impl AnnotationSet {
    // A copy of the set with each number of a symbol replaced by the one that it maps to.
    //
    // Condition: each number maps to a number below 2^32, which [`fits`](AnnotationSet::fits) checks.
    fn renumbered_copy(&self, remap: &Remap) -> Result<AnnotationSet, AllocError>
        requires { SetHasPlaces remap.now (set_of self.now) }
        ensures { IfOk result (λ copy. set_of copy ≡ renumbered_set remap.now (set_of self.now)) }
    {
        let mut annotations = Vec::with_capacity(
            *self.annotations.allocator(),
            self.annotations.len(),
        )?;
        for annotation in &self.annotations {
            annotations.push_reserved(annotation.renumbered_copy(remap)?);
        }
        Ok(AnnotationSet { annotations })
    }

    /// A copy of the set with each number of a symbol replaced by the one that it maps to, if each has an image below
    /// 2^32. Error: an allocation failed.
    pub(crate) fn remapped_copy(&self, remap: &Remap) -> Result<AnnotationSet, AllocError>
        ensures { IfOk result
            (λ copy. IsRemappedSet remap.now (set_of self.now) (set_of copy)) }
    {
        if !self.fits(remap) {
            return self.copy();
        }
        self.renumbered_copy(remap)
    }
}
