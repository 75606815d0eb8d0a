//! Copies of values and of sets of annotations.

ghost use Rattle.std.specs.Prelude.{◌≡◌, IfOk, map};
ghost use Rattle.dexval.specs.Code.{value_of, encoded_of, set_of};

use crate::{AnnotationSet, Element, EncodedAnnotation, Value};
use std::alloc::AllocError;

/// The same values, as those of static fields, with copies of all contents.
///
/// Source: "encoded_array format".
#[cycle(copying)]
pub fn copied_values(values: &Vec<Value>) -> Result<Vec<Value>, AllocError>
    ensures { IfOk result (λ copy. map value_of copy.items ≡ map value_of values.now.items) }
{
    let mut copy = Vec::with_capacity(*values.allocator(), values.len())?;
    for value in values {
        copy.push(value.copy()?)?;
    }
    Ok(copy)
}

impl Value {
    /// The same value, with a copy of its contents.
    #[cycle(copying)]
    pub fn copy(&self) -> Result<Self, AllocError>
        ensures { IfOk result (λ copy. value_of copy ≡ value_of self.now) }
    {
        Ok(match self {
            Value::Byte(number) => Value::Byte(*number),
            Value::Short(number) => Value::Short(*number),
            Value::Char(unit) => Value::Char(*unit),
            Value::Int(number) => Value::Int(*number),
            Value::Long(number) => Value::Long(*number),
            Value::Float(bits) => Value::Float(*bits),
            Value::Double(bits) => Value::Double(*bits),
            Value::String(number) => Value::String(*number),
            Value::Typ(number) => Value::Typ(*number),
            Value::Field(number) => Value::Field(*number),
            Value::Method(number) => Value::Method(*number),
            Value::Enum(number) => Value::Enum(*number),
            Value::Array(held) => Value::Array(Box::new(*held.allocator(), copied_values(held)?)?),
            Value::Annotation(held) => {
                Value::Annotation(Box::new(*held.elements.allocator(), (**held).clone()?)?)
            }
            Value::Null => Value::Null,
            Value::Boolean(is) => Value::Boolean(*is),
        })
    }
}

impl Clone for EncodedAnnotation {
    ghost is_clone = { λ annotation copy. encoded_of copy ≡ encoded_of annotation };

    #[cycle(copying)]
    fn clone(&self) -> Result<EncodedAnnotation, AllocError> {
        let typ = self.typ;
        let mut elements = Vec::with_capacity(*self.elements.allocator(), self.elements.len())?;
        for element in &self.elements {
            elements.push(Element {
                name: element.name,
                value: element.value.copy()?,
            })?;
        }
        Ok(EncodedAnnotation { typ, elements })
    }
}

impl AnnotationSet {
    /// The same set, with annotations of its own.
    pub fn copy(&self) -> Result<Self, AllocError>
        ensures { IfOk result (λ copy. set_of copy ≡ set_of self.now) }
    {
        self.clone()
    }
}
