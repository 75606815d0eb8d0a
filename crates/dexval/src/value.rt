//! Values, with numbers instead of symbols.

/// A value: the initial value of a static field, or the value of an element of an annotation. The number of a symbol
/// refers to a numbering, or to the pools of the file that the value was read from.
///
/// Source: "encoded_value encoding", "Value formats".
#[derive(Debug, Drop, PartialEq, Eq, Hash)]
#[cycle(value)]
pub enum Value {
    /// A byte.
    Byte(i8),
    /// A short.
    Short(i16),
    /// A char: a unit of text.
    Char(u16),
    /// An int.
    Int(i32),
    /// A long.
    Long(i64),
    /// A float, by its bits.
    Float(u32),
    /// A double, by its bits.
    Double(u64),
    /// A text, by its number.
    String(u32),
    /// A type, by its number.
    Typ(u32),
    /// A field, by its number.
    Field(u32),
    /// A method, by its number.
    Method(u32),
    /// A constant of an enum: a field, by its number.
    Enum(u32),
    /// Values.
    Array(Box<Vec<Value>>),
    /// An annotation.
    Annotation(Box<EncodedAnnotation>),
    /// No object.
    Null,
    /// A truth value.
    Boolean(bool),
}

/// An element of an annotation: the number of its name, and its value.
///
/// Source: "annotation_element".
#[derive(Debug, Drop, PartialEq, Eq, Hash)]
#[cycle(value)]
pub struct Element {
    pub name: u32,
    pub value: Value,
}

/// An annotation without a visibility: the number of its type, and its elements.
///
/// Source: "encoded_annotation format".
#[derive(Debug, Drop, PartialEq, Eq, Hash)]
#[cycle(value)]
pub struct EncodedAnnotation {
    pub typ: u32,
    pub elements: Vec<Element>,
}
