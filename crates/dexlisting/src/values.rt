//! Values and annotations.

ghost use Rattle.std.specs.Prelude.{◌<◌, ◌++◌, [], All, IfSome, map, length, codes};
ghost use Rattle.std.specs.List.{flat_map};
ghost use Rattle.std.specs.Option.{option_map, option_map_or};
ghost use Rattle.dexpool.specs.NumberedSymbols.{text_at, type_at};
ghost use Rattle.dexout.specs.Printed.{shown};
ghost use Rattle.dexlisting.specs.internal.Known.{meant_value};
ghost use Rattle.dexval.specs.Code.{value_of, element_of, annotation_of, encoded_of, encoded_type, encoded_elements, visibility_of};
ghost use Rattle.dexval.specs.Numbered.{values_of_list, elements_of_list, value_in, values_in, elements_in, annotation_in, set_in, IsKnown, AreKnown, HaveKnown, IsKnownAnnotation, IsKnownSet, field_at, method_at};
ghost use Rattle.dexmembers.specs.Borrowed.{ForSet, IsBorrowedSet};
ghost use Rattle.dexlisting.specs.FullListing.{plain, value_text, values_text, elements_text, visibility_text, annotation_line, set_lines, literal_text};

use crate::names::{Names, encode_name};
use crate::numbers::{encode_unit, encode_wide};
use crate::operands::encode_literal;
use crate::parts::{encode_field, encode_method, encode_type};
use dexhead::Output;
use dexout::{encode_place, encode_quoted};
use dexpool::Numbering;
use dexval::{Annotation, AnnotationSet, Element, EncodedAnnotation, Value, Visibility};

// Writes words, and a number with its sign.
fn encode_number<O: Output>(words: &[u8], number: i64, out: &mut O)
    ensures { O.gives (words.now ++ literal_text number) out.old out.new }
{
    out.bytes(words);
    encode_literal(number, out);
}

// Writes a value.
#[cycle(values)]
fn encode_value<O: Output>(numbering: &Numbering<'_>, value: &Value, out: &mut O)
    requires { IsKnown numbering.now (value_of value.now) }
    ensures { O.gives (value_text (value_in numbering.now (value_of value.now))) out.old out.new }
{
    match value {
        Value::Byte(number) => encode_number(b"byte ", i64::from(*number), out),
        Value::Short(number) => encode_number(b"short ", i64::from(*number), out),
        Value::Char(unit) => {
            out.bytes(b"char ");
            encode_unit(*unit, out);
        }
        Value::Int(number) => encode_number(b"int ", i64::from(*number), out),
        Value::Long(number) => encode_number(b"long ", *number, out),
        Value::Float(bits) => {
            out.bytes(b"float-bits ");
            encode_place(*bits, out);
        }
        Value::Double(bits) => {
            out.bytes(b"double-bits ");
            encode_wide(*bits, out);
        }
        Value::String(number) => {
            out.bytes(b"string ");
            encode_quoted(numbering.string(*number as usize), out);
        }
        Value::Typ(number) => {
            out.bytes(b"type ");
            encode_type(numbering, *number as usize, out);
        }
        Value::Field(number) => {
            out.bytes(b"field ");
            encode_field(numbering, Names::Plain, *number as usize, out);
        }
        Value::Method(number) => {
            out.bytes(b"method ");
            encode_method(numbering, Names::Plain, *number as usize, out);
        }
        Value::Enum(number) => {
            out.bytes(b"enum ");
            encode_field(numbering, Names::Plain, *number as usize, out);
        }
        Value::Array(values) => {
            out.bytes(b"array {");
            encode_values(numbering, values, out);
        }
        Value::Annotation(annotation) => {
            out.bytes(b"annotation ");
            encode_annotation(numbering, annotation, out);
        }
        Value::Null => out.bytes(b"null"),
        Value::Boolean(is) => out.bytes(if *is { b"true" } else { b"false" }),
    }
}

// Writes values, each after a blank, and the bracket after them.
#[cycle(values)]
fn encode_values<O: Output>(numbering: &Numbering<'_>, values: &[Value], out: &mut O)
    requires { AreKnown numbering.now (values_of_list (map value_of values.now)) }
    ensures { O.gives (values_text (values_in numbering.now
        (values_of_list (map value_of values.now)))) out.old out.new }
{
    for value in values {
        out.byte(b' ');
        encode_value(numbering, value, out);
    }
    out.bytes(b" }");
}

// Writes an element: its name and its value.
#[cycle(values)]
fn encode_element<O: Output>(numbering: &Numbering<'_>, element: &Element, out: &mut O)
    requires { (element.now.name < length numbering.now.texts)
        × IsKnown numbering.now (value_of element.now.value) }
    ensures { O.gives (plain (text_at numbering.now element.now.name) ++ (codes "="
        ++ value_text (value_in numbering.now (value_of element.now.value)))) out.old out.new }
{
    encode_name(Names::Plain, numbering.string(element.name as usize), out);
    out.byte(b'=');
    encode_value(numbering, &element.value, out);
}

// Writes elements, each after a blank, and the bracket after them.
#[cycle(values)]
fn encode_elements<O: Output>(numbering: &Numbering<'_>, elements: &[Element], out: &mut O)
    requires { HaveKnown numbering.now (elements_of_list (map element_of elements.now)) }
    ensures { O.gives (elements_text (elements_in numbering.now
        (elements_of_list (map element_of elements.now)))) out.old out.new }
{
    for element in elements {
        out.byte(b' ');
        encode_element(numbering, element, out);
    }
    out.bytes(b" }");
}

// Writes the type and the elements of an annotation.
#[cycle(values)]
fn encode_annotation<O: Output>(
    numbering: &Numbering<'_>,
    annotation: &EncodedAnnotation,
    out: &mut O,
)
    requires { IsKnown numbering.now (encoded_of annotation.now) }
    ensures { O.gives (shown (type_at numbering.now (encoded_type annotation.now)) ++ (codes " {"
        ++ elements_text (elements_in numbering.now (encoded_elements annotation.now))))
        out.old out.new }
{
    encode_type(numbering, annotation.typ as usize, out);
    out.bytes(b" {");
    encode_elements(numbering, &annotation.elements, out);
}

// Writes the initial value of a static field, if it has one.
pub(crate) fn encode_initial<O: Output>(
    numbering: &Numbering<'_>,
    value: Option<&Value>,
    out: &mut O,
)
    requires { IfSome value (λ v. IsKnown numbering.now (value_of v.now)) }
    ensures { O.gives (option_map_or (λ v. codes " value=" ++ value_text v)
        (option_map (meant_value numbering.now) value.entry) []) out.old out.new }
{
    if let Some(value) = value {
        out.bytes(b" value=");
        encode_value(numbering, value, out);
    }
}

// Writes a visibility, as the page names it.
fn encode_visibility<O: Output>(visibility: Visibility, out: &mut O)
    ensures { O.gives (visibility_text (visibility_of visibility)) out.old out.new }
{
    match visibility {
        Visibility::Build => out.bytes(b"build"),
        Visibility::Runtime => out.bytes(b"runtime"),
        Visibility::System => out.bytes(b"system"),
    }
}

// Writes the line of an annotation, after these blanks.
fn encode_annotation_line<O: Output>(
    numbering: &Numbering<'_>,
    blanks: &[u8],
    annotation: &Annotation,
    out: &mut O,
)
    requires { IsKnownAnnotation numbering.now (annotation_of annotation.now) }
    ensures { O.gives (annotation_line blanks.now
        (annotation_in numbering.now (annotation_of annotation.now))) out.old out.new }
{
    out.bytes(blanks);
    out.bytes(b"annotation ");
    encode_visibility(annotation.visibility, out);
    out.byte(b' ');
    encode_annotation(numbering, &annotation.annotation, out);
    out.byte(b'\n');
}

// Writes the lines of annotations, each after these blanks.
fn encode_annotation_lines<O: Output>(
    numbering: &Numbering<'_>,
    blanks: &[u8],
    annotations: &[Annotation],
    out: &mut O,
)
    requires { All (λ a. IsKnownAnnotation numbering.now (annotation_of a)) annotations.now }
    ensures { O.gives (flat_map (λ a. annotation_line blanks.now
        (annotation_in numbering.now (annotation_of a))) annotations.now) out.old out.new }
{
    for annotation in annotations {
        encode_annotation_line(numbering, blanks, annotation, out);
    }
}

/// Writes the lines of a set of annotations, if there is one, each after these blanks.
pub(crate) fn encode_set<O: Output>(
    numbering: &Numbering<'_>,
    blanks: &[u8],
    set: Option<&AnnotationSet>,
    out: &mut O,
)
    requires { ForSet set (IsKnownSet numbering.now) }
    ensures { ForSet set.entry
        (λ is. O.gives (set_lines blanks.now (set_in numbering.now is)) out.old out.new) }
{
    match set {
        Some(set) => encode_annotation_lines(numbering, blanks, set.annotations(), out),
        None => {}
    }
}
