//! Values, annotations, sets and directories.

use crate::shown::symbols::{print_counted, print_string, print_symbol, print_type};
use dexcases::Printed;
use dexpool::{Numbering, SymbolKind};
use dexval::{Annotation, AnnotationSet, Directory, EncodedAnnotation, Value, Visibility};

// Prints a word and a symbol.
fn print_named(
    word: &str,
    kind: SymbolKind,
    number: u32,
    numbering: &Numbering<'_>,
    out: &mut Printed,
) {
    out.add(word);
    print_symbol(numbering, kind, number as usize, out);
}

// Prints a word and the bits of a number, in `digits` hexadecimal digits.
fn print_bits(word: &str, bits: u64, digits: usize, out: &mut Printed) {
    out.add(word);
    out.add_hex(bits, digits);
}

// Prints the separator before an item of a list: nothing before the first.
fn print_comma(is_first: bool, out: &mut Printed) {
    out.add(if is_first { "" } else { ", " });
}

/// Prints a value.
#[cycle(printing)]
pub fn print_value(value: &Value, numbering: &Numbering<'_>, out: &mut Printed) {
    match value {
        Value::Byte(number) => print_counted("byte ", i64::from(*number), out),
        Value::Short(number) => print_counted("short ", i64::from(*number), out),
        Value::Char(unit) => print_counted("char ", i64::from(*unit), out),
        Value::Int(number) => print_counted("int ", i64::from(*number), out),
        Value::Long(number) => print_counted("long ", *number, out),
        Value::Float(bits) => print_bits("float 0x", u64::from(*bits), 8, out),
        Value::Double(bits) => print_bits("double 0x", *bits, 16, out),
        Value::String(number) => print_named("string ", SymbolKind::Text, *number, numbering, out),
        Value::Typ(number) => print_named("type ", SymbolKind::Typ, *number, numbering, out),
        Value::Field(number) => print_named("field ", SymbolKind::Field, *number, numbering, out),
        Value::Method(number) => print_named(
            "method ",
            SymbolKind::Method,
            *number,
            numbering,
            out,
        ),
        Value::Enum(number) => print_named("enum ", SymbolKind::Field, *number, numbering, out),
        Value::Array(values) => print_values(values, numbering, out),
        Value::Annotation(annotation) => {
            out.add("@");
            print_encoded(annotation, numbering, out);
        }
        Value::Null => out.add("null"),
        Value::Boolean(is) => out.add(if *is { "true" } else { "false" }),
    }
}

/// Prints values: `[VALUE, VALUE]`.
#[cycle(printing)]
pub fn print_values(values: &[Value], numbering: &Numbering<'_>, out: &mut Printed) {
    out.add("[");
    let mut is_first = true;
    for value in values {
        print_comma(is_first, out);
        print_value(value, numbering, out);
        is_first = false;
    }
    out.add("]");
}

// Prints an encoded_annotation: `TYPE("NAME" = VALUE, "NAME" = VALUE)`.
#[cycle(printing)]
fn print_encoded(annotation: &EncodedAnnotation, numbering: &Numbering<'_>, out: &mut Printed) {
    print_type(numbering, annotation.typ as usize, out);
    out.add("(");
    let mut is_first = true;
    for element in &annotation.elements {
        print_comma(is_first, out);
        print_string(numbering, element.name as usize, out);
        out.add(" = ");
        print_value(&element.value, numbering, out);
        is_first = false;
    }
    out.add(")");
}

// Prints an annotation of a set: `VISIBILITY TYPE(ELEMENTS)`.
fn print_annotation(annotation: &Annotation, numbering: &Numbering<'_>, out: &mut Printed) {
    out.add(match annotation.visibility {
        Visibility::Build => "build ",
        Visibility::Runtime => "runtime ",
        Visibility::System => "system ",
    });
    print_encoded(&annotation.annotation, numbering, out);
}

/// Prints a set: `{ANNOTATION, ANNOTATION}`.
pub fn print_set(set: &AnnotationSet, numbering: &Numbering<'_>, out: &mut Printed) {
    out.add("{");
    let mut mark = "";
    for annotation in set.annotations() {
        out.add(mark);
        print_annotation(annotation, numbering, out);
        mark = ", ";
    }
    out.add("}");
}

// Prints sets: `[SET, SET]`.
fn print_sets(sets: &[AnnotationSet], numbering: &Numbering<'_>, out: &mut Printed) {
    out.add("[");
    let mut mark = "";
    for set in sets {
        out.add(mark);
        print_set(set, numbering, out);
        mark = ", ";
    }
    out.add("]");
}

/// Prints a directory: its own set, and a pair for each member.
pub fn print_directory(directory: &Directory, numbering: &Numbering<'_>, out: &mut Printed) {
    out.add("own ");
    print_set(&directory.own, numbering, out);
    for (number, set) in &directory.fields {
        print_named(" / field ", SymbolKind::Field, *number, numbering, out);
        out.add(" ");
        print_set(set, numbering, out);
    }
    for (number, set) in &directory.methods {
        print_named(" / method ", SymbolKind::Method, *number, numbering, out);
        out.add(" ");
        print_set(set, numbering, out);
    }
    for (number, sets) in &directory.parameters {
        print_named(
            " / parameters ",
            SymbolKind::Method,
            *number,
            numbering,
            out,
        );
        out.add(" ");
        print_sets(sets, numbering, out);
    }
}
