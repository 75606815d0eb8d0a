//! Texts and symbols, as a listing has them. A number without a symbol prints as a question mark.

use dexcases::Printed;
use dexpool::{Numbering, SymbolKind};
use dexstr::Text;

/// Whether the class of a field or method is printed.
#[derive(Clone, Copy)]
pub enum Naming {
    /// `CLASS->` precedes the name.
    WithClass,
    /// The name and the types only.
    Alone,
}

/// Prints a word and a number.
pub fn print_counted(word: &str, number: i64, out: &mut Printed) {
    out.add(word);
    out.add_shown(&number);
}

// Prints a text without quotes.
fn print_text(text: &Text<'_>, out: &mut Printed) {
    for unit in text.units() {
        out.add_unit(unit);
    }
}

// Prints the text of a number, without quotes.
fn print_name(numbering: &Numbering<'_>, number: usize, out: &mut Printed) {
    if number >= numbering.count(SymbolKind::Text) {
        return out.add("?");
    }
    print_text(numbering.string(number), out);
}

/// Prints a text in quotes.
pub fn print_string(numbering: &Numbering<'_>, number: usize, out: &mut Printed) {
    out.add("\"");
    print_name(numbering, number, out);
    out.add("\"");
}

/// Prints a type.
pub fn print_type(numbering: &Numbering<'_>, number: usize, out: &mut Printed) {
    if number >= numbering.count(SymbolKind::Typ) {
        return out.add("?");
    }
    print_text(numbering.typ(number), out);
}

// Prints the types of a method: `(PARAMETERS)RETURN`.
fn print_proto(numbering: &Numbering<'_>, number: usize, out: &mut Printed) {
    if number >= numbering.count(SymbolKind::Proto) {
        return out.add("?");
    }
    let proto = numbering.proto(number);
    out.add("(");
    let parameters = proto.parameters();
    for i in 0..parameters.len() {
        print_type(numbering, parameters.at(i), out);
    }
    out.add(")");
    print_type(numbering, proto.return_type(), out);
}

// Prints the class of a member and an arrow, if it is printed.
fn print_class(naming: Naming, numbering: &Numbering<'_>, class: usize, out: &mut Printed) {
    if let Naming::WithClass = naming {
        print_type(numbering, class, out);
        out.add("->");
    }
}

/// Prints a field: `NAME:TYPE`, with or without `CLASS->` before it.
pub fn print_field(naming: Naming, numbering: &Numbering<'_>, number: usize, out: &mut Printed) {
    if number >= numbering.count(SymbolKind::Field) {
        return out.add("?");
    }
    let field = numbering.field(number);
    print_class(naming, numbering, field.class as usize, out);
    print_name(numbering, field.name as usize, out);
    out.add(":");
    print_type(numbering, field.typ as usize, out);
}

/// Prints a method: `NAME(PARAMETERS)RETURN`, with or without `CLASS->` before it.
pub fn print_method(naming: Naming, numbering: &Numbering<'_>, number: usize, out: &mut Printed) {
    if number >= numbering.count(SymbolKind::Method) {
        return out.add("?");
    }
    let method = numbering.method(number);
    print_class(naming, numbering, method.class as usize, out);
    print_name(numbering, method.name as usize, out);
    print_proto(numbering, method.proto as usize, out);
}

/// Prints a symbol of a kind: a text in quotes, and a member after its class.
pub fn print_symbol(numbering: &Numbering<'_>, kind: SymbolKind, number: usize, out: &mut Printed) {
    match kind {
        SymbolKind::Text => print_string(numbering, number, out),
        SymbolKind::Typ => print_type(numbering, number, out),
        SymbolKind::Proto => print_proto(numbering, number, out),
        SymbolKind::Field => print_field(Naming::WithClass, numbering, number, out),
        SymbolKind::Method => print_method(Naming::WithClass, numbering, number, out),
    }
}
