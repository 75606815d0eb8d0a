//! The parts of a line: symbols by their numbers.

ghost use Rattle.std.specs.Prelude.{◌<◌, length, All};
ghost use Rattle.std.specs.List.{flat_map};
ghost use Rattle.dexspec.specs.Symbols.{FieldSymbol, MethodSymbol};
ghost use Rattle.dexpool.specs.Pools.{count_of};
ghost use Rattle.dexval.specs.Numbered.{field_at, method_at};
ghost use Rattle.dexpool.specs.NumberedSymbols.{symbol_at};
ghost use Rattle.dexpool.specs.NumberedSymbols.{text_at, type_at};
ghost use Rattle.dexout.specs.Printed.{shown};
ghost use Rattle.dexlisting.specs.Listing.{proto_text, own_field_text, own_method_text, symbol_text};
ghost use Rattle.dexlisting.specs.internal.Known.{name_text, proto_at};

use crate::names::{Names, encode_name};
use dexhead::Output;
use dexout::{encode_quoted, encode_text};
use dexpool::{Numbering, SymbolKind};
use dexrows::TypeNumbers;

// Writes the name of a number.
fn encode_string<O: Output>(numbering: &Numbering<'_>, names: Names, text: usize, out: &mut O)
    requires { text < length numbering.now.texts }
    ensures { O.gives (name_text names (text_at numbering.now text)) out.old out.new }
{
    encode_name(names, numbering.string(text), out);
}

/// Writes a type.
pub(crate) fn encode_type<O: Output>(numbering: &Numbering<'_>, typ: usize, out: &mut O)
    requires { typ < length numbering.now.types }
    ensures { O.gives (shown (type_at numbering.now typ)) out.old out.new }
{
    encode_text(numbering.typ(typ), out);
}

/// Writes the name of a field and its type.
pub(crate) fn encode_own_field<O: Output>(
    numbering: &Numbering<'_>,
    names: Names,
    field: usize,
    out: &mut O,
)
    requires { field < length numbering.now.fields }
    ensures { O.gives (own_field_text (name_text names) (field_at numbering.now field).name
        (field_at numbering.now field).type) out.old out.new }
{
    let row = numbering.field(field);
    encode_string(numbering, names, row.name as usize, out);
    out.byte(b':');
    encode_type(numbering, row.typ as usize, out);
}

// Writes types, one after the other.
fn encode_types<O: Output>(numbering: &Numbering<'_>, types: &TypeNumbers<'_>, out: &mut O)
    requires { All (λ i. i < length numbering.now.types) types.now }
    ensures { O.gives (flat_map (λ i. shown (type_at numbering.now i)) types.now) out.old out.new }
{
    for k in 0..types.len() {
        encode_type(numbering, types.at(k), out);
    }
}

/// Writes the types of a method.
pub(crate) fn encode_proto<O: Output>(numbering: &Numbering<'_>, proto: usize, out: &mut O)
    requires { proto < length numbering.now.protos }
    ensures { O.gives (proto_text (proto_at numbering.now proto)) out.old out.new }
{
    let row = numbering.proto(proto);
    out.byte(b'(');
    encode_types(numbering, &row.parameters(), out);
    out.byte(b')');
    encode_type(numbering, row.return_type(), out);
}

/// Writes the name of a method and its types.
pub(crate) fn encode_own_method<O: Output>(
    numbering: &Numbering<'_>,
    names: Names,
    method: usize,
    out: &mut O,
)
    requires { method < length numbering.now.methods }
    ensures { O.gives (own_method_text (name_text names) (method_at numbering.now method).name
        (method_at numbering.now method).proto) out.old out.new }
{
    let row = numbering.method(method);
    encode_string(numbering, names, row.name as usize, out);
    encode_proto(numbering, row.proto as usize, out);
}

/// Writes a field with its class.
pub(crate) fn encode_field<O: Output>(
    numbering: &Numbering<'_>,
    names: Names,
    field: usize,
    out: &mut O,
)
    requires { field < length numbering.now.fields }
    ensures { O.gives (symbol_text (name_text names) (FieldSymbol (field_at numbering.now field)))
        out.old out.new }
{
    encode_type(numbering, numbering.field(field).class as usize, out);
    out.bytes(b"->");
    encode_own_field(numbering, names, field, out);
}

/// Writes a method with its class.
pub(crate) fn encode_method<O: Output>(
    numbering: &Numbering<'_>,
    names: Names,
    method: usize,
    out: &mut O,
)
    requires { method < length numbering.now.methods }
    ensures { O.gives
        (symbol_text (name_text names) (MethodSymbol (method_at numbering.now method))) out.old
        out.new }
{
    encode_type(numbering, numbering.method(method).class as usize, out);
    out.bytes(b"->");
    encode_own_method(numbering, names, method, out);
}

/// Writes the symbol of a kind and a number.
pub(crate) fn encode_symbol<O: Output>(
    numbering: &Numbering<'_>,
    names: Names,
    kind: SymbolKind,
    number: usize,
    out: &mut O,
)
    requires { number < count_of kind numbering.now }
    ensures { O.gives (symbol_text (name_text names) (symbol_at numbering.now kind number)) out.old
        out.new }
{
    match kind {
        SymbolKind::Text => encode_quoted(numbering.string(number), out),
        SymbolKind::Typ => encode_type(numbering, number, out),
        SymbolKind::Proto => encode_proto(numbering, number, out),
        SymbolKind::Field => encode_field(numbering, names, number, out),
        SymbolKind::Method => encode_method(numbering, names, number, out),
    }
}
