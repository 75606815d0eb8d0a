//! The lines of classes, and of what they declare.

ghost use Rattle.std.specs.Prelude.{◌≡◌, ◌<◌, length, codes, IfSome, All, []};
ghost use Rattle.std.specs.List.{flat_map};
ghost use Rattle.std.specs.Option.{option_map, option_map_or};
ghost use Rattle.dexmembers.specs.Numbered.{IsKnownField, IsKnownMethod, field_in, method_in};
ghost use Rattle.dexpool.specs.NumberedSymbols.{text_at, type_at};
ghost use Rattle.dexclass.specs.Numbered.{definition_of};
ghost use Rattle.dexclass.specs.Uses.{IsKnownClass};
ghost use Rattle.dexout.specs.Printed.{shown};
ghost use Rattle.dexlisting.specs.Listing.{field_line, method_lines, own_line, interface_line, source_line, class_lines};

use crate::names::Names;
use crate::parts::{encode_own_field, encode_own_method, encode_type};
use crate::pieces::encode_code;
use dexclass::Class;
use dexhead::{Encode, Output};
use dexmembers::{Field, Fields, Method, Methods};
use dexout::encode_quoted;
use dexpool::Numbering;
use dexrows::TypeNumbers;

// Writes the line of a field, after these words.
#[tactic(auto, unfolding(crate::specs::Listing::field_line))]
fn encode_field_line<O: Output>(
    numbering: &Numbering<'_>,
    words: &[u8],
    field: &Field<'_>,
    out: &mut O,
)
    requires { IsKnownField numbering.now field.now }
    ensures { O.gives (field_line words.now (field_in numbering.now field.now)) out.old out.new }
{
    out.bytes(words);
    encode_own_field(numbering, Names::Shown, field.number() as usize, out);
    out.bytes(b" flags=");
    field.flags().encode(out);
    out.byte(b'\n');
}

// Writes the lines of fields, after these words.
fn encode_fields<O: Output>(
    numbering: &Numbering<'_>,
    words: &[u8],
    fields: &Fields<'_>,
    out: &mut O,
)
    requires { All (IsKnownField numbering.now) fields.now }
    ensures { O.gives (flat_map (λ f. field_line words.now (field_in numbering.now f)) fields.now)
        out.old out.new }
{
    for i in 0..fields.len() {
        encode_field_line(numbering, words, &fields.get(i), out);
    }
}

// Writes the lines of a method, after these words.
fn encode_method_lines<O: Output>(
    numbering: &Numbering<'_>,
    words: &[u8],
    method: &Method<'_, '_>,
    out: &mut O,
)
    requires { IsKnownMethod numbering.now method.now }
    ensures { O.gives (method_lines words.now (method_in numbering.now method.now)) out.old
        out.new }
{
    out.bytes(words);
    encode_own_method(numbering, Names::Shown, method.number() as usize, out);
    out.bytes(b" flags=");
    method.flags().encode(out);
    out.byte(b'\n');
    if let Some(code) = method.code() {
        encode_code(numbering, &code, out);
    }
}

// Writes the lines of methods, after these words.
fn encode_methods<O: Output>(
    numbering: &Numbering<'_>,
    words: &[u8],
    methods: &Methods<'_, '_>,
    out: &mut O,
)
    requires { All (IsKnownMethod numbering.now) methods.now }
    ensures { O.gives
        (flat_map (λ m. method_lines words.now (method_in numbering.now m)) methods.now)
        out.old out.new }
{
    for i in 0..methods.len() {
        encode_method_lines(numbering, words, &methods.get(i), out);
    }
}

// Writes the name of the superclass, or a dash.
fn encode_superclass<O: Output>(numbering: &Numbering<'_>, superclass: Option<usize>, out: &mut O)
    requires { IfSome superclass (λ i. i < length numbering.now.types) }
    ensures { O.gives (option_map_or shown (option_map (type_at numbering.now) superclass)
        (codes "-")) out.old out.new }
{
    match superclass {
        Some(typ) => encode_type(numbering, typ, out),
        None => out.byte(b'-'),
    }
}

/// Writes the line with the name, the flags and the superclass.
pub(crate) fn encode_own_line<O: Output>(numbering: &Numbering<'_>, class: &Class<'_>, out: &mut O)
    requires { IsKnownClass numbering.now class.now }
    ensures { O.gives (own_line (definition_of numbering.now class.now)) out.old out.new }
{
    out.bytes(b"class ");
    encode_type(numbering, class.name(), out);
    out.bytes(b" flags=");
    class.flags().encode(out);
    out.bytes(b" super=");
    encode_superclass(numbering, class.superclass(), out);
    out.byte(b'\n');
}

// Writes the line of an interface.
#[tactic(auto, unfolding(crate::specs::Listing::interface_line))]
fn encode_interface<O: Output>(numbering: &Numbering<'_>, interface: usize, out: &mut O)
    requires { interface < length numbering.now.types }
    ensures { O.gives (interface_line (type_at numbering.now interface)) out.old out.new }
{
    out.bytes(b"  interface ");
    encode_type(numbering, interface, out);
    out.byte(b'\n');
}

/// Writes the lines of interfaces.
pub(crate) fn encode_interfaces<O: Output>(
    numbering: &Numbering<'_>,
    interfaces: &TypeNumbers<'_>,
    out: &mut O,
)
    requires { All (λ i. i < length numbering.now.types) interfaces.now }
    ensures { O.gives (flat_map (λ i. interface_line (type_at numbering.now i)) interfaces.now)
        out.old out.new }
{
    for k in 0..interfaces.len() {
        encode_interface(numbering, interfaces.at(k), out);
    }
}

/// Writes the line of the source text, if there is one.
pub(crate) fn encode_source<O: Output>(
    numbering: &Numbering<'_>,
    source: Option<usize>,
    out: &mut O,
)
    requires { IfSome source (λ i. i < length numbering.now.texts) }
    ensures { O.gives (option_map_or source_line (option_map (text_at numbering.now) source) [])
        out.old out.new }
{
    if let Some(text) = source {
        out.bytes(b"  source ");
        encode_quoted(numbering.string(text), out);
        out.byte(b'\n');
    }
}

/// Writes the lines of a class.
pub(crate) fn encode_class<O: Output>(numbering: &Numbering<'_>, class: &Class<'_>, out: &mut O)
    requires { IsKnownClass numbering.now class.now }
    ensures { O.gives (class_lines (definition_of numbering.now class.now)) out.old out.new }
{
    encode_own_line(numbering, class, out);
    encode_interfaces(numbering, &class.interfaces(), out);
    encode_source(numbering, class.source(), out);
    let members = class.members();
    encode_fields(numbering, b"  static-field ", &members.static_fields(), out);
    encode_fields(
        numbering,
        b"  instance-field ",
        &members.instance_fields(),
        out,
    );
    encode_methods(
        numbering,
        b"  direct-method ",
        &members.direct_methods(),
        out,
    );
    encode_methods(
        numbering,
        b"  virtual-method ",
        &members.virtual_methods(),
        out,
    );
}
