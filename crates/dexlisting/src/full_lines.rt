//! The lines of classes, and of what they declare, in a full listing.

ghost use Rattle.std.specs.Prelude.{◌≡◌, ◌<◌, ◌++◌, [], All, IfSome, MatchOption, map, length, codes, Some, None};
ghost use Rattle.std.specs.List.{flat_map};
ghost use Rattle.std.specs.Option.{option_map, option_map_or};
ghost use Rattle.dexspec.specs.Symbols.{MethodSymbol};
ghost use Rattle.dexcode.specs.Meaning.{IsKnownCode, code_in};
ghost use Rattle.dexdebug.specs.Meaning.{IsKnownDebug, debug_in};
ghost use Rattle.dexval.specs.Code.{value_of};
ghost use Rattle.dexval.specs.Numbered.{IsKnown, AreKnown, IsKnownSet, method_at, set_in, values_in, values_of_list};
ghost use Rattle.dexmembers.specs.Numbered.{IsKnownField, IsKnownMethod, field_in, method_in};
ghost use Rattle.dexclass.specs.Numbered.{definition_of};
ghost use Rattle.dexclass.specs.Uses.{IsKnownClass};
ghost use Rattle.dexlisting.specs.Listing.{symbol_text};
ghost use Rattle.dexlisting.specs.FullListing.{plain, debug_lines, full_code_lines, parameter_lines, full_field_lines, static_field_lines, instance_field_lines, full_method_lines, full_class_lines};
ghost use Rattle.dexlisting.specs.internal.Known.{meant_value, field_lines};

use crate::debug::encode_debug;
use crate::full_pieces::encode_full_pieces;
use crate::lines::{encode_interfaces, encode_own_line, encode_source};
use crate::names::Names;
use crate::parts::{encode_own_field, encode_own_method};
use crate::pieces::encode_counts;
use crate::tries::encode_tries;
use crate::values::{encode_initial, encode_set};
use dexclass::Class;
use dexcode::{BorrowedCode, Debug};
use dexhead::{Encode, Output};
use dexmembers::{Field, Fields, Method, Methods, ParameterSets};
use dexout::encode_count;
use dexpool::Numbering;
use dexval::Value;

// Writes the lines of a debug program, if there is one.
fn encode_debug_of<O: Output>(numbering: &Numbering<'_>, debug: Option<&Debug<'_>>, out: &mut O)
    requires { IfSome debug (λ d. IsKnownDebug numbering.now d.now) }
    ensures { O.gives
        (option_map_or (λ d. debug_lines (debug_in numbering.now d.now)) debug.entry [])
        out.old out.new }
{
    if let Some(debug) = debug {
        encode_debug(numbering, debug, out);
    }
}

// Writes the lines of the code of a method.
fn encode_full_code<O: Output>(
    numbering: &Numbering<'_>,
    method: usize,
    code: &BorrowedCode<'_, '_>,
    out: &mut O,
)
    requires method { method < length numbering.now.methods }
    requires code { IsKnownCode numbering.now code.now }
    ensures { O.gives (full_code_lines
        (symbol_text plain (MethodSymbol (method_at numbering.now method)))
        (code_in numbering.now code.now)) out.old out.new }
{
    encode_counts(code, out);
    encode_full_pieces(numbering, method, code.pieces(), out);
    encode_tries(numbering, &code.tries(), out);
    encode_debug_of(numbering, code.debug(), out);
}

// Writes the lines of the sets of parameters.
fn encode_parameters<O: Output>(numbering: &Numbering<'_>, sets: &ParameterSets<'_>, out: &mut O)
    requires { All (IsKnownSet numbering.now) sets.now }
    ensures { O.gives (parameter_lines 0 (map (set_in numbering.now) sets.now)) out.old out.new }
{
    for i in 0..sets.len() {
        encode_count(b"    parameter ", i, out);
        out.byte(b'\n');
        encode_set(numbering, b"      ", sets.get(i), out);
    }
}

// Writes the lines of a field after these words, with its value if it has one.
fn encode_full_field<O: Output>(
    numbering: &Numbering<'_>,
    words: &[u8],
    field: &Field<'_>,
    value: Option<&Value>,
    out: &mut O,
)
    requires field { IsKnownField numbering.now field.now }
    requires value { IfSome value (λ v. IsKnown numbering.now (value_of v.now)) }
    ensures { O.gives (full_field_lines words.now (field_in numbering.now field.now)
        (option_map (meant_value numbering.now) value.entry)) out.old out.new }
{
    out.bytes(words);
    encode_own_field(numbering, Names::Plain, field.number() as usize, out);
    out.bytes(b" flags=");
    field.flags().encode(out);
    encode_initial(numbering, value, out);
    out.byte(b'\n');
    encode_set(numbering, b"    ", field.annotations(), out);
}

// Writes the lines of fields after these words; the first have these values.
fn encode_full_fields<O: Output>(
    numbering: &Numbering<'_>,
    words: &[u8],
    fields: &Fields<'_>,
    values: &[Value],
    out: &mut O,
)
    requires fields { All (IsKnownField numbering.now) fields.now }
    requires values { AreKnown numbering.now (values_of_list (map value_of values.now)) }
    ensures { O.gives (field_lines words.now (map (field_in numbering.now) fields.now)
        (values_in numbering.now (values_of_list (map value_of values.now)))) out.old out.new }
{
    for i in 0..fields.len() {
        encode_full_field(numbering, words, &fields.get(i), values.get(i), out);
    }
}

// Writes the lines of a method after these words.
fn encode_full_method<O: Output>(
    numbering: &Numbering<'_>,
    words: &[u8],
    method: &Method<'_, '_>,
    out: &mut O,
)
    requires { IsKnownMethod numbering.now method.now }
    ensures { O.gives (full_method_lines (method_at numbering.now method.now.number).class words.now
        (method_in numbering.now method.now)) out.old out.new }
{
    out.bytes(words);
    encode_own_method(numbering, Names::Plain, method.number() as usize, out);
    out.bytes(b" flags=");
    method.flags().encode(out);
    out.byte(b'\n');
    encode_set(numbering, b"    ", method.annotations(), out);
    encode_parameters(numbering, &method.parameter_annotations(), out);
    if let Some(code) = method.code() {
        encode_full_code(numbering, method.number() as usize, &code, out);
    }
}

// Writes the lines of methods after these words.
fn encode_full_methods<O: Output>(
    numbering: &Numbering<'_>,
    words: &[u8],
    methods: &Methods<'_, '_>,
    out: &mut O,
)
    requires { All (IsKnownMethod numbering.now) methods.now }
    ensures { O.gives (flat_map (λ x. full_method_lines (method_at numbering.now x.number).class
        words.now (method_in numbering.now x)) methods.now) out.old out.new }
{
    for i in 0..methods.len() {
        encode_full_method(numbering, words, &methods.get(i), out);
    }
}

/// Writes all lines of a class.
pub(crate) fn encode_full_class<O: Output>(
    numbering: &Numbering<'_>,
    class: &Class<'_>,
    out: &mut O,
)
    requires { IsKnownClass numbering.now class.now }
    ensures { O.gives (full_class_lines (definition_of numbering.now class.now)) out.old out.new }
{
    encode_own_line(numbering, class, out);
    encode_interfaces(numbering, &class.interfaces(), out);
    encode_source(numbering, class.source(), out);
    let members = class.members();
    encode_set(numbering, b"  ", members.annotations(), out);
    encode_full_fields(
        numbering,
        b"  static-field ",
        &members.static_fields(),
        members.static_values(),
        out,
    );
    encode_full_fields(
        numbering,
        b"  instance-field ",
        &members.instance_fields(),
        &[],
        out,
    );
    encode_full_methods(
        numbering,
        b"  direct-method ",
        &members.direct_methods(),
        out,
    );
    encode_full_methods(
        numbering,
        b"  virtual-method ",
        &members.virtual_methods(),
        out,
    );
}
