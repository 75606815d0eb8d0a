//! All that follows the header of a file, and a file from a place in its header on.
//!
//! Source: the heading "Overall file layout" of the Android page "Dalvik Executable format".

ghost use Rattle.std.specs.Prelude.{◌≡◌, ◌≤◌, false, drop, vec_len, vec_capacity};
ghost use Rattle.dexhead.specs.Written.{head_bytes};
ghost use Rattle.dexout.specs.Output.{Adds};
ghost use Rattle.dexcanon.specs.internal.Ready.{CanBeMade};
ghost use Rattle.dexcanon.specs.internal.Adding.{after_header_of, signed_of, tables_of, data_of};

use crate::contents::{Contents, ItemList};
use crate::tables::{
    ClassDefs, FieldIds, MethodIds, ProtoIds, StringDataItems, StringIds, TypeIds,
};
use dexhead::{Head, Output};
use dexout::{Out, Target};
use dexpool::SymbolKind;

// Writes the rows of the tables.
fn encode_tables<O: Output>(contents: &Contents<'_, '_, '_>, out: &mut O)
    requires { CanBeMade contents.now }
    ensures { O.gives (tables_of contents.now) out.old out.new }
{
    let numbering = contents.numbering;
    StringIds::encode(contents, contents.layout.strings().offsets().len(), out);
    TypeIds::encode(contents, numbering.count(SymbolKind::Typ), out);
    ProtoIds::encode(contents, numbering.count(SymbolKind::Proto), out);
    FieldIds::encode(contents, numbering.count(SymbolKind::Field), out);
    MethodIds::encode(contents, numbering.count(SymbolKind::Method), out);
    ClassDefs::encode(contents, contents.classes.len(), out);
}

// Writes the sections of the data. Texts, type lists, lists of sets, and much code are encoded here, the others in the
// layout.
fn encode_data<O: Output>(contents: &Contents<'_, '_, '_>, out: &mut O)
    requires { CanBeMade contents.now }
    ensures { O.gives (data_of contents.now) out.old out.new }
{
    let layout = contents.layout;
    layout.encode_type_lists(contents.numbering, contents.classes, out);
    out.bytes(layout.annotations().bytes());
    out.bytes(layout.static_values().bytes());
    StringDataItems::encode(contents, contents.numbering.count(SymbolKind::Text), out);
    out.bytes(layout.debugs().bytes());
    layout.encode_codes(contents.classes, out);
    out.bytes(layout.class_data().bytes());
    out.bytes(layout.sets().written().bytes());
    layout.encode_ref_lists(contents.classes, out);
    out.bytes(layout.directories().bytes());
}

/// Writes all that follows the header: the rows of the tables, the sections of the data, and the map.
pub(crate) fn encode_body<O: Output>(contents: &Contents<'_, '_, '_>, out: &mut O)
    requires { CanBeMade contents.now }
    ensures { O.gives (after_header_of contents.now) out.old out.new }
{
    encode_tables(contents, out);
    encode_data(contents, out);
    out.bytes(contents.layout.map().bytes());
}

/// Puts a header from a place in it on, into a buffer that is empty and has room for it.
pub(crate) fn put_head(head: &Head, from: usize, buffer: &mut Vec<u8>)
    requires within { from ≤ 112 }
    requires empty { vec_len buffer.old ≡ 0 }
    requires room { 112 ≤ vec_capacity buffer.old }
    ensures items { buffer.new.items ≡ drop from (head_bytes head.now) }
    ensures capacity { vec_capacity buffer.old ≤ vec_capacity buffer.new }
{
    head.put(buffer).unwrap();
    buffer.drain(..from);
}

/// Writes all that follows the header of a file, and flushes it.
pub(crate) fn write_body<T: Target>(contents: &Contents<'_, '_, '_>, out: &mut Out<T>)
    requires { CanBeMade contents.now }
    ensures adds { Adds T.gives T.gives_prefix T.has_failed
        (after_header_of contents.now) out.old out.new }
    ensures empty { vec_len out.new.buffer ≡ 0 }
{
    encode_body(contents, out);
    out.flush();
}

/// Writes the part of a file that its signature covers to a target that cannot fail. Returns the buffer, which is empty
/// again, and the target.
pub(crate) fn write_signed<T: Target>(
    contents: &Contents<'_, '_, '_>,
    mut buffer: Vec<u8>,
    target: T,
) -> (Vec<u8>, T)
    requires ready { CanBeMade contents.now }
    requires room { 112 ≤ vec_capacity buffer }
    requires empty { vec_len buffer ≡ 0 }
    requires sure { (t : T) → T.has_failed t ≡ false }
    ensures given { T.gives (signed_of contents.now) target result.1 }
    ensures room { 112 ≤ vec_capacity result.0 }
    ensures empty { vec_len result.0 ≡ 0 }
{
    let head = contents.layout.head();
    put_head(&head, 32, &mut buffer);
    let mut out = Out {
        buffer,
        failed: false,
        target,
    };
    write_body(contents, &mut out);
    let Out { buffer, target, .. } = out;
    (buffer, target)
}
