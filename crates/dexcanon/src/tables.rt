//! The rows of the tables of symbols and of the classes, and the data of the texts.
//!
//! Source: the headings "string_id_item", "type_id_item", "proto_id_item", "field_id_item", "method_id_item",
//! "class_def_item" and "string_data_item" of the Android page "Dalvik Executable format".

ghost use Rattle.std.specs.Prelude.{◌^◌, ◌<◌, ◌++◌, ◌≡◌, length, slice_index_or, unwrap_or, IfSome};
ghost use Rattle.dexspec.specs.Bytes.{ushort, uint};
ghost use Rattle.dexcanon.specs.internal.Adding.{string_items, string_rows, type_rows, proto_rows, field_rows, method_rows, class_rows};
ghost use Rattle.std.specs.List.{flat_map};
ghost use Rattle.dexspec.specs.Classes.{no_index};
ghost use Rattle.dexspec.specs.Canonical.{class_offsets};
ghost use Rattle.dexcanon.specs.internal.ClassRows.{class_row, no_offsets};
ghost use Rattle.dexcanon.specs.internal.Ready.{CanBeMade, ordered_in};

use crate::contents::{Contents, ItemList};
use dexclass::Class;
use dexhead::{Encode, Output};
use dexlayout::encode_numbers;
use dexpool::SymbolKind;

/// The rows of the texts, from the offset of each.
pub(crate) struct StringIds;

impl ItemList for StringIds {
    ghost items = { string_rows };

    fn encode_item<O: Output>(contents: &Contents<'_, '_, '_>, i: usize, out: &mut O) {
        let offsets = contents.layout.strings().offsets();
        out.u32(offsets[i]);
    }
}

/// The rows of the types.
pub(crate) struct TypeIds;

impl ItemList for TypeIds {
    ghost items = { type_rows };

    fn encode_item<O: Output>(contents: &Contents<'_, '_, '_>, i: usize, out: &mut O) {
        let row = contents.numbering.descriptor(i) as u32;
        out.u32(row);
    }
}

/// The rows of the protos, from where the parameters of each are listed.
pub(crate) struct ProtoIds;

impl ItemList for ProtoIds {
    ghost items = { proto_rows };

    fn encode_item<O: Output>(contents: &Contents<'_, '_, '_>, i: usize, out: &mut O) {
        let proto = contents.numbering.proto(i);
        let list_offs = contents.layout.type_lists().places().offsets();
        out.u32(proto.shorty() as u32);
        out.u32(proto.return_type() as u32);
        out.u32(list_offs[i]);
    }
}

// Writes the row of a field or of a method: the number of its class, that of its type or of its proto, and that of its
// name.
fn encode_member<O: Output>(class: u32, typ: u32, name: u32, out: &mut O)
    requires class_fits { class < 65536 }
    requires type_fits { typ < 65536 }
    ensures { O.gives (ushort class ++ (ushort typ ++ uint name)) out.old out.new }
{
    out.u16(class as u16);
    out.u16(typ as u16);
    out.u32(name);
}

/// The rows of the fields.
pub(crate) struct FieldIds;

impl ItemList for FieldIds {
    ghost items = { field_rows };

    fn encode_item<O: Output>(contents: &Contents<'_, '_, '_>, i: usize, out: &mut O) {
        let field = contents.numbering.field(i);
        encode_member(field.class, field.typ, field.name, out);
    }
}

/// The rows of the methods.
pub(crate) struct MethodIds;

impl ItemList for MethodIds {
    ghost items = { method_rows };

    fn encode_item<O: Output>(contents: &Contents<'_, '_, '_>, i: usize, out: &mut O) {
        let method = contents.numbering.method(i);
        encode_member(method.class, method.proto, method.name, out);
    }
}

/// The data of the texts.
pub(crate) struct StringDataItems;

impl ItemList for StringDataItems {
    ghost items = { string_items };

    fn encode_item<O: Output>(contents: &Contents<'_, '_, '_>, i: usize, out: &mut O) {
        contents.numbering.string(i).encode(out);
    }
}

// The offsets of what the class at a place contains, by the layout of the file, each 0 where it has none: interfaces,
// annotations directory, class data and static values.
fn offsets_of(contents: &Contents<'_, '_, '_>, i: usize) -> (u32, u32, u32, u32)
    requires ready { CanBeMade contents.now }
    requires within { i < length contents.now.classes.now }
    ensures { result ≡ slice_index_or (class_offsets (ordered_in contents.now)) i no_offsets }
{
    let layout = contents.layout;
    let lists = layout.type_lists().places().offsets();
    let list = contents.numbering.count(SymbolKind::Proto) + i;
    let directories = layout.directories().places().offsets();
    let class_data = layout.class_data().places().offsets();
    let static_values = layout.static_values().places().offsets();
    (lists[list], directories[i], class_data[i], static_values[i])
}

// A number, or the index that names nothing.
fn index(number: Option<usize>) -> u32
    requires { IfSome number (λ n. n < 2 ^ 32) }
    ensures { result ≡ unwrap_or number no_index }
{
    number.map_or(0xffff_ffff, |number| number as u32)
}

// The numbers of a class row.
fn row_of(class: &Class<'_>, offsets: (u32, u32, u32, u32)) -> [u32; 8]
    requires name { class.now.name < 2 ^ 32 }
    requires superclass { IfSome class.now.superclass (λ n. n < 2 ^ 32) }
    requires source { IfSome class.now.source (λ n. n < 2 ^ 32) }
    ensures { flat_map uint result ≡ class_row class.now offsets }
{
    let (interfaces, annotations, class_data, static_values) = offsets;
    [
        class.name() as u32,
        class.flags().bits(),
        index(class.superclass()),
        interfaces,
        index(class.source()),
        annotations,
        class_data,
        static_values,
    ]
}

/// The rows of the classes.
pub(crate) struct ClassDefs;

impl ItemList for ClassDefs {
    ghost items = { class_rows };

    fn encode_item<O: Output>(contents: &Contents<'_, '_, '_>, i: usize, out: &mut O) {
        let classes = contents.classes;
        let class = &classes[i];
        let row = row_of(class, offsets_of(contents, i));
        encode_numbers(&row, out);
    }
}
