//! Items put where the spare room is exactly what their contracts ask for: the vector does not grow. The right bytes
//! were written by hand from the format.

use crate::made_files::{ITEMS, file_with};
use dexcode::{Code, Debug, put_code, put_debug, read_code, read_debug};
use dexhead::Frame;
use dexmembers::{ClassDef, DirectoryOffsets, Members, read_members};
use dexpool::{Numbering, Pools};
use dexval::{
    Annotation, AnnotationSet, Element, EncodedAnnotation, Value, Visibility, put_annotation,
    put_set, put_statics, put_value,
};
use std::alloc::Global;

/// Puts a long of eight bytes in the room of its weight, and returns the bytes and the capacity afterwards.
fn long_in_its_weight(alloc: Global) -> Option<(Vec<u8>, usize)> {
    let mut bytes = Vec::with_capacity(alloc, 9).ok()?;
    let long = Value::Long(-9223372036854775808);
    put_value(&long, &Numbering::empty(alloc), &mut bytes).ok()?;
    let room = bytes.capacity();
    Some((bytes, room))
}

#[test]
fn a_value_is_put_in_its_weight(rt: HostRuntime) {
    let Some((bytes, room)) = long_in_its_weight(rt.alloc()) else {
        panic!(rt; "no bytes")
    };
    let wanted = [0xe6, 0x00, 0x00, 0x00, 0x00, 0x00, 0x00, 0x00, 0x80];
    assert_eq!(rt; bytes.as_slice(), wanted.as_slice());
    assert_eq!(rt; room, 9);
}

/// Puts two static values in the room of their weight, and returns the bytes and the capacity afterwards.
fn statics_in_their_weight(alloc: Global) -> Option<(Vec<u8>, usize)> {
    let mut bytes = Vec::with_capacity(alloc, 24).ok()?;
    let values = [Value::Int(128), Value::Null];
    put_statics(&values, &Numbering::empty(alloc), &mut bytes).ok()?;
    let room = bytes.capacity();
    Some((bytes, room))
}

#[test]
fn static_values_are_put_in_their_weight(rt: HostRuntime) {
    let Some((bytes, room)) = statics_in_their_weight(rt.alloc()) else {
        panic!(rt; "no bytes")
    };
    assert_eq!(rt; bytes.as_slice(), [0x02, 0x24, 0x80, 0x00, 0x1e].as_slice());
    assert_eq!(rt; room, 24);
}

/// Puts an annotation in the room of its weight, and returns the bytes and the capacity afterwards.
fn annotation_in_its_weight(alloc: Global) -> Option<(Vec<u8>, usize)> {
    let element = Element {
        name: 5,
        value: Value::String(128),
    };
    let annotation = Annotation {
        visibility: Visibility::Runtime,
        annotation: EncodedAnnotation {
            typ: 2,
            elements: vec![in alloc; element].ok()?,
        },
    };
    let mut bytes = Vec::with_capacity(alloc, 26).ok()?;
    put_annotation(&annotation, &Numbering::empty(alloc), &mut bytes).ok()?;
    let room = bytes.capacity();
    Some((bytes, room))
}

#[test]
fn an_annotation_is_put_in_its_weight(rt: HostRuntime) {
    let Some((bytes, room)) = annotation_in_its_weight(rt.alloc()) else {
        panic!(rt; "no bytes")
    };
    assert_eq!(rt;
        bytes.as_slice(),
        [0x01, 0x02, 0x01, 0x05, 0x17, 0x80].as_slice()
    );
    assert_eq!(rt; room, 26);
}

/// Puts a set without annotations after a byte, in room for four more bytes, and returns the bytes and the capacity
/// afterwards.
fn set_in_its_room(alloc: Global) -> Option<(Vec<u8>, usize)> {
    let mut bytes = Vec::with_capacity(alloc, 5).ok()?;
    bytes.push(0x7f).ok()?;
    let set = AnnotationSet::empty(alloc);
    put_set(&set, 188, &mut bytes, &Numbering::empty(alloc)).ok()?;
    let room = bytes.capacity();
    Some((bytes, room))
}

#[test]
fn a_set_is_put_in_its_room(rt: HostRuntime) {
    let Some((bytes, room)) = set_in_its_room(rt.alloc()) else {
        panic!(rt; "no bytes")
    };
    assert_eq!(rt; bytes.as_slice(), [0x7f, 0, 0, 0, 0].as_slice());
    assert_eq!(rt; room, 5);
}

/// Puts a debug program in the room of its weight, and returns the bytes and the capacity afterwards.
fn debug_in_its_weight(
    alloc: Global,
    debug: &Debug<'_>,
    numbering: &Numbering<'_>,
) -> Option<(Vec<u8>, usize)> {
    // 11, 1 + 5 for the advance of the line, and 1 for the special operation.
    let mut bytes = Vec::with_capacity(alloc, 18).ok()?;
    put_debug(debug, numbering, &mut bytes).ok()?;
    let room = bytes.capacity();
    Some((bytes, room))
}

/// Reads a debug program of one line advance and one special operation, and puts it in the room of its weight.
fn read_debug_in_its_weight(alloc: Global) -> Option<(Vec<u8>, usize)> {
    let file = file_with(alloc, &[0x0a, 0x00, 0x02, 0x01, 0x0e, 0x00])?;
    let frame = Frame::open(&file).ok()?;
    let pools = Pools::read(alloc, &frame).ok()?;
    let debug = read_debug(alloc, &frame, &pools, ITEMS).ok()?;
    debug_in_its_weight(alloc, &debug, pools.numbering())
}

#[test]
fn a_debug_program_is_put_in_its_weight(rt: HostRuntime) {
    let Some((bytes, room)) = read_debug_in_its_weight(rt.alloc()) else {
        panic!(rt; "no bytes")
    };
    assert_eq!(rt;
        bytes.as_slice(),
        [0x0a, 0x00, 0x02, 0x01, 0x0e, 0x00].as_slice()
    );
    assert_eq!(rt; room, 18);
}

/// A code_item of one `return-void`.
const CODE: [u8; 18] = [1, 0, 0, 0, 0, 0, 0, 0, 0, 0, 0, 0, 1, 0, 0, 0, 14, 0];

/// Puts code in the room of its weight less 3, and returns the bytes and the capacity afterwards.
fn code_in_its_weight(
    alloc: Global,
    code: &Code<'_>,
    numbering: &Numbering<'_>,
) -> Option<(Vec<u8>, usize)> {
    if !code.types_fit() {
        return None;
    }
    // 24, and 2 for the unit.
    let mut bytes = Vec::with_capacity(alloc, 23).ok()?;
    put_code(code, 0, numbering, &mut bytes).ok()?;
    let room = bytes.capacity();
    Some((bytes, room))
}

/// Reads the code of one `return-void`, and puts it in the room of its weight less 3.
fn read_code_in_its_weight(alloc: Global) -> Option<(Vec<u8>, usize)> {
    let file = file_with(alloc, &CODE)?;
    let frame = Frame::open(&file).ok()?;
    let pools = Pools::read(alloc, &frame).ok()?;
    let code = read_code(alloc, &frame, &pools, ITEMS).ok()?;
    code_in_its_weight(alloc, &code, pools.numbering())
}

#[test]
fn code_is_put_in_its_weight(rt: HostRuntime) {
    let Some((bytes, room)) = read_code_in_its_weight(rt.alloc()) else {
        panic!(rt; "no bytes")
    };
    assert_eq!(rt; bytes.as_slice(), CODE.as_slice());
    assert_eq!(rt; room, 23);
}

/// Reads the members of a class row that has none.
fn no_members<'a>(alloc: Global, file: &'a [u8]) -> Option<Members<'a>> {
    let frame = Frame::open(file).ok()?;
    let pools = Pools::read(alloc, &frame).ok()?;
    let row = ClassDef {
        class_idx: 0,
        access_flags: 0,
        superclass_idx: u32::MAX,
        interfaces_off: 0,
        source_file_idx: u32::MAX,
        annotations_off: 0,
        class_data_off: 0,
        static_values_off: 0,
    };
    let (members, _) = read_members(alloc, &frame, &pools, &row, u32::MAX).ok()?;
    Some(members)
}

/// Puts the class data of no members in room for 20 bytes, and returns the bytes and the capacity afterwards.
fn class_data_in_its_room(alloc: Global) -> Option<(Vec<u8>, usize)> {
    let mut bytes = Vec::with_capacity(alloc, 20).ok()?;
    let file = file_with(alloc, &[])?;
    let members = no_members(alloc, &file)?;
    if members.method_count() != 0 {
        return None;
    }
    members.put_class_data(&[], &mut bytes).ok()?;
    let room = bytes.capacity();
    Some((bytes, room))
}

#[test]
fn class_data_is_put_in_its_room(rt: HostRuntime) {
    let Some((bytes, room)) = class_data_in_its_room(rt.alloc()) else {
        panic!(rt; "no bytes")
    };
    assert_eq!(rt; bytes.as_slice(), [0, 0, 0, 0].as_slice());
    assert_eq!(rt; room, 20);
}

/// Puts the directory of no members with a set at 300 in room for 16 bytes, and returns the bytes and the capacity
/// afterwards.
fn directory_in_its_room(alloc: Global) -> Option<(Vec<u8>, usize)> {
    let mut bytes = Vec::with_capacity(alloc, 16).ok()?;
    let offs = DirectoryOffsets {
        own: 300,
        fields: &[],
        methods: &[],
        parameters: &[],
    };
    let file = file_with(alloc, &[])?;
    let members = no_members(alloc, &file)?;
    if members.field_count() != 0 || members.method_count() != 0 {
        return None;
    }
    members.put_directory(&offs, &mut bytes).ok()?;
    let room = bytes.capacity();
    Some((bytes, room))
}

#[test]
fn a_directory_is_put_in_its_room(rt: HostRuntime) {
    let Some((bytes, room)) = directory_in_its_room(rt.alloc()) else {
        panic!(rt; "no bytes")
    };
    let wanted = [44, 1, 0, 0, 0, 0, 0, 0, 0, 0, 0, 0, 0, 0, 0, 0];
    assert_eq!(rt; bytes.as_slice(), wanted.as_slice());
    assert_eq!(rt; room, 16);
}
