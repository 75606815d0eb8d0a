//! Symbol numbers that no small file has are put in the fewest bytes. The right bytes were written by hand from the
//! format.

use dexcode::Operation;
use dexpool::Numbering;
use dexval::{
    Annotation, Element, EncodedAnnotation, Value, Visibility, put_annotation, put_value,
};
use std::alloc::Global;

/// Returns whether a value is put as these bytes.
fn is_put_as(alloc: Global, value: &Value, wanted: &[u8]) -> Option<bool> {
    let mut bytes = Vec::new(alloc);
    put_value(value, &Numbering::empty(alloc), &mut bytes).ok()?;
    Some(bytes.as_slice() == wanted)
}

#[test]
fn a_text_in_one_and_in_four_bytes(rt: HostRuntime) {
    assert_eq!(rt;
        is_put_as(rt.alloc(), &Value::String(200), &[0x17, 0xc8]),
        Some(true)
    );
    assert_eq!(rt;
        is_put_as(
            rt.alloc(),
            &Value::String(0xffff_ffff),
            &[0x77, 0xff, 0xff, 0xff, 0xff]
        ),
        Some(true)
    );
}

#[test]
fn a_type_and_a_field_in_two_bytes(rt: HostRuntime) {
    assert_eq!(rt;
        is_put_as(rt.alloc(), &Value::Typ(300), &[0x38, 0x2c, 0x01]),
        Some(true)
    );
    assert_eq!(rt;
        is_put_as(rt.alloc(), &Value::Field(0x1234), &[0x39, 0x34, 0x12]),
        Some(true)
    );
}

#[test]
fn a_method_and_a_constant_of_an_enum_in_three_bytes(rt: HostRuntime) {
    assert_eq!(rt;
        is_put_as(
            rt.alloc(),
            &Value::Method(0x0001_0000),
            &[0x5a, 0x00, 0x00, 0x01]
        ),
        Some(true)
    );
    assert_eq!(rt;
        is_put_as(rt.alloc(), &Value::Enum(70_000), &[0x5b, 0x70, 0x11, 0x01]),
        Some(true)
    );
}

/// Puts an annotation as a value, whose second name has a number of two bytes.
fn annotation_value(alloc: Global) -> Option<Vec<u8>> {
    let first = Element {
        name: 1,
        value: Value::Int(5),
    };
    let second = Element {
        name: 300,
        value: Value::Boolean(true),
    };
    let annotation = EncodedAnnotation {
        typ: 3,
        elements: vec![in alloc; first, second].ok()?,
    };
    let value = Value::Annotation(Box::new(alloc, annotation).ok()?);
    let mut bytes = Vec::new(alloc);
    put_value(&value, &Numbering::empty(alloc), &mut bytes).ok()?;
    Some(bytes)
}

#[test]
fn a_name_in_two_bytes(rt: HostRuntime) {
    let Some(bytes) = annotation_value(rt.alloc()) else {
        panic!(rt; "no bytes")
    };
    assert_eq!(rt;
        bytes.as_slice(),
        [0x1d, 0x03, 0x02, 0x01, 0x04, 0x05, 0xac, 0x02, 0x3f].as_slice()
    );
}

/// Puts an annotation of type 200 without elements.
fn annotation(alloc: Global) -> Option<Vec<u8>> {
    let annotation = Annotation {
        visibility: Visibility::System,
        annotation: EncodedAnnotation {
            typ: 200,
            elements: Vec::new(alloc),
        },
    };
    let mut bytes = Vec::new(alloc);
    put_annotation(&annotation, &Numbering::empty(alloc), &mut bytes).ok()?;
    Some(bytes)
}

#[test]
fn the_type_of_an_annotation_in_two_bytes(rt: HostRuntime) {
    let Some(bytes) = annotation(rt.alloc()) else {
        panic!(rt; "no bytes")
    };
    assert_eq!(rt; bytes.as_slice(), [0x02, 0xc8, 0x01, 0x00].as_slice());
}

/// Returns the numbers of the name, the type and the signature of an operation.
fn numbers(operation: &Operation) -> (Option<u32>, Option<u32>, Option<u32>) {
    (
        operation.name_idx(),
        operation.type_idx(),
        operation.sig_idx(),
    )
}

#[test]
fn operations_report_their_numbers(rt: HostRuntime) {
    let local = Operation::StartLocal {
        register_num: 9,
        name_idx: None,
        type_idx: Some(3),
    };
    assert_eq!(rt; numbers(&local), (None, Some(3), None));
    assert_eq!(rt; numbers(&Operation::SetFile(None)), (None, None, None));
    assert_eq!(rt; numbers(&Operation::EndLocal(5)), (None, None, None));
    assert_eq!(rt; numbers(&Operation::Special(14)), (None, None, None));
}
