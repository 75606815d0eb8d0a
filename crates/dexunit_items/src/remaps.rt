//! Numbers without an image, and kinds of values that have one number.

use dexpool::{Marks, Numbering, Remap};
use dexval::{Value, values_fit};
use std::alloc::Global;

/// Returns a map that maps no number.
fn nowhere(alloc: Global) -> Option<Remap> {
    let empty = Numbering::empty(alloc);
    let marks = Marks::none(alloc, &empty).ok()?;
    let (_, remap) = empty.keep(alloc, &marks).ok()?;
    Some(remap)
}

/// Returns whether all numbers of a value have images.
fn fits(alloc: Global, value: &Value) -> Option<bool> {
    Some(value.fits(&nowhere(alloc)?))
}

#[test]
fn numbers_without_images_do_not_fit(rt: HostRuntime) {
    assert_eq!(rt; fits(rt.alloc(), &Value::String(0)), Some(false));
    assert_eq!(rt; fits(rt.alloc(), &Value::Typ(0)), Some(false));
    assert_eq!(rt; fits(rt.alloc(), &Value::Field(0)), Some(false));
    assert_eq!(rt; fits(rt.alloc(), &Value::Method(0)), Some(false));
    assert_eq!(rt; fits(rt.alloc(), &Value::Enum(0)), Some(false));
    assert_eq!(rt; fits(rt.alloc(), &Value::Int(0)), Some(true));
}

/// Returns whether null and another value fit.
fn both_fit(alloc: Global, value: Value) -> Option<bool> {
    Some(values_fit(&[Value::Null, value], &nowhere(alloc)?))
}

#[test]
fn each_of_several_values_has_to_fit(rt: HostRuntime) {
    assert_eq!(rt; both_fit(rt.alloc(), Value::Boolean(true)), Some(true));
    assert_eq!(rt; both_fit(rt.alloc(), Value::String(4)), Some(false));
}

/// Returns whether the values are the same under a map that maps no number.
fn same(alloc: Global, value: &Value, other: &Value) -> Option<bool> {
    let remap = nowhere(alloc)?;
    Some(value.same_mapped(&remap, other, &remap))
}

#[test]
fn kinds_distinguish_values(rt: HostRuntime) {
    let alloc = rt.alloc();
    assert_eq!(rt; same(alloc, &Value::Int(5), &Value::Int(5)), Some(true));
    assert_eq!(rt; same(alloc, &Value::Int(5), &Value::Float(5)), Some(false));
    assert_eq!(rt;
        same(alloc, &Value::Long(5), &Value::Double(5)),
        Some(false)
    );
    assert_eq!(rt; same(alloc, &Value::Field(1), &Value::Enum(1)), Some(false));
    assert_eq!(rt;
        same(alloc, &Value::Null, &Value::Boolean(false)),
        Some(false)
    );
}

#[test]
fn numbers_without_images_stay(rt: HostRuntime) {
    let alloc = rt.alloc();
    assert_eq!(rt;
        same(alloc, &Value::String(1), &Value::String(1)),
        Some(true)
    );
    assert_eq!(rt;
        same(alloc, &Value::String(1), &Value::String(2)),
        Some(false)
    );
}
