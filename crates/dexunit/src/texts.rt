//! The order and the equality of texts are those of their units.

use dexstr::{KeyedText, Name, Text, TextReader};
use std::alloc::Global;

/// Texts in ascending order by units, as items, which begin with the number of units: unit 0 is the least, and a
/// surrogate is less than e000.
const RISING: [&str; 11] = [
    "0000",
    "01c08000",
    "02c0804100",
    "014100",
    "02414200",
    "0841424344454647c08000",
    "08414243444546474800",
    "0941424344454647484100",
    "0a4142434445464748414200",
    "02eda080edb08000",
    "01ee808000",
];

// Returns whether two texts with their keys compare as their numbers do.
fn keyed_are_ordered(left: &Text<'_>, right: &Text<'_>, i: usize, j: usize) -> bool {
    let keyed = KeyedText::of(left).clone();
    keyed.compare(&KeyedText::of(right)) == i.cmp(&j)
}

// Returns whether two texts compare as their numbers do, and are equal if and only if their numbers are.
fn are_ordered(alloc: Global, i: usize, j: usize) -> Option<bool> {
    let left = hex::decode(alloc, *RISING.get(i)?).ok()?;
    let right = hex::decode(alloc, *RISING.get(j)?).ok()?;
    let left = Text::read(&left, 0).ok()?.0;
    let right = Text::read(&right, 0).ok()?.0;
    let copy = Name::of(alloc, &left).ok()?.copy().ok()?;
    Some(
        left.cmp(&right) == i.cmp(&j)
            && left.partial_cmp(&right) == Some(i.cmp(&j))
            && (left == right) == (i == j)
            && (copy.text() == right) == (i == j)
            && keyed_are_ordered(&left, &right, i, j)
            && KeyedText::of(&left).text() == left,
    )
}

#[test]
fn texts_are_ordered_by_units(rt: HostRuntime) {
    for i in 0..RISING.len() {
        for j in 0..RISING.len() {
            assert!(rt;
                are_ordered(rt.alloc(), i, j) == Some(true),
                "at {i} and {j}"
            );
        }
    }
}

// How many texts `texts_within` has.
const TEXTS_WITHIN: u8 = 127;

// Returns texts of which each but the first begins at the second byte of the item before it.
fn texts_within(alloc: Global) -> Option<Vec<u8>> {
    let mut bytes = Vec::new(alloc);
    for place in 0..TEXTS_WITHIN {
        bytes.push(TEXTS_WITHIN - place).ok()?;
    }
    bytes.extend_from_slice(b"a\0").ok()?;
    Some(bytes)
}

// Returns whether a reader reads each of these texts, and none after them, as `Text::read` does.
fn are_read_equally(alloc: Global) -> Option<bool> {
    let bytes = texts_within(alloc)?;
    let mut reader = TextReader::new(alloc, &bytes);
    'places: for at in 0..bytes.len() {
        let read = Text::read(&bytes, at);
        let found = reader.read(at).ok()?;
        let is_same = match (&read, &found) {
            (Ok((text, _)), Some(other)) => text == other,
            (Err(_), None) => true,
            _ => false,
        };
        if !is_same || read.is_ok() != (at < usize::from(TEXTS_WITHIN)) {
            return Some(false);
        }
    }
    Some(true)
}

#[test]
fn texts_within_texts_are_read_by_one_reader(rt: HostRuntime) {
    assert!(rt; are_read_equally(rt.alloc()) == Some(true));
}
