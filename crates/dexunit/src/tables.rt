//! Joined tables of rows, and the order of each kind of row. The right answers were worked out by hand.

use dexrows::{FieldRow, MethodRow, ProtoRow, Row, TypeRow, is_sorted, join};
use dexstr::Text;
use std::alloc::Global;
use std::cmp::Ordering;

fn typ(descriptor: usize) -> TypeRow {
    TypeRow { descriptor }
}

// Returns the order of two rows, and whether a copy of the first compares equal to it.
fn reported<R: Row>(row: &R, other: &R) -> (Ordering, bool) {
    (row.compare(other), row.copied().compare(row).is_eq())
}

#[test]
fn rows_are_ordered_by_their_keys(rt: HostRuntime) {
    let (class, name) = (1, 2);
    let field = FieldRow {
        class,
        name,
        typ: 9,
    };
    let other = FieldRow {
        class,
        name: 3,
        typ: 0,
    };
    assert!(rt; reported(&field, &other) == (Ordering::Less, true));
    let method = MethodRow {
        class,
        name,
        proto: 9,
    };
    let other = MethodRow { class: 0, ..method };
    assert!(rt; reported(&method, &other) == (Ordering::Greater, true));
    let (short, long) = (ProtoRow::new(9, 1, &[4]), ProtoRow::new(0, 1, &[4, 0]));
    assert!(rt; reported(&short, &long) == (Ordering::Less, true));
    assert!(rt; reported(&typ(3), &typ(3)) == (Ordering::Equal, true));
}

// Joins two tables of texts, and returns the number of rows and the images of both tables.
fn joined_texts(alloc: Global) -> Option<(usize, Vec<Vec<u32>>)> {
    let (a, b) = (
        Text::read(b"\x01a\0", 0).ok()?.0,
        Text::read(b"\x01b\0", 0).ok()?.0,
    );
    let (c, ca) = (
        Text::read(b"\x01c\0", 0).ok()?.0,
        Text::read(b"\x02ca\0", 0).ok()?.0,
    );
    let left = [a, c.clone(), ca];
    let right = [b, c];
    if !is_sorted(&left) || !is_sorted(&right) {
        return None;
    }
    let joined = join(alloc, &[left.as_slice(), right.as_slice()]).ok()?;
    Some((joined.rows.len(), joined.images))
}

#[test]
fn two_tables_of_texts_are_joined(rt: HostRuntime) {
    let joined = joined_texts(rt.alloc());
    assert!(rt;
        joined.is_some_and(|(rows, images)| match images.as_slice() {
            [left, right] => {
                rows == 4
                    && left.as_slice() == [0, 2, 3].as_slice()
                    && right.as_slice() == [1, 2].as_slice()
            }
            _ => false,
        })
    );
}

// Returns whether three tables of types, one of them empty, are joined right, and a join of no tables is empty.
fn are_types_joined(alloc: Global) -> Option<bool> {
    let none = join::<TypeRow>(alloc, &[]).ok()?;
    let (first, third) = ([typ(1), typ(4), typ(6)], [typ(0), typ(4), typ(7)]);
    if !is_sorted(&first) || !is_sorted(&third) {
        return None;
    }
    let joined = join(alloc, &[first.as_slice(), &[], third.as_slice()]).ok()?;
    let [first, second, third] = joined.images.as_slice() else {
        return None;
    };
    Some(
        none.rows.is_empty()
            && none.images.is_empty()
            && joined.rows.as_slice() == [typ(0), typ(1), typ(4), typ(6), typ(7)].as_slice()
            && first.as_slice() == [1, 2, 3].as_slice()
            && second.is_empty()
            && third.as_slice() == [0, 2, 4].as_slice(),
    )
}

#[test]
fn three_tables_of_types_are_joined(rt: HostRuntime) {
    assert!(rt; are_types_joined(rt.alloc()) == Some(true));
}
