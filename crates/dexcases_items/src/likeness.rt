//! Comparison of items.

use crate::item::Item;
use crate::item_remaps::is_same;
use dexpool::Numbering;
use std::alloc::{AllocError, Global};
use std::collections::HashSet;
use std::hash::Hash;

/// How two items compare.
#[derive(Clone, Copy)]
pub struct Likeness {
    // The items are equal.
    is_equal: bool,
    // A hash set of the one item contains the other.
    is_found: bool,
    // The items are the same under a map that maps each number to itself.
    is_same: bool,
}

impl Likeness {
    /// Compares two items of one numbering. Code and members are only compared under a map.
    pub fn of(
        alloc: Global,
        numbering: &Numbering<'_>,
        item: &Item<'_>,
        other: &Item<'_>,
    ) -> Result<Likeness, AllocError> {
        let is_same = is_same(alloc, numbering, item, other)?;
        match (item, other) {
            (Item::Value(value, _), Item::Value(other, _)) => compared(
                alloc, value, other, is_same,
            ),
            (Item::Statics(values), Item::Statics(others)) => {
                compared(alloc, values, others, is_same)
            }
            (Item::Set(set), Item::Set(other)) => compared(alloc, set, other, is_same),
            (Item::Debug(debug), Item::Debug(other)) => compared(alloc, debug, other, is_same),
            _ => Ok(Likeness {
                is_equal: is_same,
                is_found: is_same,
                is_same,
            }),
        }
    }

    /// Returns `yes` or `no`, or `yes and no` if the comparisons differ.
    pub fn word(self) -> &'static str {
        match (self.is_equal, self.is_found, self.is_same) {
            (true, true, true) => "yes",
            (false, false, false) => "no",
            _ => "yes and no",
        }
    }
}

// Compares two items for equality and by hash.
fn compared<T: Eq + Hash>(
    alloc: Global,
    item: &T,
    other: &T,
    is_same: bool,
) -> Result<Likeness, AllocError> {
    let is_equal = *item == *other;
    let mut items = HashSet::new(alloc);
    if items.insert(item).is_err() {
        return Err(AllocError);
    }
    Ok(Likeness {
        is_equal,
        is_found: items.contains(&other),
        is_same,
    })
}
