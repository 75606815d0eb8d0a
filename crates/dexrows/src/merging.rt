//! Two sorted tables merged.

ghost use Rattle.std.specs.Prelude.{◌≡◌, ◌<◌, ◌+◌, ◌^◌, length, IfOk, OnOk};
ghost use Rattle.dexrows.specs.Join.{AreSorted};
ghost use Rattle.dexrows.specs.internal.Merged.{Merges, HasMerged, FindsNext, ComesNext, IsNextRow, taken_count};

use crate::rows::Row;
use std::alloc::{AllocError, Global};
use std::cmp::Ordering;

/// Two tables merged.
#[derive(Drop)]
pub(crate) struct Merged<R: Drop> {
    /// The rows of both, each key once, in order.
    pub rows: Vec<R>,
    /// The place of each row of the left one.
    pub left_places: Vec<u32>,
    /// The place of each row of the right one.
    pub right_places: Vec<u32>,
}

/// Merges two sorted tables in one pass over both.
pub(crate) fn merge<R: Row>(alloc: Global, left: &[R], right: &[R]) -> Result<Merged<R>, AllocError>
    requires left_sorted { AreSorted R.key_of left.now }
    requires right_sorted { AreSorted R.key_of right.now }
    ensures { IfOk result (Merges R.key_of left.now right.now) }
{
    if left.len().saturating_add(right.len()) > u32::MAX as usize {
        return Err(AllocError);
    }
    let mut merged = Merged {
        rows: Vec::with_capacity(alloc, left.len() + right.len())?,
        left_places: Vec::with_capacity(alloc, left.len())?,
        right_places: Vec::with_capacity(alloc, right.len())?,
    };
    while let Some(order) = next_order(&merged, left, right) {
        take_next(&mut merged, left, right, order)?;
    }
    Ok(merged)
}

/// How the next rows of both compare, or which of the two has one: `Less` where it is the left one.
fn next_order<R: Row>(merged: &Merged<R>, left: &[R], right: &[R]) -> Option<Ordering>
    ensures { FindsNext R.key_of left.now (length merged.now.left_places.items)
        right.now (length merged.now.right_places.items) result }
{
    let (i, j) = (merged.left_places.len(), merged.right_places.len());
    match (left.get(i), right.get(j)) {
        (Some(row), Some(other)) => Some(row.compare(other)),
        (Some(_), None) => Some(Ordering::Less),
        (None, Some(_)) => Some(Ordering::Greater),
        (None, None) => None,
    }
}

/// Takes the next row, of the one table or of both.
fn take_next<R: Row>(
    merged: &mut Merged<R>,
    left: &[R],
    right: &[R],
    order: Ordering,
) -> Result<(), AllocError>
    requires left_sorted { AreSorted R.key_of left.now }
    requires right_sorted { AreSorted R.key_of right.now }
    requires so_far { HasMerged R.key_of left.now right.now merged.old }
    requires next { ComesNext R.key_of left.now right.now merged.old order }
    requires few { length merged.old.rows.items < 2 ^ 32 }
    ensures rows { OnOk result (length merged.new.rows.items ≡ length merged.old.rows.items + 1) }
    ensures taken { OnOk result (HasMerged R.key_of left.now right.now merged.new) }
    ensures more { OnOk result (taken_count merged.old < taken_count merged.new) }
{
    let place = merged.rows.len() as u32;
    let row = next_row(merged, left, right, order);
    merged.rows.push(row)?;
    match order {
        Ordering::Less => merged.left_places.push(place)?,
        Ordering::Equal => {
            merged.left_places.push(place)?;
            merged.right_places.push(place)?;
        }
        Ordering::Greater => merged.right_places.push(place)?,
    }
    Ok(())
}

/// The next row: that of the left table, unless it is `Greater`.
fn next_row<R: Row>(merged: &Merged<R>, left: &[R], right: &[R], order: Ordering) -> R
    requires { ComesNext R.key_of left.now right.now merged.now order }
    ensures { IsNextRow left.now right.now merged.now order result }
{
    match order {
        Ordering::Less | Ordering::Equal => left[merged.left_places.len()].copied(),
        Ordering::Greater => right[merged.right_places.len()].copied(),
    }
}
