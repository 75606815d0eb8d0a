//! Sorted tables joined.

ghost use Rattle.std.specs.Prelude.{map, All, IfOk};
ghost use Rattle.dexrows.specs.Join.{AreSorted, AreJoined};
ghost use Rattle.dexrows.specs.Joined.{JoinsParts};
ghost use Rattle.dexrows.specs.internal.Merged.{JoinsTwo};

use crate::merging::merge;
use crate::places::compose_all;
use crate::rows::Row;
use std::alloc::{AllocError, Global};

/// Tables joined into one.
#[derive(Drop)]
pub struct Joined<R: Drop> {
    /// The rows of all the parts, each key once, in order.
    pub rows: Vec<R>,
    /// For each part the place of each of its rows: where in `rows` its key is.
    pub images: Vec<Vec<u32>>,
}

/// Joins sorted tables. Where parts have rows of one key, one of these rows is kept. Of k parts with n rows
/// in all, it compares some n times log k rows, and sorts nothing.
///
/// Condition: each part rises strictly by its keys. Error: the memory for the rows and their places, a few
/// words for each row of a part, was refused, or the parts have 2^32 rows or more.
pub fn join<R: Row>(alloc: Global, parts: &[&[R]]) -> Result<Joined<R>, AllocError>
    requires { All (λ part. AreSorted R.key_of part.now) parts.now }
    ensures { IfOk result (JoinsParts R.key_of parts.now) }
{
    match parts {
        [] => Ok(Joined {
            rows: Vec::new(alloc),
            images: Vec::new(alloc),
        }),
        [part] => {
            let merged = merge(alloc, part, &[])?;
            Ok(Joined {
                rows: merged.rows,
                images: vec![in alloc; merged.left_places]?,
            })
        }
        [left, right] => {
            let merged = merge(alloc, left, right)?;
            Ok(Joined {
                rows: merged.rows,
                images: vec![in alloc; merged.left_places, merged.right_places]?,
            })
        }
        _ => {
            let (left, right) = parts.split_at(parts.len() / 2);
            let left = join(alloc, left)?;
            let right = join(alloc, right)?;
            join_two(alloc, left, right)
        }
    }
}

/// Joins two tables that are joined already.
fn join_two<R: Row>(
    alloc: Global,
    left: Joined<R>,
    right: Joined<R>,
) -> Result<Joined<R>, AllocError>
    requires left { AreJoined R.key_of left.rows.items
        (map (λ image. image.items) left.images.items) }
    requires right { AreJoined R.key_of right.rows.items
        (map (λ image. image.items) right.images.items) }
    ensures { IfOk result (JoinsTwo R.key_of left right) }
{
    let merged = merge(alloc, &left.rows, &right.rows)?;
    let mut images = left.images;
    compose_all(&mut images, &merged.left_places);
    let mut right_images = right.images;
    compose_all(&mut right_images, &merged.right_places);
    images.append(&mut right_images)?;
    Ok(Joined {
        rows: merged.rows,
        images,
    })
}
