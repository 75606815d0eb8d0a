//! The order of classes: by depth, then by name.

ghost use Rattle.std.specs.Prelude.{◌≡◌, length, IfOk};
ghost use Rattle.std.specs.List.{range_with_len};
ghost use Rattle.std.specs.List.Sorted.{IsPermutation};
ghost use Rattle.dexspec.specs.Lists.{AreDistinct};
ghost use Rattle.dexorder.specs.Places.{AreInPlaceOrder};

use std::alloc::{AllocError, Global};

/// A class with its depth and name.
#[derive(Clone, Copy, PartialEq, Eq, PartialOrd, Ord)]
struct Place {
    depth: usize,
    name: usize,
    class: usize,
}

/// The classes in order: by depth, then by name. A class without a depth counts as one of depth 0.
///
/// `depths` has the depth of each class. `names` has the number of its name: a lesser name has a lesser number. The
/// result has the number of each class once.
///
/// Conditions: `names` is as long as `depths` and has no number twice.
pub fn class_order(
    alloc: Global,
    depths: &[Option<usize>],
    names: &[usize],
) -> Result<Vec<usize>, AllocError>
    requires count { length depths.now ≡ length names.now }
    requires names { AreDistinct names.now }
    ensures classes { IfOk result (λ order.
        IsPermutation (range_with_len 0 (length names.now)) order.items) }
    ensures rises { IfOk result (λ order. AreInPlaceOrder depths.now names.now order.items) }
{
    let mut places = Vec::with_capacity(alloc, names.len())?;
    for class in 0..names.len() {
        places.push(Place {
            depth: depths[class].unwrap_or(0),
            name: names[class],
            class,
        })?;
    }
    places.sort_unstable();
    places.iter().map(|place| place.class).collect(alloc)
}
