//! Elements put into another order.

ghost use Rattle.std.specs.Prelude.{◌≡◌, ◌<◌, All, IfOk, OnOk, length, map, slice_index_or};
ghost use Rattle.std.specs.List.{range_with_len};
ghost use Rattle.dexspec.specs.Lists.{AreDistinct};

use std::alloc::{AllocError, Global};

// The places of `count` elements, in their order.
fn places(alloc: Global, count: usize) -> Result<Vec<usize>, AllocError>
    ensures { IfOk result (λ places. places.items ≡ range_with_len 0 count) }
{
    let mut places = Vec::with_capacity(alloc, count)?;
    for place in 0..count {
        places.push(place)?;
    }
    Ok(places)
}

/// Puts elements into the order of their places. They are moved where they are, so that no list of their size is
/// allocated.
///
/// Conditions: there are as many places as elements, each place is that of an element, and no two are the same.
pub(crate) fn arrange<T>(
    alloc: Global,
    elements: &mut Vec<T>,
    order: &[usize],
) -> Result<(), AllocError>
    requires count { length order.now ≡ length elements.old.items }
    requires within { All (λ i. i < length elements.old.items) order.now }
    requires distinct { AreDistinct order.now }
    ensures { OnOk result ((d : T) → elements.new.items
        ≡ map (λ i. slice_index_or elements.old.items i d) order.now) }
{
    // The place of each element, and the element at each place, both by their first places.
    let mut places = places(alloc, order.len())?;
    let mut owners = Vec::from_slice(alloc, &places)?;
    for k in 0..order.len() {
        let place = places[order[k]];
        let owner = owners[k];
        elements.swap(k, place);
        owners[place] = owner;
        places[owner] = place;
    }
    Ok(())
}
