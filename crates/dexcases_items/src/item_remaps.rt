//! Maps of numbers to other numberings.

ghost use Rattle.std.specs.Prelude.{IfOk, All};
ghost use Rattle.dexpool.specs.Orderly.{MapsDown};
ghost use Rattle.dexpool.specs.Uses.{IsMappedUse};
ghost use Rattle.dexcases_items.specs.Items.{IsKnownItem, item_uses};

use crate::item::Item;
use dexcode::code_kept_law;
use dexinsn::Pieces;
use dexpool::{Marks, Numbering, Remap};
use std::alloc::{AllocError, Global};

/// Returns the map that maps each number of a numbering to itself.
pub fn as_it_is(alloc: Global, numbering: &Numbering<'_>) -> Result<Remap, AllocError> {
    let mut parts = Vec::new(alloc);
    parts.push(numbering)?;
    let (_, mut remaps) = Numbering::join(alloc, &parts)?;
    remaps.pop().ok_or(AllocError)
}

/// Returns whether two items of a numbering are the same.
pub fn is_same(
    alloc: Global,
    numbering: &Numbering<'_>,
    item: &Item<'_>,
    other: &Item<'_>,
) -> Result<bool, AllocError> {
    let remap = as_it_is(alloc, numbering)?;
    Ok(item.same_mapped(&remap, other, &remap))
}

/// Returns whether pieces of a numbering are the same.
pub fn are_same_pieces(
    alloc: Global,
    numbering: &Numbering<'_>,
    pieces: &Pieces<'_>,
    others: &Pieces<'_>,
) -> Result<bool, AllocError> {
    let remap = as_it_is(alloc, numbering)?;
    Ok(pieces.same_mapped(&remap, others, &remap))
}

/// Returns whether a map maps an item to another, whose numbers are those of `numbering`.
pub fn is_remapped_to<'i>(
    alloc: Global,
    item: &Item<'i>,
    remap: &Remap,
    other: &Item<'i>,
    numbering: &Numbering<'_>,
) -> Result<bool, AllocError> {
    let as_it_is = as_it_is(alloc, numbering)?;
    Ok(item.same_mapped(remap, other, &as_it_is))
}

/// Returns a numbering of just the symbols that occur in an item, and the map to it.
pub fn kept<'n>(
    alloc: Global,
    numbering: &Numbering<'n>,
    item: &Item<'_>,
) -> Result<(Numbering<'n>, Remap), AllocError>
    requires { IsKnownItem numbering.now item.now }
    ensures down { IfOk result (λ cut. MapsDown cut.1) }
    ensures remapped { IfOk result (λ cut. All (IsMappedUse cut.1) (item_uses item.now)) }
{
    let mut marks = match Marks::none(alloc, numbering) {
        Ok(marks) => marks,
        Err(error) => return Err(error),
    };
    item.mark(numbering, &mut marks);
    code_kept_law();
    match numbering.keep(alloc, &marks) {
        Ok(cut) => Ok(cut),
        Err(error) => Err(error),
    }
}
