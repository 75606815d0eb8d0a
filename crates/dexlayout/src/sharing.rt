//! Items that equal uses share.

ghost use Rattle.std.specs.Prelude.{◌≡◌, List, [], Option, Some, None, IfOk};
ghost use Rattle.std.specs.Prelude.{◌∷◌, ◌++◌, ◌+◌, ◌<◌, All, IfSome, OnOk, length, slice_index, slice_index_or};
ghost use Rattle.std.specs.Option.{option_map_or};
ghost use Rattle.dexlayout.specs.internal.Sharing.{HaveItems};
ghost use Rattle.dexlayout.specs.internal.Adding.{HasUses, AddsUse, AreOfUses};
ghost use Rattle.dexlayout.specs.internal.Placing.{shared_places};

use crate::item_number::ItemNumber;
use crate::offsets::Offsets;
use indexmap::IndexSet;
use std::alloc::{AllocError, Global};
use std::hash::Hash;

/// Uses in their order, and what they use: of equal items only the first is kept.
#[derive(Drop)]
pub(crate) struct Sharing<T: Eq + Hash> {
    items: IndexSet<T>,
    pub(crate) numbers: Vec<ItemNumber>,
}

/// The items that uses share, each once, in the order of their first use, and for each use the number of its item, if
/// it has one.
#[derive(Drop)]
pub(crate) struct Shared<T> {
    pub(crate) written: Vec<T>,
    pub(crate) numbers: Vec<ItemNumber>,
}

impl<T: Eq + Hash + Drop> Sharing<T> {
    /// No uses, and memory for the numbers of `uses` of them.
    pub(crate) fn for_uses(alloc: Global, uses: usize) -> Result<Sharing<T>, AllocError>
        ensures { IfOk result (λ sharing.
            HaveItems T.eq [] sharing.items.keys sharing.numbers.items) }
    {
        Ok(Sharing {
            items: IndexSet::new(alloc),
            numbers: Vec::with_capacity(alloc, uses)?,
        })
    }

    /// How many uses there are.
    pub(crate) fn len(&self) -> usize
        ensures { result ≡ length self.now.numbers.items }
    {
        self.numbers.len()
    }

    /// Adds a use, of an item or of none.
    pub(crate) fn add(&mut self, used: Option<T>) -> Result<(), AllocError>
        ensures added { AddsUse T.eq result used self.old self.new }
        ensures more { OnOk result
            (length self.new.numbers.items ≡ length self.old.numbers.items + 1) }
    {
        let number = match used {
            Some(item) => Some(self.items.insert_full(item)?.0),
            None => None,
        };
        self.numbers.push(ItemNumber::of(number)?)?;
        Ok(())
    }

    /// Adds a use of what an earlier use has.
    ///
    /// Condition: there are more uses than that.
    pub(crate) fn add_again(&mut self, place: usize) -> Result<(), AllocError>
        requires { place < length self.old.numbers.items }
        ensures added { (uses : List (Option T)) → HasUses T.eq uses self.old
            → OnOk result (HasUses T.eq (uses ++ slice_index_or uses place None ∷ []) self.new) }
        ensures more { OnOk result
            (length self.new.numbers.items ≡ length self.old.numbers.items + 1) }
    {
        self.numbers.push(self.numbers[place])?;
        Ok(())
    }

    /// The items, and the number of each use.
    pub(crate) fn finish(self, alloc: Global) -> Result<Shared<T>, AllocError>
        ensures { (uses : List (Option T)) → HasUses T.eq uses self
            → IfOk result (AreOfUses T.eq uses) }
    {
        let Sharing { items, numbers } = self;
        let written = items.into_iter().collect(alloc)?;
        Ok(Shared { written, numbers })
    }
}

/// The offset of the item with a number, or 0 where there is none.
///
/// Condition: the number is that of one of the items.
pub(crate) fn offset_of(number: ItemNumber, written: &[u32]) -> u32
    requires { IfSome number (λ i. i < length written.now) }
    ensures { result ≡ option_map_or (slice_index written.now) number 0 }
{
    number.get().map_or(0, |number| written[number])
}

/// The offset of the item of each use, from the numbers of the uses and the offsets of the items that are written.
pub(crate) fn place_shared(
    alloc: Global,
    numbers: &[ItemNumber],
    written: &Offsets,
) -> Result<Offsets, AllocError>
    requires { All (λ number. IfSome number (λ i. i < length written.now.offsets)) numbers.now }
    ensures { IfOk result (λ places. places ≡ shared_places numbers.now written.now) }
{
    let mut offsets = Vec::with_capacity(alloc, numbers.len())?;
    for number in numbers {
        offsets.push(offset_of(*number, &written.offsets))?;
    }
    Ok(Offsets {
        offsets,
        end: written.end,
    })
}
