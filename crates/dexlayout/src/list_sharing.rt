//! Items that equal uses share, where the uses come in lists of which many are equal.

ghost use Rattle.std.specs.Prelude.{◌≡◌, List, [], Option, IfOk, OnOk};
ghost use Rattle.dexlayout.specs.internal.Sharing.{HaveItems};
ghost use Rattle.dexlayout.specs.internal.ListSharing.{HasListUses, AddsListUse, AreOfListUses};

use crate::item_number::ItemNumber;
use crate::use_numbers::UseNumbers;
use indexmap::IndexSet;
use std::alloc::{AllocError, Global};
use std::hash::Hash;

/// Uses in their order, and what they use: of equal items only the first is kept, and of equal lists of uses only one.
#[derive(Drop)]
pub(crate) struct ListSharing<T: Eq + Hash> {
    items: IndexSet<T>,
    numbers: UseNumbers,
}

/// The items that uses share, each once, in the order of their first use, and for each use the number of its item, if
/// it has one.
#[derive(Drop)]
pub(crate) struct ListShared<T> {
    pub(crate) written: Vec<T>,
    pub(crate) numbers: UseNumbers,
}

impl<T: Eq + Hash + Drop> ListSharing<T> {
    /// No uses.
    pub(crate) fn none(alloc: Global) -> ListSharing<T>
        ensures { HaveItems T.eq [] result.items.keys result.numbers }
    {
        ListSharing {
            items: IndexSet::new(alloc),
            numbers: UseNumbers::none(alloc),
        }
    }

    /// Adds a use, of an item or of none.
    pub(crate) fn add(&mut self, used: Option<T>) -> Result<(), AllocError>
        ensures { AddsListUse T.eq result used self.old self.new }
    {
        let number = match used {
            Some(item) => Some(self.items.insert_full(item)?.0),
            None => None,
        };
        self.numbers.push(ItemNumber::of(number)?)?;
        Ok(())
    }

    /// Ends a list of uses.
    pub(crate) fn end_list(&mut self) -> Result<(), AllocError>
        ensures { OnOk result (self.new ≡ self.old) }
    {
        self.numbers.end_list()
    }

    /// The items, and the number of each use.
    pub(crate) fn finish(self, alloc: Global) -> Result<ListShared<T>, AllocError>
        ensures { (uses : List (Option T)) → HasListUses T.eq uses self
            → IfOk result (AreOfListUses T.eq uses) }
    {
        let ListSharing { items, numbers } = self;
        let written = items.into_iter().collect(alloc)?;
        Ok(ListShared { written, numbers })
    }
}
