//! The values that static fields begin with: in memory of one class, or of several.

ghost use Rattle.std.specs.Prelude.{◌≡◌, ◌-◌, ◌^◌, min, IfOk, MatchOption, OnOk};
ghost use Rattle.dexspec.specs.Mentions.{Mentions};
ghost use Rattle.dexspec.specs.Weight.{static_values_weight};
ghost use Rattle.dexpool.specs.Numberings.{Maps};
ghost use Rattle.dexval.specs.Numbered as numbered;
ghost use Rattle.dexval.specs.Renumbering.{renumbered_values, HavePlaces};
ghost use Rattle.dexmembers.specs.StaticValues.{values_in, AreReady};

use dexpool::Remap;
use dexval::{RemappedItems, WeighedValues};
use std::alloc::AllocError;
use std::mem;
use std::rc::Rc;

/// Who has the memory of values.
#[derive(Drop)]
pub(crate) enum Holder {
    /// One class.
    Own(WeighedValues),
    /// Several classes.
    Shared(Rc<WeighedValues>),
    /// Several classes, and the values remapped are there too.
    Remapped(Rc<WeighedValues>, Rc<WeighedValues>),
}

/// The values that static fields begin with. Contracts see the values.
///
/// Source: "encoded_array format".
#[derive(Drop)]
pub(crate) struct StaticValues {
    // The key of the item in its file. No clause speaks of it.
    key: u128,
    holder: Holder,
}

impl StaticValues {
    /// Values in memory of their own, with the key of their item.
    pub(crate) fn own(key: u128, values: WeighedValues) -> StaticValues
        ensures { values_in result ≡ values }
    {
        StaticValues {
            key,
            holder: Holder::Own(values),
        }
    }

    /// Values that other classes have too, with the key of their item.
    pub(crate) fn shared_by_classes(key: u128, values: Rc<WeighedValues>) -> StaticValues
        ensures { values_in result ≡ values.value }
    {
        StaticValues {
            key,
            holder: Holder::Shared(values),
        }
    }

    /// The values with their weight.
    pub(crate) fn weighed(&self) -> &WeighedValues
        ensures { result.now ≡ values_in self.now }
    {
        match &self.holder {
            Holder::Own(values) => values,
            Holder::Shared(values) | Holder::Remapped(values, _) => values.as_ref(),
        }
    }

    /// The weight of the values, or 2^64 - 1 if they weigh more.
    pub(crate) fn weight(&self) -> u64
        ensures { (m : Mentions) → result
            ≡ min (2 ^ 64 - 1) (static_values_weight (numbered.values_in m (values_in self.now))) }
    {
        self.weighed().weight()
    }

    // The values where other classes have them too, or `None` where they are in memory of their own.
    fn shared(&self) -> Option<&Rc<WeighedValues>>
        ensures { MatchOption result ((r : Maps) → AreReady r self.now)
            (λ values. values.now.value ≡ values_in self.now) }
    {
        match &self.holder {
            Holder::Own(_) => None,
            Holder::Shared(values) | Holder::Remapped(values, _) => Some(values),
        }
    }

    /// The same values: in memory of their own, or in the same memory where others have them too.
    pub(crate) fn copy(&self) -> Result<StaticValues, AllocError>
        ensures { IfOk result (λ copy. values_in copy ≡ values_in self.now) }
    {
        match &self.holder {
            Holder::Own(values) => Ok(StaticValues {
                key: self.key,
                holder: Holder::Own(values.copy()?),
            }),
            Holder::Shared(values) | Holder::Remapped(values, _) => Ok(StaticValues {
                key: self.key,
                holder: Holder::Shared(values.clone()?),
            }),
        }
    }

    /// Makes the values ready to be remapped: those that other classes have too get their image beside them.
    ///
    /// Condition: each number maps to a number below 2^32. Error: an allocation failed; the values are as they were.
    pub(crate) fn prepare(&mut self, items: &mut RemappedItems<'_>) -> Result<(), AllocError>
        requires { HavePlaces items.old (values_in self.old) }
        ensures values { values_in self.new ≡ values_in self.old }
        ensures items { items.new ≡ items.old }
        ensures ready { OnOk result (AreReady items.old self.new) }
    {
        if let Some(values) = self.shared() {
            let image = items.values_image(self.key, values)?;
            self.holder = Holder::Remapped(values.clone()?, image);
        }
        Ok(())
    }

    /// Replaces each number of a symbol in the values by the one that it maps to.
    ///
    /// Condition: each number maps to a number below 2^32; the values are ready to be remapped.
    pub(crate) fn renumber(&mut self, remap: &Remap)
        requires places { HavePlaces remap.now (values_in self.old) }
        requires ready { AreReady remap.now self.old }
        ensures { values_in self.new ≡ renumbered_values remap.now (values_in self.old) }
    {
        match &mut self.holder {
            Holder::Own(values) => values.renumber(remap),
            Holder::Shared(_) => {}
            Holder::Remapped(values, image) => mem::swap(values, image),
        }
    }
}
