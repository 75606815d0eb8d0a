//! Sets of annotations that are in memory of their own, or in that of several tables.

ghost use Rattle.std.specs.Prelude.{◌≡◌, ◌-◌, ◌^◌, min, All, IfOk, OnOk, MatchOption, length, map};
ghost use Rattle.dexspec.specs.Mentions.{Mentions};
ghost use Rattle.dexpool.specs.Numberings.{Maps};
ghost use Rattle.dexval.specs.Code.{set_of};
ghost use Rattle.dexval.specs.Tables.{AreRemappedSets, IsRemappedSet};
ghost use Rattle.dexval.specs.Directories.{set_weight_in};
ghost use Rattle.dexval.specs.KeptSets.{set_in, IsReady};

use crate::weighed_set::WeighedSet;
use crate::{AnnotationSet, RemappedItems};
use dexpool::Remap;
use std::alloc::AllocError;
use std::mem;
use std::rc::Rc;

/// Who has the memory of a set.
#[derive(Drop)]
pub(crate) enum Holder {
    /// The table that the set is in.
    Own(AnnotationSet),
    /// Several tables.
    Shared(Rc<WeighedSet>),
    /// Several tables, and the set remapped is there too.
    Remapped(Rc<WeighedSet>, Rc<WeighedSet>),
}

/// A set of a table. Contracts see the set.
#[derive(Drop)]
pub(crate) struct KeptSet {
    // The key of the item in its file. No clause speaks of it.
    key: u128,
    holder: Holder,
}

// Replaces each number of a symbol in a set by the one that it maps to, if each has an image below 2^32.
fn renumber_fitting(set: &mut AnnotationSet, remap: &Remap)
    ensures { IsRemappedSet remap.now (set_of set.old) (set_of set.new) }
{
    if set.fits(remap) {
        set.renumber(remap);
    }
}

impl KeptSet {
    /// A set in memory of its own, with the key of its item.
    pub(crate) fn own(key: u128, set: AnnotationSet) -> KeptSet
        ensures { set_in result ≡ set_of set }
    {
        KeptSet {
            key,
            holder: Holder::Own(set),
        }
    }

    /// A set that other tables have too, with the key of its item.
    pub(crate) fn shared_by_tables(key: u128, set: Rc<WeighedSet>) -> KeptSet
        ensures { set_in result ≡ set.value }
    {
        KeptSet {
            key,
            holder: Holder::Shared(set),
        }
    }

    /// The set.
    pub(crate) fn set(&self) -> &AnnotationSet
        ensures { set_of result.now ≡ set_in self.now }
    {
        match &self.holder {
            Holder::Own(set) => set,
            Holder::Shared(set) | Holder::Remapped(set, _) => set.as_ref().set(),
        }
    }

    /// The weight of the set, or 2^64 - 1 if it weighs more.
    pub(crate) fn weight(&self) -> u64
        ensures { (m : Mentions) → result ≡ min (2 ^ 64 - 1) (set_weight_in m (set_in self.now)) }
    {
        match &self.holder {
            Holder::Own(set) => set.weight(),
            Holder::Shared(set) | Holder::Remapped(set, _) => set.as_ref().weight(),
        }
    }

    // The set where other tables have it too, or `None` where it is in memory of its own.
    fn shared(&self) -> Option<&Rc<WeighedSet>>
        ensures { MatchOption result ((r : Maps) → IsReady r self.now)
            (λ set. set.now.value ≡ set_in self.now) }
    {
        match &self.holder {
            Holder::Own(_) => None,
            Holder::Shared(set) | Holder::Remapped(set, _) => Some(set),
        }
    }

    /// The same set: in memory of its own, or in the same memory where others have it too.
    pub(crate) fn copy(&self) -> Result<KeptSet, AllocError>
        ensures { IfOk result (λ copy. set_in copy ≡ set_in self.now) }
    {
        match &self.holder {
            Holder::Own(set) => Ok(KeptSet::own(self.key, set.copy()?)),
            Holder::Shared(set) | Holder::Remapped(set, _) => Ok(KeptSet {
                key: self.key,
                holder: Holder::Shared(set.clone()?),
            }),
        }
    }

    // Makes a set ready to be remapped: one that other tables have too gets its image beside it. Error: an allocation
    // failed; the set is as it was.
    fn prepare(&mut self, items: &mut RemappedItems<'_>) -> Result<(), AllocError>
        ensures set { set_in self.new ≡ set_in self.old }
        ensures items { items.new ≡ items.old }
        ensures ready { OnOk result (IsReady items.old self.new) }
    {
        if let Some(set) = self.shared() {
            let image = items.set_image(self.key, set)?;
            self.holder = Holder::Remapped(set.clone()?, image);
        }
        Ok(())
    }

    // Replaces each number of a symbol in the set by the one that it maps to, if each has an image below 2^32.
    //
    // Condition: the set is ready to be remapped.
    fn renumber(&mut self, remap: &Remap)
        requires { IsReady remap.now self.old }
        ensures { IsRemappedSet remap.now (set_in self.old) (set_in self.new) }
    {
        match &mut self.holder {
            Holder::Own(set) => renumber_fitting(set, remap),
            Holder::Shared(_) => {}
            Holder::Remapped(set, image) => mem::swap(set, image),
        }
    }
}

/// Makes sets ready to be remapped. Error: an allocation failed; the sets are as they were.
pub(crate) fn prepare_sets(
    sets: &mut Vec<KeptSet>,
    items: &mut RemappedItems<'_>,
) -> Result<(), AllocError>
    ensures sets { map set_in sets.new.items ≡ map set_in sets.old.items }
    ensures items { items.new ≡ items.old }
    ensures ready { OnOk result (All (IsReady items.old) sets.new.items) }
{
    for i in 0..sets.len() {
        sets[i].prepare(items)?;
    }
    Ok(())
}

/// Replaces each number of a symbol in sets by the one that it maps to. A set with a number that has no image below
/// 2^32 is unchanged.
///
/// Condition: the sets are ready to be remapped.
pub(crate) fn renumber_sets(sets: &mut Vec<KeptSet>, remap: &Remap)
    requires { All (IsReady remap.now) sets.old.items }
    ensures size { length sets.new.items ≡ length sets.old.items }
    ensures sets { AreRemappedSets remap.now (map set_in sets.old.items)
        (map set_in sets.new.items) }
{
    for i in 0..sets.len() {
        sets[i].renumber(remap);
    }
}
