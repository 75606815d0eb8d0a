//! The sets and lists that a directory of annotations names, each read once even if several members name it.

ghost use Rattle.std.specs.Prelude.{◌≡◌, ℕ, List, [], IfOk, IfErr, OnOk, Some};
ghost use Rattle.dexspec.specs.Annotations.{SetAt};
ghost use Rattle.dexspec.specs.Lists.{OrNone};
ghost use Rattle.dexspec.specs.Mentions.{Mentions};
ghost use Rattle.dexspec.specs.Weight.{set_weight};
ghost use Rattle.dexval.specs.DirectoryCache.{AreHeld, AreCached};
ghost use Rattle.dexval.specs.KeptSets.{set_in};
ghost use Rattle.dexval.specs.Reading.{IsSetAt, IsSetFault};
ghost use Rattle.dexval.specs.SharedItems.{AreSharedIn};
ghost use Rattle.dexval.specs.Tables.{set_at};
ghost use Rattle.dexval.specs.internal.Counting.{IsFile, AreSharedBy, IsCacheOf, IsSetNoted, HasCountedSet, HasCountedSetOrEmpty, IsFaultWithin, Counts, IsTooHeavy};

use crate::kept_set::KeptSet;
use crate::set_table::add_set;
use crate::shared_items::{SharedItems, item_key, shared_set_at};
use crate::{AnnotationSet, SetTable, read_set};
use dexhead::{Condition, Frame};
use dexpool::{ItemFault, Pools};
use std::alloc::Global;
use std::collections::HashMap;

/// The file that annotations are in: its frame and its pools.
#[derive(Clone, Copy)]
pub(crate) struct File<'a> {
    pub(crate) frame: &'a Frame<'a>,
    pub(crate) pools: &'a Pools<'a>,
}

/// The items read so far weigh `weight`, or 2^64 - 1 if they weigh more, and may weigh at most `most`.
#[derive(Drop)]
pub(crate) struct Budget {
    pub(crate) weight: u64,
    pub(crate) most: u64,
}

impl Budget {
    /// Counts another item. Error: the items weigh more than `most`.
    pub(crate) fn add(&mut self, weight: u64) -> Result<(), ItemFault>
        ensures counted { OnOk result (Counts self.old self.new weight) }
        ensures refused { IfErr result (IsTooHeavy self.old weight) }
    {
        self.weight = self.weight.saturating_add(weight);
        let fits = self.weight <= self.most;
        fits.then_some(())
            .ok_or(ItemFault::Refused(Condition::Weight as u8))
    }
}

/// The cache of a directory: the items that were read, and their places by offset.
#[derive(Drop)]
pub(crate) struct DirectoryCache {
    /// The allocator for the items.
    pub(crate) alloc: Global,
    /// The items.
    pub(crate) table: SetTable,
    /// The places of sets, by offset.
    pub(crate) sets: HashMap<u32, u32>,
    /// The places of lists of sets, by offset.
    pub(crate) lists: HashMap<u32, u32>,
    /// What the classes of the file share, if they share items.
    pub(crate) items: Option<SharedItems>,
}

impl DirectoryCache {
    /// An empty cache, of a class that shares these items.
    pub(crate) fn sharing(alloc: Global, items: Option<SharedItems>) -> DirectoryCache
        ensures table { result.table ≡ record { sets = []; lists = [] } }
        ensures held { AreHeld result }
        ensures cache { (b : List ℕ) (m : Mentions) → AreSharedIn b m items → AreCached b m result }
    {
        DirectoryCache {
            alloc,
            table: SetTable::empty(alloc),
            sets: HashMap::new(alloc),
            lists: HashMap::new(alloc),
            items,
        }
    }
}

/// The cache of a directory, and the budget that its items count against.
#[derive(Drop)]
pub(crate) struct CountedCache {
    pub(crate) cache: DirectoryCache,
    pub(crate) budget: Budget,
}

// The set of the annotation_set_item at an offset: in memory of its own, or in that of the shared items, if there are
// some. Error: there is no set.
fn kept_set_at(
    alloc: Global,
    file: &File<'_>,
    off: u32,
    items: &mut Option<SharedItems>,
) -> Result<KeptSet, ItemFault>
    requires { IsFile file.now → AreSharedBy file.now items.old }
    ensures items { IsFile file.now → OnOk result (AreSharedBy file.now items.new) }
    ensures set { IsFile file.now → IfOk result
        (λ kept. IsSetAt file.now.frame.now off file.now.pools.now (set_in kept)) }
    ensures refused { IsFile file.now → IfErr result (IsSetFault file.now.frame.now off) }
{
    let key = item_key(file.frame, off);
    match items {
        Some(items) => {
            let set = shared_set_at(file.frame, file.pools, off, items)?;
            Ok(KeptSet::shared_by_tables(key, set))
        }
        None => {
            let set = read_set(alloc, file.frame, file.pools, off)?;
            Ok(KeptSet::own(key, set))
        }
    }
}

impl File<'_> {
    // The place of the set of the annotation_set_item at an offset, which is read if it was not before. Error: there is
    // no set.
    fn cached_set_at(&self, off: u32, cache: &mut DirectoryCache) -> Result<u32, ItemFault>
        requires held { AreHeld cache.old }
        requires cache { IsFile self.now → IsCacheOf self.now cache.old }
        ensures lists { cache.new.lists ≡ cache.old.lists }
        ensures noted { IfOk result (λ place. IsSetNoted cache.old cache.new (Some place)) }
        ensures cache { IsFile self.now → OnOk result (IsCacheOf self.now cache.new) }
        ensures read { IsFile self.now
            → IfOk result (λ place. IsSetAt self.now.frame.now off self.now.pools.now
            (set_at cache.new.table.sets (Some place))) }
        ensures refused { IsFile self.now → IfErr result (IsSetFault self.now.frame.now off) }
    {
        if let Some(place) = cache.sets.get(&off) {
            return Ok(*place);
        }
        let kept = kept_set_at(cache.alloc, self, off, &mut cache.items)?;
        let place = add_set(&mut cache.table.sets, kept)?;
        cache.sets.insert(off, place)?;
        Ok(place)
    }

    /// The place of the set of the annotation_set_item at an offset, which is counted. Error: there is no set, or it is
    /// too heavy.
    pub(crate) fn counted_set_at(&self, off: u32, kept: &mut CountedCache) -> Result<u32, ItemFault>
        requires held { AreHeld kept.old.cache }
        requires cache { IsFile self.now → IsCacheOf self.now kept.old.cache }
        ensures lists { kept.new.cache.lists ≡ kept.old.cache.lists }
        ensures noted { IfOk result
            (λ place. IsSetNoted kept.old.cache kept.new.cache (Some place)) }
        ensures cache { IsFile self.now → OnOk result (IsCacheOf self.now kept.new.cache) }
        ensures read { IsFile self.now
            → IfOk result
            (HasCountedSet self.now off kept.old.budget kept.new.budget kept.new.cache) }
        ensures refused { IsFile self.now → IfErr result (IsFaultWithin
            (SetAt self.now.frame.now off) set_weight kept.old.budget.weight kept.old.budget.most) }
    {
        let place = self.cached_set_at(off, &mut kept.cache)?;
        kept.budget.add(kept.cache.table.set_weight(Some(place)))?;
        Ok(place)
    }

    /// As [`Self::counted_set_at`], or `None`, the empty set, at offset 0.
    pub(crate) fn counted_set_or_empty_at(
        &self,
        off: u32,
        kept: &mut CountedCache,
    ) -> Result<Option<u32>, ItemFault>
        requires held { AreHeld kept.old.cache }
        requires cache { IsFile self.now → IsCacheOf self.now kept.old.cache }
        ensures lists { kept.new.cache.lists ≡ kept.old.cache.lists }
        ensures noted { IfOk result (IsSetNoted kept.old.cache kept.new.cache) }
        ensures cache { IsFile self.now → OnOk result (IsCacheOf self.now kept.new.cache) }
        ensures read { IsFile self.now → IfOk result
            (HasCountedSetOrEmpty self.now off kept.old.budget kept.new.budget kept.new.cache) }
        ensures refused { IsFile self.now → IfErr result (IsFaultWithin
            (OrNone SetAt [] self.now.frame.now off) set_weight kept.old.budget.weight
            kept.old.budget.most) }
    {
        if off == 0 {
            return Ok(None);
        }
        Ok(Some(self.counted_set_at(off, kept)?))
    }
}
