//! Sets of annotations that several members share, each kept once.

ghost use Rattle.std.specs.Prelude.{◌≡◌, ◌≢◌, ◌<◌, ◌≤◌, ◌-◌, ◌^◌, [], ◌∷◌, ◌++◌, All, IfNone, IfOk, IfSome, OnOk, OnErr, length, map, min, vec_len, vec_capacity};
ghost use Rattle.dexspec.specs.Mentions.{Mentions};
ghost use Rattle.dexval.specs.Code.{set_of};
ghost use Rattle.dexval.specs.KeptSets.{set_in};
ghost use Rattle.dexval.specs.Directories.{set_weight_in, sets_weight_in};
ghost use Rattle.dexval.specs.Tables.{Extends, IsPlaceIn, set_at, places_at, sets_at, AreRemappedSets, with_list};

use crate::kept_set::{KeptSet, prepare_sets, renumber_sets};
use crate::remapped_items::RemappedItems;
use crate::set::AnnotationSet;
use crate::weight::listed_weight;
use std::alloc::{AllocError, Global};
use std::marker::Model;

/// Sets of annotations, and lists of sets, as those of a method's parameters, which are named by their places. A list
/// has the places of its sets, and `None` for an empty set.
///
/// Source: "annotation_set_item" and "annotation_set_ref_list".
#[derive(Drop)]
pub struct SetTable {
    pub(crate) sets: Vec<KeptSet>,
    pub(crate) lists: Vec<Vec<Option<u32>>>,
}

impl Model for SetTable {
    ghost use Rattle.std.specs.Prelude.{map};
    ghost use Rattle.std.specs.Coded.{codes};
    ghost use Rattle.dexval.specs.KeptSets.{set_in};
    ghost use Rattle.dexval.specs.Stored.{elements_code};
    ghost use Rattle.dexval.specs.Tables.{NumberedTable, HoldsLists};

    ghost Value = { NumberedTable };

    ghost coded = { Prim.hlevel (codes, elements_code) };

    ghost view = { λ t. record { sets = map set_in t.sets.items; lists = map (λ l. l.items) t.lists.items } };

    ghost invariant = { λ t. HoldsLists (record { sets = map set_in t.sets.items; lists = map (λ l. l.items) t.lists.items }) };
}

/// Puts a set after those of a table. Returns its place.
///
/// Condition: there are fewer than 2^32. Error: there was no room for another set, and the memory for more was refused;
/// the sets are unchanged.
pub(crate) fn add_set(sets: &mut Vec<KeptSet>, set: KeptSet) -> Result<u32, AllocError>
    requires { length sets.old.items < 2 ^ 32 }
    ensures place { IfOk result (λ place. place ≡ length sets.old.items) }
    ensures sets { OnOk result (sets.new.items ≡ sets.old.items ++ set ∷ []) }
    ensures unchanged { OnErr result (sets.new.items ≡ sets.old.items) }
    ensures full { OnErr result (vec_capacity sets.old ≤ vec_len sets.old) }
{
    let place = sets.len() as u32;
    sets.push(set)?;
    Ok(place)
}

impl SetTable {
    /// A table without sets and lists.
    pub fn empty(alloc: Global) -> SetTable
        ensures { result ≡ record { sets = []; lists = [] } }
    {
        SetTable {
            sets: Vec::new(alloc),
            lists: Vec::new(alloc),
        }
    }

    /// The set at a place, or `None`, which is the empty set, if there is no place.
    ///
    /// Condition: the place is one of the sets'.
    pub fn set(&self, place: Option<u32>) -> Option<&AnnotationSet>
        requires { IsPlaceIn self.now.sets place }
        ensures set { IfSome result (λ set. (place ≢ None)
            × (set_of set.now ≡ set_at self.now.sets place)) }
        ensures none { IfNone result (place ≡ None) }
    {
        let place = place?;
        Some(self.sets[place as usize].set())
    }

    /// The places of the sets of the list at a place, or none if there is no place.
    ///
    /// Condition: the place is one of the lists'.
    pub fn list(&self, place: Option<u32>) -> &[Option<u32>]
        requires { IsPlaceIn self.now.lists place }
        ensures list { result.now ≡ places_at self.now.lists place }
        ensures places { All (IsPlaceIn self.now.sets) result.now }
    {
        match place {
            Some(place) => &self.lists[place as usize],
            None => &[],
        }
    }

    /// The weight of the set at a place, or 2^64 - 1 if it weighs more. Where no set is, the weight is 0.
    pub fn set_weight(&self, place: Option<u32>) -> u64
        ensures { (m : Mentions)
            → result ≡ min (2 ^ 64 - 1) (set_weight_in m (set_at self.now.sets place)) }
    {
        let Some(place) = place else { return 0 };
        let set = self.sets.get(place as usize);
        set.map_or(0, |kept| kept.weight())
    }

    /// The weight of the list at a place and its sets, each set as often as it occurs, or 2^64 - 1 if they weigh more.
    ///
    /// Condition: the place is one of the lists'.
    pub fn list_weight(&self, place: Option<u32>) -> u64
        requires { IsPlaceIn self.now.lists place }
        ensures { (m : Mentions)
            → result ≡ min (2 ^ 64 - 1) (sets_weight_in m (sets_at self.now place)) }
    {
        listed_weight(self.list(place), |place| self.set_weight(*place))
    }

    /// Adds a list of sets. Returns its place.
    ///
    /// Condition: each place in it is one of the sets'; there are fewer than 2^32 lists.
    pub(crate) fn add_list(&mut self, list: Vec<Option<u32>>) -> Result<u32, AllocError>
        requires places { All (IsPlaceIn self.old.sets) list.items }
        requires few { length self.old.lists < 2 ^ 32 }
        ensures place { IfOk result (λ place. place ≡ length self.old.lists) }
        ensures table { OnOk result (self.new ≡ with_list self.old list.items) }
        ensures extends { OnOk result (Extends self.old self.new) }
    {
        let place = self.lists.len() as u32;
        self.lists.push(list)?;
        Ok(place)
    }

    /// Replaces each number of a symbol in the sets by the one that it maps to. A set with a number that has no image
    /// below 2^32 is unchanged; [`fits`](AnnotationSet::fits) reports which sets are remapped. A set that other tables
    /// share is remapped once, and its image is shared.
    ///
    /// Error: the allocation of memory for such an image failed; the table is as it was.
    pub fn renumber(&mut self, items: &mut RemappedItems<'_>) -> Result<(), AllocError>
        ensures items { items.new ≡ items.old }
        ensures size { length self.new.sets ≡ length self.old.sets }
        ensures lists { self.new.lists ≡ self.old.lists }
        ensures sets { OnOk result (AreRemappedSets items.old self.old.sets self.new.sets) }
        ensures unchanged { OnErr result (self.new ≡ self.old) }
    {
        prepare_sets(&mut self.sets, items)?;
        renumber_sets(&mut self.sets, items.remap());
        Ok(())
    }

    /// The same table, with copies of its sets and lists. A set that other tables share is shared with the copy.
    pub fn copy(&self) -> Result<SetTable, AllocError>
        ensures { IfOk result (λ copy. copy ≡ self.now) }
    {
        let mut sets = Vec::with_capacity(*self.sets.allocator(), self.sets.len())?;
        for set in &self.sets {
            sets.push(set.copy()?)?;
        }
        let mut lists = Vec::with_capacity(*self.lists.allocator(), self.lists.len())?;
        for list in &self.lists {
            lists.push(Vec::from_slice(*self.lists.allocator(), list)?)?;
        }
        Ok(SetTable { sets, lists })
    }
}
