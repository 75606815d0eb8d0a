//! The parts of directories: sets for fields and methods, and lists of sets for parameters.

ghost use Rattle.std.specs.Prelude.{ℕ, List, ◌≡◌, ◌≢◌, ◌<◌, ◌+◌, ◌*◌, Option, Some, All, IfOk, IfErr, OnOk, length, map};
ghost use Rattle.dexspec.proofs.determined.OneClass.{one_set, one_ref_list};
ghost use Rattle.dexspec.specs.Annotations.{AnnotationSet as SetMeant, SetAt, RefListAt};
ghost use Rattle.dexspec.specs.Mentions.{Mentions};
ghost use Rattle.dexspec.specs.Weight.{set_weight, ref_list_weight};
ghost use Rattle.dexval.specs.Numbered.{NumberedSet, IsKnownSet, set_in};
ghost use Rattle.dexval.specs.DirectoryCache.{AreHeld};
ghost use Rattle.dexval.specs.Tables.{NumberedTable, Extends, IsListed, IsPlaceIn, set_at, sets_at};
ghost use Rattle.dexval.specs.internal.Found.{IsOffsetCount};
ghost use Rattle.dexval.specs.internal.Room.{IsEmptyWithin};
ghost use Rattle.dexval.specs.internal.Counting.{IsFaultAt, HasItemOf, IsFile, AreCheckedOf, IsCacheOf, IsItemNoted, AreSetsNoted, HasCountedItem, HasCountedSets, IsFaultWithin};

use crate::directory_cache::{CountedCache, File};
use crate::directory_checking::CheckedSets;
use crate::set_reading::{count_at, uint_at};
use crate::value_reading::with_room;
use dexpool::ItemFault;

/// A part of a directory for a member: a set of annotations, or the sets of its parameters.
pub(crate) trait OfMember {
    // The part with numbers instead of symbols.
    ghost Numbered: { Type 0 };

    // What the numbers denote.
    ghost Meant: { Type 0 };

    ghost of: { NumberedTable → Option ℕ → Numbered };

    ghost is_held: { NumberedTable → Option ℕ → Type 0 };

    // What the place names: a set, or a list.
    ghost names_set: { NumberedTable → Option ℕ → ℕ → Type 0 };

    ghost names_list: { Option ℕ → ℕ → Type 0 };

    ghost is_known: { Mentions → Numbered → Type 0 };

    ghost inside: { Mentions → Numbered → Meant };

    ghost encodes: { List ℕ → ℕ → Meant → Type 0 };

    ghost weighs: { Meant → ℕ };

    /// The weight of the item at an offset other than 0, or 2^64 - 1 if it weighs more. Error: there is no item.
    fn checked_at(file: &File<'_>, off: u32, checked: &mut CheckedSets) -> Result<u64, ItemFault>
        requires other { off ≢ 0 }
        requires checked { IsFile file.now → AreCheckedOf file.now checked.old }
        ensures checked { IsFile file.now → OnOk result (AreCheckedOf file.now checked.new) }
        ensures weight { IsFile file.now → IfOk result
            (HasItemOf is_known inside encodes weighs file.now.frame.now off file.now.pools.now) }
        ensures refused { IsFile file.now
            → IfErr result (IsFaultAt encodes file.now.frame.now off) };

    /// The place in the table of the item at an offset, which is counted. Error: there is no item, or it is too heavy.
    fn counted_at(file: &File<'_>, off: u32, kept: &mut CountedCache) -> Result<u32, ItemFault>
        requires held { AreHeld kept.old.cache }
        requires cache { IsFile file.now → IsCacheOf file.now kept.old.cache }
        ensures noted { IfOk result
            (IsItemNoted is_held names_set names_list kept.old.cache kept.new.cache) }
        ensures cache { IsFile file.now → OnOk result (IsCacheOf file.now kept.new.cache) }
        ensures read { IsFile file.now → IfOk result (HasCountedItem is_known inside encodes
            weighs of file.now off kept.old.budget kept.new.budget kept.new.cache) }
        ensures refused { IsFile file.now → IfErr result (IsFaultWithin
            (encodes file.now.frame.now off) weighs kept.old.budget.weight kept.old.budget.most) };

    // At most one item is at an offset.
    ghost one: { (b : List ℕ) (off : ℕ) (x y : Meant) → encodes b off x → encodes b off y → x ≡ y };

    // After a table grew, a place still holds and names the same item.
    ghost stays: { (t u : NumberedTable) (place : Option ℕ) → Extends t u → is_held t place → is_held u place × (of u place ≡ of t place) };

    ghost naming_stays: { (t u : NumberedTable) (place : Option ℕ) (i : ℕ) → Extends t u → names_set t place i → names_set u place i };
}

/// The set of a field or a method.
pub(crate) struct SetOfMember;

impl OfMember for SetOfMember {
    ghost Numbered = { NumberedSet };

    ghost Meant = { SetMeant };

    ghost of = { λ t place. set_at t.sets place };

    ghost is_held = { λ t place. IsPlaceIn t.sets place };

    ghost names_set = { λ t place i. place ≡ Some i };

    ghost names_list = { λ place i. ⊥ };

    ghost is_known = { IsKnownSet };

    ghost inside = { set_in };

    ghost encodes = { SetAt };

    ghost weighs = { set_weight };

    fn checked_at(file: &File<'_>, off: u32, checked: &mut CheckedSets) -> Result<u64, ItemFault> {
        file.weigh_set(off, checked)
    }

    fn counted_at(file: &File<'_>, off: u32, kept: &mut CountedCache) -> Result<u32, ItemFault> {
        file.counted_set_at(off, kept)
    }

    ghost one = { one_set };

    ghost stays = { λ t u place extended held. (extended.sets_hold place held, extended.sets_stay place held) };

    ghost naming_stays = { λ t u place i extended named. named };
}

// The weight of a list of `count` sets, without the sets.
fn list_weight(count: u32) -> u64
    ensures none { count ≡ 0 → result ≡ 0 }
    ensures some { 0 < count → result ≡ 8 + 4 * count }
{
    if count == 0 {
        return 0;
    }
    8 + 4 * u64::from(count)
}

impl File<'_> {
    // Reads the places of the sets of the annotation_set_ref_list at an offset, which are `count`, into an empty vector.
    // The list and each set are counted. Error: there is no list, or it is too heavy.
    fn listed_at(
        &self,
        off: u32,
        count: u32,
        mut places: Vec<Option<u32>>,
        kept: &mut CountedCache,
    ) -> Result<Vec<Option<u32>>, ItemFault>
        requires count { IsOffsetCount self.now.frame.now off count }
        requires room { IsEmptyWithin (length self.now.frame.now) places }
        requires held { AreHeld kept.old.cache }
        requires cache { IsFile self.now → IsCacheOf self.now kept.old.cache }
        ensures lists { kept.new.cache.lists ≡ kept.old.cache.lists }
        ensures noted { IfOk result (AreSetsNoted kept.old.cache kept.new.cache) }
        ensures cache { IsFile self.now → OnOk result (IsCacheOf self.now kept.new.cache) }
        ensures read { IsFile self.now
            → IfOk result
            (HasCountedSets self.now off kept.old.budget kept.new.budget kept.new.cache) }
        ensures refused { IsFile self.now → IfErr result (IsFaultWithin
            (RefListAt self.now.frame.now off) ref_list_weight kept.old.budget.weight
            kept.old.budget.most) }
    {
        let list = list_weight(count);
        kept.budget.add(list)?;
        for i in 0..count {
            let set_off = uint_at(self.frame, off as usize + 4 + 4 * i as usize);
            let place = self.counted_set_or_empty_at(set_off, kept)?;
            places.push(place)?;
        }
        Ok(places)
    }
}

/// The list of sets of a method's parameters.
pub(crate) struct ListOfMember;

impl OfMember for ListOfMember {
    ghost Numbered = { List NumberedSet };

    ghost Meant = { List SetMeant };

    ghost of = { sets_at };

    ghost is_held = { λ t place. IsPlaceIn t.lists place };

    ghost names_set = { λ t place i. IsListed t i };

    ghost names_list = { λ place i. place ≡ Some i };

    ghost is_known = { λ m. All (IsKnownSet m) };

    ghost inside = { λ m. map (set_in m) };

    ghost encodes = { RefListAt };

    ghost weighs = { ref_list_weight };

    fn checked_at(file: &File<'_>, off: u32, checked: &mut CheckedSets) -> Result<u64, ItemFault> {
        if let Some(weight) = checked.lists.get(&off) {
            return Ok(*weight);
        }
        let count = count_at(file.frame, off)?;
        let list = list_weight(count);
        let mut weight = list;
        for i in 0..count {
            let set_off = uint_at(file.frame, off as usize + 4 + 4 * i as usize);
            let set = file.weigh_set(set_off, checked)?;
            weight = weight.saturating_add(set);
        }
        checked.lists.insert(off, weight)?;
        Ok(weight)
    }

    fn counted_at(file: &File<'_>, off: u32, kept: &mut CountedCache) -> Result<u32, ItemFault> {
        if let Some(place) = kept.cache.lists.get(&off) {
            let place = *place;
            kept.budget.add(kept.cache.table.list_weight(Some(place)))?;
            return Ok(place);
        }
        let count = count_at(file.frame, off)?;
        let empty = with_room(kept.cache.alloc, count, file.frame.bytes().len())?;
        let places = file.listed_at(off, count, empty, kept)?;
        let place = kept.cache.table.add_list(places)?;
        kept.cache.lists.insert(off, place)?;
        Ok(place)
    }

    ghost one = { one_ref_list };

    ghost stays = { λ t u place extended held. (extended.lists_hold place held, extended.lists_stay place held) };

    ghost naming_stays = { λ t u place i extended named. extended.listed_stay i named };
}
