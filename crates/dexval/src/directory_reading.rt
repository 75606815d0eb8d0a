//! Reads directories of annotations from a file.

ghost use Rattle.std.specs.Prelude.{[], ◌^◌, ◌<◌, ◌≡◌, ◌+◌, ◌*◌, ◌≤◌, IfOk, IfErr, OnOk, IfSome, IfNone, length};
ghost use Rattle.dexspec.specs.Annotations.{DirectoryAt};
ghost use Rattle.dexpool.specs.Pools.{ArePools};
ghost use Rattle.dexval.specs.Items.{IsRefusal};
ghost use Rattle.dexval.specs.Directories.{HasPair, HasMembers, directory_weight};
ghost use Rattle.dexval.specs.DirectoryCache.{AreHeld};
ghost use Rattle.dexval.specs.Reading.{IsDirectoryFault, IsDirectoryFaultWithin};
ghost use Rattle.dexval.specs.Shared.{IsTight};
ghost use Rattle.dexval.specs.SharedItems.{AreSharedIn};
ghost use Rattle.dexval.specs.Results.{IsReadDirectory, IsReadWithin, AreMemberCounts};
ghost use Rattle.dexval.specs.internal.Counting.{IsRange, IsFile, AreSharedBy, IsCacheOf, AreAllNoted, HaveCountedPairs, ArePairsOf, IsPairAt, IsFaultWithin, IsPairsFault};
ghost use Rattle.dexval.specs.internal.Room.{IsEmptyWithin};

use crate::directory::{Directory, MemberCounts, SharedDirectory};
use crate::directory_cache::{Budget, CountedCache, DirectoryCache, File};
use crate::directory_member::{ListOfMember, OfMember, SetOfMember};
use crate::set_reading::uint_at;
use crate::shared_items::SharedItems;
use crate::value_reading::with_room;
use dexhead::{Condition, Frame, u32_at};
use dexpool::{ItemFault, Pools, SymbolKind};
use std::alloc::Global;

/// The counts of the annotations_directory_item at an offset, or `None` if the counts and all its pairs are not inside
/// the data at a multiple of 4.
///
/// Source: "annotations_directory_item".
pub fn member_counts(frame: &Frame<'_>, off: u32) -> Option<MemberCounts>
    ensures some { IfSome result (AreMemberCounts frame.now off) }
    ensures none { IfNone result (HasMembers frame.now off → ⊥) }
{
    if off % 4 != 0 || !frame.is_in_data(off, 16) {
        return None;
    }
    let fields = uint_at(frame, off as usize + 4);
    let methods = uint_at(frame, off as usize + 8);
    let parameters = uint_at(frame, off as usize + 12);
    let pairs = u64::from(fields) + u64::from(methods) + u64::from(parameters);
    if !frame.is_in_data(off, 16 + 8 * pairs) {
        return None;
    }
    Some(MemberCounts {
        fields,
        methods,
        parameters,
    })
}

/// Pairs of a member and an offset: `count` pairs from an offset on, each with the number of a member below the limit.
#[derive(Clone, Copy)]
pub(crate) struct PairRange {
    pub(crate) at: usize,
    pub(crate) count: u32,
    pub(crate) limit: usize,
}

fn pair_range(at: usize, count: u32, limit: usize) -> PairRange
    ensures { IsRange result at count limit }
{
    PairRange { at, count, limit }
}

impl PairRange {
    /// The number of a member and the offset of its item, from the pair at a place. Error: the number is less than
    /// `least` or not below the limit, or the offset is 0.
    pub(crate) fn pair(self, frame: &Frame<'_>, i: u32, least: u64) -> Result<(u32, u32), ItemFault>
        requires within { self.at + 8 * i + 8 ≤ length frame.now }
        requires fits { self.at < 2 ^ 40 }
        ensures pair { IfOk result (IsPairAt frame.now (self.at + 8 * i) least self.limit) }
        ensures refused { IfErr result
            (IsRefusal (HasPair frame.now (self.at + 8 * i) least self.limit → ⊥)) }
    {
        let at = self.at + 8 * i as usize;
        let bytes = frame.bytes();
        let number = u32_at(bytes, at);
        let off = u32_at(bytes, at + 4);
        if u64::from(number) < least || number as usize >= self.limit || off == 0 {
            return Err(ItemFault::Refused(Condition::Annotations as u8));
        }
        Ok((number, off))
    }
}

/// The pairs of a directory, for the members of each kind that it annotates.
#[derive(Clone, Copy)]
pub(crate) struct DirectoryPairs {
    pub(crate) counts: MemberCounts,
    pub(crate) fields: PairRange,
    pub(crate) methods: PairRange,
    pub(crate) parameters: PairRange,
}

impl File<'_> {
    /// The pairs of the annotations_directory_item at an offset. Error: the counts and all pairs are not inside the data
    /// at a multiple of 4.
    pub(crate) fn directory_pairs(&self, off: u32) -> Result<DirectoryPairs, ItemFault>
        ensures pairs { IfOk result (ArePairsOf self.now.frame.now off self.now.pools.now) }
        ensures refused { IfErr result (IsRefusal (HasMembers self.now.frame.now off → ⊥)) }
    {
        let Some(counts) = member_counts(self.frame, off) else {
            return Err(ItemFault::Refused(Condition::Annotations as u8));
        };
        let limit = self.pools.len(SymbolKind::Field);
        let fields = pair_range(off as usize + 16, counts.fields, limit);
        let limit = self.pools.len(SymbolKind::Method);
        let at = fields.at + 8 * counts.fields as usize;
        let methods = pair_range(at, counts.methods, limit);
        let at = methods.at + 8 * counts.methods as usize;
        let parameters = pair_range(at, counts.parameters, limit);
        Ok(DirectoryPairs {
            counts,
            fields,
            methods,
            parameters,
        })
    }

    // Reads the members of these pairs, by their numbers, into an empty vector, with the place of the item of each, which
    // is counted. Error: the pairs are not there, or their items are too heavy.
    fn members_at<T: OfMember>(
        &self,
        pairs: &PairRange,
        mut members: Vec<(u32, u32)>,
        kept: &mut CountedCache,
    ) -> Result<Vec<(u32, u32)>, ItemFault>
        requires within { pairs.now.at + 8 * pairs.now.count ≤ length self.now.frame.now }
        requires fits { pairs.now.at < 2 ^ 40 }
        requires room { IsEmptyWithin (length self.now.frame.now) members }
        requires held { AreHeld kept.old.cache }
        requires cache { IsFile self.now → IsCacheOf self.now kept.old.cache }
        ensures noted { IfOk result
            (AreAllNoted T.is_held T.names_set T.names_list kept.old.cache kept.new.cache) }
        ensures cache { IsFile self.now → OnOk result (IsCacheOf self.now kept.new.cache) }
        ensures read { IsFile self.now → IfOk result (HaveCountedPairs T.is_known T.inside T.encodes
            T.weighs T.of self.now pairs.now kept.old.budget kept.new.budget kept.new.cache) }
        ensures refused { IsFile self.now → IfErr result
            (IsPairsFault T.encodes T.weighs self.now.frame.now pairs.now kept.old.budget) }
    {
        let mut least = 0;
        for i in 0..pairs.count {
            let (number, off) = pairs.pair(self.frame, i, least)?;
            let place = T::counted_at(self, off, kept)?;
            least = u64::from(number) + 1;
            members.push((number, place))?;
        }
        Ok(members)
    }

    // The directory of the annotations_directory_item at an offset, if its sets weigh at most `most`. Its sets are
    // counted one by one. Those that are not shared yet are added to the items, if there are some. Error: there is no
    // directory, or it is too heavy; the items are then given up.
    fn directory_at(
        &self,
        alloc: Global,
        off: u32,
        most: u64,
        items: &mut Option<SharedItems>,
    ) -> Result<SharedDirectory, ItemFault>
        requires { IsFile self.now → AreSharedBy self.now items.old }
        ensures items { IsFile self.now → OnOk result (AreSharedBy self.now items.new) }
        ensures tight { IfOk result IsTight }
        ensures read { IsFile self.now
            → IfOk result (IsReadWithin self.now.frame.now off self.now.pools.now most) }
        ensures refused { IsFile self.now → IfErr result
            (IsFaultWithin (DirectoryAt self.now.frame.now off) directory_weight 0 most) }
    {
        let mut kept = CountedCache {
            cache: DirectoryCache::sharing(alloc, items.take()),
            budget: Budget { weight: 0, most },
        };
        let pairs = self.directory_pairs(off)?;
        let own = self.counted_set_or_empty_at(uint_at(self.frame, off as usize), &mut kept)?;
        let left = self.frame.bytes().len();
        let empty = with_room(alloc, pairs.counts.fields, left)?;
        let fields = self.members_at::<SetOfMember>(&pairs.fields, empty, &mut kept)?;
        let empty = with_room(alloc, pairs.counts.methods, left)?;
        let methods = self.members_at::<SetOfMember>(&pairs.methods, empty, &mut kept)?;
        let empty = with_room(alloc, pairs.counts.parameters, left)?;
        let parameters = self.members_at::<ListOfMember>(&pairs.parameters, empty, &mut kept)?;
        let cache = kept.cache;
        *items = cache.items;
        Ok(SharedDirectory {
            table: cache.table,
            own,
            fields,
            methods,
            parameters,
        })
    }
}

/// Reads the annotations_directory_item at an offset, and the sets that it refers to. Its indices refer to the pools,
/// which are those of the file. It does not check that the members are those of the class.
///
/// Each place that names a set has a copy of it. [`read_shared_directory_within`] keeps each set once, and bounds their
/// weight.
///
/// Errors: `Refused(22)` exactly if no such directory is at the offset: the item is not inside the data at a multiple
/// of 4, a member has an offset of 0, an index that is out of range or not greater than the one before it, or an offset
/// without a set or list of sets; `Memory` if an allocation failed.
///
/// Source: "annotations_directory_item" and "annotation_set_ref_list".
pub fn read_directory(
    alloc: Global,
    frame: &Frame<'_>,
    pools: &Pools<'_>,
    off: u32,
) -> Result<Directory, ItemFault>
    ensures directory { ArePools frame.now pools.now
        → IfOk result (IsReadDirectory frame.now off pools.now) }
    ensures refused { ArePools frame.now pools.now → IfErr result (IsDirectoryFault frame.now off) }
{
    pools.numbering().is_numbering();
    let directory = File { frame, pools }.directory_at(alloc, off, u64::MAX, &mut None)?;
    Ok(directory.unshared()?)
}

/// Reads the annotations_directory_item at an offset, as [`read_directory`] does, if its sets and lists of sets weigh
/// at most `most` together, in the bytes of [`AnnotationSet::weight`] and of
/// [`parameter_sets_weight`](crate::parameter_sets_weight). A bound of 2^64 - 1 is no bound.
///
/// Each place that names a set or a list counts its weight, and the set or list is kept once. Reading stops at the item
/// by which the weight exceeds `most`.
///
/// Errors: as [`read_directory`], and `Refused(23)` if the weight exceeds `most`: then no directory at the offset weighs
/// at most `most`, and what follows was not checked. [`check_directory`](crate::check_directory) checks it.
///
/// Source: "annotations_directory_item" and "annotation_set_ref_list".
pub fn read_shared_directory_within(
    alloc: Global,
    frame: &Frame<'_>,
    pools: &Pools<'_>,
    off: u32,
    most: u64,
) -> Result<SharedDirectory, ItemFault>
    ensures directory { ArePools frame.now pools.now
        → IfOk result (IsReadWithin frame.now off pools.now most) }
    ensures tight { IfOk result IsTight }
    ensures refused { ArePools frame.now pools.now
        → IfErr result (IsDirectoryFaultWithin frame.now off most) }
{
    pools.numbering().is_numbering();
    File { frame, pools }.directory_at(alloc, off, most, &mut None)
}

/// Reads the annotations_directory_item at an offset, as [`read_shared_directory_within`] does. If classes share items,
/// each of its sets is in the memory of `items`, is read only if it was not before, and is then added to them.
///
/// Condition: the items are of this file.
///
/// Errors: as of [`read_shared_directory_within`]. The items are then given up: `items` is `None`.
///
/// Source: "annotations_directory_item" and "annotation_set_ref_list".
pub fn read_shared_directory_with(
    alloc: Global,
    frame: &Frame<'_>,
    pools: &Pools<'_>,
    off: u32,
    most: u64,
    items: &mut Option<SharedItems>,
) -> Result<SharedDirectory, ItemFault>
    requires { ArePools frame.now pools.now → AreSharedIn frame.now pools.now items.old }
    ensures items { ArePools frame.now pools.now
        → OnOk result (AreSharedIn frame.now pools.now items.new) }
    ensures directory { ArePools frame.now pools.now
        → IfOk result (IsReadWithin frame.now off pools.now most) }
    ensures tight { IfOk result IsTight }
    ensures refused { ArePools frame.now pools.now
        → IfErr result (IsDirectoryFaultWithin frame.now off most) }
{
    pools.numbering().is_numbering();
    File { frame, pools }.directory_at(alloc, off, most, items)
}
