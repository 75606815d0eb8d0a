//! Checks directories of annotations in place in a file.

ghost use Rattle.std.specs.Prelude.{ℕ, List, ◌<◌, ◌+◌, ◌*◌, ◌^◌, ◌≤◌, IfOk, IfErr, OnOk, length};
ghost use Rattle.dexspec.specs.Mentions.{Mentions};
ghost use Rattle.dexpool.specs.Pools.{ArePools};
ghost use Rattle.dexval.specs.Items.{IsRefusal};
ghost use Rattle.dexval.specs.Directories.{NoSetOrEmptyAt};
ghost use Rattle.dexval.specs.Reading.{IsDirectoryFault};
ghost use Rattle.dexval.specs.CheckedSets.{AreChecked};
ghost use Rattle.dexval.specs.Results.{HasDirectoryShape, AreMemberCounts};
ghost use Rattle.dexval.specs.internal.Counting.{IsFile, AreCheckedOf, IsFaultOf, HasSetOrEmptyOf, HasPairsOf};

use crate::directory_cache::File;
use crate::directory_member::{ListOfMember, OfMember, SetOfMember};
use crate::directory_reading::PairRange;
use crate::set_reading::uint_at;
use crate::{MemberCounts, check_set};
use dexhead::Frame;
use dexpool::{ItemFault, Pools};
use std::alloc::Global;
use std::collections::HashMap;

/// The sets and the lists of sets of a file that were checked: the weight of each, by its offset. Each is checked once,
/// even if several members name it.
#[derive(Drop)]
pub struct CheckedSets {
    // The weights of sets.
    pub(crate) sets: HashMap<u32, u64>,
    // The weights of lists of sets.
    pub(crate) lists: HashMap<u32, u64>,
}

impl CheckedSets {
    /// An empty record: no item is checked yet.
    pub fn none(alloc: Global) -> CheckedSets
        ensures { (b : List ℕ) (m : Mentions) → AreChecked b m result }
    {
        CheckedSets {
            sets: HashMap::new(alloc),
            lists: HashMap::new(alloc),
        }
    }
}

/// The members that a directory annotates, and its weight.
#[derive(Clone, Copy, Debug)]
pub struct DirectoryShape {
    /// The number of members of each kind.
    pub counts: MemberCounts,
    /// The weight of its sets and its lists of sets together, or 2^64 - 1 if they weigh more. Each use of a set or a
    /// list counts.
    pub weight: u64,
}

impl File<'_> {
    /// The weight of the set of the annotation_set_item at an offset, or 2^64 - 1 if it weighs more. At offset 0 there
    /// is no set, and the weight is 0. Error: another offset has no set.
    pub(crate) fn weigh_set(&self, off: u32, checked: &mut CheckedSets) -> Result<u64, ItemFault>
        requires { IsFile self.now → AreCheckedOf self.now checked.old }
        ensures checked { IsFile self.now → OnOk result (AreCheckedOf self.now checked.new) }
        ensures weight { IsFile self.now
            → IfOk result (HasSetOrEmptyOf self.now.frame.now off self.now.pools.now) }
        ensures refused { IsFile self.now
            → IfErr result (IsRefusal (NoSetOrEmptyAt self.now.frame.now off)) }
    {
        if off == 0 {
            return Ok(0);
        }
        if let Some(weight) = checked.sets.get(&off) {
            return Ok(*weight);
        }
        let shape = check_set(self.frame, self.pools, off)?;
        checked.sets.insert(off, shape.weight)?;
        Ok(shape.weight)
    }

    // The weight of the members of these pairs, or 2^64 - 1 if they weigh more. Error: the pairs are not there.
    fn weigh_members<T: OfMember>(
        &self,
        pairs: &PairRange,
        checked: &mut CheckedSets,
    ) -> Result<u64, ItemFault>
        requires within { pairs.now.at + 8 * pairs.now.count ≤ length self.now.frame.now }
        requires fits { pairs.now.at < 2 ^ 40 }
        requires checked { IsFile self.now → AreCheckedOf self.now checked.old }
        ensures checked { IsFile self.now → OnOk result (AreCheckedOf self.now checked.new) }
        ensures weight { IsFile self.now → IfOk result (HasPairsOf T.is_known T.inside T.encodes
            T.weighs self.now.frame.now pairs.now self.now.pools.now) }
        ensures refused { IsFile self.now
            → IfErr result (IsFaultOf T.encodes self.now.frame.now pairs.now) }
    {
        let mut weight: u64 = 0;
        let mut least = 0;
        for i in 0..pairs.count {
            let (number, off) = pairs.pair(self.frame, i, least)?;
            let item = T::checked_at(self, off, checked)?;
            least = u64::from(number) + 1;
            weight = weight.saturating_add(item);
        }
        Ok(weight)
    }
}

/// Checks the annotations_directory_item at an offset, and the sets that it refers to. Its indices refer to the pools,
/// which are those of the file. It does not check that the members are those of the class. Items in `checked` are not
/// checked again, and memory is allocated only for `checked`.
///
/// Condition: the items in `checked` are of this file.
///
/// Errors: `Refused(22)` exactly if [`read_directory`](crate::read_directory) refuses the directory; `Memory` if an
/// allocation failed.
///
/// Source: "annotations_directory_item" and "annotation_set_ref_list".
pub fn check_directory(
    frame: &Frame<'_>,
    pools: &Pools<'_>,
    off: u32,
    checked: &mut CheckedSets,
) -> Result<DirectoryShape, ItemFault>
    requires { ArePools frame.now pools.now → AreChecked frame.now pools.now checked.old }
    ensures checked { ArePools frame.now pools.now
        → OnOk result (AreChecked frame.now pools.now checked.new) }
    ensures members { IfOk result (λ shape. AreMemberCounts frame.now off shape.counts) }
    ensures directory { ArePools frame.now pools.now
        → IfOk result (HasDirectoryShape frame.now off pools.now) }
    ensures refused { ArePools frame.now pools.now → IfErr result (IsDirectoryFault frame.now off) }
{
    pools.numbering().is_numbering();
    let file = File { frame, pools };
    let pairs = file.directory_pairs(off)?;
    let own = file.weigh_set(uint_at(frame, off as usize), checked)?;
    let fields = file.weigh_members::<SetOfMember>(&pairs.fields, checked)?;
    let methods = file.weigh_members::<SetOfMember>(&pairs.methods, checked)?;
    let parameters = file.weigh_members::<ListOfMember>(&pairs.parameters, checked)?;
    let weight = own
        .saturating_add(fields)
        .saturating_add(methods)
        .saturating_add(parameters);
    let counts = pairs.counts;
    Ok(DirectoryShape { counts, weight })
}
