//! Items of a file that several classes have in common memory.

ghost use Rattle.std.specs.Prelude.{ℕ, List, IfOk, IfErr, OnOk};
ghost use Rattle.dexspec.specs.Mentions.{Mentions};
ghost use Rattle.dexpool.specs.Pools.{ArePools};
ghost use Rattle.dexval.specs.Nesting.{HasPools};
ghost use Rattle.dexval.specs.Reading.{AreStaticsAt, IsSetAt, IsSetFault, IsStaticsFault};
ghost use Rattle.dexval.specs.SharedItems.{AreShared};

use crate::read_set;
use crate::weighed_set::WeighedSet;
use crate::weighed_values::WeighedValues;
use dexhead::{Frame, u32_at};
use dexpool::{ItemFault, Pools};
use std::alloc::Global;
use std::collections::HashMap;
use std::rc::Rc;

/// Which file this is: 16 bytes of the signature in its header, or 0 where there are less. No clause speaks of it.
pub fn source_of(file: &[u8]) -> u128 {
    if file.len() < 28 {
        return 0;
    }
    let mut source = 0;
    for k in 0..4 {
        source = (source << 32) | u128::from(u32_at(file, 12 + 4 * k));
    }
    source
}

/// The key of the item at an offset of a file, which other items do not have. No clause speaks of it: an item is remapped
/// once where it is equal to the one of its key.
pub fn item_key(frame: &Frame<'_>, off: u32) -> u128 {
    source_of(frame.bytes()) ^ u128::from(off)
}

/// The sets of annotations and the static values of a file that its classes share, by their offsets: each is read once,
/// and is in memory once.
#[derive(Drop)]
pub struct SharedItems {
    alloc: Global,
    pub(crate) sets: HashMap<u32, Rc<WeighedSet>>,
    pub(crate) values: HashMap<u32, Rc<WeighedValues>>,
}

impl SharedItems {
    /// No items.
    pub fn none(alloc: Global) -> SharedItems
        ensures { (b : List ℕ) (m : Mentions) → AreShared b m result }
    {
        SharedItems {
            alloc,
            sets: HashMap::new(alloc),
            values: HashMap::new(alloc),
        }
    }
}

/// The set of the annotation_set_item at an offset, which is read, as [`read_set`] does, if it was not before.
///
/// Condition: the items are of this file. Errors: as of [`read_set`].
///
/// Source: "annotation_set_item" and "annotation_item".
pub(crate) fn shared_set_at(
    frame: &Frame<'_>,
    pools: &Pools<'_>,
    off: u32,
    items: &mut SharedItems,
) -> Result<Rc<WeighedSet>, ItemFault>
    requires { HasPools frame.now pools.now → AreShared frame.now pools.now items.old }
    ensures items { HasPools frame.now pools.now
        → OnOk result (AreShared frame.now pools.now items.new) }
    ensures set { HasPools frame.now pools.now
        → IfOk result (λ set. IsSetAt frame.now off pools.now set.value) }
    ensures refused { HasPools frame.now pools.now → IfErr result (IsSetFault frame.now off) }
{
    if let Some(set) = items.sets.get(&off) {
        return Ok(set.clone()?);
    }
    let set = WeighedSet::of(read_set(items.alloc, frame, pools, off)?);
    let set = Rc::new(items.alloc, set)?;
    items.sets.insert(off, set.clone()?)?;
    Ok(set)
}

/// The values of the encoded_array_item at an offset, which are read, as [`WeighedValues::read`] does, if they were not
/// before.
///
/// Condition: the items are of this file.
///
/// Errors: as of [`WeighedValues::read`]. The contents of `items` are then unspecified.
///
/// Source: "encoded_array_item".
pub fn shared_statics_at(
    frame: &Frame<'_>,
    pools: &Pools<'_>,
    off: u32,
    items: &mut SharedItems,
) -> Result<Rc<WeighedValues>, ItemFault>
    requires { ArePools frame.now pools.now → AreShared frame.now pools.now items.old }
    ensures items { ArePools frame.now pools.now
        → OnOk result (AreShared frame.now pools.now items.new) }
    ensures values { ArePools frame.now pools.now
        → IfOk result (λ values. AreStaticsAt frame.now off pools.now values.value) }
    ensures refused { ArePools frame.now pools.now → IfErr result (IsStaticsFault frame.now off) }
{
    if let Some(values) = items.values.get(&off) {
        return Ok(values.clone()?);
    }
    let values = WeighedValues::read(items.alloc, frame, pools, off)?.with_shared_form()?;
    let values = Rc::new(items.alloc, values)?;
    items.values.insert(off, values.clone()?)?;
    Ok(values)
}
