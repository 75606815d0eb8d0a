//! Items that are encoded where they are laid out.

ghost use Rattle.std.specs.Prelude.{◌≡◌, ◌^◌, ◌<◌, ◌≤◌, All, IfOk, IfSome, OnOk, Some, length};
ghost use Rattle.std.specs.List.{flat_map};
ghost use Rattle.dexspec.specs.Bytes.{uint};
ghost use Rattle.dexspec.specs.Spellings.{offsets_bytes};
ghost use Rattle.dexlayout.specs.internal.Encoding.{align_next, encode_use, end_item, no_items_from, pass_use};
ghost use Rattle.dexlayout.specs.internal.Placing.{shared_at, shared_by};

use crate::item_number::ItemNumber;
use crate::offsets::{Offsets, padding};
use crate::sharing::place_shared;
use dexhead::{Encode, Output};
use std::alloc::{AllocError, Global};
use std::marker::Model;

/// The items of one kind: their bytes, one item after the other with the zeros that align it, and their offsets.
#[derive(Drop)]
pub struct Items {
    pub(crate) bytes: Vec<u8>,
    pub(crate) places: Offsets,
}

impl Model for Items {
    ghost use Rattle.dexlayout.specs.Places.{EncodedItems};

    ghost Value = { EncodedItems };

    ghost view = { λ i. record { bytes = i.bytes.items; places = i.places } };
}

impl Items {
    /// The items, one after the other, with zeros before those that are aligned.
    pub fn bytes(&self) -> &[u8]
        ensures { result.now ≡ self.now.bytes }
    {
        &self.bytes
    }

    /// Their offsets: one for each use, or 0 where it has no item.
    pub fn places(&self) -> &Offsets
        ensures { result.now ≡ self.now.places }
    {
        &self.places
    }

    /// No items yet, and memory for the offsets of `uses` of them; the first item will be at `from` or after it.
    pub(crate) fn starting_at(alloc: Global, from: u32, uses: usize) -> Result<Items, AllocError>
        ensures { IfOk result (λ items. items ≡ no_items_from from) }
    {
        Ok(Items {
            bytes: Vec::new(alloc),
            places: Offsets::starting_at(alloc, from, uses)?,
        })
    }

    /// Adds a use that has no item.
    pub(crate) fn pass(&mut self) -> Result<(), AllocError>
        ensures { OnOk result (self.new ≡ pass_use self.old) }
    {
        self.places.pass()
    }

    /// Appends the zeros that align the next item to 4 bytes.
    pub(crate) fn align(&mut self) -> Result<(), AllocError>
        requires { self.old.places.end < 2 ^ 31 }
        ensures { OnOk result (self.new ≡ align_next 4 self.old) }
    {
        self.bytes.extend_from_slice(padding(self.places.end()))?;
        self.places.align();
        Ok(())
    }

    /// Adds a use whose item has been appended to the bytes: it follows the first `before` of them.
    pub(crate) fn end_item(&mut self, before: usize) -> Result<(), AllocError>
        requires begins { before ≤ length self.old.bytes }
        requires fits { (end_item before self.old).places.end ≤ 2 ^ 30 }
        ensures { OnOk result (self.new ≡ end_item before self.old) }
    {
        self.places.put_next(self.bytes.len() - before)
    }

    /// Encodes an item of at most `most` bytes after the items before it, aligned to 4 bytes.
    pub(crate) fn put<T: Encode>(&mut self, item: &T, most: usize) -> Result<(), AllocError>
        requires formed { T.formed item.now }
        requires most { length (T.bytes item.now) ≤ most }
        requires fits { (encode_use 4 self.old (Some (T.bytes item.now))).places.end ≤ 2 ^ 30 }
        ensures { OnOk result (self.new ≡ encode_use 4 self.old (Some (T.bytes item.now))) }
    {
        self.align()?;
        let before = self.bytes.len();
        self.bytes.reserve(most)?;
        item.encode(&mut self.bytes);
        self.end_item(before)
    }

    /// Encodes a list of offsets after the items before it: how many they are, and each.
    pub(crate) fn put_offsets(&mut self, offsets: &[u32]) -> Result<(), AllocError>
        requires { (encode_use 4 self.old (Some (offsets_bytes offsets.now))).places.end ≤ 2 ^ 30 }
        ensures { OnOk result (self.new
            ≡ encode_use 4 self.old (Some (offsets_bytes offsets.now))) }
    {
        self.put(&OffsetList { offsets }, 4 + 4 * offsets.len())
    }
}

/// A list of offsets, encoded as how many they are, and each.
#[derive(Drop)]
pub(crate) struct OffsetList<'o> {
    pub(crate) offsets: &'o [u32],
}

impl Encode for OffsetList<'_> {
    ghost formed = { λ l. length l.offsets.now < 2 ^ 32 };

    ghost bytes = { λ l. offsets_bytes l.offsets.now };

    fn encode<O: Output>(&self, out: &mut O) {
        out.u32(self.offsets.len() as u32);
        encode_numbers(self.offsets, out);
    }
}

/// Writes numbers of four bytes each.
pub fn encode_numbers<O: Output>(numbers: &[u32], out: &mut O)
    ensures { O.gives (flat_map uint numbers.now) out.old out.new }
{
    for number in numbers {
        out.u32(*number);
    }
}

/// The items of one kind that are written, equal ones once, in the order of their first use, without their bytes: how
/// many they are, and their offsets.
#[derive(Drop)]
pub struct SharedOffsets {
    pub(crate) count: usize,
    pub(crate) places: Offsets,
}

impl Model for SharedOffsets {
    ghost use Rattle.dexlayout.specs.Places.{SharedPlaces};

    ghost Value = { SharedPlaces };

    ghost view = { λ o. record { count = o.count; places = o.places } };
}

impl SharedOffsets {
    /// How many items are written.
    pub fn count(&self) -> usize
        ensures { result ≡ self.now.count }
    {
        self.count
    }

    /// Their offsets: one for each use, or 0 where it has no item.
    pub fn places(&self) -> &Offsets
        ensures { result.now ≡ self.now.places }
    {
        &self.places
    }

    /// The offset of the item of each use, from those of the items that are written. `numbers` has for each use the
    /// number of its item, if it has one.
    pub(crate) fn of(
        alloc: Global,
        written: &Offsets,
        numbers: &[ItemNumber],
    ) -> Result<SharedOffsets, AllocError>
        requires { All (λ number. IfSome number (λ i. i < length written.now.offsets)) numbers.now }
        ensures { IfOk result (λ items. items ≡ shared_at numbers.now written.now) }
    {
        Ok(SharedOffsets {
            count: written.offsets().len(),
            places: place_shared(alloc, numbers, written)?,
        })
    }
}

/// The items of one kind that are written, equal ones once, in the order of their first use: their bytes, one item
/// after the other with the zeros that align it, how many they are, and their offsets.
#[derive(Drop)]
pub struct SharedItems {
    pub(crate) bytes: Vec<u8>,
    pub(crate) count: usize,
    pub(crate) places: Offsets,
}

impl Model for SharedItems {
    ghost use Rattle.dexlayout.specs.Places.{EncodedSharedItems};

    ghost Value = { EncodedSharedItems };

    ghost view = { λ i. record { bytes = i.bytes.items; count = i.count; places = i.places } };
}

impl SharedItems {
    /// The items that are written, one after the other.
    pub fn bytes(&self) -> &[u8]
        ensures { result.now ≡ self.now.bytes }
    {
        &self.bytes
    }

    /// How many are written.
    pub fn count(&self) -> usize
        ensures { result ≡ self.now.count }
    {
        self.count
    }

    /// Their offsets: one for each use, or 0 where it has no item.
    pub fn places(&self) -> &Offsets
        ensures { result.now ≡ self.now.places }
    {
        &self.places
    }

    /// The items that are written, with the offset of the item of each use. `numbers` has for each use the number of
    /// its item, if it has one.
    pub(crate) fn of(
        alloc: Global,
        written: Items,
        numbers: &[ItemNumber],
    ) -> Result<SharedItems, AllocError>
        requires { All (λ number. IfSome number (λ i. i < length written.places.offsets))
            numbers.now }
        ensures { IfOk result (λ items. items ≡ shared_by numbers.now written) }
    {
        let Items { bytes, places } = written;
        let count = places.offsets().len();
        let uses = place_shared(alloc, numbers, &places)?;
        Ok(SharedItems {
            bytes,
            count,
            places: uses,
        })
    }
}
