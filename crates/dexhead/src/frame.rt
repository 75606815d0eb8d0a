//! A file whose header and map are in order.

ghost use Rattle.std.specs.Prelude.{◌≡◌, ◌↔◌, ℕ, ◌+◌, ◌*◌, ◌≤◌, ◌<◌, List, IsTrue, IsOk, OnOk, IfOk, IfErr, length, take, drop};
ghost use Rattle.dexspec.specs.Header.{table_size, table_off, row_size, data_off, HasChecksum, HasSignature};
ghost use Rattle.dexspec.specs.Rows.{row_at};
ghost use Rattle.dexspec.specs.Sections.{IsInData};
ghost use Rattle.dexspec.specs.Accepted.{number, HoldBelow, IsFrame, IsRefused};
ghost use Rattle.dexhead.specs.Conditions.{condition_meant};
ghost use Rattle.dexhead.specs.internal.Refusals.{IsEarly};
ghost use Rattle.dexhead.specs.Tables.{meant};

use crate::condition::Condition;
use crate::refusal::Refusal;
use crate::tables::Table;
use crate::{header, map};
use std::marker::Model;

/// The version, as a number.
const VERSION: u32 = 35;

/// The place of a refusal by a condition on the whole file.
const WHOLE: u32 = 0;

/// A file that meets conditions 1 to 10: its header, the layout of its tables and its map are in order.
/// It borrows the bytes and copies none. Contracts see it as the list of the file's bytes.
///
/// Source: "Dalvik Executable format", "File layout".
#[derive(Drop)]
pub struct Frame<'a> {
    bytes: &'a [u8],
}

impl<'a> Model for Frame<'a> {
    ghost Value = { List ℕ };

    ghost view = { λ f. f.bytes.now };

    ghost invariant = { λ f. IsFrame f.bytes.now };
}

impl<'a> Frame<'a> {
    /// Checks conditions 1 to 10 in their order:
    ///
    /// 1. Size: the file has 112 bytes at least, and 2^30 at most.
    /// 2. Magic: it begins with `dex`, a line feed, three digits and a zero byte.
    /// 3. Version: the digits are 035.
    /// 4. Lengths: `file_size` is the file's length, and `header_size` is 112.
    /// 5. Byte order: `endian_tag` is 0x12345678.
    /// 6. No link data: `link_size` and `link_off` are 0.
    /// 7. Checksum: it is the Adler-32 of the bytes from 12 on.
    /// 8. Signature: it is the SHA-1 of the bytes from 32 on.
    /// 9. Layout: the tables are in their order after the header, none over another and none too long,
    ///    and the data after them ends with the file.
    /// 10. Map: it is in the data at a multiple of 4, and its entries are of known kinds, none twice,
    ///     at rising offsets: the header first, each table that has rows and no other, the map itself, and
    ///     sections of the data.
    ///
    /// Error: the first condition that fails, at place 0; for 3, the version, the place is the three
    /// digits as a number.
    ///
    /// Source: "Dalvik Executable format", "header_item" and "map_list".
    #[tactic(auto, using(crate::proofs::Frames::long_enough))]
    pub fn open(bytes: &'a [u8]) -> Result<Frame<'a>, Refusal>
        ensures accepted { IsOk result ↔ IsFrame bytes.now }
        ensures whole { IfOk result (λ frame. frame ≡ bytes.now) }
        ensures refused { IfErr result (λ refusal.
            IsRefused bytes.now refusal.number refusal.place) }
    {
        check_start(bytes)?;
        check_fields(bytes)?;
        check_sums(bytes)?;
        check_places(bytes)?;
        Ok(Frame { bytes })
    }

    /// Opens a file whose two sums are right, and does not take them again: returns what [`open`](Self::open) returns
    /// of it.
    ///
    /// Conditions: a file that is long enough to have the sums has the right checksum and the right signature, as after
    /// [`set_sums`](crate::set_sums). Error: as of [`open`](Self::open).
    ///
    /// Source: "Dalvik Executable format", "header_item" and "map_list".
    #[tactic(auto, using(crate::proofs::Frames::long_enough, crate::proofs::Frames::with_sums))]
    pub fn open_summed(bytes: &'a [u8]) -> Result<Frame<'a>, Refusal>
        requires checksum { 32 ≤ length bytes.now → HasChecksum bytes.now }
        requires signature { 32 ≤ length bytes.now → HasSignature bytes.now }
        ensures accepted { IsOk result ↔ IsFrame bytes.now }
        ensures whole { IfOk result (λ frame. frame ≡ bytes.now) }
        ensures refused { IfErr result (λ refusal.
            IsRefused bytes.now refusal.number refusal.place) }
    {
        check_start(bytes)?;
        check_fields(bytes)?;
        check_places(bytes)?;
        Ok(Frame { bytes })
    }

    /// All bytes of the file.
    pub fn bytes(&self) -> &'a [u8]
        ensures bytes { result.now ≡ self.now }
        ensures frame { IsFrame self.now }
    {
        self.bytes
    }

    /// The number of rows of a table.
    ///
    /// Source: "Dalvik Executable format", "header_item".
    pub fn size(&self, table: Table) -> u32
        ensures { result ≡ table_size self.now (meant table) }
    {
        header::table_size(self.bytes, table)
    }

    /// The bytes of row `i` of a table.
    ///
    /// Condition: `i` is below the number of its rows.
    ///
    /// Source: "Dalvik Executable format", "string_id_item", "type_id_item", "proto_id_item",
    /// "field_id_item", "method_id_item" and "class_def_item".
    #[tactic(auto, using(crate::proofs::Frames::row_within))]
    pub fn row(&self, table: Table, i: u32) -> &'a [u8]
        requires { i < table_size self.now (meant table) }
        ensures bytes { result.now
            ≡ take (row_size (meant table)) (drop (row_at self.now (meant table) i) self.now) }
        ensures whole { length result.now ≡ row_size (meant table) }
    {
        let size = table.row_size() as usize;
        let at = header::table_off(self.bytes, table) as usize + size * i as usize;
        let (_, rest) = self.bytes.split_at(at);
        let (row, _) = rest.split_at(size);
        row
    }

    /// Where the data begins, which ends with the file.
    ///
    /// Source: "Dalvik Executable format", "header_item", the field `data_off`.
    #[tactic(auto, using(crate::proofs::Frames::data_within))]
    pub fn data_off(&self) -> u32
        ensures off { result ≡ data_off self.now }
        ensures within { result ≤ length self.now }
    {
        header::data_off(self.bytes)
    }

    /// The bytes from an offset on, to the end of the file.
    ///
    /// Condition: the offset is at most the file's length.
    ///
    /// Source: "Dalvik Executable format", where each offset is counted from the start of the file.
    pub fn rest(&self, off: u32) -> &'a [u8]
        requires { off ≤ length self.now }
        ensures { result.now ≡ drop off self.now }
    {
        let (_, rest) = self.bytes.split_at(off as usize);
        rest
    }

    /// Returns whether `len` bytes from an offset on are wholly in the data.
    ///
    /// Source: "Dalvik Executable format", "header_item", the fields `data_off` and `data_size`.
    pub fn is_in_data(&self, off: u32, len: u64) -> bool
        ensures { IsTrue result ↔ IsInData self.now off len }
    {
        let size = self.bytes.len() as u64;
        self.data_off() <= off && u64::from(off) <= size && len <= size - u64::from(off)
    }
}

// Conditions 1 to 3: the bytes begin as a file of this version.
fn check_start(bytes: &[u8]) -> Result<(), Refusal>
    ensures accepted { OnOk result (HoldBelow 4 bytes.now) }
    ensures refused { IfErr result (IsEarly bytes.now) }
{
    require(header::has_size(bytes), Condition::Size, WHOLE)?;
    require(header::has_magic(bytes), Condition::Magic, WHOLE)?;
    let version = header::version(bytes);
    require(version == VERSION, Condition::Version, version)
}

// Conditions 4 to 6: what the header says of itself.
fn check_fields(bytes: &[u8]) -> Result<(), Refusal>
    requires { HoldBelow 4 bytes.now }
    ensures accepted { OnOk result (HoldBelow 7 bytes.now) }
    ensures refused { IfErr result (IsEarly bytes.now) }
{
    require(header::has_lengths(bytes), Condition::Lengths, WHOLE)?;
    require(header::has_endian(bytes), Condition::Endian, WHOLE)?;
    require(header::has_no_link(bytes), Condition::Link, WHOLE)
}

// Conditions 7 and 8: the sums, of a file that meets those before.
fn check_sums(bytes: &[u8]) -> Result<(), Refusal>
    requires { 112 ≤ length bytes.now }
    ensures accepted { OnOk result (HoldBelow 7 bytes.now → HoldBelow 9 bytes.now) }
    ensures refused { IfErr result (λ refusal. HoldBelow 7 bytes.now → IsEarly bytes.now refusal) }
{
    require(header::has_checksum(bytes), Condition::Checksum, WHOLE)?;
    require(header::has_signature(bytes), Condition::Signature, WHOLE)
}

// Conditions 9 and 10, on the offsets of a file that meets those before.
fn check_places(bytes: &[u8]) -> Result<(), Refusal>
    requires { 112 ≤ length bytes.now }
    ensures accepted { OnOk result (HoldBelow 9 bytes.now → IsFrame bytes.now) }
    ensures refused { IfErr result (λ refusal. HoldBelow 9 bytes.now → IsEarly bytes.now refusal) }
{
    require(header::has_layout(bytes), Condition::Layout, WHOLE)?;
    require(map::has_map(bytes), Condition::Map, WHOLE)
}

// Refuses the file at a place by a condition that does not hold.
fn require(holds: bool, condition: Condition, place: u32) -> Result<(), Refusal>
    ensures accepted { IsOk result ↔ IsTrue holds }
    ensures refused { IfErr result (λ refusal.
        refusal ≡ record { number = number (condition_meant condition); place = place }) }
{
    if holds {
        return Ok(());
    }
    Err(Refusal {
        number: condition.number(),
        place,
    })
}
