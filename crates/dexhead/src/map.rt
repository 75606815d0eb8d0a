//! Condition 10: the map.

ghost use Rattle.std.specs.Prelude.{◌≡◌, ◌≢◌, ◌↔◌, ◌+◌, ◌*◌, ◌≤◌, ◌<◌, All, IsTrue, IfSome, MatchOption, length, take};
ghost use Rattle.std.specs.List.{Contains};
ghost use Rattle.dexspec.specs.Sections.{IsPlaced, HasMap, map_entries};
ghost use Rattle.dexhead.specs.Tables.{meant};
ghost use Rattle.dexhead.specs.internal.Map.{read, entry_of, IsCode, IsInPlace, IsNext, AreInOrder, BeginsWithHeader, IsThere, HaveTables, HaveMap, AreRight};

use crate::header;
use crate::tables::Table;
use dexio::{u16_at, u32_at};

/// The bytes of an entry.
const ENTRY_SIZE: usize = 12;

const HEADER_ITEM: u16 = 0x0000;

const MAP_LIST: u16 = 0x1000;

/// An entry as a file has it.
#[derive(Clone, Copy, PartialEq)]
struct Entry {
    kind: u16,
    size: u32,
    off: u32,
}

impl Entry {
    fn new(kind: u16, size: u32, off: u32) -> Entry
        ensures { read result ≡ record { kind = kind; size = size; off = off } }
    {
        Entry { kind, size, off }
    }
}

/// The entries of a map, which are there.
#[derive(Drop)]
struct Map<'a> {
    bytes: &'a [u8],
    from: usize,
    count: usize,
    ghost long: { 112 ≤ length bytes.now },
    ghost within: { from + 12 * count ≤ length bytes.now },
}

pub(crate) fn has_map(bytes: &[u8]) -> bool
    requires { 112 ≤ length bytes.now }
    ensures { IsTrue result ↔ HasMap bytes.now }
{
    match Map::find(bytes) {
        Some(map) => map.is_right(),
        None => false,
    }
}

fn is_code(kind: u16) -> bool
    ensures { IsTrue result ↔ IsCode kind }
{
    matches!(kind, 0..=6 | 0x1000..=0x1003 | 0x2000..=0x2006)
}

impl<'a> Map<'a> {
    ghost use Rattle.dexhead.specs.internal.Found.{entries};

    #[tactic(auto, unfolding(crate::specs::internal::Found::entries))]
    fn find(bytes: &'a [u8]) -> Option<Map<'a>>
        requires { 112 ≤ length bytes.now }
        ensures place { MatchOption result (IsInPlace bytes.now → ⊥) (λ _. IsInPlace bytes.now) }
        ensures bytes { IfSome result (λ m. m.bytes.now ≡ bytes.now) }
        ensures entries { IfSome result (λ m. entries m ≡ map_entries bytes.now) }
    {
        let off = u32_at(bytes, header::MAP_OFF);
        let from = off as usize + 4;
        if off % 4 != 0 || off < header::data_off(bytes) || bytes.len() < from {
            return None;
        }
        let count = u32_at(bytes, off as usize) as usize;
        if bytes.len() - from < ENTRY_SIZE * count {
            return None;
        }
        Some(Map { bytes, from, count })
    }

    #[inline(always)]
    fn entry(&self, i: usize) -> Entry
        requires { i < self.now.count }
        ensures { read result ≡ entry_of (entries self.now) i }
    {
        let at = self.from + ENTRY_SIZE * i;
        Entry {
            kind: u16_at(self.bytes, at),
            size: u32_at(self.bytes, at + 4),
            off: u32_at(self.bytes, at + 8),
        }
    }

    /// Returns whether none of the first entries is of the kind.
    fn lacks(&self, kind: u16, count: usize) -> bool
        requires { count ≤ self.now.count }
        ensures { IsTrue result ↔ All (λ e. e.kind ≢ kind) (take count (entries self.now)) }
    {
        for i in 0..count {
            if self.entry(i).kind == kind {
                return false;
            }
        }
        true
    }

    fn has(&self, entry: Entry) -> bool
        ensures { IsTrue result ↔ Contains (entries self.now) (read entry) }
    {
        for i in 0..self.count {
            if self.entry(i) == entry {
                return true;
            }
        }
        false
    }

    fn is_right(&self) -> bool
        ensures { IsTrue result ↔ AreRight self.now.bytes.now (entries self.now) }
    {
        self.is_in_order() && self.begins_with_header() && self.has_tables() && self.has_itself()
    }

    fn is_in_order(&self) -> bool
        ensures { IsTrue result ↔ AreInOrder self.now.bytes.now (entries self.now) }
    {
        for i in 0..self.count {
            if !self.is_next(i) {
                return false;
            }
        }
        true
    }

    fn is_next(&self, i: usize) -> bool
        requires { i < self.now.count }
        ensures { IsTrue result ↔ IsNext self.now.bytes.now (entries self.now) i }
    {
        let entry = self.entry(i);
        is_code(entry.kind)
            && self.lacks(entry.kind, i)
            && (i == 0 || self.entry(i - 1).off < entry.off)
            && self.is_placed(entry)
    }

    fn is_placed(&self, entry: Entry) -> bool
        ensures { IsTrue result ↔ IsPlaced self.now.bytes.now (read entry) }
    {
        entry.kind < 7
            || header::data_off(self.bytes) <= entry.off
                && entry.off < u32_at(self.bytes, header::FILE_SIZE)
    }

    fn begins_with_header(&self) -> bool
        ensures { IsTrue result ↔ BeginsWithHeader (entries self.now) }
    {
        self.count > 0 && self.entry(0) == Entry::new(HEADER_ITEM, 1, 0)
    }

    fn has_tables(&self) -> bool
        ensures { IsTrue result ↔ HaveTables self.now.bytes.now (entries self.now) }
    {
        self.has_table(Table::StringIds)
            && self.has_table(Table::TypeIds)
            && self.has_table(Table::ProtoIds)
            && self.has_table(Table::FieldIds)
            && self.has_table(Table::MethodIds)
            && self.has_table(Table::ClassDefs)
    }

    fn has_table(&self, table: Table) -> bool
        ensures { IsTrue result ↔ IsThere self.now.bytes.now (entries self.now) (meant table) }
    {
        match header::table_size(self.bytes, table) {
            0 => self.lacks(table.code(), self.count),
            size => self.has(Entry::new(table.code(), size, header::table_off(self.bytes, table))),
        }
    }

    fn has_itself(&self) -> bool
        ensures { IsTrue result ↔ HaveMap self.now.bytes.now (entries self.now) }
    {
        self.has(Entry::new(MAP_LIST, 1, u32_at(self.bytes, header::MAP_OFF)))
    }
}
