//! Conditions 1 to 9: what the header says of the file.

ghost use Rattle.std.specs.Prelude.{◌≡◌, ◌↔◌, ◌+◌, ◌-◌, ◌<◌, ◌≤◌, All, IsTrue, length, slice_index};
ghost use Rattle.dexspec.specs.Header.{HasSize, HasMagic, version, HasLengths, HasEndian, HasNoLink, HasChecksum, IsDigit, tables, table_size, table_off, data_off};
ghost use Rattle.dexspec.specs.Sections.{HasLayout};
ghost use Rattle.dexhead.specs.internal.HeaderChecks.{AreFew, EndsTable, IsLaidOut, has_signature};
ghost use Rattle.dexhead.specs.Tables.{meant};

use crate::tables::Table;
use crate::whole::adler;
use dexio::u32_at;
use sha1::Sha1;

/// The bytes of a header.
pub(crate) const HEADER_SIZE: u32 = 112;

pub(crate) const ENDIAN_CONSTANT: u32 = 0x1234_5678;

// Where the header has its fields `file_size` and `map_off`.
pub(crate) const FILE_SIZE: usize = 32;

pub(crate) const MAP_OFF: usize = 52;

const LEAST_SIZE: usize = 112;

const MOST_SIZE: usize = 1 << 30;

pub(crate) fn has_size(bytes: &[u8]) -> bool
    ensures { IsTrue result ↔ HasSize bytes.now }
{
    LEAST_SIZE <= bytes.len() && bytes.len() <= MOST_SIZE
}

pub(crate) fn has_magic(bytes: &[u8]) -> bool
    requires { 112 ≤ length bytes.now }
    ensures { IsTrue result ↔ HasMagic bytes.now }
{
    bytes.starts_with(b"dex\n") && are_digits(&bytes[4..7]) && bytes[7] == 0
}

fn are_digits(bytes: &[u8]) -> bool
    ensures { IsTrue result ↔ All IsDigit bytes.now }
{
    bytes.iter().all(|&byte| b'0' <= byte && byte <= b'9')
}

pub(crate) fn version(bytes: &[u8]) -> u32
    requires long { 112 ≤ length bytes.now }
    requires magic { HasMagic bytes.now }
    ensures { result ≡ version bytes.now }
{
    100 * digit(bytes, 0) + 10 * digit(bytes, 1) + digit(bytes, 2)
}

fn digit(bytes: &[u8], i: usize) -> u32
    requires long { 112 ≤ length bytes.now }
    requires magic { HasMagic bytes.now }
    requires one { i < 3 }
    ensures value { result ≡ slice_index bytes.now (4 + i) - 0x30 }
    ensures digit { result < 10 }
{
    let digits = &bytes[4..7];
    u32::from(digits[i] - b'0')
}

pub(crate) fn has_lengths(bytes: &[u8]) -> bool
    requires { 112 ≤ length bytes.now }
    ensures { IsTrue result ↔ HasLengths bytes.now }
{
    u32_at(bytes, FILE_SIZE) as usize == bytes.len() && u32_at(bytes, 36) == HEADER_SIZE
}

pub(crate) fn has_endian(bytes: &[u8]) -> bool
    requires { 112 ≤ length bytes.now }
    ensures { IsTrue result ↔ HasEndian bytes.now }
{
    u32_at(bytes, 40) == ENDIAN_CONSTANT
}

pub(crate) fn has_no_link(bytes: &[u8]) -> bool
    requires { 112 ≤ length bytes.now }
    ensures { IsTrue result ↔ HasNoLink bytes.now }
{
    u32_at(bytes, 44) == 0 && u32_at(bytes, 48) == 0
}

pub(crate) fn has_checksum(bytes: &[u8]) -> bool
    requires { 112 ≤ length bytes.now }
    ensures { IsTrue result ↔ HasChecksum bytes.now }
{
    let (_, rest) = bytes.split_at(12);
    u32_at(bytes, 8) == adler(rest)
}

#[tactic(auto, unfolding(crate::specs::internal::HeaderChecks::has_signature))]
pub(crate) fn has_signature(bytes: &[u8]) -> bool
    requires { 112 ≤ length bytes.now }
    ensures { result ≡ has_signature bytes.now }
{
    let (_, rest) = bytes.split_at(12);
    let (signature, rest) = rest.split_at(20);
    signature == Sha1::digest(rest).as_slice()
}

/// The number of rows that the header says a table has.
pub(crate) fn table_size(bytes: &[u8], table: Table) -> u32
    requires { 112 ≤ length bytes.now }
    ensures { result ≡ table_size bytes.now (meant table) }
{
    u32_at(bytes, table.size_place())
}

/// Where the header says that its rows begin.
pub(crate) fn table_off(bytes: &[u8], table: Table) -> u32
    requires { 112 ≤ length bytes.now }
    ensures { result ≡ table_off bytes.now (meant table) }
{
    u32_at(bytes, table.size_place() + 4)
}

pub(crate) fn data_off(bytes: &[u8]) -> u32
    requires { 112 ≤ length bytes.now }
    ensures { result ≡ data_off bytes.now }
{
    u32_at(bytes, 108)
}

#[tactic(auto, using(crate::proofs::HeaderChecks::has_layout, crate::proofs::HeaderChecks::laid_out, crate::proofs::HeaderChecks::few))]
pub(crate) fn has_layout(bytes: &[u8]) -> bool
    requires { 112 ≤ length bytes.now }
    ensures { IsTrue result ↔ HasLayout bytes.now }
{
    let data_end = u64::from(data_off(bytes)) + u64::from(u32_at(bytes, 104));
    data_end == u64::from(u32_at(bytes, FILE_SIZE)) && are_few(bytes) && are_laid_out(bytes)
}

fn are_few(bytes: &[u8]) -> bool
    requires { 112 ≤ length bytes.now }
    ensures { IsTrue result ↔ AreFew bytes.now }
{
    table_size(bytes, Table::TypeIds) <= 65535
        && table_size(bytes, Table::ProtoIds) <= 65535
        && table_size(bytes, Table::FieldIds) <= 65536
        && table_size(bytes, Table::MethodIds) <= 65536
}

fn are_laid_out(bytes: &[u8]) -> bool
    requires { 112 ≤ length bytes.now }
    ensures { IsTrue result ↔ IsLaidOut bytes.now 112 tables }
{
    let mut end = u64::from(HEADER_SIZE);
    for table in [
        Table::StringIds,
        Table::TypeIds,
        Table::ProtoIds,
        Table::FieldIds,
        Table::MethodIds,
        Table::ClassDefs,
    ] {
        match end_of(bytes, table, end) {
            Some(next) => end = next,
            None => return false,
        }
    }
    end <= u64::from(data_off(bytes))
}

/// Where the table ends, if it is well placed from here on; an empty one ends here.
fn end_of(bytes: &[u8], table: Table, from: u64) -> Option<u64>
    requires { 112 ≤ length bytes.now }
    ensures { EndsTable bytes.now from (meant table) result }
{
    let size = table_size(bytes, table);
    let off = table_off(bytes, table);
    if size == 0 {
        return (off == 0).then_some(from);
    }
    let end = u64::from(off) + u64::from(table.row_size()) * u64::from(size);
    (off % 4 == 0 && from <= u64::from(off)).then_some(end)
}
