//! Files that a test builds around its items.

use dexhead::{Head, MapEntry, MapList, Rows, Section, set_sums};
use std::alloc::Global;

const HEADER_SIZE: u32 = 112;

const MAP_SIZE: u32 = 28;

/// The offset of the first item of such a file.
pub const ITEMS: u32 = HEADER_SIZE + MAP_SIZE;

/// Returns a file without tables, whose data is the map and then the items.
pub fn file_with(alloc: Global, items: &[u8]) -> Option<Vec<u8>> {
    let data_size = u32::try_from(items.len()).ok()?.checked_add(MAP_SIZE)?;
    let head = Head {
        checksum: 0,
        signature: [0; 20],
        file_size: data_size.checked_add(HEADER_SIZE)?,
        map_off: HEADER_SIZE,
        tables: [Rows { size: 0, off: 0 }; 6],
        data_size,
        data_off: HEADER_SIZE,
    };
    let entries = [
        MapEntry {
            section: Section::HeaderItem,
            size: 1,
            off: 0,
        },
        MapEntry {
            section: Section::MapList,
            size: 1,
            off: HEADER_SIZE,
        },
    ];
    let mut file = Vec::new(alloc);
    head.put(&mut file).ok()?;
    MapList { entries: &entries }.put(&mut file).ok()?;
    file.extend_from_slice(items).ok()?;
    set_sums(&mut file);
    Some(file)
}
