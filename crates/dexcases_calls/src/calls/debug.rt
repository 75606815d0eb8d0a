//! Positions of debug programs: `HEX ok ADDRESS:LINE,ADDRESS:LINE,..`, where `-` denotes no positions, or
//! `HEX refused NUMBER`.

use crate::pools::{frame_of, pools_of};
use dexcases::{CaseFault, Printed};
use dexcode::{Debug, positions, read_debug};
use dexhead::{Frame, Head, MapEntry, MapList, Rows, Section, set_sums};
use dexpool::{ItemFault, Pools};
use std::alloc::{AllocError, Global};

const HEADER_SIZE: u32 = 112;

const MAP_SIZE: u32 = 28;

// The offset of the item, which ends with the file.
const ITEM: u32 = HEADER_SIZE + MAP_SIZE;

/// Returns what is reported of an item of these bytes.
pub fn reported(alloc: Global, item: &[u8]) -> Result<String, CaseFault> {
    let file = file_around(alloc, item)?;
    reported_in(alloc, &file)
}

// Returns what is reported of the item in a file.
fn reported_in(alloc: Global, file: &[u8]) -> Result<String, CaseFault> {
    let frame = frame_of(alloc, file)?;
    let pools = pools_of(alloc, &frame)?;
    Ok(reported_of(alloc, &frame, &pools)?)
}

// Returns what is reported of the item in a file with these pools.
fn reported_of(alloc: Global, frame: &Frame<'_>, pools: &Pools<'_>) -> Result<String, AllocError> {
    match read_debug(alloc, frame, pools, ITEM) {
        Ok(debug) => reported_positions(alloc, &debug),
        Err(ItemFault::Refused(number)) => format!(in alloc; "refused {number}"),
        Err(ItemFault::Memory) => Err(AllocError),
    }
}

// Returns the positions of a debug program as text.
fn reported_positions(alloc: Global, debug: &Debug<'_>) -> Result<String, AllocError> {
    let positions = positions(alloc, debug)?;
    let mut text = Printed::new(alloc);
    text.add("ok ");
    text.add_positions(&positions);
    text.finish()
}

// Returns a file without tables, whose data is the map and then the item.
fn file_around(alloc: Global, item: &[u8]) -> Result<Vec<u8>, CaseFault> {
    let Ok(item_size) = u32::try_from(item.len()) else {
        return Err(CaseFault::Form);
    };
    let file_size = item_size.checked_add(ITEM).ok_or(CaseFault::Form)?;
    let head = Head {
        checksum: 0,
        signature: [0; 20],
        file_size,
        map_off: HEADER_SIZE,
        tables: [Rows { size: 0, off: 0 }; 6],
        data_size: file_size - HEADER_SIZE,
        data_off: HEADER_SIZE,
    };
    let entries = [
        MapEntry {
            section: Section::HeaderItem,
            size: 1,
            off: 0,
        },
        MapEntry {
            section: Section::MapList,
            size: 1,
            off: HEADER_SIZE,
        },
    ];
    let mut file = Vec::new(alloc);
    head.put(&mut file)?;
    MapList { entries: &entries }.put(&mut file)?;
    file.extend_from_slice(item)?;
    set_sums(&mut file);
    Ok(file)
}
