//! The map of a file.

ghost use Rattle.std.specs.Prelude.{◌≡◌, ◌<◌, ◌≤◌, ◌^◌, ◌+◌, ◌++◌, length, map, IfOk, OnOk};
ghost use Rattle.dexhead.specs.Written.{entry_meant};
ghost use Rattle.dexlayout.specs.internal.Parts.{count_placed};
ghost use Rattle.dexlayout.specs.internal.Placing.{parts_in, full_parts, placed_map, whole_map};

use crate::items::Items;
use crate::tables::entry;
use dexhead::{MapEntry, MapList, Section};
use std::alloc::{AllocError, Global};

/// How many items there are: as many as offsets that are not 0.
pub(crate) fn count_placed(offsets: &[u32]) -> usize
    ensures { result ≡ count_placed offsets.now }
{
    offsets.iter().filter(|off| **off != 0).count()
}

// The entries of a map: the header's, those of the parts that are not empty, tables before sections, and the map's
// own.
fn map_entries(
    alloc: Global,
    tables: &[MapEntry],
    sections: &[MapEntry],
    map_off: u32,
) -> Result<Vec<MapEntry>, AllocError>
    requires few { length tables.now + length sections.now < 100 }
    ensures { IfOk result (λ entries. map entry_meant entries.items
        ≡ whole_map tables.now sections.now map_off) }
{
    let mut entries = Vec::with_capacity(alloc, 2 + tables.len() + sections.len())?;
    entries.push(entry(Section::HeaderItem, 1, 0))?;
    push_parts(tables, &mut entries)?;
    push_parts(sections, &mut entries)?;
    entries.push(entry(Section::MapList, 1, map_off))?;
    Ok(entries)
}

// Appends the entries of the parts that are not empty.
fn push_parts(parts: &[MapEntry], entries: &mut Vec<MapEntry>) -> Result<(), AllocError>
    ensures { OnOk result (parts_in entries.new.items ≡ parts_in entries.old.items
        ++ full_parts parts.now) }
{
    for part in parts {
        if part.size > 0 {
            entries.push(*part)?;
        }
    }
    Ok(())
}

/// The map, encoded, and its offset. It is after the sections of the data, which end at `from`.
///
/// Condition: it ends within what a file may have.
///
/// Source: "map_list".
pub(crate) fn place_map(
    alloc: Global,
    tables: &[MapEntry],
    sections: &[MapEntry],
    from: u32,
) -> Result<Items, AllocError>
    requires few { length tables.now + length sections.now < 100 }
    requires fits { (placed_map tables.now sections.now from).places.end ≤ 2 ^ 30 }
    ensures { IfOk result (λ map. map ≡ placed_map tables.now sections.now from) }
{
    let mut items = Items::starting_at(alloc, from, 1)?;
    items.align()?;
    let entries = map_entries(alloc, tables, sections, items.places.end())?;
    let before = items.bytes.len();
    MapList { entries: &entries }.put(&mut items.bytes)?;
    items.end_item(before)?;
    Ok(items)
}
