//! Two items of a file compared: a word for their kind, and `FILE PLACE PLACE yes` or `.. no`. Values, arrays, sets and
//! debug programs are compared for equality, looked up in a hash set, and compared under a map. Code and members are
//! compared under a map. For `bare` the debug program of the first code is dropped before.

ghost use Rattle.dexpool.specs.Pools.{ArePools};

use crate::dex_file::DexFile;
use crate::item::Item;
use crate::likeness::Likeness;
use crate::line::Line;
use dexcases::{CaseFault, Outcome, first_word, number};
use std::alloc::Global;

/// Runs a line.
pub fn run(alloc: Global, file: &DexFile<'_>, line: Line<'_>) -> Result<Outcome, CaseFault>
    requires { ArePools file.now.frame file.now.pools }
{
    let (place, right) = first_word(line.rest)?;
    let likeness = likeness_at(alloc, file, line, number(place)?.parse()?)?;
    Ok(Outcome::of(String::from_str(alloc, likeness.word())?, right))
}

// Compares the item of a line with the item at another place.
fn likeness_at(
    alloc: Global,
    file: &DexFile<'_>,
    line: Line<'_>,
    place: u32,
) -> Result<Likeness, CaseFault>
    requires { ArePools file.now.frame file.now.pools }
{
    let mut item = Item::at(alloc, file, line.item_kind()?, line.place)?;
    if line.word == "bare" {
        item.drop_debug();
    }
    likeness_to(alloc, file, line, &item, place)
}

// Compares an item, of the kind that a line names, with the item at a place.
fn likeness_to(
    alloc: Global,
    file: &DexFile<'_>,
    line: Line<'_>,
    item: &Item<'_>,
    place: u32,
) -> Result<Likeness, CaseFault>
    requires { ArePools file.now.frame file.now.pools }
{
    let other = Item::at(alloc, file, line.item_kind()?, place)?;
    Ok(Likeness::of(alloc, file.pools.numbering(), item, &other)?)
}
