//! Items read: `FILE PLACE ok ITEM`, or `FILE PLACE refused NUMBER | NUMBER ..`, of which any is right. PLACE is an
//! offset, or the number of a class row. ITEM is the item as text; before a value is its number of bytes. An item that
//! is read is also copied, its symbols are marked, its numbers are mapped to a numbering of just these symbols, and it
//! is compared with the result.

ghost use Rattle.std.specs.Prelude.{◌≡◌};
ghost use Rattle.dexpool.specs.Pools.{ArePools};
ghost use Rattle.dexcases_items.specs.Items.{IsKnownItem, item_uses};

use crate::checks::{check, check_bytes};
use crate::dex_file::DexFile;
use crate::item::Item;
use crate::item_kind::ItemKind;
use crate::item_remaps::{are_same_pieces, as_it_is, is_remapped_to, kept};
use crate::likeness::Likeness;
use crate::line::Line;
use crate::offsets::number_after;
use crate::shown::print_item;
use dexcases::{CaseFault, FIRST_OF_CLASSES, Outcome, Printed};
use dexinsn::{Pieces, put_pieces, read_pieces, renumber};
use dexpool::{ItemFault, Numbering, Remap};
use std::alloc::{AllocError, Global};

/// Runs a line.
pub fn run(
    alloc: Global,
    file: &DexFile<'_>,
    kind: ItemKind,
    line: Line<'_>,
) -> Result<Outcome, CaseFault>
    requires { ArePools file.now.frame file.now.pools }
{
    match Item::read(alloc, file, kind, line.place) {
        Ok(item) => check_item(alloc, file, line, &item),
        Err(ItemFault::Refused(number)) => refused(alloc, number, line.rest),
        Err(ItemFault::Memory) => Err(CaseFault::Memory),
    }
}

// Returns the outcome of a line whose item is read.
fn check_item(
    alloc: Global,
    file: &DexFile<'_>,
    line: Line<'_>,
    item: &Item<'_>,
) -> Result<Outcome, CaseFault>
    requires { IsKnownItem file.now.pools item.now }
{
    check_calls(alloc, file, line.place, item)?;
    let reported = reported(alloc, "ok ", file.pools.numbering(), item)?;
    Ok(Outcome::of(reported, line.rest))
}

/// Returns the outcome of a line whose item is refused: it passes if `right` is `refused NUMBER | NUMBER ..` with this
/// number; a number below 17 must be the only one.
pub fn refused(alloc: Global, number: u8, right: &str) -> Result<Outcome, CaseFault> {
    if is_listed(alloc, number, right.strip_prefix("refused ").unwrap_or(""))? {
        return Ok(Outcome::Passed);
    }
    Ok(Outcome::Failed(format!(in alloc; "refused {number}")?))
}

// Returns whether a line lists this number.
fn is_listed(alloc: Global, number: u8, listed: &str) -> Result<bool, AllocError> {
    if number < FIRST_OF_CLASSES && listed.split_once(" | ").is_some() {
        return Ok(false);
    }
    let word = format!(in alloc; "{number}")?;
    Ok(listed.split(" | ").any(|one| one == word.as_str()))
}

// Returns the text of an item, after a word.
fn reported(
    alloc: Global,
    word: &str,
    numbering: &Numbering<'_>,
    item: &Item<'_>,
) -> Result<String, AllocError> {
    let mut text = Printed::new(alloc);
    text.add(word);
    print_item(item, numbering, &mut text);
    text.finish()
}

// Fails the line unless the other calls on an item are right.
fn check_calls(
    alloc: Global,
    file: &DexFile<'_>,
    place: u32,
    item: &Item<'_>,
) -> Result<(), CaseFault>
    requires { IsKnownItem file.now.pools item.now }
{
    check_copy(alloc, file.pools.numbering(), item)?;
    match item {
        Item::Code(code) => check_pieces(alloc, file, place, code.pieces()),
        _ => Ok(()),
    }
}

// Fails the line unless a copy of an item, if there is one, is the same, and is mapped right.
fn check_copy(alloc: Global, numbering: &Numbering<'_>, item: &Item<'_>) -> Result<(), CaseFault>
    requires { IsKnownItem numbering.now item.now }
{
    match item.copy() {
        Ok(Some(mut copy)) => {
            check_likeness(alloc, numbering, &copy, item, true)?;
            check_remap(alloc, numbering, item, &mut copy)
        }
        Ok(None) => Ok(()),
        Err(_) => Err(CaseFault::Memory),
    }
}

// Fails the line unless a copy of an item, mapped or not, compares equal to the item if and only if `should_be_equal`.
fn check_likeness(
    alloc: Global,
    numbering: &Numbering<'_>,
    copy: &Item<'_>,
    item: &Item<'_>,
    should_be_equal: bool,
) -> Result<(), CaseFault> {
    let likeness = Likeness::of(alloc, numbering, copy, item)?;
    let is_right = likeness.word() == if should_be_equal { "yes" } else { "no" };
    check(
        alloc,
        is_right,
        "a copy is another, or with other numbers the same",
    )
}

// Maps a copy of an item to a numbering of just its symbols, if items of its kind can be mapped. Fails the line unless
// the copy is equal to the item if and only if no number changed, and both print the same.
fn check_remap<'i>(
    alloc: Global,
    numbering: &Numbering<'_>,
    item: &Item<'i>,
    copy: &mut Item<'i>,
) -> Result<(), CaseFault>
    requires known { IsKnownItem numbering.now item.now }
    requires same { item_uses copy.old ≡ item_uses item.now }
{
    if matches!(item, Item::Debug(_) | Item::Directory(_) | Item::Members(_)) {
        return Ok(());
    }
    let (others, remap) = kept(alloc, numbering, item)?;
    if !copy.apply_remap(&remap) {
        return Err(CaseFault::failed(alloc, "a marked symbol is not kept"));
    }
    check_remapped(alloc, numbering, item, copy, &others, &remap)
}

// Checks the copy that is mapped.
fn check_remapped<'i>(
    alloc: Global,
    numbering: &Numbering<'_>,
    item: &Item<'i>,
    remapped: &Item<'i>,
    kept: &Numbering<'_>,
    remap: &Remap,
) -> Result<(), CaseFault> {
    let is_remapped = is_remapped_to(alloc, item, remap, remapped, kept)?;
    check(alloc, is_remapped, "its numbers are mapped elsewhere")?;
    let text = reported(alloc, "", numbering, item)?;
    let text_kept = reported(alloc, "", kept, remapped)?;
    check(alloc, text == text_kept, "remapped it prints otherwise")?;
    // With one numbering both print the same if and only if their numbers are the same.
    let has_same_numbers = reported(alloc, "", numbering, remapped)? == text;
    check_likeness(alloc, numbering, remapped, item, has_same_numbers)
}

// Fails the line unless the pieces of the code at an offset are read without the rest of the code, and put as the bytes
// of the file.
fn check_pieces(
    alloc: Global,
    file: &DexFile<'_>,
    off: u32,
    others: &Pieces<'_>,
) -> Result<(), CaseFault> {
    match read_pieces(alloc, &file.frame, &file.pools, off) {
        Ok(pieces) => check_read_pieces(alloc, file, off, &pieces, others),
        Err(ItemFault::Memory) => Err(CaseFault::Memory),
        Err(ItemFault::Refused(_)) => Err(CaseFault::failed(alloc, "the pieces are refused")),
    }
}

// Checks the pieces that are read.
fn check_read_pieces(
    alloc: Global,
    file: &DexFile<'_>,
    off: u32,
    pieces: &Pieces<'_>,
    others: &Pieces<'_>,
) -> Result<(), CaseFault> {
    let numbering = file.pools.numbering();
    let are_same = are_same_pieces(alloc, numbering, pieces, others)?;
    check(alloc, are_same, "the pieces are others")?;
    let units = copied_units(alloc, numbering, pieces)?;
    let bytes = file.frame.bytes();
    let put = check_bytes(alloc, bytes, off.saturating_add(16), &units)?;
    let is_whole = put as u64 == 2 * u64::from(number_after(bytes, off, 12));
    check(alloc, is_whole, "another number of units")
}

// Returns the units that a copy of pieces is put as, after its numbers are mapped to themselves.
fn copied_units(
    alloc: Global,
    numbering: &Numbering<'_>,
    pieces: &Pieces<'_>,
) -> Result<Vec<u8>, AllocError> {
    let remap = as_it_is(alloc, numbering)?;
    let mut copy = pieces.copy()?;
    if copy.fits(&remap) {
        renumber(&mut copy, &remap);
    }
    let mut out = Vec::new(alloc);
    put_pieces(&copy, numbering, &mut out)?;
    Ok(out)
}
