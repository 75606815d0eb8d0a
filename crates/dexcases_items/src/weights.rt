//! Items weighed: a word for the kind, and `FILE PLACE WEIGHT`, the weight of the item at the place. A directory or the
//! members of a class row must be read if they may weigh exactly that, and not if they may only weigh less. For
//! `annotations` the line has the number of bytes of each annotation of a set, and for `lists` that of each list of
//! sets of a directory, separated by commas.

ghost use Rattle.dexpool.specs.Pools.{ArePools};

use crate::checks::check;
use crate::dex_file::DexFile;
use crate::item::{Item, members_at};
use crate::line::Line;
use dexcases::{CaseFault, Outcome, Printed, number};
use dexhead::Condition;
use dexpool::ItemFault;
use dexval::{
    AnnotationSet, Directory, annotation_size, read_shared_directory_within, ref_list_size,
};
use std::alloc::{AllocError, Global};

/// Runs a line.
pub fn run(alloc: Global, file: &DexFile<'_>, line: Line<'_>) -> Result<Outcome, CaseFault>
    requires { ArePools file.now.frame file.now.pools }
{
    let answered = text_at(alloc, file, line)?;
    if let "directory" | "members" = line.word {
        check_within(alloc, file, line, number(line.rest)?.parse()?)?;
    }
    Ok(Outcome::of(answered, line.rest))
}

// Returns what a line asks of the item at its place.
fn text_at(alloc: Global, file: &DexFile<'_>, line: Line<'_>) -> Result<String, CaseFault>
    requires { ArePools file.now.frame file.now.pools }
{
    let item = Item::at(alloc, file, line.item_kind()?, line.place)?;
    Ok(text_of(alloc, line.word, &item)?)
}

// Returns what a line with this word asks of an item.
fn text_of(alloc: Global, word: &str, item: &Item<'_>) -> Result<String, AllocError> {
    let mut text = Printed::new(alloc);
    match item {
        Item::Set(set) if word == "annotations" => print_annotation_sizes(set, &mut text),
        Item::Directory(directory) if word == "lists" => print_list_sizes(directory, &mut text),
        _ => text.add_shown(&item.weight()),
    }
    text.finish()
}

// Prints the number of bytes of each annotation of a set.
fn print_annotation_sizes(set: &AnnotationSet, out: &mut Printed) {
    let mut mark = "";
    for annotation in set.annotations() {
        out.add(mark);
        out.add_shown(&annotation_size(annotation));
        mark = ",";
    }
}

// Prints the number of bytes of each list of sets of a directory.
fn print_list_sizes(directory: &Directory, out: &mut Printed) {
    let mut mark = "";
    for (_, sets) in &directory.parameters {
        out.add(mark);
        out.add_shown(&ref_list_size(sets));
        mark = ",";
    }
}

// Fails a line unless its item is read if it may weigh `weight`, and not if it may only weigh less.
fn check_within(
    alloc: Global,
    file: &DexFile<'_>,
    line: Line<'_>,
    weight: u64,
) -> Result<(), CaseFault> {
    let is_read = is_within(alloc, file, line, weight)?;
    check(alloc, is_read, "it is not read within its weight")?;
    if weight == 0 {
        return Ok(());
    }
    let is_read = is_within(alloc, file, line, weight - 1)?;
    check(alloc, !is_read, "it is read within less than its weight")
}

// Returns whether the item of a line is read if it may weigh at most `most`.
fn is_within(
    alloc: Global,
    file: &DexFile<'_>,
    line: Line<'_>,
    most: u64,
) -> Result<bool, CaseFault> {
    let is_read = match line.word {
        "members" => are_members_within(alloc, file, line.place, most),
        _ => is_directory_within(alloc, file, line.place, most),
    };
    match is_read {
        Ok(is_read) => Ok(is_read),
        Err(ItemFault::Memory) => Err(CaseFault::Memory),
        Err(ItemFault::Refused(number)) => {
            let is_heavy = number == Condition::Weight as u8;
            check(alloc, is_heavy, "it is refused, but not for its weight")?;
            Ok(false)
        }
    }
}

// Returns whether the directory at an offset is read if it may weigh at most `most`. It is refused else.
fn is_directory_within(
    alloc: Global,
    file: &DexFile<'_>,
    off: u32,
    most: u64,
) -> Result<bool, ItemFault> {
    read_shared_directory_within(alloc, &file.frame, &file.pools, off, most)?;
    Ok(true)
}

// Returns whether the members of a class row are read if they may weigh at most `most`.
fn are_members_within(
    alloc: Global,
    file: &DexFile<'_>,
    row: u32,
    most: u64,
) -> Result<bool, ItemFault> {
    match u32::try_from(most) {
        Ok(most) => Ok(members_at(alloc, file, row, most)?.is_some()),
        Err(_) => Ok(false),
    }
}
