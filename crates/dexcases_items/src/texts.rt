//! Marks and positions of items.
//!
//! `marks KIND FILE OFFSET TEXTS TYPES PROTOS FIELDS METHODS` asks for the numbers of the symbols of each kind that
//! occur, separated by commas, or `-` for none. `positions FILE OFFSET ADDRESS:LINE,ADDRESS:LINE,..` asks for the
//! positions of a debug program, or `-` for none.

ghost use Rattle.dexpool.specs.Pools.{ArePools};
ghost use Rattle.dexcases_items.specs.Items.{IsKnownItem};

use crate::dex_file::DexFile;
use crate::item::Item;
use crate::kind::Kind;
use crate::line::Line;
use dexcases::{CaseFault, Outcome, Printed};
use dexcode::{Debug, positions};
use dexpool::{Marks, Numbering};
use std::alloc::{AllocError, Global};

/// Runs a line.
pub fn run(
    alloc: Global,
    file: &DexFile<'_>,
    kind: Kind,
    line: Line<'_>,
) -> Result<Outcome, CaseFault>
    requires { ArePools file.now.frame file.now.pools }
{
    let answered = text_at(alloc, file, kind, line)?;
    Ok(Outcome::of(answered, line.rest))
}

// Returns what a line asks of the item at its place.
fn text_at(
    alloc: Global,
    file: &DexFile<'_>,
    kind: Kind,
    line: Line<'_>,
) -> Result<String, CaseFault>
    requires { ArePools file.now.frame file.now.pools }
{
    let item = Item::at(alloc, file, line.item_kind()?, line.place)?;
    text_of(alloc, file.pools.numbering(), kind, line, &item)
}

// Returns what a line asks of an item.
fn text_of(
    alloc: Global,
    numbering: &Numbering<'_>,
    kind: Kind,
    line: Line<'_>,
    item: &Item<'_>,
) -> Result<String, CaseFault>
    requires { IsKnownItem numbering.now item.now }
{
    match kind {
        Kind::Marks => marks_text(alloc, numbering, item),
        Kind::Positions => positions_text(alloc, item),
        _ => Err(CaseFault::Form),
    }
}

// Returns the numbers of the symbols that occur in an item. Lines do not ask for directories and members.
fn marks_text(
    alloc: Global,
    numbering: &Numbering<'_>,
    item: &Item<'_>,
) -> Result<String, CaseFault>
    requires { IsKnownItem numbering.now item.now }
{
    if let Item::Directory(_) | Item::Members(_) = item {
        return Err(CaseFault::Form);
    }
    let mut marks = Marks::none(alloc, numbering)?;
    item.mark(numbering, &mut marks);
    Ok(reported_marks(alloc, &marks)?)
}

// Returns the numbers of the marked symbols.
fn reported_marks(alloc: Global, marks: &Marks) -> Result<String, AllocError> {
    let mut text = Printed::new(alloc);
    print_places("", &marks.strings, &mut text);
    print_places(" ", &marks.types, &mut text);
    print_places(" ", &marks.protos, &mut text);
    print_places(" ", &marks.fields, &mut text);
    print_places(" ", &marks.methods, &mut text);
    text.finish()
}

// Prints a text, and then the indices of the set marks, separated by commas, or `-` if there are none.
fn print_places(before: &str, marks: &[bool], out: &mut Printed) {
    out.add(before);
    let mut mark = "";
    for (place, is_set) in marks.iter().enumerate() {
        if *is_set {
            out.add(mark);
            out.add_shown(&place);
            mark = ",";
        }
    }
    if mark.is_empty() {
        out.add("-");
    }
}

// Returns the positions of an item that is a debug program.
fn positions_text(alloc: Global, item: &Item<'_>) -> Result<String, CaseFault> {
    match item {
        Item::Debug(debug) => Ok(reported_positions(alloc, debug)?),
        _ => Err(CaseFault::Form),
    }
}

// Returns the positions of a debug program.
fn reported_positions(alloc: Global, debug: &Debug<'_>) -> Result<String, AllocError> {
    let positions = positions(alloc, debug)?;
    let mut text = Printed::new(alloc);
    text.add_positions(&positions);
    text.finish()
}
