//! Numberings joined: `join files FILE.. are TEXTS TYPES PROTOS FIELDS METHODS / IMAGES / IMAGES ..`. `-` denotes no
//! files. The joined texts and types are listed, and the protos, fields and methods are counted. For each file follow
//! the images of its texts, types, protos, fields and methods. A list has commas between its items, or is `-` if it is
//! empty.

use crate::files::files_of;
use crate::pools::{frame_of, pools_of};
use dexcases::{CaseFault, Folder, Outcome, Printed};
use dexhead::Frame;
use dexpool::{Numbering, Pools, Remap, SymbolKind};
use dexstr::Text;
use std::alloc::{AllocError, Global};
use std::rt::Files;

const KINDS: [SymbolKind; 5] = [
    SymbolKind::Text,
    SymbolKind::Typ,
    SymbolKind::Proto,
    SymbolKind::Field,
    SymbolKind::Method,
];

/// Runs a line. `case` is the text after the word of its kind.
pub fn run<R: Files + AllocGlobal>(
    folder: Folder<'_, R>,
    case: &str,
) -> Result<Outcome, CaseFault> {
    let files = case.strip_prefix("files ").ok_or(CaseFault::Form)?;
    let (names, right) = files.split_once(" are ").ok_or(CaseFault::Form)?;
    let files = files_of(folder, names)?;
    Ok(Outcome::of(joined(folder.alloc(), &files)?, right))
}

// Joins the pools of files, and returns what is printed of them.
fn joined(alloc: Global, files: &[Vec<u8>]) -> Result<String, CaseFault> {
    let mut frames = Vec::new(alloc);
    for file in files {
        frames.push(frame_of(alloc, file)?)?;
    }
    joined_frames(alloc, &frames)
}

// Joins the pools of these frames, and returns what is printed of them.
fn joined_frames(alloc: Global, frames: &[Frame<'_>]) -> Result<String, CaseFault> {
    let mut pools = Vec::new(alloc);
    for frame in frames {
        pools.push(pools_of(alloc, frame)?)?;
    }
    Ok(joined_pools(alloc, &pools)?)
}

// Joins pools, and returns what is printed of them.
fn joined_pools(alloc: Global, pools: &[Pools<'_>]) -> Result<String, AllocError> {
    let mut parts = Vec::new(alloc);
    for part in pools {
        parts.push(part.numbering())?;
    }
    let (numbering, remaps) = Numbering::join(alloc, &parts)?;
    text_of(alloc, &parts, &numbering, &remaps)
}

// Returns what is printed of a numbering that is joined from these parts.
fn text_of(
    alloc: Global,
    parts: &[&Numbering<'_>],
    numbering: &Numbering<'_>,
    remaps: &[Remap],
) -> Result<String, AllocError> {
    let mut text = Printed::new(alloc);
    print_numbering(numbering, &mut text);
    for (part, remap) in parts.iter().zip(remaps) {
        text.add(" /");
        print_images(part, remap, &mut text);
    }
    text.finish()
}

// Prints the texts and the types of a numbering, and the numbers of its protos, fields and methods.
fn print_numbering(numbering: &Numbering<'_>, out: &mut Printed) {
    let mut mark = "";
    for i in 0..numbering.count(SymbolKind::Text) {
        print_text(mark, numbering.string(i), out);
        mark = ",";
    }
    print_none(mark, out);
    out.add(" ");
    mark = "";
    for i in 0..numbering.count(SymbolKind::Typ) {
        print_text(mark, numbering.typ(i), out);
        mark = ",";
    }
    print_none(mark, out);
    for kind in [SymbolKind::Proto, SymbolKind::Field, SymbolKind::Method] {
        out.add(" ");
        out.add_shown(&numbering.count(kind));
    }
}

// Prints a text after a separator.
fn print_text(mark: &str, text: &Text<'_>, out: &mut Printed) {
    out.add(mark);
    for unit in text.units() {
        out.add_unit(unit);
    }
}

// Prints `-` if nothing was listed, that is, if the separator is still empty.
fn print_none(mark: &str, out: &mut Printed) {
    if mark.is_empty() {
        out.add("-");
    }
}

// Prints the images of all numbers of a part.
fn print_images(part: &Numbering<'_>, remap: &Remap, out: &mut Printed) {
    for kind in KINDS {
        out.add(" ");
        let mut mark = "";
        for i in 0..part.count(kind) {
            out.add(mark);
            match remap.image(kind, i) {
                Some(image) => out.add_shown(&image),
                None => out.add("x"),
            }
            mark = ",";
        }
        print_none(mark, out);
    }
}
