//! The pools of a file, and joins of numberings with parts of its symbols.

ghost use Rattle.std.specs.Prelude.{◌≡◌, length, IfOk};
ghost use Rattle.dexpool.specs.Numberings.{AreMarksOf};

use dexhead::Frame;
use dexpool::{Marks, Numbering, Pools, SymbolKind};
use std::alloc::{AllocError, Global};

/// The kinds of symbol, each with a pool.
const KINDS: [SymbolKind; 5] = [
    SymbolKind::Text,
    SymbolKind::Typ,
    SymbolKind::Proto,
    SymbolKind::Field,
    SymbolKind::Method,
];

/// Returns the number of symbols of all kinds.
pub fn symbols(numbering: &Numbering<'_>) -> usize {
    let mut all = 0usize;
    for k in 0..KINDS.len() {
        all = all.saturating_add(numbering.count(KINDS[k]));
    }
    all
}

/// Returns the number of symbols of all these numberings.
pub fn symbols_of(numberings: &[&Numbering<'_>]) -> usize {
    let mut all = 0usize;
    for numbering in numberings {
        all = all.saturating_add(symbols(numbering));
    }
    all
}

/// Reads the pools, and returns the number of texts; 0 if they are refused.
pub fn read_pools(alloc: Global, frame: &Frame<'_>) -> u64 {
    match Pools::read(alloc, frame) {
        Ok(pools) => pools.len(SymbolKind::Text) as u64,
        Err(_) => 0,
    }
}

// Marks every `parts`-th symbol, beginning with number `part`.
fn mark_some(marks: &mut Vec<bool>, parts: usize, part: usize)
    ensures { length marks.new.items ≡ length marks.old.items }
{
    for i in 0..marks.len() {
        if parts > 0 && i % parts == part {
            marks[i] = true;
        }
    }
}

// Marks the symbols of part `part` of `parts`.
fn marks_of(
    alloc: Global,
    numbering: &Numbering<'_>,
    parts: usize,
    part: usize,
) -> Result<Marks, AllocError>
    ensures { IfOk result (AreMarksOf numbering.now) }
{
    let mut marks = Marks::none(alloc, numbering)?;
    mark_some(&mut marks.strings, parts, part);
    mark_some(&mut marks.types, parts, part);
    mark_some(&mut marks.protos, parts, part);
    mark_some(&mut marks.fields, parts, part);
    mark_some(&mut marks.methods, parts, part);
    Ok(marks)
}

/// Distributes the symbols of a numbering among `parts` numberings: each has every `parts`-th symbol, and the symbols
/// that these name.
pub fn dealt<'a>(
    alloc: Global,
    numbering: &Numbering<'a>,
    parts: usize,
) -> Result<Vec<Numbering<'a>>, AllocError> {
    let mut all = Vec::new(alloc);
    for part in 0..parts {
        let marks = marks_of(alloc, numbering, parts, part)?;
        let (kept, _) = numbering.keep(alloc, &marks)?;
        all.push(kept)?;
    }
    Ok(all)
}

/// Joins numberings, and returns the number of texts; 0 if allocation failed.
pub fn join(alloc: Global, parts: &[&Numbering<'_>]) -> u64 {
    match Numbering::join(alloc, parts) {
        Ok((joined, _)) => joined.count(SymbolKind::Text) as u64,
        Err(_) => 0,
    }
}
