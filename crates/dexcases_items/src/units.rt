//! The units of code: `FILE OFFSET INDICES UNITS`, with the number of symbols that occur in the code, and its units in
//! order, with zero for the units of indices.

use crate::dex_file::DexFile;
use crate::line::Line;
use dexcases::{CaseFault, Outcome, Printed};
use dexinsn::{Pieces, read_pieces};
use dexpool::ItemFault;
use std::alloc::{AllocError, Global};

/// Runs a line.
pub fn run(alloc: Global, file: &DexFile<'_>, line: Line<'_>) -> Result<Outcome, CaseFault> {
    match read_pieces(alloc, &file.frame, &file.pools, line.place) {
        Ok(pieces) => Ok(Outcome::of(text_of(alloc, &pieces)?, line.rest)),
        Err(ItemFault::Refused(_)) => Err(CaseFault::failed(alloc, "no code")),
        Err(ItemFault::Memory) => Err(CaseFault::Memory),
    }
}

// Returns the number of symbols that occur in pieces, and their units.
fn text_of(alloc: Global, pieces: &Pieces<'_>) -> Result<String, AllocError> {
    let mut text = Printed::new(alloc);
    text.add_shown(&pieces.symbol_count());
    text.add(" ");
    for i in 0..pieces.units() {
        text.add_hex(u64::from(pieces.unit(i)), 4);
    }
    text.finish()
}
