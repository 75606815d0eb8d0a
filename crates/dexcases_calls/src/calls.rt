//! Lines of files of calls: each asks for one call.

mod debug;
mod flags;
mod leb;
mod names;
mod opcodes;
mod puts;
mod split;
mod sums;
mod text;

use crate::kind::Kind;
use crate::words::{bytes_in, units_in};
use dexcases::{CaseFault, Outcome, first_word};
use std::alloc::Global;

/// Runs a line of a file of calls of this kind.
pub fn run_call(alloc: Global, kind: Kind, line: &str) -> Result<Outcome, CaseFault> {
    let (word, rest) = first_word(line)?;
    let (number, right) = match kind {
        Kind::Puts | Kind::Flags => first_word(rest)?,
        _ => ("", rest),
    };
    let answered = reported(alloc, kind, word, number)?;
    Ok(Outcome::of(answered, right))
}

// Calls for the first word of a line, and for the number after it if the kind of line has one, and returns what is
// reported.
fn reported(alloc: Global, kind: Kind, word: &str, number: &str) -> Result<String, CaseFault> {
    match kind {
        Kind::Puts => puts::reported(alloc, word, number),
        Kind::Flags => flags::reported(alloc, word, number),
        Kind::Opcodes => opcodes::reported(alloc, word),
        Kind::Names | Kind::Split => {
            let units = units_in(alloc, word)?;
            reported_of_units(alloc, kind, &units)
        }
        _ => {
            let bytes = bytes_in(alloc, word)?;
            reported_of_bytes(alloc, kind, &bytes)
        }
    }
}

// Returns what is reported of units.
fn reported_of_units(alloc: Global, kind: Kind, units: &[u16]) -> Result<String, CaseFault> {
    match kind {
        Kind::Names => names::reported(alloc, units),
        _ => Ok(split::reported(alloc, units)?),
    }
}

// Returns what is reported of bytes.
fn reported_of_bytes(alloc: Global, kind: Kind, bytes: &[u8]) -> Result<String, CaseFault> {
    match kind {
        Kind::Leb => Ok(leb::reported(alloc, bytes)?),
        Kind::Text => Ok(text::reported(alloc, bytes)?),
        Kind::Debug => debug::reported(alloc, bytes),
        Kind::Sums => Ok(sums::reported(alloc, bytes)?),
        _ => Err(CaseFault::Form),
    }
}
