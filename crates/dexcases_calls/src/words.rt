//! Bytes and units in hexadecimal, where `-` denotes an empty list; and names as text.

use dexcases::{CaseFault, Printed};
use dexstr::Name;
use std::alloc::Global;

/// Returns the bytes that a word denotes.
pub fn bytes_in(alloc: Global, word: &str) -> Result<Vec<u8>, CaseFault> {
    if word == "-" {
        return Ok(Vec::new(alloc));
    }
    Ok(hex::decode(alloc, word)?)
}

/// Returns the 16-bit units that a word denotes, four digits each.
pub fn units_in(alloc: Global, word: &str) -> Result<Vec<u16>, CaseFault> {
    let bytes = bytes_in(alloc, word)?;
    let mut units = Vec::new(alloc);
    for unit in bytes.chunks(2) {
        match unit {
            [high, low] => units.push(u16::from_be_bytes([*high, *low]))?,
            _ => return Err(CaseFault::Form),
        }
    }
    Ok(units)
}

/// Prints the text of a name: a unit that is not printable as `\u` and four digits, and `"` and `\` after a `\`.
pub fn print_name(name: &Name, out: &mut Printed) {
    for unit in name.text().units() {
        out.add_unit(unit);
    }
}
