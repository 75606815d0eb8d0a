//! Texts read: `HEX ok USED UNITS`, or `HEX` and a fault. The units are those of a copy that owns its text.

use dexcases::Printed;
use dexstr::{Name, Text};
use std::alloc::{AllocError, Global};

/// Returns what is reported of the text at the start of these bytes.
pub fn reported(alloc: Global, bytes: &[u8]) -> Result<String, AllocError> {
    match Text::read(bytes, 0) {
        Ok((text, used)) => reported_name(alloc, used, &Name::of(alloc, &text)?),
        Err(fault) => format!(in alloc; "{fault:?}"),
    }
}

// Returns the number of bytes of a text, and the units of a copy of it.
fn reported_name(alloc: Global, used: usize, name: &Name) -> Result<String, AllocError> {
    let copy = name.copy()?;
    let mut words = Printed::new(alloc);
    words.add("ok ");
    words.add_shown(&used);
    words.add(" ");
    print_units(&copy, &mut words);
    words.finish()
}

// Prints the units of a text, each as four digits, or `-` if there are none.
fn print_units(name: &Name, out: &mut Printed) {
    let mut is_empty = true;
    for unit in name.text().units() {
        out.add_hex(u64::from(unit), 4);
        is_empty = false;
    }
    if is_empty {
        out.add("-");
    }
}
