//! The least caps under which files merge.

use crate::merging::cause_of;
use dexclass::Program;
use dexmerge::{Caps, MergeFault};
use dexpool::SymbolKind;
use std::alloc::{AllocError, Global};

/// How many caps there are.
pub const CAPS: usize = 6;

// The index of the cap of the texts that `const-string` instructions name.
const SHORT_STRINGS: usize = 4;

const GREATEST: [u32; CAPS] = [65_535, 65_535, 65_536, 65_536, 65_536, 1 << 30];

/// Returns caps of these numbers, or the greatest caps if a number is above its greatest.
pub fn caps_of(numbers: [u32; CAPS]) -> Caps {
    let [types, protos, fields, methods, short_strings, weight] = numbers;
    Caps::new(types, protos, fields, methods, short_strings, weight).unwrap_or(Caps::greatest())
}

/// Returns the numbers of the greatest caps, with this number at this index.
pub fn with_cap(place: usize, number: u32) -> [u32; CAPS] {
    let mut numbers = GREATEST;
    if let Some(cap) = numbers.get_mut(place) {
        *cap = number;
    }
    numbers
}

// Returns how many symbols of a kind a program mentions.
fn mentioned(program: &Program<'_>, kind: SymbolKind) -> u32 {
    u32::try_from(program.numbering().count(kind)).unwrap_or(u32::MAX)
}

// Returns the least cap of the texts that `const-string` instructions name, under which the parts of a program merge.
fn short_strings(
    alloc: Global,
    parts: &[&Program<'_>],
    program: &Program<'_>,
) -> Result<u32, AllocError> {
    let (mut least, mut most) = (0, mentioned(program, SymbolKind::Text));
    for _ in 0..32 {
        if least >= most {
            break;
        }
        let middle = least + (most - least) / 2;
        match cause_of(alloc, parts, &caps_of(with_cap(SHORT_STRINGS, middle))) {
            None => most = middle,
            Some(MergeFault::Memory) => return Err(AllocError),
            Some(_) => least = middle + 1,
        }
    }
    Ok(least)
}

/// Returns the least caps under which the parts of a program merge.
pub fn needed(
    alloc: Global,
    parts: &[&Program<'_>],
    program: &Program<'_>,
) -> Result<[u32; CAPS], AllocError> {
    Ok([
        mentioned(program, SymbolKind::Typ),
        mentioned(program, SymbolKind::Proto),
        mentioned(program, SymbolKind::Field),
        mentioned(program, SymbolKind::Method),
        short_strings(alloc, parts, program)?,
        u32::try_from(program.weight()).unwrap_or(u32::MAX),
    ])
}
