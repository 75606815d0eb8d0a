//! Code split into pieces: `UNITS ok START/LENGTH,START/LENGTH,..`, or `UNITS`, a fault and its unit.

use dexcases::Printed;
use dexinsn::{CodeFault, Cut, split};
use std::alloc::{AllocError, Global};

/// Returns what is reported of code of these units.
pub fn reported(alloc: Global, units: &[u16]) -> Result<String, AllocError> {
    let fault = match split(alloc, units) {
        Ok(cuts) => return reported_cuts(alloc, &cuts),
        Err(fault) => fault,
    };
    let CodeFault { kind, unit } = fault;
    let name = match kind {
        1 => "Empty",
        2 => "Piece",
        3 => "Target",
        _ => return Err(AllocError),
    };
    format!(in alloc; "{name} {unit}")
}

// Returns the first unit and the number of units of each piece.
fn reported_cuts(alloc: Global, cuts: &[Cut]) -> Result<String, AllocError> {
    let mut answered = Printed::new(alloc);
    answered.add("ok");
    let mut mark = " ";
    for cut in cuts {
        answered.add(mark);
        answered.add_shown(&cut.unit);
        answered.add("/");
        answered.add_shown(&cut.units);
        mark = ",";
    }
    answered.finish()
}
