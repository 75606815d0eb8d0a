ghost use Rattle.std.specs.Prelude.{◌≡◌, ◌<◌, ◌^◌, [], Result, IfErr, IfOk, length};
ghost use Rattle.dexspec.specs.Pieces.{IsCode};
ghost use Rattle.dexinsn.specs.declared.code.SplitFault.TheVariants.{Memory};
ghost use Rattle.dexinsn.specs.internal.LongSwitches.{ArePayloads};
ghost use Rattle.dexinsn.specs.Checking.{AreBitsOf, begins_instruction, is_noted};
ghost use Rattle.dexinsn.specs.Split.{IsFault, cuts_of, first_bad_target, IsOnlyResult};
ghost use Rattle.dexinsn.specs.internal.Checking.{AreCutWhole};
ghost use Rattle.dexinsn.specs.internal.Splitting.{HasNumbersOf, IsCutFault, IsSplitFault};

use crate::checking::{TargetChecker, note};
use crate::code_fault::CodeFault;
use crate::code_units::Units;
use crate::long_switches::LongSwitches;
use crate::piece_step::piece_size;
use crate::scratch::wipe;
use std::alloc::{AllocError, Global};

/// An instruction or payload: its first 16-bit unit, and its number of units.
#[derive(Clone, Copy, Debug, PartialEq, Eq)]
pub struct Cut {
    pub unit: usize,
    pub units: usize,
}

// Why units are not split, by name.
#[derive(Clone, Copy)]
enum SplitFault {
    // There are no units.
    Empty,
    // The units before this one are cut, and no instruction or payload begins at this one.
    Piece(usize),
    // All units are cut, and the instruction at this one has a wrong target, the ones before it right ones.
    Target(usize),
    // An allocation failed.
    Memory,
}

impl From<AllocError> for SplitFault {
    ghost from_gives = { λ _ fault. fault ≡ Memory };

    fn from(_: AllocError) -> SplitFault {
        SplitFault::Memory
    }
}

impl From<SplitFault> for CodeFault {
    ghost from_gives = { HasNumbersOf };

    fn from(fault: SplitFault) -> CodeFault {
        match fault {
            SplitFault::Empty => CodeFault { kind: 1, unit: 0 },
            SplitFault::Piece(unit) => CodeFault { kind: 2, unit },
            SplitFault::Target(unit) => CodeFault { kind: 3, unit },
            SplitFault::Memory => CodeFault { kind: 4, unit: 0 },
        }
    }
}

// Cuts units to their end, and sets the bits of the pieces.
fn cut_units(
    alloc: Global,
    units: &Units<'_>,
    starts: &mut Vec<u64>,
    noted: &mut Vec<u64>,
) -> Result<Vec<Cut>, SplitFault>
    requires starts { AreBitsOf begins_instruction units.now [] starts.old.items }
    requires noted { AreBitsOf is_noted units.now [] noted.old.items }
    ensures cuts { IfOk result (λ cuts.
        AreCutWhole units.now starts.new.items noted.new.items cuts.items) }
    ensures fault { IfErr result (IsCutFault units.now) }
{
    let mut cuts = Vec::new(alloc);
    let mut at = 0;
    while at < units.len() {
        let Some(size) = piece_size(at, &units.rest(at)) else {
            return Err(SplitFault::Piece(at));
        };
        let piece = Cut {
            unit: at,
            units: size,
        };
        if cuts.push(piece).is_err() {
            return Err(SplitFault::Memory);
        }
        note(units, at, starts, noted);
        at += size;
    }
    Ok(cuts)
}

// The unit of the first of the pieces with a wrong target, if there is one.
fn first_bad_target(checker: &TargetChecker<'_, '_>, cuts: &[Cut]) -> Option<usize>
    requires small { length checker.now.units.now < 2 ^ 62 }
    requires cuts { AreCutWhole checker.now.units.now checker.now.starts.now checker.now.noted.now
        cuts.now }
    requires switches { ArePayloads checker.now.units.now checker.now.switches.now.groups }
    ensures { result ≡ first_bad_target checker.now.units.now (cuts_of cuts.now) }
{
    for cut in cuts {
        if !checker.piece_targets_right(cut.unit) {
            return Some(cut.unit);
        }
    }
    None
}

// Cuts units that are code.
fn split_units(alloc: Global, units: &Units<'_>) -> Result<Vec<Cut>, SplitFault>
    requires { 0 < length units.now }
    ensures code { IfOk result (λ cuts. IsCode units.now (cuts_of cuts.items)) }
    ensures fault { IfErr result (IsSplitFault units.now) }
{
    let words = units.len() / 64 + 2;
    let mut starts = Vec::new(alloc);
    wipe(&mut starts, words)?;
    let mut noted = Vec::new(alloc);
    wipe(&mut noted, words)?;
    let cuts = cut_units(alloc, units, &mut starts, &mut noted)?;
    let switches = LongSwitches::find(alloc, units, &noted)?;
    let checker = TargetChecker {
        units,
        starts: &starts,
        noted: &noted,
        switches: &switches,
    };
    match first_bad_target(&checker, &cuts) {
        Some(unit) => Err(SplitFault::Target(unit)),
        None => Ok(cuts),
    }
}

/// Cuts 16-bit code units, from the first one on and without gaps, into instructions and payloads, in
/// order.
///
/// Error: of kind 1 where there are no units; else 2 at the first unit where an instruction or payload should begin and
/// none does; else 3 at the first instruction that branches to what is no start of an instruction, or refers to what is
/// no start of a payload of its kind, or to a switch with a wrong target. It is of kind 4 where an allocation failed.
///
/// Sources: the Android pages "Dalvik bytecode", with its three headings on payloads, and "Dalvik
/// executable instruction formats".
pub fn split(alloc: Global, units: &[u16]) -> Result<Vec<Cut>, CodeFault>
    ensures code { IfOk result (λ cuts. IsCode units.now (cuts_of cuts.items)) }
    ensures fault { IfErr result (IsFault units.now) }
    ensures only { IsOnlyResult units.now result }
{
    if units.is_empty() {
        return Err(SplitFault::Empty.into());
    }
    Ok(split_units(alloc, &Units::of_numbers(units))?)
}
