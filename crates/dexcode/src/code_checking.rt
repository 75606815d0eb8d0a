//! Code items checked, with nothing kept of them.

ghost use Rattle.std.specs.Prelude.{◌^◌, ◌<◌, ◌≤◌, ◌+◌, ◌*◌, length, IfOk, IfErr, OnOk};
ghost use Rattle.dexspec.specs.Bytes.{uint_at};
ghost use Rattle.dexpool.specs.Pools.{ArePools};
ghost use Rattle.dexdebug.specs.Checking.{AreCheckedDebugs};
ghost use Rattle.dexcode.specs.Checking.{HasCodeOf, HasProgramOf, HaveTriesOf, IsProgramFault};
ghost use Rattle.dexcode.specs.Reading.{IsCodeFault, IsTriesFault};
ghost use Rattle.dexcode.specs.internal.TriesReading.{HasNoTries};

use crate::code_laws::code_weight_law;
use crate::code_len::tries_weight;
use crate::tries_reader::TriesReader;
use dexdebug::{CheckedDebugs, checked_debug_at};
use dexhead::{Frame, u32_at};
use dexinsn::{Scratch, check_pieces};
use dexpool::{ItemFault, Pools, SymbolKind};
use std::alloc::Global;

/// The result of the check of a code_item.
#[derive(Clone, Copy, Debug, PartialEq, Eq)]
pub struct CodeShape {
    /// Its weight with its debug program.
    pub weight: u64,
}

impl TriesReader<'_, '_> {
    // Checks the tries of the code_item at an offset, whose units are in the data, and returns what they weigh.
    fn check_tries(&self, off: usize) -> Result<u64, ItemFault>
        requires { off + 16 + 2 * uint_at self.now.bytes.now (off + 12)
            ≤ length self.now.bytes.now }
        ensures tries { IfOk result
            (HaveTriesOf self.now.starts.now self.now.types self.now.bytes.now off) }
        ensures light { IfOk result (λ weight. weight < 2 ^ 20) }
        ensures fault { IfErr result (IsTriesFault
            (HasNoTries self.now.starts.now self.now.types self.now.bytes.now off)) }
    {
        let tries = self.read_tries(off)?;
        Ok(tries.map_or(0, |tries| tries_weight(&tries.as_tries())))
    }
}

// Checks the debug program of the code_item at an offset, and returns what it weighs; 0 where there is none.
fn check_program(
    frame: &Frame<'_>,
    pools: &Pools<'_>,
    off: u32,
    checked: &mut CheckedDebugs,
) -> Result<u64, ItemFault>
    requires within { off + 16 ≤ length frame.now }
    requires checked { ArePools frame.now pools.now → AreCheckedDebugs frame.now checked.old }
    ensures checked { ArePools frame.now pools.now
        → OnOk result (AreCheckedDebugs frame.now checked.new) }
    ensures program { ArePools frame.now pools.now → IfOk result (HasProgramOf frame.now off) }
    ensures refused { ArePools frame.now pools.now → IfErr result (IsProgramFault frame.now off) }
{
    let debug_off = u32_at(frame.bytes(), off as usize + 8);
    if debug_off == 0 {
        return Ok(0);
    }
    checked_debug_at(frame, pools, debug_off, checked)
}

/// Checks the code_item at an offset, whose indices count in the pools: those of the file. It returns what the
/// code_item weighs with its debug program, and leaves in the scratch at which units instructions begin. Nothing else
/// is kept.
///
/// Error: as of [`read_code`](crate::read_code).
///
/// Source: "code_item".
pub fn check_code(
    alloc: Global,
    frame: &Frame<'_>,
    pools: &Pools<'_>,
    off: u32,
    scratch: &mut Scratch,
) -> Result<CodeShape, ItemFault>
    ensures code { ArePools frame.now pools.now
        → IfOk result (λ shape. HasCodeOf frame.now off shape.weight) }
    ensures refused { ArePools frame.now pools.now → IfErr result (IsCodeFault frame.now off) }
{
    let mut checked = CheckedDebugs::none(alloc);
    check_code_once(frame, pools, off, scratch, &mut checked)
}

/// As [`check_code`], but a debug program that was checked before is not checked again. What was checked is kept for
/// the next code_item of the file.
///
/// Condition: what was checked before is of this file, whose pools these are.
///
/// Error: as of [`read_code`](crate::read_code). The contents of `checked` are then unspecified.
///
/// Source: "code_item".
pub fn check_code_once(
    frame: &Frame<'_>,
    pools: &Pools<'_>,
    off: u32,
    scratch: &mut Scratch,
    checked: &mut CheckedDebugs,
) -> Result<CodeShape, ItemFault>
    requires { ArePools frame.now pools.now → AreCheckedDebugs frame.now checked.old }
    ensures checked { ArePools frame.now pools.now
        → OnOk result (AreCheckedDebugs frame.now checked.new) }
    ensures code { ArePools frame.now pools.now
        → IfOk result (λ shape. HasCodeOf frame.now off shape.weight) }
    ensures refused { ArePools frame.now pools.now → IfErr result (IsCodeFault frame.now off) }
{
    code_weight_law();
    pools.numbering().is_numbering();
    let pieces = check_pieces(frame, pools, off, scratch)?;
    let types = pools.len(SymbolKind::Typ);
    let starts = scratch.starts();
    let reader = TriesReader {
        alloc: checked.alloc,
        bytes: frame.bytes(),
        starts: &starts,
        types,
    };
    let tries = reader.check_tries(off as usize)?;
    let program = check_program(frame, pools, off, checked)?;
    let unindexed = 24 + 2 * u64::from(pieces.units()) + tries;
    Ok(CodeShape {
        weight: unindexed.saturating_add(program),
    })
}
