//! One piece of code units at a time, found in few tests.

ghost use Rattle.std.specs.Prelude.{◌≡◌, ◌^◌, ◌<◌, ◌≤◌, [], drop, length, IfNone, IfSome, MatchOption, Some};
ghost use Rattle.dexspec.specs.Pieces.{piece_size};
ghost use Rattle.dexspec.specs.Mentions.{Mentions};
ghost use Rattle.dexinsn.specs.Opcode.{IsPlainRow, kind_of_index};
ghost use Rattle.dexinsn.specs.Checking.{AreBitsOf, AreLimits, HasNoCode, HasNoStep, IsStep, begins_instruction, count_of_index, is_noted, limit_of};
ghost use Rattle.dexinsn.specs.internal.Checking.{ArePassedWhole};

use crate::checking::{index_count, is_noted};
use crate::code_units::{Units, opcode_in};
use crate::instruction::instruction_size;
use crate::opcodes::{IndexKind, Row, row_of};
use crate::payload::PayloadKind;
use crate::start_bits::put_bit;
use dexpool::{Pools, SymbolKind};

/// The number of units of the instruction or payload that comes first, at unit `at` of the code; `None` where neither
/// does.
#[tactic(auto, using(crate::proofs::IndexRoom::first_is))]
pub(crate) fn piece_size(at: usize, units: &Units<'_>) -> Option<usize>
    requires { 0 < length units.now }
    ensures size { result ≡ piece_size at units.now }
    ensures some { IfSome result (λ size. 0 < size) }
    ensures within { IfSome result (λ size. size ≤ length units.now) }
{
    match PayloadKind::of(units.at(0)) {
        Some(kind) => { if at % 2 == 0 { kind.size(units) } else { None } }
        None => instruction_size(units),
    }
}

/// The properties of a piece that the pass over units needs.
#[derive(Clone, Copy)]
pub(crate) struct Step {
    /// The number of its units.
    pub(crate) units: usize,
    /// The number of its indices: one or none.
    pub(crate) indices: usize,
    /// Whether it is an instruction, and no payload.
    pub(crate) is_instruction: bool,
    /// Whether it is a payload, or an instruction with a branch offset.
    pub(crate) is_noted: bool,
}

/// The limits of indices: the number of symbols of each kind, and 2^16 where there is no index.
#[derive(Clone, Copy)]
pub(crate) struct Limits([usize; 6]);

// Returns the number of indices: one or none.
#[inline(always)]
fn count_of_index(index: IndexKind) -> usize
    ensures { result ≡ count_of_index (kind_of_index index) }
{
    match index {
        IndexKind::Absent => 0,
        _ => 1,
    }
}

impl Limits {
    /// Those of the pools.
    pub(crate) fn of(pools: &Pools<'_>) -> Limits
        ensures { AreLimits pools.now result }
    {
        Limits([
            pools.len(SymbolKind::Text),
            pools.len(SymbolKind::Typ),
            pools.len(SymbolKind::Proto),
            pools.len(SymbolKind::Field),
            pools.len(SymbolKind::Method),
            0x1_0000,
        ])
    }

    // Returns the limit of an index of the kind.
    #[inline(always)]
    fn limit(&self, index: IndexKind) -> usize
        ensures { (m : Mentions) → AreLimits m self.now
            → result ≡ limit_of m (kind_of_index index) }
    {
        self.0[index as usize]
    }
}

// The row of the opcode at a unit, if an instruction with no index or one of 16 bits begins there, and a unit follows it.
#[inline(always)]
fn plain_row(units: &Units<'_>, at: usize) -> Option<Row>
    requires { at < length units.now }
    ensures { IfSome result (IsPlainRow units.now at) }
{
    let first = units.at(at);
    let row = row_of(opcode_in(first));
    if units.len() - at <= usize::from(row.units) || row.greatest < first {
        return None;
    }
    Some(row)
}

/// The number of units of the piece at a unit, or `None` where no piece begins.
#[inline(always)]
#[tactic(auto, using(crate::proofs::Plain::row_size))]
pub(crate) fn size_at(units: &Units<'_>, at: usize) -> Option<usize>
    requires { at < length units.now }
    ensures { result ≡ piece_size at (drop at units.now) }
{
    match plain_row(units, at) {
        Some(row) => Some(usize::from(row.units)),
        None => piece_size(at, &units.rest(at)),
    }
}

// The piece at a unit, if it is an instruction with no index or one of 16 bits, in range, and a unit follows it.
#[inline(always)]
fn plain_step(units: &Units<'_>, limits: &Limits, at: usize) -> Option<Step>
    requires { at < length units.now }
    ensures { (m : Mentions) → AreLimits m limits.now → IfSome result (IsStep units.now m at) }
{
    let row = plain_row(units, at)?;
    if limits.limit(row.index) <= usize::from(units.at(at + 1)) {
        return None;
    }
    Some(Step {
        units: usize::from(row.units),
        indices: count_of_index(row.index),
        is_instruction: true,
        is_noted: row.branches,
    })
}

// The piece at a unit, if its index is in range or it has none.
fn any_step(units: &Units<'_>, pools: &Pools<'_>, at: usize) -> Option<Step>
    requires { at < length units.now }
    ensures { MatchOption result (HasNoStep units.now pools.now at)
        (IsStep units.now pools.now at) }
{
    let size = piece_size(at, &units.rest(at))?;
    let indices = index_count(units, at, size, pools)?;
    let first = units.at(at);
    Some(Step {
        units: size,
        indices,
        is_instruction: PayloadKind::of(first).is_none(),
        is_noted: is_noted(first),
    })
}

// The piece at a unit, if its index is in range or it has none.
#[inline(always)]
fn step_at(units: &Units<'_>, pools: &Pools<'_>, limits: &Limits, at: usize) -> Option<Step>
    requires within { at < length units.now }
    requires limits { AreLimits pools.now limits.now }
    ensures { MatchOption result (HasNoStep units.now pools.now at)
        (IsStep units.now pools.now at) }
{
    match plain_step(units, limits, at) {
        Some(step) => Some(step),
        None => any_step(units, pools, at),
    }
}

/// Cuts the units, checks the indices, and sets the bits of the pieces. Returns the number of indices.
pub(crate) fn pass(
    units: &Units<'_>,
    pools: &Pools<'_>,
    starts: &mut Vec<u64>,
    noted: &mut Vec<u64>,
) -> Option<usize>
    requires few { length units.now < 2 ^ 32 }
    requires starts { AreBitsOf begins_instruction units.now [] starts.old.items }
    requires noted { AreBitsOf is_noted units.now [] noted.old.items }
    ensures none { IfNone result (HasNoCode units.now pools.now) }
    ensures some { IfSome result
        (ArePassedWhole units.now pools.now starts.new.items noted.new.items) }
{
    let limits = Limits::of(pools);
    let mut at = 0;
    let mut indices = 0;
    while at < units.len() {
        let step = step_at(units, pools, &limits, at)?;
        put_bit(starts, at, step.is_instruction);
        put_bit(noted, at, step.is_noted);
        indices += step.indices;
        at += step.units;
    }
    Some(indices)
}
