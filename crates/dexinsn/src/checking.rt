//! Code units checked in one pass, with bits in words that are lent: nothing is kept of the units.

ghost use Rattle.std.specs.Prelude.{◌≡◌, ◌^◌, ◌+◌, ◌*◌, ◌/◌, ◌<◌, ◌≤◌, [], IsSome, drop, length, IfOk, IfErr, MatchOption, OnOk, replicate};
ghost use Rattle.dexspec.specs.Opcodes as opcodes;
ghost use Rattle.dexspec.specs.Pieces.{ints_in, piece_size};
ghost use Rattle.dexpool.specs.Pools.{ArePools};
ghost use Rattle.dexinsn.specs.Units.{units_in};
ghost use Rattle.dexinsn.specs.Reading.{AreStartsAt, IsCodeFault, IsPiecesFault};
ghost use Rattle.dexinsn.specs.Opcode.{format_of};
ghost use Rattle.dexinsn.specs.Payload.{ident_of};
ghost use Rattle.dexinsn.specs.internal.LongSwitches.{ArePayloads, EndsEmpty};
ghost use Rattle.dexinsn.specs.Split.{IsPieceAt};
ghost use Rattle.dexinsn.specs.Checking.{AreBitsOf, AreNoted, AreAllRight, HasPiecesOf, IndexCount, IsOutside, IsChecked, IsShapeAt, HasTargetsAt, begins_instruction, is_noted};
ghost use Rattle.dexinsn.specs.internal.Checking.{AreCodeStartBits, GainPiece, HasBranchAt, HasListedTargets, HasPayloadAt, IsFoundWith};

use crate::code_units::{Units, int_at, opcode_in};
use crate::format::Format;
use crate::instruction::{branch_offset, index_at, kind_at};
use crate::long_switches::{LongSwitches, targets_at};
use crate::opcodes::row_of;
use crate::payload::PayloadKind;
use crate::piece_step::pass;
use crate::reading::units_at;
use crate::scratch::{Scratch, wipe};
use crate::shape::PiecesShape;
use crate::start_bits::{groups_right, has_place, next_bit, put_bit};
use dexhead::{Condition, Frame, u16_at};
use dexpool::{ItemFault, Pools};
use std::alloc::AllocError;

/// Returns whether a piece that begins with this unit is a payload, or an instruction that has a target.
pub(crate) fn is_noted(first: u16) -> bool
    ensures { result ≡ is_noted first }
{
    PayloadKind::of(first).is_some() || row_of(opcode_in(first)).branches
}

/// Returns the number of indices of the piece at a unit, one or none, if what it has is in range.
#[tactic(auto, using(crate::proofs::IndexRoom::piece_within, crate::proofs::IndexRoom::room_after, crate::proofs::IndexRoom::wide_room_after))]
pub(crate) fn index_count(
    units: &Units<'_>,
    at: usize,
    size: usize,
    pools: &Pools<'_>,
) -> Option<usize>
    requires { IsPieceAt units.now (record { unit = at; units = size }) }
    ensures { MatchOption result (IsOutside units.now pools.now at)
        (IndexCount units.now pools.now at) }
{
    match kind_at(units, at) {
        Some(kind) => ((index_at(units, at) as usize) < pools.len(kind)).then_some(1),
        None => Some(0),
    }
}

/// Sets the bits of the piece that begins at a unit.
pub(crate) fn note(units: &Units<'_>, at: usize, starts: &mut Vec<u64>, noted: &mut Vec<u64>)
    requires within { at < length units.now }
    requires starts { length starts.old.items ≡ length units.now / 64 + 2 }
    requires noted { length noted.old.items ≡ length units.now / 64 + 2 }
    ensures starts { GainPiece begins_instruction units.now at starts.old.items starts.new.items }
    ensures noted { GainPiece is_noted units.now at noted.old.items noted.new.items }
{
    let first = units.at(at);
    put_bit(starts, at, PayloadKind::of(first).is_none());
    put_bit(noted, at, is_noted(first));
}

/// Checks the targets of instructions and of switch payloads. It has the units, the words whose bits say where
/// instructions begin and which pieces are noted, and the targets of the long switches.
#[derive(Clone, Copy)]
pub(crate) struct TargetChecker<'s, 'u> {
    pub(crate) units: &'s Units<'u>,
    pub(crate) starts: &'s [u64],
    pub(crate) noted: &'s [u64],
    pub(crate) switches: &'s LongSwitches,
}

impl TargetChecker<'_, '_> {
    // Returns whether `count` targets of two units each, from unit `first` on, counted from the instruction at unit
    // `at`, are starts of instructions.
    fn listed_targets_right(&self, at: usize, first: usize, count: usize) -> bool
        requires small { length self.now.units.now < 2 ^ 62 }
        requires from { at < length self.now.units.now }
        requires within { first + 2 * count ≤ length self.now.units.now }
        ensures { HasListedTargets self.now.units.now self.now.starts.now at
            (ints_in self.now.units.now first count) result }
    {
        for i in 0..count {
            let offset = int_at(self.units, first + 2 * i);
            if !has_place(self.starts, at as i64 + i64::from(offset)) {
                return false;
            }
        }
        true
    }

    // Returns whether a payload of the kind begins at the place, and its targets, counted from the instruction at unit
    // `at`, are starts of instructions.
    fn payload_targets_right(&self, at: usize, kind: PayloadKind, place: i64) -> bool
        requires small { length self.now.units.now < 2 ^ 62 }
        requires last { EndsEmpty self.now.starts.now }
        requires switches { ArePayloads self.now.units.now self.now.switches.now.groups }
        requires from { at < length self.now.units.now }
        requires noted { AreNoted self.now.units.now self.now.noted.now }
        ensures { HasPayloadAt self.now.units.now self.now.starts.now self.now.noted.now
            (ident_of kind) at place result }
    {
        if !has_place(self.noted, place) {
            return false;
        }
        let unit = place as usize;
        if self.units.at(unit) != kind.ident() {
            return false;
        }
        if let Some(groups) = self.switches.groups.get(&unit) {
            return groups_right(self.starts, groups, at);
        }
        match targets_at(self.units, kind, unit) {
            Some(targets) => self.listed_targets_right(at, targets.first, targets.count),
            None => true,
        }
    }

    // Returns whether the instruction at unit `at`, which has this format, has no target or a valid one.
    fn branch_targets_right(&self, at: usize, format: Format) -> bool
        requires small { length self.now.units.now < 2 ^ 62 }
        requires last { EndsEmpty self.now.starts.now }
        requires switches { ArePayloads self.now.units.now self.now.switches.now.groups }
        requires from { at < length self.now.units.now }
        requires within { at + opcodes.units_in (format_of format) ≤ length self.now.units.now }
        requires noted { AreNoted self.now.units.now self.now.noted.now }
        ensures { HasBranchAt self.now.units.now self.now.starts.now self.now.noted.now at
            (format_of format) result }
    {
        let offset = match branch_offset(format, self.units, at) {
            Some(offset) => offset,
            None => return true,
        };
        let target = at as i64 + i64::from(offset);
        match format {
            Format::Format31t => {
                let kind = PayloadKind::payload_kind_of(opcode_in(self.units.at(at)));
                self.payload_targets_right(at, kind, target)
            }
            _ => has_place(self.starts, target),
        }
    }

    /// Returns whether the piece at a unit is a payload, or an instruction that has no target or a valid one.
    pub(crate) fn piece_targets_right(&self, at: usize) -> bool
        requires small { length self.now.units.now < 2 ^ 62 }
        requires last { EndsEmpty self.now.starts.now }
        requires switches { ArePayloads self.now.units.now self.now.switches.now.groups }
        requires piece { IsSome (piece_size at (drop at self.now.units.now)) }
        requires noted { AreNoted self.now.units.now self.now.noted.now }
        ensures { HasTargetsAt self.now.units.now self.now.starts.now self.now.noted.now at
            result }
    {
        let first = self.units.at(at);
        if PayloadKind::of(first).is_some() {
            return true;
        }
        match Format::of(opcode_in(first)) {
            Some(format) => self.branch_targets_right(at, format),
            None => true,
        }
    }

    // Returns whether each piece has no target or a valid one.
    fn all_targets_right(&self) -> bool
        requires small { length self.now.units.now < 2 ^ 62 }
        requires last { EndsEmpty self.now.starts.now }
        requires switches { ArePayloads self.now.units.now self.now.switches.now.groups }
        requires few { length self.now.noted.now < 2 ^ 57 }
        requires noted { AreNoted self.now.units.now self.now.noted.now }
        ensures { AreAllRight self.now.units.now self.now.starts.now self.now.noted.now result }
    {
        let mut at = 0;
        while let Some(unit) = next_bit(self.noted, at) {
            if !self.piece_targets_right(unit) {
                return false;
            }
            at = unit + 1;
        }
        true
    }
}

// Returns the number of indices in units, if these are code and each index is in range.
fn check_with(
    units: &Units<'_>,
    pools: &Pools<'_>,
    starts: &mut Vec<u64>,
    noted: &mut Vec<u64>,
) -> Result<Option<usize>, AllocError>
    requires few { length units.now < 2 ^ 32 }
    requires starts { AreBitsOf begins_instruction units.now [] starts.old.items }
    requires noted { AreBitsOf is_noted units.now [] noted.old.items }
    ensures { IfOk result (IsFoundWith units.now pools.now starts.new.items) }
{
    if units.len() == 0 {
        return Ok(None);
    }
    let Some(indices) = pass(units, pools, starts, noted) else {
        return Ok(None);
    };
    let switches = LongSwitches::find(*noted.allocator(), units, noted)?;
    let checker = TargetChecker {
        units,
        starts,
        noted,
        switches: &switches,
    };
    Ok(checker.all_targets_right().then_some(indices))
}

// Returns the number of indices in units that are code, each in range.
fn check_units(bytes: &[u8], pools: &Pools<'_>, scratch: &mut Scratch) -> Result<usize, ItemFault>
    requires { length (units_in bytes.now) < 2 ^ 32 }
    ensures indices { IfOk result (IsChecked (units_in bytes.now) pools.now) }
    ensures starts { OnOk result (AreCodeStartBits (units_in bytes.now) scratch.new) }
    ensures fault { IfErr result (IsCodeFault (units_in bytes.now) pools.now) }
{
    let units = Units::of_bytes(bytes);
    let words = units.len() / 64 + 2;
    wipe(&mut scratch.starts, words)?;
    wipe(&mut scratch.noted, words)?;
    check_with(&units, pools, &mut scratch.starts, &mut scratch.noted)?.ok_or(ItemFault::Refused(
        Condition::Code as u8,
    ))
}

/// Checks the registers and the pieces of the code_item at an offset, whose indices count in the pools: those of the
/// file. It returns the counts of registers, units and indices, and leaves in the scratch at which units instructions
/// begin. Nothing else is kept.
///
/// Error: as of [`read_pieces`](crate::read_pieces); `Memory` where the allocation of the scratch failed.
///
/// Source: "code_item"; the Android page "Dalvik bytecode".
pub fn check_pieces(
    frame: &Frame<'_>,
    pools: &Pools<'_>,
    off: u32,
    scratch: &mut Scratch,
) -> Result<PiecesShape, ItemFault>
    ensures shape { IfOk result (IsShapeAt frame.now off pools.now) }
    ensures pieces { ArePools frame.now pools.now
        → IfOk result (HasPiecesOf frame.now off pools.now) }
    ensures starts { OnOk result (AreStartsAt frame.now off scratch.new) }
    ensures refused { ArePools frame.now pools.now → IfErr result (IsPiecesFault frame.now off) }
{
    let Some(bytes) = units_at(frame, off) else {
        return Err(ItemFault::Refused(Condition::Code as u8));
    };
    let indices = check_units(bytes, pools, scratch)?;
    let code = frame.rest(off);
    Ok(PiecesShape {
        registers: u16_at(code, 0),
        ins: u16_at(code, 2),
        outs: u16_at(code, 4),
        units: (bytes.len() / 2) as u32,
        indices,
    })
}
