//! Long switch payloads, whose targets are put in groups once, however many switches refer to them.

ghost use Rattle.std.specs.Prelude.{◌≡◌, ◌+◌, ◌*◌, ◌<◌, ◌≤◌, ◌^◌, All, IfOk, IsSome, List, [], MatchOption, OnOk, drop, length, slice_index};
ghost use Rattle.std.specs.List.Sorted.{IsPermutation};
ghost use Rattle.dexspec.specs.Pieces.{ints_in, payload_targets, piece_size};
ghost use Rattle.dexinsn.specs.Payload.{ident_of};
ghost use Rattle.dexinsn.specs.internal.LongSwitches.{ArePayloads, AreTargetsAt};
ghost use Rattle.dexinsn.specs.Checking.{AreNoted};

use crate::code_units::{Units, int_at};
use crate::payload::PayloadKind;
use crate::start_bits::next_bit;
use crate::target_group::TargetGroup;
use crate::target_groups::group_targets;
use std::alloc::{AllocError, Global};
use std::collections::HashMap;

// The targets of a payload that has no more are checked anew for each switch: seldom do two switches share one.
const FEW_TARGETS: usize = 256;

/// The place of the targets of a payload, two units each.
#[derive(Clone, Copy)]
pub(crate) struct Targets {
    pub(crate) first: usize,
    pub(crate) count: usize,
}

/// The targets of the payload of the kind at a unit; `None` where it has none.
#[tactic(auto, using(crate::proofs::IndexRoom::packed_fits, crate::proofs::IndexRoom::sparse_fits))]
pub(crate) fn targets_at(units: &Units<'_>, kind: PayloadKind, unit: usize) -> Option<Targets>
    requires small { length units.now < 2 ^ 62 }
    requires kind { slice_index units.now unit ≡ ident_of kind }
    requires piece { IsSome (piece_size unit (drop unit units.now)) }
    ensures { MatchOption result (payload_targets units.now unit
        ≡ []) (AreTargetsAt units.now unit) }
{
    let count = usize::from(units.at(unit + 1));
    let first = match kind {
        PayloadKind::PackedSwitch => unit + 4,
        PayloadKind::SparseSwitch => unit + 2 + 2 * count,
        PayloadKind::ArrayData => return None,
    };
    Some(Targets { first, count })
}

/// The targets of the long switch payloads of code, in groups, by the unit at which each payload begins.
#[derive(Drop)]
pub(crate) struct LongSwitches {
    pub(crate) groups: HashMap<usize, Vec<TargetGroup>>,
}

impl Targets {
    // The targets in rising order.
    fn sorted(self, alloc: Global, units: &Units<'_>) -> Result<Vec<i32>, AllocError>
        requires small { length units.now < 2 ^ 62 }
        requires within { self.first + 2 * self.count ≤ length units.now }
        ensures { IfOk result (λ sorted.
            IsPermutation (ints_in units.now self.first self.count) sorted.items) }
    {
        let mut sorted = Vec::with_capacity(alloc, self.count)?;
        for i in 0..self.count {
            sorted.push(int_at(units, self.first + 2 * i))?;
        }
        sorted.sort_unstable();
        Ok(sorted)
    }
}

impl LongSwitches {
    // Groups the targets of the piece at a unit, if it is a switch payload with many.
    fn note(&mut self, alloc: Global, units: &Units<'_>, unit: usize) -> Result<(), AllocError>
        requires piece { IsSome (piece_size unit (drop unit units.now)) }
        requires groups { ArePayloads units.now self.old.groups }
        ensures { OnOk result (ArePayloads units.now self.new.groups) }
    {
        let Some(kind) = PayloadKind::of(units.at(unit)) else {
            return Ok(());
        };
        let Some(targets) = targets_at(units, kind, unit) else {
            return Ok(());
        };
        if targets.count <= FEW_TARGETS {
            return Ok(());
        }
        let sorted = targets.sorted(alloc, units)?;
        let grouped = group_targets(alloc, &sorted)?;
        self.groups.insert(unit, grouped)?;
        Ok(())
    }

    /// The long switch payloads among the pieces whose bits are set.
    pub(crate) fn find(alloc: Global, units: &Units<'_>, noted: &[u64]) -> Result<Self, AllocError>
        requires few { length noted.now < 2 ^ 57 }
        requires noted { AreNoted units.now noted.now }
        ensures { IfOk result (λ switches. ArePayloads units.now switches.groups) }
    {
        let groups = HashMap::new(alloc);
        let mut switches = LongSwitches { groups };
        if units.len() <= FEW_TARGETS {
            return Ok(switches);
        }
        let mut at = 0;
        while let Some(unit) = next_bit(noted, at) {
            switches.note(alloc, units, unit)?;
            at = unit + 1;
        }
        Ok(switches)
    }
}
