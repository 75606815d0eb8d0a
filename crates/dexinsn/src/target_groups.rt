//! Targets of a switch in groups, so that up to 64 are checked at once.

ghost use Rattle.std.specs.Prelude.{◌≡◌, ◌↔◌, ◌<◌, ℤ, Bool, true, length, IfOk, IfSome};
ghost use Rattle.dexinsn.specs.internal.LongSwitches.{AllInGroup, AreGrouped, HasBeside};

use crate::target_group::TargetGroup;
use std::alloc::{AllocError, Global};

impl TargetGroup {
    // The group of one target.
    fn of(first: i32) -> TargetGroup
        ensures { (test : ℤ → Bool) → AllInGroup test result ↔ (test first ≡ true) }
    {
        TargetGroup { first, bits: 1 }
    }

    // The group with one target more, if that is near.
    fn with(self, target: i32) -> Option<TargetGroup>
        ensures { IfSome result (HasBeside self target) }
    {
        let distance = i64::from(target) - i64::from(self.first);
        if distance < 0 || 64 <= distance {
            return None;
        }
        let first = self.first;
        let bits = self.bits | 1 << distance as u32;
        Some(TargetGroup { first, bits })
    }
}

/// The targets in groups: as few as may be where the targets rise.
///
/// Condition: there is a target.
pub(crate) fn group_targets(alloc: Global, targets: &[i32]) -> Result<Vec<TargetGroup>, AllocError>
    requires { 0 < length targets.now }
    ensures { IfOk result (λ groups. AreGrouped targets.now groups.items) }
{
    let mut groups = Vec::new(alloc);
    let mut group = TargetGroup::of(targets[0]);
    for i in 1..targets.len() {
        match group.with(targets[i]) {
            Some(wider) => group = wider,
            None => {
                groups.push(group)?;
                group = TargetGroup::of(targets[i]);
            }
        }
    }
    groups.push(group)?;
    groups.shrink_to_fit();
    Ok(groups)
}
