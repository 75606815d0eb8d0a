//! Plans: the order in which files are merged.

ghost use Rattle.std.specs.Prelude.{◌≡◌, length, IfOk};
ghost use Rattle.dexmerge.specs.Plans.{plan_of, ReportsPlanFor};
ghost use Rattle.dexmerge.specs.internal.UnionChecks.{IsMarkedIfPlan};

use std::alloc::{AllocError, Global};

/// The deepest plan.
const MOST_DEPTH: usize = 64;

/// How files are merged: a file, by its number, or parts that are merged first.
#[derive(Drop)]
pub enum Plan {
    /// The file of this number.
    Leaf(usize),
    /// The parts, merged.
    Node(Vec<Plan>),
}

// Marks the files that a plan names. Returns whether it names only files that there are, and is at most `depth` deep.
fn mark_files(plan: &Plan, depth: usize, is_named: &mut Vec<bool>) -> bool
    ensures count { length is_named.new.items ≡ length is_named.old.items }
    ensures checked { IsMarkedIfPlan
        (plan_of plan.now) depth is_named.old.items is_named.new.items result }
{
    if depth == 0 {
        return false;
    }
    match plan {
        Plan::Leaf(file) => {
            if *file >= is_named.len() {
                return false;
            }
            is_named[*file] = true;
            true
        }
        Plan::Node(parts) => {
            for part in parts {
                if !mark_files(part, depth - 1, is_named) {
                    return false;
                }
            }
            true
        }
    }
}

// Counts each time that a plan names a file.
fn count_uses(plan: &Plan, uses: &mut Vec<usize>) {
    match plan {
        Plan::Leaf(file) => {
            if let Some(uses) = uses.get_mut(*file) {
                *uses = uses.saturating_add(1);
            }
        }
        Plan::Node(parts) => {
            for part in parts {
                count_uses(part, uses);
            }
        }
    }
}

/// How often a plan names each of `files` files.
pub(crate) fn uses_of(alloc: Global, plan: &Plan, files: usize) -> Result<Vec<usize>, AllocError> {
    let mut uses = vec![in alloc; 0; files]?;
    count_uses(plan, &mut uses);
    Ok(uses)
}

/// Returns whether the plan names each of `files` files and no other, and is at most 64 deep.
pub fn is_plan_for(alloc: Global, plan: &Plan, files: usize) -> Result<bool, AllocError>
    ensures { IfOk result (ReportsPlanFor files (plan_of plan.now)) }
{
    let mut is_named = vec![in alloc; false; files]?;
    if !mark_files(plan, MOST_DEPTH, &mut is_named) {
        return Ok(false);
    }
    Ok(is_named.iter().all(|is_named| *is_named))
}
