//! Programs merged by a plan.

ghost use Rattle.std.specs.Prelude.{◌≡◌, ◌<◌, [], IfOk, IfErr, OnOk, length, map, slice_index_or};
ghost use Rattle.dexspec.specs.Files.{definitions};
ghost use Rattle.dexlaws.specs.Causes.{GoodHasNoCause};
ghost use Rattle.dexmerge.specs.Plans.{plan_of};
ghost use Rattle.dexmerge.specs.Faults.{IsMerged, IsPlanned, IsPlanFault, Reports, planned};
ghost use Rattle.dexmerge.specs.internal.Parts.{AreKnown, AreLeft, IsCauseOf, of_file};

use crate::caps::Caps;
use crate::faults::{MergeFault, PlanFault};
use crate::merging::merge_all;
use crate::plan::{Plan, is_plan_for, uses_of};
use dexclass::Program;
use std::alloc::{AllocError, Global};
use std::mem;

// Takes a file, by its number. An empty program is left of it.
fn take_file<'a>(alloc: Global, files: &mut Vec<Program<'a>>, number: usize) -> Program<'a>
    requires { number < length files.old.items }
    ensures taken { definitions result ≡ of_file files.old.items number }
    ensures left { AreLeft (of_file files.old.items number) files.old.items files.new.items }
{
    mem::replace(&mut files[number], Program::empty(alloc))
}

// Counts one use of a file less. Returns whether it is used again.
fn is_used_again(uses: &mut Vec<usize>, number: usize) -> bool {
    let Some(left) = uses.get_mut(number) else {
        return false;
    };
    if *left < 2 {
        return false;
    }
    *left -= 1;
    true
}

// A file, by its number: a copy of it where it is used again, and else the file, which is taken.
fn file<'a>(
    alloc: Global,
    files: &mut Vec<Program<'a>>,
    uses: &mut Vec<usize>,
    number: usize,
) -> Result<Program<'a>, AllocError>
    requires { number < length files.old.items }
    ensures same { IfOk result (λ program. definitions program ≡ of_file files.old.items number) }
    ensures left { OnOk result
        (AreLeft (of_file files.old.items number) files.old.items files.new.items) }
{
    if is_used_again(uses, number) {
        return files[number].copy();
    }
    Ok(take_file(alloc, files, number))
}

// Merges the files of a plan, which are taken. Each node is merged by itself, a file that is used again too.
fn merge_parts<'a>(
    alloc: Global,
    files: &mut Vec<Program<'a>>,
    uses: &mut Vec<usize>,
    plan: &Plan,
    caps: &Caps,
) -> Result<Program<'a>, MergeFault>
    requires { AreKnown files.old.items (plan_of plan.now) }
    ensures merged { IfOk result (IsMerged caps.now
        (planned files.old.items (plan_of plan.now))) }
    ensures left { OnOk result (AreLeft (planned files.old.items (plan_of plan.now))
        files.old.items files.new.items) }
    ensures fault { IfErr result
        (Reports (IsCauseOf caps.now files.old.items (plan_of plan.now))) }
{
    let mut programs = Vec::new(alloc);
    match plan {
        Plan::Leaf(number) => programs.push(file(alloc, files, uses, *number)?)?,
        Plan::Node(parts) => {
            for part in parts {
                let program = match part {
                    Plan::Leaf(number) => file(alloc, files, uses, *number)?,
                    Plan::Node(_) => merge_parts(alloc, files, uses, part, caps)?,
                };
                programs.push(program)?;
            }
        }
    }
    merge_all(alloc, programs, &[], caps)
}

// Copies of programs, in their order.
fn copied<'a>(alloc: Global, files: &[Program<'a>]) -> Result<Vec<Program<'a>>, AllocError>
    ensures { IfOk result (λ copies. copies.items ≡ files.now) }
{
    let mut copies = Vec::with_capacity(alloc, files.len())?;
    for file in files {
        copies.push(file.copy()?)?;
    }
    Ok(copies)
}

/// The program of all classes of the files that a plan names. Each node of the plan is merged by itself.
///
/// Error: `BadPlan`, first of all, exactly where the plan names a file that there is not, or does not name one that
/// there is, or is deeper than 64. Else `Merge` with a cause that is true of the classes of all files; where the plan
/// is a leaf or a node of leaves it is the one that `merge` reports. What can be merged has no cause.
pub fn merge_plan<'a>(
    alloc: Global,
    files: &[Program<'a>],
    plan: &Plan,
    caps: &Caps,
) -> Result<Program<'a>, PlanFault>
    ensures merged { IfOk result (IsPlanned caps.now files.now (plan_of plan.now)) }
    ensures fault { IfErr result (IsPlanFault caps.now files.now (plan_of plan.now)) }
    ensures apart { GoodHasNoCause caps.now }
{
    dexlaws::causes::good_or_first_cause();
    if !is_plan_for(alloc, plan, files.len())? {
        return Err(PlanFault::BadPlan);
    }
    let mut copies = copied(alloc, files)?;
    let mut uses = uses_of(alloc, plan, files.len())?;
    Ok(merge_parts(alloc, &mut copies, &mut uses, plan, caps)?)
}

/// The program of all classes of the files that a plan names, as [`merge_plan`] has it. The files are given up: their
/// classes are moved, and of each file nothing is left once the node that names it last is merged. A file that a plan
/// names again is copied.
///
/// Error: as of [`merge_plan`].
pub fn merge_files<'a>(
    alloc: Global,
    mut files: Vec<Program<'a>>,
    plan: &Plan,
    caps: &Caps,
) -> Result<Program<'a>, PlanFault>
    ensures merged { IfOk result (IsPlanned caps.now files.entry.items (plan_of plan.now)) }
    ensures fault { IfErr result (IsPlanFault caps.now files.entry.items (plan_of plan.now)) }
    ensures apart { GoodHasNoCause caps.now }
{
    dexlaws::causes::good_or_first_cause();
    if !is_plan_for(alloc, plan, files.len())? {
        return Err(PlanFault::BadPlan);
    }
    let mut uses = uses_of(alloc, plan, files.len())?;
    Ok(merge_parts(alloc, &mut files, &mut uses, plan, caps)?)
}
