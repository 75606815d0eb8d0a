//! Files merged in many orders and groupings: `regroup ROUNDS caps T P F M S W files FILE.. ok CANON`, or
//! `.. fault CAUSE | CAUSE ..`. Each round draws a plan that names each file once and some more often. Each merge must
//! give the right answer.

use crate::merge::Merge;
use crate::open_plan::OpenPlan;
use crate::random::Random;
use dexcases::{CaseFault, Folder, Outcome, number};
use dexclass::Program;
use dexmerge::Plan;
use std::alloc::{AllocError, Global};
use std::rt::Files;

/// How many nodes may be open at a time, so that no plan is too deep.
const MOST_OPEN: usize = 62;

/// Runs a line. `case` is the text after the word of its kind.
pub fn run<R: Files + AllocGlobal>(
    folder: Folder<'_, R>,
    case: &str,
) -> Result<Outcome, CaseFault> {
    let (rounds, rest) = case.split_once(" caps ").ok_or(CaseFault::Form)?;
    let merge = Merge::of(folder, rest)?;
    run_rounds(folder.alloc(), rounds, &merge)?;
    Ok(Outcome::Passed)
}

// Runs the number of rounds that a word denotes.
fn run_rounds(alloc: Global, rounds: &str, merge: &Merge<'_>) -> Result<(), CaseFault> {
    let rounds: u32 = number(rounds)?.parse()?;
    if rounds == 0 {
        return Err(CaseFault::Form);
    }
    let programs = merge.programs(alloc)?;
    let mut random = Random::new(1);
    for _ in 0..rounds {
        run_round(alloc, merge, &programs, &mut random)?;
    }
    Ok(())
}

// Merges the programs by a random plan.
fn run_round(
    alloc: Global,
    merge: &Merge<'_>,
    programs: &[Program<'_>],
    random: &mut Random,
) -> Result<(), CaseFault> {
    let plan = random_plan(alloc, random, programs.len())?;
    merge.check_plan(alloc, programs, &plan)
}

// Returns the numbers of `files` files in a random order, each once and some more often.
fn leaves(alloc: Global, random: &mut Random, files: usize) -> Result<Vec<usize>, AllocError> {
    let mut leaves = Vec::new(alloc);
    for file in 0..files {
        leaves.push(file)?;
        if random.below(4) == 0 {
            leaves.push(random.below(files))?;
        }
    }
    for i in 0..leaves.len() {
        let k = random.below(leaves.len());
        if k < leaves.len() {
            leaves.swap(i, k);
        }
    }
    Ok(leaves)
}

// Returns a random plan for `files` files: nodes begin and end anywhere, and some have one part or none.
fn random_plan(alloc: Global, random: &mut Random, files: usize) -> Result<Plan, AllocError> {
    let mut plan = OpenPlan::new(alloc);
    add_parts(alloc, random, files, &mut plan)?;
    Ok(plan.into_node())
}

// Adds random parts for `files` files, and closes every node.
fn add_parts(
    alloc: Global,
    random: &mut Random,
    files: usize,
    plan: &mut OpenPlan,
) -> Result<(), AllocError> {
    let steepness = random.below(4).saturating_add(1);
    for file in leaves(alloc, random, files)? {
        for _ in 0..random.below(steepness) {
            if plan.depth() < MOST_OPEN {
                plan.open(alloc)?;
            }
        }
        plan.add(file)?;
        for _ in 0..random.below(3) {
            plan.close()?;
        }
    }
    for _ in 0..MOST_OPEN {
        plan.close()?;
    }
    Ok(())
}
