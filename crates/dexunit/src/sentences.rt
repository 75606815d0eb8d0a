//! The lines of faults, and the plans of fans as text.

ghost use Rattle.std.specs.Prelude.{◌≤◌, IfSome};
ghost use Rattle.dexruns.specs.Lines.{HasName};

use dexcmd::{MergeCause, RunFault, explain, fan_plan};
use dexhead::Refusal;
use dexmerge::Plan;
use std::alloc::{AllocError, Global};

// Returns whether the fault has this status and this line, among two inputs.
fn is_reported(alloc: Global, fault: &RunFault, status: u8, line: &str) -> Option<bool>
    requires { HasName 2 fault.now }
{
    let reported = explain(alloc, fault, &["a.dex", "b c"], "out.dex").ok()?;
    Some(reported.0 == status && reported.1.as_str() == line)
}

// Returns a fault with its status and its line.
fn fault(case: u8) -> (RunFault, u8, &'static str)
    ensures { HasName 2 result.0 }
{
    let refusal = Refusal {
        number: 3,
        place: 38,
    };
    match case {
        0 => (
            RunFault::Input(1, refusal),
            1,
            "dexkit: b c: refused 3 Version at 38",
        ),
        1 => (RunFault::Plan, 1, "dexkit: bad plan"),
        2 => (
            RunFault::Merge(MergeCause::Cap(5)),
            1,
            "dexkit: cap short-strings",
        ),
        3 => (RunFault::Read(0), 3, "dexkit: a.dex: cannot be read"),
        4 => (RunFault::Write, 3, "dexkit: out.dex: cannot be written"),
        5 => (RunFault::Merge(MergeCause::Cap(1)), 1, "dexkit: cap types"),
        6 => (RunFault::Merge(MergeCause::Cap(6)), 1, "dexkit: cap weight"),
        _ => (RunFault::Memory, 4, "dexkit: out of memory"),
    }
}

#[test]
fn faults_have_a_status_and_a_line(rt: HostRuntime) {
    for case in 0..8 {
        let (fault, status, line) = fault(case);
        let reported = is_reported(rt.alloc(), &fault, status, line);
        assert!(rt; reported == Some(true), "{line}");
    }
}

// Appends the plan as text: a space before each file, and brackets around the parts of a node.
fn push_plan(alloc: Global, plan: &Plan, text: &mut String) -> Result<(), AllocError> {
    match plan {
        Plan::Leaf(file) => text.push_str(format!(in alloc; " {file}")?.as_str())?,
        Plan::Node(parts) => {
            text.push_str("(")?;
            for part in parts {
                push_plan(alloc, part, text)?;
            }
            text.push_str(")")?;
        }
    }
    Ok(())
}

// Returns whether the plan of a fan over `files` files has this text.
fn is_fanned(alloc: Global, files: usize, fan: Option<usize>, right: &str) -> Option<bool>
    requires files { 1 ≤ files }
    requires fan { IfSome fan (λ fan. 2 ≤ fan) }
{
    let plan = fan_plan(alloc, files, fan).ok()?;
    let mut text = String::new(alloc);
    push_plan(alloc, &plan, &mut text).ok()?;
    Some(text.as_str() == right)
}

// Returns a number of files and a fan, if any, with the text of the plan.
fn fan(case: u8) -> (usize, Option<usize>, &'static str)
    ensures files { 1 ≤ result.0 }
    ensures fan { IfSome result.1 (λ fan. 2 ≤ fan) }
{
    match case {
        0 => (5, Some(2), "((( 0 1)( 2 3))(( 4)))"),
        1 => (4, Some(2), "(( 0 1)( 2 3))"),
        2 => (10, Some(3), "((( 0 1 2)( 3 4 5)( 6 7 8))(( 9)))"),
        3 => (3, Some(3), "( 0 1 2)"),
        4 => (2, Some(65_535), "( 0 1)"),
        5 => (1, Some(2), " 0"),
        6 => (1, None, "( 0)"),
        _ => (5, None, "( 0 1 2 3 4)"),
    }
}

// Returns whether a plan has its files in their order, from `first` on, and the number after its last file.
fn files_after(plan: &Plan, first: usize) -> Option<usize> {
    match plan {
        Plan::Leaf(file) => (*file == first).then_some(first.saturating_add(1)),
        Plan::Node(parts) => {
            let mut next = first;
            for part in parts {
                next = files_after(part, next)?;
            }
            Some(next)
        }
    }
}

// Returns whether the plan of a fan over `files` files has each of them once, in their order.
fn is_in_order(alloc: Global, files: usize, fan: Option<usize>) -> bool
    requires files { 1 ≤ files }
    requires fan { IfSome fan (λ fan. 2 ≤ fan) }
{
    match fan_plan(alloc, files, fan) {
        Ok(plan) => files_after(&plan, 0) == Some(files),
        Err(_) => false,
    }
}

#[test]
fn a_fan_has_each_file_in_its_order(rt: HostRuntime) {
    for files in 1..2_001 {
        assert!(rt; is_in_order(rt.alloc(), files, None), "{files} files");
        assert!(rt;
            is_in_order(rt.alloc(), files, Some(2)),
            "{files} files by twos"
        );
        assert!(rt;
            is_in_order(rt.alloc(), files, Some(255)),
            "{files} files by 255"
        );
    }
}

#[test]
fn a_fan_makes_a_plan(rt: HostRuntime) {
    for case in 0..8 {
        let (files, fan, right) = fan(case);
        let fanned = is_fanned(rt.alloc(), files, fan, right);
        assert!(rt; fanned == Some(true), "{right}");
    }
}
