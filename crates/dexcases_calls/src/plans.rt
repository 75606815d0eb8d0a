//! Parses plans and caps: a plan is a number, or a list of plans in brackets; caps are six numbers.

use crate::open_plan::OpenPlan;
use dexcases::{CaseFault, number};
use dexmerge::{Caps, Plan};
use std::alloc::Global;

/// Returns the plan that a text such as `((0 1) 2)` denotes.
pub fn plan_in(alloc: Global, words: &str) -> Result<Plan, CaseFault> {
    let mut plan = OpenPlan::new(alloc);
    read_parts(alloc, words, &mut plan)?;
    plan.into_plan()
}

// Adds the parts that a text denotes.
fn read_parts(alloc: Global, words: &str, plan: &mut OpenPlan) -> Result<(), CaseFault> {
    let mut number: Option<usize> = None;
    for letter in words.chars() {
        if let Some(digit) = letter.to_digit(10) {
            if number == Some(0) {
                return Err(CaseFault::Form);
            }
            let more = number.unwrap_or(0).saturating_mul(10);
            number = Some(more.saturating_add(digit as usize));
            continue;
        }
        if let Some(file) = number.take() {
            plan.add(file)?;
        }
        read_mark(alloc, letter, plan)?;
    }
    if let Some(file) = number {
        plan.add(file)?;
    }
    Ok(())
}

// Opens or closes a node at a bracket.
fn read_mark(alloc: Global, mark: char, plan: &mut OpenPlan) -> Result<(), CaseFault> {
    match mark {
        ' ' => Ok(()),
        '(' => Ok(plan.open(alloc)?),
        ')' => {
            if plan.close()? {
                return Ok(());
            }
            Err(CaseFault::Form)
        }
        _ => Err(CaseFault::Form),
    }
}

/// Returns the caps that six numbers denote: types, protos, fields, methods, short strings, weight.
pub fn caps_in(alloc: Global, words: &str) -> Result<Caps, CaseFault> {
    let mut numbers = Vec::new(alloc);
    for word in words.split(' ') {
        numbers.push(number(word)?.parse()?)?;
    }
    match numbers.as_slice() {
        [types, protos, fields, methods, short_strings, weight] => {
            Caps::new(*types, *protos, *fields, *methods, *short_strings, *weight).ok_or(
                CaseFault::Form,
            )
        }
        _ => Err(CaseFault::Form),
    }
}
