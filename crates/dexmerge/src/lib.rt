//! Unions of programs: merged files, under caps and by plans.
//!
//! What can be merged, caps, plans and the causes for which there is no merged file are this project's rules.
//!
//! Of the definitions that its contracts use, read `specs/Faults` (what a merge returns), `specs/Plans` and
//! `specs/Counting` first; what a union is, `dexspec`'s `Merging` says.
#![tactic(auto)]

mod candidates;
mod caps;
mod class_union;
mod faults;
mod fitting;
mod measuring;
mod merging;
mod plan;
mod plan_union;
mod union_checks;

pub use caps::{CapKind, Caps};
pub use faults::{MergeFault, PlanFault};
pub use measuring::{Counts, measure};
pub use merging::merge;
pub use plan::{Plan, is_plan_for};
pub use plan_union::{merge_files, merge_plan};
