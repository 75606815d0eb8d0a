//! Files merged: `merge PLAN caps T P F M S W files FILE.. ok CANON`, `.. fault CAUSE | CAUSE ..`, of which any is
//! right, or `.. badplan`. Where the plan is a file or a node of files, one cause alone is right. `-` denotes no files.
//! The programs are merged, and then devices over the files: the line that the program prints of a cause has that cause.
//! For `mergestrip` devices are merged and stripped, and CANON is the stripped file.

ghost use Rattle.dexruns.specs.Lines.{HasName};

use crate::devices::devices;
use crate::files::files_of;
use crate::normalise::is_written_as;
use crate::plans::{caps_in, plan_in};
use crate::program::program_of;
use crate::words::print_name;
use dexcases::{CaseFault, Folder, Outcome, Printed};
use dexclass::Program;
use dexhead::Device;
use dexmerge::{Caps, MergeFault, Plan, PlanFault, merge_files, merge_plan};
use dexruns::{MergeCause, RunFault, explain, merge_run, merge_strip_run};
use dexstr::Name;
use std::alloc::{AllocError, Global};
use std::rt::Files;

/// What is right.
#[derive(Drop)]
enum RightAnswer<'a> {
    /// These bytes are written.
    Written(Vec<u8>),
    /// One of these causes is reported.
    Causes(&'a str),
    /// The plan is refused.
    BadPlan,
}

/// Files that are merged under caps, and what is right.
#[derive(Drop)]
pub(crate) struct Merge<'a> {
    files: Vec<Vec<u8>>,
    caps: Caps,
    right: RightAnswer<'a>,
}

/// Runs a line that merges. `case` is the text after the word of its kind.
pub fn run<R: Files + AllocGlobal>(
    folder: Folder<'_, R>,
    case: &str,
) -> Result<Outcome, CaseFault> {
    let (plan, merge) = planned(folder, case)?;
    merge.check_programs(folder.alloc(), &plan)?;
    merge.check_devices(folder.alloc(), &plan, false)?;
    Ok(Outcome::Passed)
}

/// Runs a line that merges and strips. `case` is the text after the word of its kind.
pub fn run_stripped<R: Files + AllocGlobal>(
    folder: Folder<'_, R>,
    case: &str,
) -> Result<Outcome, CaseFault> {
    let (plan, merge) = planned(folder, case)?;
    merge.check_devices(folder.alloc(), &plan, true)?;
    Ok(Outcome::Passed)
}

// Parses the plan of a line, and the merge.
fn planned<'a, R: Files + AllocGlobal>(
    folder: Folder<'_, R>,
    case: &'a str,
) -> Result<(Plan, Merge<'a>), CaseFault> {
    let (plan, rest) = case.split_once(" caps ").ok_or(CaseFault::Form)?;
    let plan = plan_in(folder.alloc(), plan)?;
    let merge = Merge::of(folder, rest)?;
    if is_flat(&plan) && merge.has_causes() {
        return Err(CaseFault::Form);
    }
    Ok((plan, merge))
}

// Returns whether the plan is a file or a node of files.
fn is_flat(plan: &Plan) -> bool {
    match plan {
        Plan::Leaf(_) => true,
        Plan::Node(parts) => parts.iter().all(|part| matches!(part, Plan::Leaf(_))),
    }
}

impl<'a> Merge<'a> {
    /// Parses the text of a line after `caps`.
    pub(crate) fn of<R: Files + AllocGlobal>(
        folder: Folder<'_, R>,
        words: &'a str,
    ) -> Result<Merge<'a>, CaseFault> {
        let (caps, rest) = words.split_once(" files ").ok_or(CaseFault::Form)?;
        let caps = caps_in(folder.alloc(), caps)?;
        let (names, right) = answer_in(folder, rest)?;
        let files = files_of(folder, names)?;
        Ok(Merge { files, caps, right })
    }

    // Returns whether one of several causes is right.
    fn has_causes(&self) -> bool {
        match self.right {
            RightAnswer::Causes(causes) => causes.split_once(" | ").is_some(),
            _ => false,
        }
    }

    // Fails the line unless the merge of the programs gives what is right, both for borrowed and for owned programs.
    fn check_programs(&self, alloc: Global, plan: &Plan) -> Result<(), CaseFault> {
        let programs = self.programs(alloc)?;
        self.check_plan(alloc, &programs, plan)?;
        self.check(alloc, merge_files(alloc, programs, plan, &self.caps))
    }

    // Fails the line unless the run over devices writes what is right, or reports the right fault and writes nothing.
    fn check_devices(
        &self,
        alloc: Global,
        plan: &Plan,
        is_stripped: bool,
    ) -> Result<(), CaseFault> {
        let mut inputs = devices(alloc, &self.files)?;
        let inputs = inputs.as_mut_slice();
        let mut out = Device::new(Vec::new(alloc));
        let answer = if is_stripped {
            merge_strip_run(alloc, inputs, plan, &self.caps, &mut out)
        } else {
            merge_run(alloc, inputs, plan, &self.caps, &mut out)
        };
        self.check_run(alloc, answer, out.into_inner().as_slice())
    }

    // Fails the line unless this result of a run that wrote these bytes is right.
    fn check_run(
        &self,
        alloc: Global,
        answer: Result<(), RunFault>,
        written: &[u8],
    ) -> Result<(), CaseFault> {
        match answer {
            Ok(()) => self.check_written(alloc, written),
            Err(RunFault::Memory) => Err(CaseFault::Memory),
            Err(_) if !written.is_empty() => Err(CaseFault::failed(alloc, "bytes and a fault")),
            Err(fault) => self.check_fault(alloc, &fault),
        }
    }

    // Fails the line unless this fault of a run is right, and is reported as the program reports it.
    fn check_fault(&self, alloc: Global, fault: &RunFault) -> Result<(), CaseFault> {
        match fault {
            RunFault::Plan => self.check_bad_plan(alloc),
            RunFault::Merge(cause) => {
                self.check_cause(alloc, cause)?;
                check_reported(alloc, fault, cause)
            }
            _ => Err(CaseFault::failed(alloc, "a file is refused, or a device fails")),
        }
    }

    /// Reads the programs of the files. A line with a refused file fails.
    pub(crate) fn programs(&self, alloc: Global) -> Result<Vec<Program<'_>>, CaseFault> {
        programs_of(alloc, &self.files)
    }

    /// Fails the line unless the merge of the programs by this plan gives what is right.
    pub(crate) fn check_plan(
        &self,
        alloc: Global,
        programs: &[Program<'_>],
        plan: &Plan,
    ) -> Result<(), CaseFault> {
        self.check(alloc, merge_plan(alloc, programs, plan, &self.caps))
    }

    // Fails the line unless this result is right.
    fn check(
        &self,
        alloc: Global,
        answer: Result<Program<'_>, PlanFault>,
    ) -> Result<(), CaseFault> {
        match answer {
            Ok(program) => self.check_program(alloc, &program),
            Err(PlanFault::BadPlan) => self.check_bad_plan(alloc),
            Err(PlanFault::Merge(fault)) => self.check_cause(alloc, &cause_in(fault)?),
        }
    }

    // Fails the line unless the canonical file of this merged program is right.
    fn check_program(&self, alloc: Global, program: &Program<'_>) -> Result<(), CaseFault> {
        match &self.right {
            RightAnswer::Written(right) if is_written_as(alloc, program, right)? => Ok(()),
            RightAnswer::Written(_) => Err(CaseFault::failed(alloc, "other bytes")),
            _ => Err(CaseFault::failed(alloc, "ok")),
        }
    }

    // Fails the line unless these bytes are right.
    fn check_written(&self, alloc: Global, written: &[u8]) -> Result<(), CaseFault> {
        match &self.right {
            RightAnswer::Written(right) if right.as_slice() == written => Ok(()),
            RightAnswer::Written(_) => Err(CaseFault::failed(alloc, "other bytes by devices")),
            _ => Err(CaseFault::failed(alloc, "ok")),
        }
    }

    // Fails the line unless the right answer is that the plan is refused.
    fn check_bad_plan(&self, alloc: Global) -> Result<(), CaseFault> {
        match self.right {
            RightAnswer::BadPlan => Ok(()),
            _ => Err(CaseFault::failed(alloc, "badplan")),
        }
    }

    // Fails the line unless this cause is right.
    fn check_cause(&self, alloc: Global, cause: &MergeCause) -> Result<(), CaseFault> {
        let cause = cause_text(alloc, cause)?;
        if let RightAnswer::Causes(causes) = self.right {
            for right in causes.split(" | ") {
                if right == cause.as_str() {
                    return Ok(());
                }
            }
        }
        Err(CaseFault::Failed(cause))
    }
}

// Fails the line unless a fault is reported with status 1 and a line that has this cause.
fn check_reported(alloc: Global, fault: &RunFault, cause: &MergeCause) -> Result<(), CaseFault>
    requires { HasName 0 fault.now }
{
    let (status, line) = explain(alloc, fault, &[], "out")?;
    let cause = cause_text(alloc, cause)?;
    if status == 1 && line.as_str().strip_prefix("dexkit: ") == Some(cause.as_str()) {
        return Ok(());
    }
    Err(CaseFault::Failed(line))
}

/// Reads the programs of files. A line with a refused file fails.
pub(crate) fn programs_of(alloc: Global, files: &[Vec<u8>]) -> Result<Vec<Program<'_>>, CaseFault> {
    let mut programs = Vec::new(alloc);
    for file in files {
        programs.push(program_of(alloc, file)?)?;
    }
    Ok(programs)
}

// Parses the names of the files, and what is right.
fn answer_in<'a, R: Files + AllocGlobal>(
    folder: Folder<'_, R>,
    words: &'a str,
) -> Result<(&'a str, RightAnswer<'a>), CaseFault> {
    if let Some((names, written)) = words.split_once(" ok ") {
        return Ok((names, RightAnswer::Written(folder.read(written)?)));
    }
    if let Some((names, causes)) = words.split_once(" fault ") {
        return Ok((names, RightAnswer::Causes(causes)));
    }
    match words.strip_suffix(" badplan") {
        Some(names) => Ok((names, RightAnswer::BadPlan)),
        None => Err(CaseFault::Form),
    }
}

/// Returns the cause that a merge reports.
///
/// Error: `AllocError` if allocation failed in the merge.
pub(crate) fn cause_in(fault: MergeFault) -> Result<MergeCause, AllocError> {
    match fault {
        MergeFault::Conflict(name) => Ok(MergeCause::Conflict(name)),
        MergeFault::Cycle(name) => Ok(MergeCause::Cycle(name)),
        MergeFault::Cap(cap) => Ok(MergeCause::Cap(cap)),
        MergeFault::Memory => Err(AllocError),
    }
}

/// Returns a cause as a line has it.
pub(crate) fn cause_text(alloc: Global, cause: &MergeCause) -> Result<String, AllocError> {
    let mut words = Printed::new(alloc);
    match cause {
        MergeCause::Conflict(name) => print_named("conflict ", name, &mut words),
        MergeCause::Cycle(name) => print_named("cycle ", name, &mut words),
        MergeCause::Cap(cap) => {
            words.add("cap ");
            words.add(kind_of_cap(*cap));
        }
    }
    words.finish()
}

// Returns what a cap limits.
fn kind_of_cap(cap: u8) -> &'static str {
    match cap {
        1 => "types",
        2 => "protos",
        3 => "fields",
        4 => "methods",
        5 => "short-strings",
        _ => "weight",
    }
}

fn print_named(word: &str, name: &Name, out: &mut Printed) {
    out.add(word);
    print_name(name, out);
}
