//! The calls.

ghost use Rattle.dexruns.specs.Runs.{AllWork};
ghost use Rattle.dexio.specs.Device.{is_broken};

use crate::checks::devices;
use crate::memory::trial::{Compare, Trial};
use dexcanon::to_bytes;
use dexclass::{Program, read};
use dexhead::Device;
use dexmerge::{Caps, MergeFault, Plan, PlanFault, merge, merge_plan};
use dexpool::ReadFault;
use dexruns::{Detail, Leftover, dump_run, fan_plan, merge_run, merge_strip_run, normalise_run};
use std::alloc::{AllocError, Global};
use std::fmt;

/// What is called.
#[derive(Clone, Copy)]
pub enum Callee {
    NormaliseRun,
    DumpRun,
    /// Over all files at once.
    MergeRun,
    /// Over all files at once.
    MergeStripRun,
    /// Of the first file.
    ToBytes,
    /// Of all files.
    Merge,
    /// Of what the first two files give, and the third.
    MergePlan,
}

impl fmt::Display for Callee {
    fn fmt<W: fmt::Write>(&self, f: &mut fmt::Formatter<W>) -> fmt::Result {
        f.write_str(match self {
            Callee::NormaliseRun => "normalise_run",
            Callee::DumpRun => "dump_run",
            Callee::MergeRun => "merge_run",
            Callee::MergeStripRun => "merge_strip_run",
            Callee::ToBytes => "to_bytes",
            Callee::Merge => "merge",
            Callee::MergePlan => "merge_plan",
        })
    }
}

/// A call over files, and the bytes that are right.
#[derive(Drop)]
pub struct Call {
    pub callee: Callee,
    pub files: Vec<Vec<u8>>,
    pub right: Vec<u8>,
}

impl Call {
    /// Makes the call.
    pub fn made(&self, alloc: Global) -> Trial {
        match self.tried(alloc) {
            Ok(trial) => trial,
            Err(trial) => trial,
        }
    }

    // Makes the call. Error: what came of a step before it.
    fn tried(&self, alloc: Global) -> Result<Trial, Trial> {
        match self.callee {
            Callee::NormaliseRun => self.normalised(alloc),
            Callee::DumpRun => self.listed(alloc),
            Callee::MergeRun => self.merged_in_a_run(alloc, false),
            Callee::MergeStripRun => self.merged_in_a_run(alloc, true),
            Callee::ToBytes => self.made_to_bytes(alloc),
            Callee::Merge => self.merged(alloc),
            Callee::MergePlan => self.merged_by_plan(alloc),
        }
    }

    // Returns the bytes of the first file.
    fn file(&self) -> Result<&[u8], Trial> {
        match self.files.first() {
            Some(file) => Ok(file.as_slice()),
            None => Err(Trial::Wrong),
        }
    }

    fn normalised(&self, alloc: Global) -> Result<Trial, Trial> {
        let mut input = Device::new(self.file()?);
        let mut out = Compare::with(&self.right);
        let answer = normalise_run(alloc, &mut input, &mut out, Leftover::Dropped);
        Ok(Trial::of_run(&answer, &out))
    }

    fn listed(&self, alloc: Global) -> Result<Trial, Trial> {
        let mut input = Device::new(self.file()?);
        let mut out = Compare::with(&self.right);
        let answer = dump_run(
            alloc,
            Detail::Short,
            &mut input,
            &mut out,
            Leftover::Dropped,
        );
        Ok(Trial::of_run(&answer, &out))
    }

    fn merged_in_a_run(&self, alloc: Global, is_stripped: bool) -> Result<Trial, Trial> {
        let plan = plan_of_all(alloc, self.files.len())?;
        let mut inputs = devices(alloc, &self.files, &numbers(alloc, self.files.len())?)?;
        Ok(self.merged_over(alloc, inputs.as_mut_slice(), &plan, is_stripped))
    }

    fn merged_over(
        &self,
        alloc: Global,
        inputs: &mut [Device<&[u8]>],
        plan: &Plan,
        is_stripped: bool,
    ) -> Trial
        requires { AllWork is_broken inputs.old }
    {
        let mut out = Compare::with(&self.right);
        let caps = Caps::greatest();
        let answer = if is_stripped {
            merge_strip_run(alloc, inputs, plan, &caps, &mut out)
        } else {
            merge_run(alloc, inputs, plan, &caps, &mut out)
        };
        Trial::of_run(&answer, &out)
    }

    fn made_to_bytes(&self, alloc: Global) -> Result<Trial, Trial> {
        let program = program(alloc, self.file()?)?;
        Ok(self.written(alloc, &program))
    }

    // Makes a program to bytes.
    fn written(&self, alloc: Global, program: &Program<'_>) -> Trial {
        Trial::of_bytes(&to_bytes(alloc, program), &self.right)
    }

    fn merged(&self, alloc: Global) -> Result<Trial, Trial> {
        let programs = programs(alloc, &self.files)?;
        let parts: Vec<&Program<'_>> = programs.iter().collect(alloc)?;
        match merge(alloc, &parts, &Caps::greatest()) {
            Ok(program) => Ok(self.written(alloc, &program)),
            Err(MergeFault::Memory) => Err(Trial::Memory),
            Err(_) => Err(Trial::Wrong),
        }
    }

    fn merged_by_plan(&self, alloc: Global) -> Result<Trial, Trial> {
        let programs = programs(alloc, &self.files)?;
        let plan = plan_of_two_and_one(alloc)?;
        match merge_plan(alloc, &programs, &plan, &Caps::greatest()) {
            Ok(program) => Ok(self.written(alloc, &program)),
            Err(PlanFault::Merge(MergeFault::Memory)) => Err(Trial::Memory),
            Err(_) => Err(Trial::Wrong),
        }
    }
}

// Returns the numbers below `count`.
fn numbers(alloc: Global, count: usize) -> Result<Vec<usize>, AllocError> {
    let mut numbers = Vec::with_capacity(alloc, count)?;
    for number in 0..count {
        numbers.push(number)?;
    }
    Ok(numbers)
}

// Returns the plan that merges all files at once.
fn plan_of_all(alloc: Global, files: usize) -> Result<Plan, Trial> {
    if files == 0 {
        return Err(Trial::Wrong);
    }
    Ok(fan_plan(alloc, files, None)?)
}

// Returns the plan that merges two files, and then what they give and a third.
fn plan_of_two_and_one(alloc: Global) -> Result<Plan, AllocError> {
    let two = Plan::Node(Vec::from_array(alloc, [Plan::Leaf(0), Plan::Leaf(1)])?);
    Ok(Plan::Node(Vec::from_array(alloc, [two, Plan::Leaf(2)])?))
}

// Reads the program of a file.
fn program(alloc: Global, file: &[u8]) -> Result<Program<'_>, Trial> {
    match read(alloc, file) {
        Ok(program) => Ok(program),
        Err(ReadFault::Memory) => Err(Trial::Memory),
        Err(ReadFault::Refused(_)) => Err(Trial::Wrong),
    }
}

// Reads the programs of files.
fn programs(alloc: Global, files: &[Vec<u8>]) -> Result<Vec<Program<'_>>, Trial> {
    let mut programs = Vec::with_capacity(alloc, files.len())?;
    for file in files {
        programs.push(program(alloc, file)?)?;
    }
    Ok(programs)
}
