//! Numbers that are kept run by run: of equal runs only one is kept.

ghost use Rattle.std.specs.Prelude.{◌≡◌, ◌∷◌, ◌++◌, ◌≤◌, [], OnOk, drop, length, slice_index};

use indexmap::IndexSet;
use std::alloc::{AllocError, Global};
use std::marker::Model;

/// A list of numbers that is kept run by run, so that its memory grows with the number of runs, and with the length of
/// those that differ. Contracts see the list.
#[derive(Drop)]
pub(crate) struct Runs {
    kept: IndexSet<Vec<u32>>,
    runs: Vec<usize>,
    begun: Vec<u32>,
}

impl Model for Runs {
    ghost use Rattle.std.specs.Prelude.{ℕ, List, ◌++◌, map};
    ghost use Rattle.dexlayout.specs.internal.Runs.{run_numbers, AreRuns};

    ghost Value = { List ℕ };

    ghost view = { λ r. run_numbers (map (λ run. run.items) r.kept.keys) r.runs.items ++ r.begun.items };

    ghost invariant = { λ r. AreRuns (map (λ run. run.items) r.kept.keys) r.runs.items };
}

impl Runs {
    /// No numbers.
    pub(crate) fn none(alloc: Global) -> Runs
        ensures { result ≡ [] }
    {
        Runs {
            kept: IndexSet::new(alloc),
            runs: Vec::new(alloc),
            begun: Vec::new(alloc),
        }
    }

    /// Adds a number.
    pub(crate) fn push(&mut self, number: u32) -> Result<(), AllocError>
        ensures { OnOk result (self.new ≡ self.old ++ number ∷ []) }
    {
        self.begun.push(number)?;
        Ok(())
    }

    /// Ends a run with the number that was added last. It is kept unless it equals an earlier one.
    pub(crate) fn end_run(&mut self) -> Result<(), AllocError>
        ensures { OnOk result (self.new ≡ self.old) }
    {
        if self.begun.is_empty() {
            return Ok(());
        }
        let run = Vec::from_slice(*self.begun.allocator(), &self.begun)?;
        let (number, _) = self.kept.insert_full(run)?;
        self.runs.push(number)?;
        self.begun.clear();
        Ok(())
    }

    /// The numbers, from the first on.
    pub(crate) fn numbers(&self) -> RunsLeft<'_>
        ensures { result ≡ self.now }
    {
        RunsLeft {
            kept: self.kept.as_slice(),
            front: &[],
            runs: &self.runs,
            begun: &self.begun,
        }
    }
}

/// The numbers that are left of some that are kept run by run. Contracts see a list of them.
#[derive(Drop)]
pub(crate) struct RunsLeft<'r> {
    kept: &'r [Vec<u32>],
    front: &'r [u32],
    runs: &'r [usize],
    begun: &'r [u32],
}

impl<'r> Model for RunsLeft<'r> {
    ghost use Rattle.std.specs.Prelude.{ℕ, List, ◌++◌, map};
    ghost use Rattle.dexlayout.specs.internal.Runs.{run_numbers, AreRuns};

    ghost Value = { List ℕ };

    ghost view = { λ r. r.front.now ++ (run_numbers (map (λ run. run.items) r.kept.now) r.runs.now ++ r.begun.now) };

    ghost invariant = { λ r. AreRuns (map (λ run. run.items) r.kept.now) r.runs.now };
}

// The first of some numbers, and the others.
fn split_number(numbers: &[u32]) -> (u32, &[u32])
    requires { 1 ≤ length numbers.now }
    ensures first { result.0 ≡ slice_index numbers.now 0 }
    ensures others { result.1.now ≡ drop 1 numbers.now }
{
    let (first, others) = numbers.split_at(1);
    (first[0], others)
}

impl<'r> RunsLeft<'r> {
    /// The next number.
    ///
    /// Condition: there is one.
    pub(crate) fn next(&mut self) -> u32
        requires { 1 ≤ length self.old }
        ensures first { result ≡ slice_index self.old 0 }
        ensures others { self.new ≡ drop 1 self.old }
    {
        if !self.front.is_empty() {
            let (first, others) = split_number(self.front);
            self.front = others;
            return first;
        }
        if self.runs.is_empty() {
            let (first, others) = split_number(self.begun);
            self.begun = others;
            return first;
        }
        let (run, runs) = self.runs.split_at(1);
        let (first, others) = split_number(&self.kept[run[0]]);
        self.runs = runs;
        self.front = others;
        first
    }
}
