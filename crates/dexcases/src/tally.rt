//! Counts of lines that passed and failed.

ghost use Rattle.std.specs.Prelude.{◌≡◌, ◌↔◌, ◌<◌, IsTrue};
ghost use Rattle.dexcases.specs.Outcomes.{is_failed};

use crate::outcome::Outcome;
use std::fmt;

/// How many lines passed and failed.
#[derive(Clone, Copy, Debug, Default, PartialEq, Eq)]
pub struct Tally {
    passed: u32,
    failed: u32,
}

impl Tally {
    /// Returns the tally of a file that has no case: one failure.
    pub fn failure() -> Tally
        ensures { 0 < result.failed }
    {
        Tally {
            passed: 0,
            failed: 1,
        }
    }

    pub fn failed(self) -> u32
        ensures { result ≡ self.failed }
    {
        self.failed
    }

    /// Returns whether no line was counted.
    pub fn is_empty(self) -> bool
        ensures { IsTrue result ↔ ((self.passed ≡ 0) × (self.failed ≡ 0)) }
    {
        self.passed == 0 && self.failed == 0
    }

    /// Counts a line.
    pub fn count(&mut self, outcome: &Outcome)
        ensures failed { IsTrue (is_failed outcome.now) → 0 < self.new.failed }
        ensures before { 0 < self.old.failed → 0 < self.new.failed }
    {
        match outcome {
            Outcome::Passed => self.passed = self.passed.saturating_add(1),
            Outcome::Failed(_) => self.failed = self.failed.saturating_add(1),
        }
    }

    /// Returns the sum of both tallies.
    pub fn with(self, other: Tally) -> Tally
        ensures failed { (result.failed ≡ 0) ↔ ((self.failed ≡ 0) × (other.failed ≡ 0)) }
    {
        Tally {
            passed: self.passed.saturating_add(other.passed),
            failed: self.failed.saturating_add(other.failed),
        }
    }
}

impl fmt::Display for Tally {
    fn fmt<W: fmt::Write>(&self, f: &mut fmt::Formatter<W>) -> fmt::Result {
        let Tally { passed, failed } = self;
        write!(f, "{passed} passed, {failed} failed")
    }
}
