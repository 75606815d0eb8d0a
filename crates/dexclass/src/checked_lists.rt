//! Lists of interfaces that were checked.

ghost use Rattle.std.specs.Prelude.{◌≡◌, ◌≤◌, [], List, ℕ, OnOk};
ghost use Rattle.dexclass.specs.internal.Checked.{AreInterfacesIn, AreCheckedLists};

use std::alloc::{AllocError, Global};

/// A part of a file, as numbers of two bytes each: from the one at `start` up to the one before `end`.
#[derive(Clone, Copy)]
pub(crate) struct Range16 {
    pub(crate) start: usize,
    pub(crate) end: usize,
}

/// Parts of a file in which each number is the index of an interface. A part that touches one that is there makes that
/// one longer, so that there are few of them, however many lists were checked.
#[derive(Drop)]
pub(crate) struct CheckedLists {
    ranges: Vec<Range16>,
}

impl CheckedLists {
    /// Nothing was checked yet.
    pub(crate) fn none(alloc: Global) -> CheckedLists
        ensures { (b : List ℕ) (r : ℕ) → AreCheckedLists b r result }
    {
        CheckedLists {
            ranges: Vec::new(alloc),
        }
    }

    /// The end of a part that has the number at `at`, or `at` if there is none.
    pub(crate) fn end_from(&self, at: usize) -> usize
        ensures after { at ≤ result }
        ensures between { (b : List ℕ) (r : ℕ) → AreCheckedLists b r self.now
            → AreInterfacesIn b r at result }
    {
        for range in &self.ranges {
            if range.start <= at && at < range.end {
                return range.end;
            }
        }
        at
    }

    /// Adds a part. One that it touches grows by it.
    pub(crate) fn add(&mut self, part: Range16) -> Result<(), AllocError>
        ensures { OnOk result ((b : List ℕ) (r : ℕ) → AreCheckedLists b r self.old
            → AreInterfacesIn b r part.start part.end → AreCheckedLists b r self.new) }
    {
        for i in 0..self.ranges.len() {
            let range = self.ranges[i];
            if range.start <= part.end && part.start <= range.end {
                self.ranges[i] = Range16 {
                    start: range.start.min(part.start),
                    end: range.end.max(part.end),
                };
                return Ok(());
            }
        }
        self.ranges.push(part)?;
        Ok(())
    }
}
