//! Counts of how merges end.

use dexmerge::MergeFault;

/// How a merge ends.
#[derive(Clone, Copy, Debug, PartialEq, Eq)]
pub enum Ending {
    /// The files merge.
    Merged,
    /// Two different classes have one name.
    Conflict,
    /// A class has no depth.
    Cycle,
    /// A cap is exceeded.
    Cap,
    /// Something does not hold of the merge.
    Wrong,
}

impl Ending {
    /// Returns how a merge ends that is refused for this cause.
    pub fn of(cause: &MergeFault) -> Ending {
        match cause {
            MergeFault::Conflict(_) => Ending::Conflict,
            MergeFault::Cycle(_) => Ending::Cycle,
            MergeFault::Cap(_) => Ending::Cap,
            MergeFault::Memory => Ending::Wrong,
        }
    }
}

/// How many merges ended in each way.
#[derive(Clone, Copy, Debug, Default)]
pub struct Tally {
    merged: u32,
    conflicts: u32,
    cycles: u32,
    caps: u32,
    wrong: u32,
}

impl Tally {
    /// Counts a merge.
    pub fn count(&mut self, ending: Ending) {
        let place = match ending {
            Ending::Merged => &mut self.merged,
            Ending::Conflict => &mut self.conflicts,
            Ending::Cycle => &mut self.cycles,
            Ending::Cap => &mut self.caps,
            Ending::Wrong => &mut self.wrong,
        };
        *place = place.saturating_add(1);
    }

    /// Returns whether everything holds of every merge, and enough merges ended in each way to show it.
    pub fn is_right(self) -> bool {
        self.wrong == 0 && self.has_enough()
    }

    // Returns whether enough merges ended in each way.
    fn has_enough(self) -> bool {
        self.merged >= 300 && self.conflicts >= 30 && self.cycles >= 10 && self.caps >= 100
    }
}
