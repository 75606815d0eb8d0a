//! Sets of conditions: which of them files were refused by.

ghost use Rattle.std.specs.Prelude.{◌≡◌};
ghost use Rattle.dexruns.specs.Conditions.{no_conditions, with_condition, has_condition};

use std::marker::Model;

/// A set of conditions, by their numbers.
///
/// Source: this project's rule.
#[derive(Clone, Copy, Debug, PartialEq, Eq)]
pub struct ConditionSet {
    flags: [bool; 24],
}

impl Model for ConditionSet {
    ghost use Rattle.std.specs.Prelude.{◌≡◌, List, Bool, length};

    ghost Value = { List Bool };

    ghost view = { λ set. set.flags };

    ghost inverse = { λ flags. record { flags = flags } };

    ghost invariant = { λ set. length set.flags ≡ 24 };
}

impl ConditionSet {
    /// How many numbers there are: those of the conditions, and 0, which none has.
    pub const NUMBERS: u8 = 24;

    /// No conditions.
    pub fn new() -> ConditionSet
        ensures { result ≡ no_conditions }
    {
        ConditionSet { flags: [false; 24] }
    }

    /// Adds the condition with a number; there is none above 23.
    pub fn insert(&mut self, number: u8)
        ensures { self.new ≡ with_condition self.old number }
    {
        if number < ConditionSet::NUMBERS {
            self.flags[number as usize] = true;
        }
    }

    /// Returns whether the condition with a number is in the set.
    pub fn contains(&self, number: u8) -> bool
        ensures { result ≡ has_condition self.now number }
    {
        number < ConditionSet::NUMBERS && self.flags[number as usize]
    }
}
