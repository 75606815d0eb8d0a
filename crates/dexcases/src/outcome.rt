//! Outcomes of lines.

ghost use Rattle.std.specs.Prelude.{◌≡◌, ◌↔◌, string_bytes};

use std::alloc::{AllocError, Global};

/// The outcome of a line.
#[derive(Debug, Drop)]
pub enum Outcome {
    /// The calls returned what the line says.
    Passed,
    /// The calls returned this text instead.
    Failed(String),
}

impl Outcome {
    /// Returns the outcome of a line with this right answer: it passes if and only if the calls returned the right
    /// answer.
    pub fn of(answered: String, right: &str) -> Outcome
        ensures { (result ≡ Outcome.Passed) ↔ (string_bytes answered ≡ right.now) }
    {
        if answered.as_str() == right {
            Outcome::Passed
        } else {
            Outcome::Failed(answered)
        }
    }

    /// Returns the outcome of a line that fails for this reason.
    pub fn failed(alloc: Global, reason: &str) -> Result<Outcome, AllocError> {
        Ok(Outcome::Failed(String::from_str(alloc, reason)?))
    }
}
