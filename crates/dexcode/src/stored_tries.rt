//! Tries and the handlers that they name, as they are stored.

ghost use Rattle.std.specs.Prelude.{◌≡◌};

use crate::handlers::Handler;
use crate::tries::{Tries, Try};
use std::marker::Model;

/// Tries, and the handlers that they name, each once and in order of first use. Contracts see tries with their
/// handlers.
#[derive(Clone, Drop)]
pub(crate) struct StoredTries {
    /// The tries, each with the number of its handler.
    pub(crate) tries: Vec<Try>,
    /// The handlers that they name, each once.
    pub(crate) handlers: Vec<Handler>,
}

impl Model for StoredTries {
    ghost use Rattle.std.specs.Prelude.{List};
    ghost use Rattle.dexcode.specs.Numbered.{NumberedTry, AreStored, all_named};

    ghost Value = { List NumberedTry };

    ghost view = { λ t. all_named t.handlers.items t.tries.items };

    ghost invariant = { λ t. AreStored t.handlers.items t.tries.items };
}

impl StoredTries {
    // The tries and the handlers, borrowed.
    pub(crate) fn as_tries(&self) -> Tries<'_>
        ensures { result ≡ self.now }
    {
        Tries {
            tries: &self.tries,
            handlers: &self.handlers,
        }
    }
}
