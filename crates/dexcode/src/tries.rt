//! Tries: the units that are covered, and their handlers.

ghost use Rattle.std.specs.Prelude.{◌≡◌, ◌<◌, List, [], All, length};
ghost use Rattle.dexcode.specs.Numbered.{NumberedHandler, AreStored, IsFormedHandler, all_named, handlers_of};

use crate::handlers::Handler;
use std::marker::Model;

/// The code units that are covered, and the number of their handler.
///
/// Source: "try_item".
#[derive(Clone, Copy, Debug, PartialEq, Eq)]
pub struct Try {
    /// The start address of the block that is covered, in 16-bit code units from the start of the instructions.
    pub start_addr: u32,
    /// How many 16-bit code units are covered.
    pub insn_count: u16,
    /// The number of the handler in [`Tries::handlers`], from 0 on.
    pub handler: usize,
}

/// The tries of code, and the handlers that they name, each once and in order of first use, both borrowed from the code.
/// Contracts see tries with their handlers.
///
/// Source: "try_item" and "encoded_catch_handler_list".
#[derive(Drop)]
pub struct Tries<'c> {
    /// The tries, each with the number of its handler.
    pub(crate) tries: &'c [Try],
    /// The handlers that they name, each once.
    pub(crate) handlers: &'c [Handler],
}

impl<'c> Model for Tries<'c> {
    ghost use Rattle.std.specs.Prelude.{List};
    ghost use Rattle.dexcode.specs.Numbered.{NumberedTry, AreStored, all_named};

    ghost Value = { List NumberedTry };

    ghost view = { λ t. all_named t.handlers.now t.tries.now };

    ghost invariant = { λ t. AreStored t.handlers.now t.tries.now };
}

impl<'c> Tries<'c> {
    /// The tries, as read. Each names its handler by its number in [`handlers`](Tries::handlers).
    ///
    /// Source: "try_item".
    pub fn tries(&self) -> &'c [Try]
        ensures tries { (hs : List NumberedHandler) → hs ≡ handlers_of self.now
            → all_named hs result.now ≡ self.now }
        ensures within { All (λ t. t.handler < length (handlers_of self.now)) result.now }
    {
        self.parts().0
    }

    /// The handlers that tries name, each once and in order of first use. One that catches no type catches all else,
    /// and the number of each type that is caught has 32 bits.
    ///
    /// Source: "encoded_catch_handler".
    pub fn handlers(&self) -> &'c [Handler]
        ensures handlers { result.now ≡ handlers_of self.now }
        ensures formed { All IsFormedHandler result.now }
    {
        self.parts().1
    }

    // The tries and the handlers, as they are stored.
    pub(crate) fn parts(&self) -> (&'c [Try], &'c [Handler])
        ensures named { all_named result.1.now result.0.now ≡ self.now }
        ensures stored { AreStored result.1.now result.0.now }
    {
        (self.tries, self.handlers)
    }

    // No tries.
    pub(crate) fn none() -> Tries<'c>
        ensures { result ≡ [] }
    {
        Tries {
            tries: &[],
            handlers: &[],
        }
    }
}
