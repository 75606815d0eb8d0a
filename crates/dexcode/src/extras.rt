//! What code has besides its pieces.

ghost use Rattle.std.specs.Prelude.{◌≡◌, [], IfOk, unwrap_or};
ghost use Rattle.std.specs.Option.{option_map};
ghost use Rattle.dexcode.specs.internal.Extras.{tries_of, debug_of};

use crate::stored_tries::StoredTries;
use dexdebug::Debug;
use std::alloc::{AllocError, Global};

/// The tries and the debug program of code, in one box. Most code has no tries.
#[derive(Clone, Drop)]
pub(crate) enum Extras<'a> {
    /// Neither tries nor a debug program.
    None,
    /// A debug program alone.
    Debug(Box<Debug<'a>>),
    /// Tries, with or without a debug program.
    Tries(Box<TriesAndDebug<'a>>),
}

/// Tries and a debug program, if there is one.
#[derive(Clone, Drop)]
pub(crate) struct TriesAndDebug<'a> {
    pub(crate) tries: StoredTries,
    pub(crate) debug: Option<Box<Debug<'a>>>,
}

impl<'a> Extras<'a> {
    // These tries and this debug program.
    pub(crate) fn of(
        alloc: Global,
        tries: Option<StoredTries>,
        debug: Option<Box<Debug<'a>>>,
    ) -> Result<Extras<'a>, AllocError>
        ensures tries { IfOk result (λ extras. tries_of extras ≡ unwrap_or tries []) }
        ensures debug { IfOk result (λ extras.
            debug_of extras ≡ option_map (λ debug. debug.value) debug.entry) }
    {
        match tries {
            Some(tries) => Ok(Extras::Tries(Box::new(alloc, TriesAndDebug { tries, debug })?)),
            None => Ok(debug.map_or(Extras::None, |debug| Extras::Debug(debug))),
        }
    }
}
