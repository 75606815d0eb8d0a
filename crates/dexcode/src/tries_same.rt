//! Whether tries mean the same.

ghost use Rattle.std.specs.Prelude.{◌≡◌, ◌↔◌, ◌<◌, IsTrue, All, length};
ghost use Rattle.dexcode.specs.declared.tries.Try.{Try};
ghost use Rattle.dexcode.specs.Renumbering.{remapped_type, renumbered_handler, renumbered_try};
ghost use Rattle.dexdebug.specs.internal.Same.{SameRemapped, EqualRemapped};
ghost use Rattle.dexcode.specs.internal.Same.{AreCompared, EqualTries, SameTries};

use crate::handlers::{Catch, Handler};
use crate::tries::{Tries, Try};
use dexpool::{Remap, SymbolKind};

// The type that is caught, remapped, and the address where it is handled.
fn remapped_parts(remap: &Remap, catch: &Catch) -> (usize, u32)
    ensures { result ≡ (remapped_type remap.now catch.now.typ, catch.now.addr) }
{
    let typ = remap.or_same(SymbolKind::Typ, catch.typ as usize);
    (typ, catch.addr)
}

// Returns whether the handlers are equal once their types are remapped.
fn same_handler(mine: &Remap, handler: &Handler, theirs: &Remap, other: &Handler) -> bool
    ensures { IsTrue result
        ↔ EqualRemapped renumbered_handler mine.now theirs.now handler.now other.now }
{
    if handler.catch_all_addr != other.catch_all_addr {
        return false;
    }
    handler
        .catches()
        .iter()
        .map(|catch| remapped_parts(mine, catch))
        .eq(
            other
                .catches()
                .iter()
                .map(|catch| remapped_parts(theirs, catch)),
        )
}

// Tries with their handlers, and the map by which the types of these are remapped.
#[derive(Clone, Copy)]
struct RemappedTries<'s> {
    tries: &'s [Try],
    handlers: &'s [Handler],
    remap: &'s Remap,
}

impl RemappedTries<'_> {
    // Returns whether a try of these and a try of others are equal once the types of their handlers are remapped. The
    // first `compared` handlers of both lists are known to be.
    fn eq_try(&self, item: Try, others: &RemappedTries<'_>, other: Try, compared: usize) -> bool
        requires within { item.handler < length self.now.handlers.now }
        requires others { other.handler < length others.now.handlers.now }
        requires known { AreCompared self.now.remap.now others.now.remap.now self.now.handlers.now
            others.now.handlers.now compared }
        ensures { IsTrue result ↔ EqualTries self.now.remap.now self.now.handlers.now item
            others.now.remap.now others.now.handlers.now other }
    {
        if item.start_addr != other.start_addr || item.insn_count != other.insn_count {
            return false;
        }
        if item.handler < compared && item.handler == other.handler {
            return true;
        }
        let handler = &self.handlers[item.handler];
        let other = &others.handlers[other.handler];
        same_handler(self.remap, handler, others.remap, other)
    }

    // Returns whether the tries are equal, one for one, once the types of their handlers are remapped. Handlers are in
    // order of first use: so two that have one number are compared once, and others only where the tries differ or
    // types map to one.
    fn eq_tries(&self, others: &RemappedTries<'_>) -> bool
        requires within { All (λ t. t.handler < length self.now.handlers.now) self.now.tries.now }
        requires others { All (λ t. t.handler < length others.now.handlers.now)
            others.now.tries.now }
        ensures { IsTrue result ↔ SameTries self.now.remap.now self.now.handlers.now
            self.now.tries.now others.now.remap.now others.now.handlers.now others.now.tries.now }
    {
        if self.tries.len() != others.tries.len() {
            return false;
        }
        let mut compared = 0;
        for (i, item) in self.tries.iter().enumerate() {
            let other = others.tries[i];
            if !self.eq_try(*item, others, other, compared) {
                return false;
            }
            if item.handler == compared && other.handler == compared {
                compared += 1;
            }
        }
        true
    }
}

// Tries, as they are stored, are equal exactly where they are the same. It does nothing: its contract is the law, for the
// comparison of lists of them.
fn try_equality_law()
    ensures { (x y : Try) → IsTrue (⟦<Try as PartialEq>⟧.eq x y) ↔ (x ≡ y) }
{}

impl Tries<'_> {
    // Returns whether these and other tries are equal once the types of each are remapped by a map of its own.
    pub(crate) fn same_mapped(&self, mine: &Remap, other: &Tries<'_>, theirs: &Remap) -> bool
        ensures { IsTrue result
            ↔ SameRemapped renumbered_try mine.now theirs.now self.now other.now }
    {
        let (tries, handlers) = self.parts();
        let (other_tries, other_handlers) = other.parts();
        let own = RemappedTries {
            tries,
            handlers,
            remap: mine,
        };
        let others = RemappedTries {
            tries: other_tries,
            handlers: other_handlers,
            remap: theirs,
        };
        own.eq_tries(&others)
    }

    /// Returns whether these and other tries are the same.
    pub(crate) fn is_same(&self, other: &Tries<'_>) -> bool
        ensures { IsTrue result → self.now ≡ other.now }
    {
        try_equality_law();
        let (tries, handlers) = self.parts();
        let (other_tries, other_handlers) = other.parts();
        tries == other_tries && handlers == other_handlers
    }
}
