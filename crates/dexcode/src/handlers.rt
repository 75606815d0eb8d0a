//! Handlers: what is caught, and where.

ghost use Rattle.std.specs.Prelude.{◌≡◌, ◌<◌, ◌≤◌, MatchOption};
ghost use Rattle.dexspec.specs.Code.{most_handlers};
ghost use Rattle.dexcode.specs.Numbered.{handlers_weight};
ghost use Rattle.std.specs.Cmp.Rules.{comparing, hashing};
ghost use Rattle.std.specs.Hash as fed;
ghost use Rattle.std.proofs.Common.{rules};

use std::hash::{Hash, Hasher};
use std::marker::Model;

// The most that the handlers of a code_item may weigh.
const MOST_HANDLERS: usize = 65_535;

/// A type that is caught, and the address of the code for it.
///
/// Source: "encoded_type_addr_pair".
#[derive(Clone, Copy, Debug)]
pub struct Catch {
    /// The number of the type of the exception to catch.
    pub typ: u32,
    /// The bytecode address of the handler, in 16-bit code units from the start of the instructions.
    pub addr: u32,
}

impl PartialEq for Catch {
    ghost use Rattle.dexcode.specs.Numbered.{same_catch};

    ghost eq = { same_catch };

    ghost laws = { Prim.search (comparing, rules) };

    fn eq(&self, other: &Catch) -> bool {
        self.typ == other.typ && self.addr == other.addr
    }
}

impl Eq for Catch {
    ghost laws = { Prim.search (comparing, rules) };
}

impl Hash for Catch {
    ghost use Rattle.std.specs.Prelude.{◌++◌};

    ghost hash_input = { λ c. fed.u32 c.typ ++ fed.u32 c.addr };

    ghost respects_eq = { Prim.search (hashing, rules) };

    fn hash<H: Hasher>(&self, state: &mut H) {
        self.typ.hash(state);
        self.addr.hash(state);
    }
}

/// The types that are caught, in order, and the catch-all address, if there is one. Contracts see both.
///
/// Source: "encoded_catch_handler".
#[derive(Clone, Drop)]
pub struct Handler {
    /// The types that are caught, in the order in which they are tested.
    pub(crate) catches: Vec<Catch>,
    /// The bytecode address of the catch-all handler, if there is one, in 16-bit code units.
    pub(crate) catch_all_addr: Option<u32>,
}

impl Model for Handler {
    ghost use Rattle.dexcode.specs.Numbered.{NumberedHandler};

    ghost Value = { NumberedHandler };

    ghost view = { λ h. record { catches = h.catches.items; catch_all_addr = h.catch_all_addr } };
}

impl PartialEq for Handler {
    ghost use Rattle.dexcode.specs.Numbered.{same_handler};
    ghost use Rattle.dexcode.specs.Equality.{handler_per};

    ghost eq = { same_handler };

    ghost laws = { handler_per };

    fn eq(&self, other: &Handler) -> bool {
        self.catches == other.catches && self.catch_all_addr == other.catch_all_addr
    }
}

impl Eq for Handler {
    ghost use Rattle.dexcode.specs.Equality.{handler_equiv};

    ghost laws = { handler_equiv };
}

impl Hash for Handler {
    ghost use Rattle.dexcode.specs.Equality.{handler_input, handlers_equal};

    ghost hash_input = { handler_input };

    ghost respects_eq = { handlers_equal };

    fn hash<H: Hasher>(&self, state: &mut H) {
        self.catches.hash(state);
        self.catch_all_addr.hash(state);
    }
}

impl Handler {
    /// The types that are caught, in order, each by its number, and the addresses where they are handled, in 16-bit
    /// code units from the start of the instructions.
    ///
    /// Source: "encoded_catch_handler", the field `handlers`, and "encoded_type_addr_pair".
    pub fn catches(&self) -> &[Catch]
        ensures { result.now ≡ self.now.catches }
    {
        &self.catches
    }

    /// The bytecode address of the catch-all handler, if there is one, in 16-bit code units from the start of the
    /// instructions.
    ///
    /// Source: "encoded_catch_handler", the field `catch_all_addr`.
    pub fn catch_all_addr(&self) -> Option<u32>
        ensures { result ≡ self.now.catch_all_addr }
    {
        self.catch_all_addr
    }
}

// Returns the weight of the handlers, if they weigh no more than they may.
pub(crate) fn handlers_weight(handlers: &[Handler]) -> Option<u64>
    ensures { MatchOption result (most_handlers < handlers_weight handlers.now) (λ weight.
        (weight ≡ handlers_weight handlers.now) × (weight ≤ most_handlers)) }
{
    let mut weight = 5;
    for handler in handlers {
        weight += 10 + 8 * handler.catches.len().min(MOST_HANDLERS);
        if weight > MOST_HANDLERS {
            return None;
        }
    }
    Some(weight as u64)
}
