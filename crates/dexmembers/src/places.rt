//! Places in tables, in four bytes each.

ghost use Rattle.std.specs.Prelude.{◌≡◌, IfOk, None, OnErr, Some};

use std::alloc::AllocError;
use std::marker::Model;

/// What is stored for no place.
const NO_PLACE: u32 = u32::MAX;

/// A place in a table, or none. Contracts see an optional number.
#[derive(Clone, Copy)]
pub(crate) struct Place {
    number: u32,
}

impl Model for Place {
    ghost use Rattle.std.specs.Prelude.{ℕ, Option, unwrap_or};
    ghost use Rattle.std.specs.Coded.{codes};
    ghost use Rattle.dexpool.specs.Packed.{image_in};
    ghost use Rattle.dexmembers.specs.internal.Places.{stored_again};

    ghost Value = { Option ℕ };

    ghost coded = { Prim.hlevel codes };

    ghost view = { λ p. image_in p.number };

    ghost inverse = { λ place. record { number = unwrap_or place 0xffffffff } };

    ghost inverse_ok = { λ p h i. record { number = stored_again p.number i } };
}

impl Place {
    /// No place.
    pub(crate) fn none() -> Place
        ensures { result ≡ None }
    {
        Place { number: NO_PLACE }
    }

    /// The place, or none if there is none.
    ///
    /// Error: exactly where it is 2^32 - 1, for which there is no room.
    pub(crate) fn of(place: Option<u32>) -> Result<Place, AllocError>
        ensures place { IfOk result (λ stored. stored ≡ place) }
        ensures room { OnErr result (place ≡ Some 0xffffffff) }
    {
        if place == Some(NO_PLACE) {
            return Err(AllocError);
        }
        let number = place.unwrap_or(NO_PLACE);
        Ok(Place { number })
    }

    /// The place, if there is one.
    pub(crate) fn get(self) -> Option<u32>
        ensures { result ≡ self }
    {
        (self.number != NO_PLACE).then_some(self.number)
    }
}
