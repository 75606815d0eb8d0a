//! Which protos have the same list of parameters, where it is long.

ghost use Rattle.std.specs.Prelude.{◌≡◌, ◌<◌, ◌≤◌, length, slice_index_or, IfOk};
ghost use Rattle.dexspec.specs.Symbols.{Proto};

use crate::numbering::Numbering;
use std::alloc::{AllocError, Global};
use std::collections::HashMap;

// Shorter lists are not looked up: to read them again costs less.
const LONG_LIST: usize = 64;

/// Where a list is in the table of all parameters.
#[derive(Clone, Copy, PartialEq, Eq, Hash)]
struct Place {
    start: usize,
    end: usize,
}

/// The lists of parameters of the protos of a numbering, by their places, and the first proto of each.
#[derive(Drop)]
pub struct KnownParameters {
    protos: HashMap<Place, usize>,
}

impl KnownParameters {
    /// No list.
    pub fn none(alloc: Global) -> KnownParameters {
        KnownParameters {
            protos: HashMap::new(alloc),
        }
    }

    /// The number of a proto that has the parameters of proto `i`: the first that was asked for, before `i`, whose list is
    /// at the same place; and `i` itself where there was none, or where the list is short.
    ///
    /// Condition: `i` is below the number of protos. Error: an allocation failed.
    ///
    /// Source: "proto_id_item", the field `parameters_off`.
    pub fn first(&mut self, numbering: &Numbering<'_>, i: usize) -> Result<usize, AllocError>
        requires { i < length numbering.now.protos }
        ensures before { IfOk result (λ first. first ≤ i) }
        ensures equal { IfOk result (λ first. (d : Proto)
            → (slice_index_or numbering.now.protos first d).parameters
            ≡ (slice_index_or numbering.now.protos i d).parameters) }
    {
        let span = numbering.parameters_span(i);
        if span.len() < LONG_LIST {
            return Ok(i);
        }
        let place = Place {
            start: span.start,
            end: span.end,
        };
        if let Some(found) = self.protos.get(&place) {
            return Ok(numbering.first_or_same(*found, i));
        }
        self.protos.insert(place, i)?;
        Ok(i)
    }
}
