//! Maps from the numbers of one numbering to those of another, in four bytes for each number.

ghost use Rattle.std.specs.Prelude.{◌≡◌, ◌↔◌, ◌==◌, ◌+◌, ◌^◌, ◌≤◌, [], false, unwrap_or, Some, IsOk, IfOk, OnOk, OnErr, length, map, vec_len, vec_capacity};
ghost use Rattle.std.specs.List.{list_any};
ghost use Rattle.dexpool.specs.Cut.{places};
ghost use Rattle.dexpool.specs.Numberings.{image_of, image};
ghost use Rattle.dexpool.specs.Orderly.{KeepOrder};
ghost use Rattle.dexpool.specs.Packed.{image_in};
ghost use Rattle.dexpool.specs.internal.Closing.{number_or_none};

use crate::symbols::SymbolKind;
use std::alloc::{AllocError, Global};
use std::marker::Model;

/// What is stored for a number without an image.
const NO_IMAGE: u32 = u32::MAX;

/// For each number of a kind its image, or that it has none. Contracts see a list.
#[derive(Drop)]
pub(crate) struct Images {
    numbers: Vec<u32>,
}

impl Model for Images {
    ghost use Rattle.std.specs.Prelude.{ℕ, List, Option, map};
    ghost use Rattle.dexpool.specs.Packed.{image_in};

    ghost Value = { List (Option ℕ) };

    ghost view = { λ images. map image_in images.numbers.items };
}

// Puts for each mark its place among those that are set, or what is stored for none, into an empty vector with room for
// them. Error: one of the places is 2^32 - 1, for which there is no room.
fn put_places(marks: &[bool], stored: &mut Vec<u32>) -> Result<(), AllocError>
    requires empty { stored.old.items ≡ [] }
    requires room { vec_len stored.old + length marks.now ≤ vec_capacity stored.old }
    ensures places { OnOk result (map image_in stored.new.items ≡ places 0 marks.now) }
    ensures room { OnErr result (2 ^ 32 ≤ length marks.now) }
{
    let mut count: u32 = 0;
    for is_marked in marks {
        if !*is_marked {
            stored.push_reserved(NO_IMAGE);
        } else if count < NO_IMAGE {
            stored.push_reserved(count);
            count += 1;
        } else {
            return Err(AllocError);
        }
    }
    Ok(())
}

impl Images {
    /// The images of no number.
    pub(crate) fn none(alloc: Global) -> Images
        ensures { result ≡ [] }
    {
        Images {
            numbers: Vec::new(alloc),
        }
    }

    /// For each mark its place among those that are set, or none where it is not set, in the room of an empty vector.
    ///
    /// Condition: the vector has room for a place for each mark. Error: there are more than 2^32 - 1 marks, and one of
    /// the places is 2^32 - 1, for which there is no room.
    pub(crate) fn places(marks: &[bool], mut stored: Vec<u32>) -> Result<Images, AllocError>
        requires empty { stored.items ≡ [] }
        requires room { vec_len stored + length marks.now ≤ vec_capacity stored }
        ensures places { IfOk result (λ images. images ≡ places 0 marks.now) }
        ensures room { OnErr result (2 ^ 32 ≤ length marks.now) }
    {
        put_places(marks, &mut stored)?;
        Ok(Images { numbers: stored })
    }

    /// These images, one for each number. They are not copied.
    ///
    /// Error: exactly where one of them is 2^32 - 1, for which there is no room.
    #[tactic(auto, using(crate::proofs::StoredImages::all_present))]
    pub(crate) fn of_all(numbers: Vec<u32>) -> Result<Images, AllocError>
        ensures images { IfOk result (λ images. images ≡ map Some numbers.items) }
        ensures room { IsOk result
            ↔ list_any (λ number. number == 0xffffffff) numbers.items ≡ false }
    {
        if numbers.contains(&NO_IMAGE) {
            return Err(AllocError);
        }
        Ok(Images { numbers })
    }

    /// The image of a number, or `None` where it has none.
    pub(crate) fn get(&self, i: usize) -> Option<usize>
        ensures { result ≡ image self.now i }
    {
        match self.numbers.get(i) {
            Some(number) if *number != NO_IMAGE => Some(*number as usize),
            _ => None,
        }
    }

    /// The images as they are stored: 2^32 - 1 for a number without one.
    #[tactic(auto, using(crate::proofs::StoredImages::all_stored))]
    pub(crate) fn numbers(&self) -> &[u32]
        ensures { result.now ≡ map number_or_none self.now }
    {
        &self.numbers
    }
}

/// For each number of a numbering the number of the same symbol in another one, if it is there. Numbers keep their
/// order. Contracts see five lists.
pub struct Remap {
    pub(crate) strings: Images,
    pub(crate) types: Images,
    pub(crate) protos: Images,
    pub(crate) fields: Images,
    pub(crate) methods: Images,
}

// So that a value is dropped by one call.
impl Drop for Remap {
    fn drop(self) {
        let Remap {
            methods: _,
            fields: _,
            protos: _,
            types: _,
            strings: _,
        } = self;
    }
}

impl Model for Remap {
    ghost use Rattle.dexpool.specs.Numberings.{Maps};
    ghost use Rattle.dexpool.specs.Orderly.{KeepOrder};

    ghost Value = { Maps };

    ghost view = { λ r. record { texts = r.strings; types = r.types; protos = r.protos; fields = r.fields; methods = r.methods } };

    ghost invariant = { λ r. KeepOrder (record { texts = r.strings; types = r.types; protos = r.protos; fields = r.fields; methods = r.methods }) };
}

impl Remap {
    /// No number leads anywhere.
    pub fn none(alloc: Global) -> Remap
        ensures { result
            ≡ record { texts = []; types = []; protos = []; fields = []; methods = [] } }
    {
        Remap {
            strings: Images::none(alloc),
            types: Images::none(alloc),
            protos: Images::none(alloc),
            fields: Images::none(alloc),
            methods: Images::none(alloc),
        }
    }

    /// Numbers that map to one keep their order, so no two of a kind map to the same. It does nothing: its contract
    /// states this of every map, for the proofs of callers.
    pub fn keeps_order(&self)
        ensures { KeepOrder self.now }
    {
        let _strings = &self.strings;
    }

    /// The number that a number maps to, or `None` where it maps to none or is not in the first numbering.
    pub fn image(&self, kind: SymbolKind, i: usize) -> Option<usize>
        ensures { result ≡ image_of self.now kind i }
    {
        let images = match kind {
            SymbolKind::Text => &self.strings,
            SymbolKind::Typ => &self.types,
            SymbolKind::Proto => &self.protos,
            SymbolKind::Field => &self.fields,
            SymbolKind::Method => &self.methods,
        };
        images.get(i)
    }

    /// The number that a number maps to, or the number itself where it maps to none.
    pub fn or_same(&self, kind: SymbolKind, i: usize) -> usize
        ensures { result ≡ unwrap_or (image_of self.now kind i) i }
    {
        self.image(kind, i).unwrap_or(i)
    }
}
