//! Items of a file that are each kept once.

ghost use Rattle.std.specs.Prelude.{◌≡◌, [], IfOk, IfSome, ℕ, Option};
ghost use Rattle.dexmembers.specs.internal.Kept.{IsKept, IsNoted, NotesMore};

use crate::encoded_lists::with_room;
use crate::places::Place;
use std::alloc::{AllocError, Global};
use std::collections::HashMap;

/// Items of a file, each kept once. Where offsets may come again, the place of each item is noted by its offset.
#[derive(Drop)]
pub(crate) struct Kept<T> {
    pub(crate) items: Vec<T>,
    places: HashMap<u32, Place>,
    are_noted: bool,
}

impl<T: Drop> Kept<T> {
    /// No items, and room for those of `offsets`.
    pub(crate) fn none(alloc: Global, offsets: Offsets) -> Result<Kept<T>, AllocError>
        ensures items { IfOk result (λ kept. kept.items.items ≡ []) }
        ensures noted { IfOk result (λ kept.
            (off : ℕ) (place : Option ℕ) → IsNoted kept off place → ⊥) }
    {
        Ok(Kept {
            items: with_room(alloc, offsets.count)?,
            places: HashMap::new(alloc),
            are_noted: offsets.may_repeat,
        })
    }

    /// The place that is noted at an offset.
    pub(crate) fn place_at(&self, off: u32) -> Option<Place>
        ensures { IfSome result (IsNoted self.now off) }
    {
        if !self.are_noted {
            return None;
        }
        self.places.get(&off).copied()
    }

    /// Keeps the item of an offset, if there is one, after the others. Returns its place, which is noted if the offset
    /// may come again.
    pub(crate) fn keep(&mut self, off: u32, item: Option<T>) -> Result<Place, AllocError>
        ensures kept { IfOk result (IsKept item self.old.items.items self.new.items.items) }
        ensures noted { IfOk result (NotesMore off self.old self.new) }
    {
        let place = self.push(item)?;
        if !self.are_noted {
            return Ok(place);
        }
        self.places.insert(off, place)?;
        Ok(place)
    }

    // Puts the item, if there is one, at the end of the others, and returns its place.
    fn push(&mut self, item: Option<T>) -> Result<Place, AllocError>
        ensures kept { IfOk result (IsKept item self.old.items.items self.new.items.items) }
        ensures places { self.new.places ≡ self.old.places }
    {
        let Some(item) = item else {
            return Ok(Place::none());
        };
        let Ok(place) = u32::try_from(self.items.len()) else {
            return Err(AllocError);
        };
        self.items.push(item)?;
        Place::of(Some(place))
    }
}

/// Offsets of items, as they are met one after the other: how many there are, and whether one may come again, since
/// they do not rise as they do where each item is named once. An offset of 0 names none.
#[derive(Clone, Copy)]
pub(crate) struct Offsets {
    count: usize,
    last: u32,
    may_repeat: bool,
}

impl Offsets {
    /// None yet.
    pub(crate) fn none() -> Offsets {
        Offsets {
            count: 0,
            last: 0,
            may_repeat: false,
        }
    }

    /// One more.
    pub(crate) fn add(&mut self, off: u32) {
        if off == 0 {
            return;
        }
        self.count = self.count.saturating_add(1);
        self.may_repeat = self.may_repeat || off <= self.last;
        self.last = off;
    }
}
