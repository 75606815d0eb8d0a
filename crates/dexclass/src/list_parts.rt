//! Parts of numbers that several lists share.

ghost use Rattle.std.specs.Prelude.{◌≡◌, ◌≤◌, ◌/◌, length, slice_range, IfOk, IfSome, take, drop};
ghost use Rattle.dexspec.specs.Bytes.{ushorts_at};
ghost use Rattle.dexclass.specs.internal.Shared.{shared_in};

use dexrows::TypeNumbers;
use std::alloc::AllocError;
use std::marker::Model;
use std::rc::Rc;

/// Where numbers are in the file that they come from. No clause speaks of it.
#[derive(Clone, Copy)]
pub(crate) struct ListPlace {
    /// Which file: 16 bytes of the signature in its header.
    pub(crate) source: u128,
    /// Where they begin, counted in numbers of two bytes each.
    pub(crate) start: usize,
}

/// Numbers that several lists share.
#[derive(Drop)]
pub(crate) enum SharedNumbers {
    /// Two bytes for each, as in a file.
    Shorts(Rc<Vec<u8>>),
    /// Each number by itself, where one has no room in two bytes.
    Words(Rc<Vec<usize>>),
}

impl SharedNumbers {
    // How many there are.
    fn len(&self) -> usize
        ensures { result ≡ length (shared_in self.now) }
    {
        match self {
            SharedNumbers::Shorts(bytes) => bytes.len() / 2,
            SharedNumbers::Words(words) => words.len(),
        }
    }

    // The same numbers.
    fn copy(&self) -> Result<SharedNumbers, AllocError>
        ensures { IfOk result (λ copy. shared_in copy ≡ shared_in self.now) }
    {
        match self {
            SharedNumbers::Shorts(bytes) => Ok(SharedNumbers::Shorts(bytes.clone()?)),
            SharedNumbers::Words(words) => Ok(SharedNumbers::Words(words.clone()?)),
        }
    }
}

/// The bytes of the numbers from `start` to `end`, two for each.
pub(crate) fn shorts_between(whole: &[u8], start: usize, end: usize) -> &[u8]
    requires ordered { start ≤ end }
    requires within { end ≤ length whole.now / 2 }
    ensures { ushorts_at result.now 0 (length result.now / 2)
        ≡ slice_range (ushorts_at whole.now 0 (length whole.now / 2)) start end }
{
    let (_, rest) = whole.split_at(2 * start);
    rest.split_at(2 * (end - start)).0
}

/// A part of numbers of which other lists may be parts too. Contracts see the list.
#[derive(Drop)]
pub(crate) struct SharedPart {
    numbers: SharedNumbers,
    // Where those are whose images the numbers are.
    from: ListPlace,
    start: usize,
    end: usize,
}

impl Model for SharedPart {
    ghost use Rattle.std.specs.Prelude.{◌≤◌, ℕ, List, length, slice_range};
    ghost use Rattle.dexclass.specs.internal.Shared.{shared_in};

    ghost Value = { List ℕ };

    ghost view = { λ part. slice_range (shared_in part.numbers) part.start part.end };

    ghost invariant = { λ part. (part.start ≤ part.end) × (part.end ≤ length (shared_in part.numbers)) };
}

impl SharedPart {
    /// The `len` numbers from `start` on of these, which are those of a place, or `None` where there are less.
    pub(crate) fn of(
        numbers: &SharedNumbers,
        from: ListPlace,
        start: usize,
        len: usize,
    ) -> Result<Option<SharedPart>, AllocError>
        ensures { IfOk result (λ found. IfSome found
            (λ part. part ≡ take len (drop start (shared_in numbers.now)))) }
    {
        let Some(room) = numbers.len().checked_sub(start) else {
            return Ok(None);
        };
        if room < len {
            return Ok(None);
        }
        Ok(Some(SharedPart {
            numbers: numbers.copy()?,
            from,
            start,
            end: start + len,
        }))
    }

    /// The numbers.
    pub(crate) fn numbers(&self) -> TypeNumbers<'_>
        ensures { result ≡ self.now }
    {
        match &self.numbers {
            SharedNumbers::Shorts(bytes) => {
                TypeNumbers::shorts(shorts_between(bytes, self.start, self.end))
            }
            SharedNumbers::Words(words) => TypeNumbers::words(&words[self.start..self.end]),
        }
    }

    /// The bytes of the numbers, if they have two each.
    pub(crate) fn bytes(&self) -> Option<&[u8]>
        ensures { IfSome result
            (λ bytes. self.now ≡ ushorts_at bytes.now 0 (length bytes.now / 2)) }
    {
        match &self.numbers {
            SharedNumbers::Shorts(bytes) => Some(shorts_between(bytes, self.start, self.end)),
            SharedNumbers::Words(_) => None,
        }
    }

    /// The numbers, if each is kept by itself.
    pub(crate) fn words(&self) -> Option<&[usize]>
        ensures { IfSome result (λ words. self.now ≡ words.now) }
    {
        match &self.numbers {
            SharedNumbers::Shorts(_) => None,
            SharedNumbers::Words(words) => Some(&words[self.start..self.end]),
        }
    }

    /// The same part of the same numbers.
    pub(crate) fn copy(&self) -> Result<SharedPart, AllocError>
        ensures { IfOk result (λ copy. copy ≡ self.now) }
    {
        Ok(SharedPart {
            numbers: self.numbers.copy()?,
            from: self.from,
            start: self.start,
            end: self.end,
        })
    }

    /// The `len` numbers of a place in the file, out of those of which this is a part, or `None` where these lack some.
    pub(crate) fn beside(
        &self,
        place: usize,
        len: usize,
    ) -> Result<Option<SharedPart>, AllocError> {
        let Some(start) = place.checked_sub(self.from.start) else {
            return Ok(None);
        };
        SharedPart::of(&self.numbers, self.from, start, len)
    }

    /// Where the part is in the file.
    pub(crate) fn place(&self) -> ListPlace {
        ListPlace {
            source: self.from.source,
            start: self.from.start.saturating_add(self.start),
        }
    }
}
