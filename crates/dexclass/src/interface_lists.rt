//! The interfaces of a class: a list in the bytes of a file, or numbers of its own.

ghost use Rattle.std.specs.Prelude.{◌≡◌, ◌/◌, [], length, map, take, drop, unwrap_or, IfOk, IfSome, IsTrue};
ghost use Rattle.dexspec.specs.Bytes.{ushorts_at};
ghost use Rattle.dexids.specs.Reading.{listed};
ghost use Rattle.dexclass.specs.internal.Rows.{HasInterfaceList};
ghost use Rattle.dexclass.specs.Renumbering.{image_or_same};

use crate::list_parts::{ListPlace, SharedPart, shorts_between};
use crate::renumbering::type_number;
use dexhead::{Frame, put_u16};
use dexpool::Remap;
use dexrows::TypeNumbers;
use dexval::source_of;
use std::alloc::{AllocError, Global};
use std::marker::Model;

/// A list in a file.
#[derive(Clone, Copy)]
pub(crate) struct FileList<'a> {
    /// The bytes of the list, two for each number.
    bytes: &'a [u8],
    /// The file, and where the list is in it, for those who ask which lists overlap. No clause speaks of them.
    file: &'a [u8],
    start: usize,
}

/// How the numbers are kept.
#[derive(Drop)]
pub(crate) enum Kept<'a> {
    /// In the bytes of a file.
    File(FileList<'a>),
    /// Each number by itself.
    Own(Vec<usize>),
    /// In a list of which other lists are parts too.
    Shared(SharedPart),
}

/// The numbers of the types of a class's interfaces. Those of a file stay in its bytes, which are borrowed, until they
/// are renumbered. Contracts see a list.
///
/// Source: "type_list".
#[derive(Drop)]
pub(crate) struct Interfaces<'a> {
    alloc: Global,
    kept: Kept<'a>,
}

impl<'a> Model for Interfaces<'a> {
    ghost use Rattle.std.specs.Prelude.{ℕ, List};
    ghost use Rattle.dexclass.specs.internal.Listed.{numbers_in};

    ghost Value = { List ℕ };

    ghost view = { λ interfaces. numbers_in interfaces.kept };
}

// The `len` bytes from an offset on, or none where there are less.
fn bytes_from(file: &[u8], start: usize, len: usize) -> &[u8] {
    if start > file.len() {
        return &[];
    }
    let (_, rest) = file.split_at(start);
    if len > rest.len() {
        return &[];
    }
    rest.split_at(len).0
}

// The bytes of the `count` numbers that are listed at an offset, two for each.
fn listed_bytes<'a>(frame: &Frame<'a>, off: u32, count: u32) -> &'a [u8]
    requires list { HasInterfaceList frame.now off }
    requires count { count ≡ length (listed frame.now off) }
    ensures { ushorts_at result.now 0 (length result.now / 2) ≡ listed frame.now off }
{
    if count == 0 {
        return &[];
    }
    let (_, list) = frame.rest(off).split_at(4);
    let (numbers, _) = list.split_at(2 * count as usize);
    numbers
}

// Returns whether the numbers of two bytes each from a place on are those of a list.
fn are_shorts_at(whole: &[u8], place: usize, list: &[u8]) -> bool
    ensures { IsTrue result → ushorts_at list.now 0 (length list.now / 2)
        ≡ take (length list.now / 2) (drop place (ushorts_at whole.now 0 (length whole.now / 2))) }
{
    let count = list.len() / 2;
    let Some(room) = (whole.len() / 2).checked_sub(place) else {
        return false;
    };
    if room < count {
        return false;
    }
    shorts_between(whole, place, place + count) == list
}

// Returns whether the numbers from a place on are those of a list.
fn are_words_at(whole: &[usize], place: usize, list: &[usize]) -> bool
    ensures { IsTrue result → list.now ≡ take (length list.now) (drop place whole.now) }
{
    let Some(room) = whole.len().checked_sub(place) else {
        return false;
    };
    if room < list.len() {
        return false;
    }
    let (_, rest) = whole.split_at(place);
    rest.split_at(list.len()).0 == list
}

// Returns whether the numbers of types are their own images.
fn are_unchanged(remap: &Remap, numbers: &TypeNumbers<'_>) -> bool
    ensures { IsTrue result → map (image_or_same remap.now.types) numbers.now ≡ numbers.now }
{
    for k in 0..numbers.len() {
        let number = numbers.at(k);
        if type_number(remap, number) != number {
            return false;
        }
    }
    true
}

/// The images of the numbers of types, each by itself.
pub(crate) fn remapped_types(
    alloc: Global,
    remap: &Remap,
    numbers: &TypeNumbers<'_>,
) -> Result<Vec<usize>, AllocError>
    ensures { IfOk result (λ images.
        images.items ≡ map (image_or_same remap.now.types) numbers.now) }
{
    let mut images = Vec::with_capacity(alloc, numbers.len())?;
    for k in 0..numbers.len() {
        images.push(type_number(remap, numbers.at(k)))?;
    }
    Ok(images)
}

/// The images of the numbers of types, two bytes for each, or `None` if one has no room in these.
pub(crate) fn remapped_shorts(
    alloc: Global,
    remap: &Remap,
    numbers: &TypeNumbers<'_>,
) -> Result<Option<Vec<u8>>, AllocError>
    ensures { IfOk result (λ found. IfSome found
        (λ bytes. ushorts_at bytes.items 0 (length bytes.items / 2)
        ≡ map (image_or_same remap.now.types) numbers.now)) }
{
    let mut bytes = Vec::with_capacity(alloc, numbers.len().saturating_mul(2))?;
    for k in 0..numbers.len() {
        let image = type_number(remap, numbers.at(k));
        if image > 65535 {
            return Ok(None);
        }
        put_u16(image as u16, &mut bytes)?;
    }
    Ok(Some(bytes))
}

impl<'a> Interfaces<'a> {
    /// The `count` interfaces that are listed at the offset of a class row.
    ///
    /// Source: "class_def_item", the field `interfaces_off`, and "type_list".
    pub(crate) fn listed(alloc: Global, frame: &Frame<'a>, off: u32, count: u32) -> Interfaces<'a>
        requires list { HasInterfaceList frame.now off }
        requires count { count ≡ length (listed frame.now off) }
        ensures { result ≡ listed frame.now off }
    {
        let list = FileList {
            bytes: listed_bytes(frame, off, count),
            file: frame.bytes(),
            start: off as usize + 4,
        };
        Interfaces {
            alloc,
            kept: Kept::File(list),
        }
    }

    /// No numbers.
    pub(crate) fn none(alloc: Global) -> Interfaces<'a>
        ensures { result ≡ [] }
    {
        Interfaces {
            alloc,
            kept: Kept::Own(Vec::new(alloc)),
        }
    }

    /// The allocator for numbers.
    pub(crate) fn allocator(&self) -> Global {
        self.alloc
    }

    /// The numbers, in their order.
    pub(crate) fn numbers(&self) -> TypeNumbers<'_>
        ensures { result ≡ self.now }
    {
        if let Kept::File(list) = &self.kept {
            return TypeNumbers::shorts(list.bytes);
        }
        if let Kept::Own(numbers) = &self.kept {
            return TypeNumbers::words(numbers);
        }
        if let Kept::Shared(part) = &self.kept {
            return part.numbers();
        }
        TypeNumbers::words(&[])
    }

    // The bytes of the list, if it has two for each number, in a file or in a list of which others are parts too.
    fn bytes(&self) -> Option<&[u8]>
        ensures { IfSome result
            (λ bytes. self.now ≡ ushorts_at bytes.now 0 (length bytes.now / 2)) }
    {
        match &self.kept {
            Kept::File(list) => Some(list.bytes),
            Kept::Own(_) => None,
            Kept::Shared(part) => part.bytes(),
        }
    }

    // The numbers, if they are in a list of which others are parts too and that has each by itself.
    fn words(&self) -> Option<&[usize]>
        ensures { IfSome result (λ words. self.now ≡ words.now) }
    {
        match &self.kept {
            Kept::File(_) | Kept::Own(_) => None,
            Kept::Shared(part) => part.words(),
        }
    }

    /// Returns whether the lists are kept in the same way and are equal. They are compared many numbers at a time.
    pub(crate) fn is_same(&self, other: &Interfaces<'_>) -> bool
        ensures { IsTrue result → self.now ≡ other.now }
    {
        if let Some(mine) = self.bytes() {
            return match other.bytes() {
                Some(theirs) => mine == theirs,
                None => false,
            };
        }
        match (self.words(), other.words()) {
            (Some(mine), Some(theirs)) => mine == theirs,
            _ => false,
        }
    }

    /// Returns whether the numbers from a place on are those of a list that is kept in the same way. They are compared
    /// many at a time.
    pub(crate) fn has_at(&self, place: usize, list: &Interfaces<'_>) -> bool
        ensures { IsTrue result → list.now ≡ take (length list.now) (drop place self.now) }
    {
        if let Some(whole) = self.bytes() {
            return match list.bytes() {
                Some(list) => are_shorts_at(whole, place, list),
                None => false,
            };
        }
        match (self.words(), list.words()) {
            (Some(whole), Some(list)) => are_words_at(whole, place, list),
            _ => false,
        }
    }

    /// The same list: the bytes of a file are borrowed as before.
    pub(crate) fn copy(&self) -> Result<Interfaces<'a>, AllocError>
        ensures { IfOk result (λ copy. copy ≡ self.now) }
    {
        match &self.kept {
            Kept::File(list) => Ok(Interfaces {
                alloc: self.alloc,
                kept: Kept::File(*list),
            }),
            Kept::Own(numbers) => Ok(Interfaces {
                alloc: self.alloc,
                kept: Kept::Own(numbers.clone()?),
            }),
            Kept::Shared(part) => Ok(Interfaces {
                alloc: self.alloc,
                kept: Kept::Shared(part.copy()?),
            }),
        }
    }

    /// Where the list is in the file that it comes from, or `None` if it is a part of nothing, or is empty.
    pub(crate) fn place(&self) -> Option<ListPlace> {
        if self.numbers().len() == 0 {
            return None;
        }
        match &self.kept {
            Kept::File(list) => Some(ListPlace {
                source: source_of(list.file),
                start: list.start / 2,
            }),
            Kept::Own(_) => None,
            Kept::Shared(part) => Some(part.place()),
        }
    }

    /// The `len` numbers of a place in the file, out of those of which this is a part, or nothing where these lack
    /// some.
    pub(crate) fn beside(&self, place: usize, len: usize) -> Result<Interfaces<'a>, AllocError> {
        match &self.kept {
            Kept::File(list) => {
                let start = place.saturating_mul(2);
                let bytes = bytes_from(list.file, start, len.saturating_mul(2));
                let kept = Kept::File(FileList {
                    bytes,
                    start,
                    ..*list
                });
                Ok(Interfaces {
                    alloc: self.alloc,
                    kept,
                })
            }
            Kept::Own(_) => Ok(Interfaces::none(self.alloc)),
            Kept::Shared(part) => match part.beside(place, len)? {
                Some(part) => Ok(Interfaces {
                    alloc: self.alloc,
                    kept: Kept::Shared(part),
                }),
                None => Ok(Interfaces::none(self.alloc)),
            },
        }
    }

    /// A list that is a part of others.
    pub(crate) fn part(&self, part: SharedPart) -> Interfaces<'a>
        ensures { result ≡ part }
    {
        Interfaces {
            alloc: self.alloc,
            kept: Kept::Shared(part),
        }
    }

    /// The list with each number remapped, or `None` if all stay: then nothing is allocated. A number that has no image
    /// stays.
    pub(crate) fn renumbered(&self, remap: &Remap) -> Result<Option<Interfaces<'a>>, AllocError>
        ensures { IfOk result (λ list.
            unwrap_or list self.now ≡ map (image_or_same remap.now.types) self.now) }
    {
        if are_unchanged(remap, &self.numbers()) {
            return Ok(None);
        }
        let images = remapped_types(self.alloc, remap, &self.numbers())?;
        Ok(Some(Interfaces {
            alloc: self.alloc,
            kept: Kept::Own(images),
        }))
    }

    /// Replaces the list by another, if there is one.
    pub(crate) fn replace(&mut self, list: Option<Interfaces<'a>>)
        ensures { self.new ≡ unwrap_or list.entry self.old }
    {
        if let Some(list) = list {
            *self = list;
        }
    }
}
