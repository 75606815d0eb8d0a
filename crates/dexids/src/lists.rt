//! The lists of parameters that the rows of a table of protos name.

ghost use Rattle.std.specs.Prelude.{◌≡◌, ◌/◌, ◌<◌, length, slice_index, IfOk, ℕ, MatchOption};
ghost use Rattle.dexspec.specs.Bytes.{ushorts_at};
ghost use Rattle.dexspec.specs.Rows.{key_cmp};
ghost use Rattle.dexids.specs.Tables.{span_of};
ghost use Rattle.dexids.specs.Reading.{HasSpan, file_numbers, HasRoom, NoPlace, IsPlaced};

use crate::rows::Span;
use dexhead::{Frame, u16_at, u32_at};
use dexrows::TypeNumbers;
use std::alloc::AllocError;
use std::cmp::Ordering;
use std::marker::Model;

/// The number of indices of the type_list at an offset, or `None` where the offset is no multiple of 4 or the list is
/// not wholly in the data.
///
/// Source: "type_list".
pub fn type_list_len(frame: &Frame<'_>, off: u32) -> Option<u32>
    ensures { MatchOption result ((n : ℕ) → HasRoom frame.now off n → ⊥) (HasRoom frame.now off) }
{
    if off % 4 != 0 || !frame.is_in_data(off, 4) {
        return None;
    }
    let count = u32_at(frame.rest(off), 0);
    frame
        .is_in_data(off, 4 + 2 * u64::from(count))
        .then_some(count)
}

/// Returns the place of the numbers of the types that are listed at an offset, in the bytes as numbers of two bytes
/// each; 0 lists none. Returns `None` where there is no list. The numbers are not checked.
///
/// Source: "type_list".
pub(crate) fn place_at(frame: &Frame<'_>, off: u32) -> Option<Span>
    ensures { MatchOption result (NoPlace frame.now off) (IsPlaced frame.now off) }
{
    if off == 0 {
        return Some(Span { start: 0, end: 0 });
    }
    let start = (off as usize + 4) / 2;
    let end = start + type_list_len(frame, off)? as usize;
    Some(Span { start, end })
}

/// How the lists of a table are kept.
#[derive(Drop)]
pub(crate) enum Kept<'a> {
    /// In the bytes of a file, two for each number.
    File(&'a [u8]),
    /// Each number by itself.
    Own(Vec<usize>),
}

/// The numbers of the types of all parameters of a table's protos. Those of a file stay in its bytes, where rows
/// may share them. Contracts see one list, of which each row has a part.
#[derive(Drop)]
pub struct Parameters<'a> {
    kept: Kept<'a>,
}

impl<'a> Model for Parameters<'a> {
    ghost use Rattle.std.specs.Prelude.{ℕ, List};
    ghost use Rattle.dexids.specs.Lists.{numbers_in};

    ghost Value = { List ℕ };

    ghost view = { λ p. numbers_in p.kept };
}

// Returns the bytes that encode a part of the numbers.
fn file_part(bytes: &[u8], span: Span) -> &[u8]
    requires { HasSpan (file_numbers bytes.now) span }
    ensures { file_numbers result.now ≡ span_of (file_numbers bytes.now) span }
{
    let (_, rest) = bytes.split_at(2 * span.start);
    let (part, _) = rest.split_at(2 * (span.end - span.start));
    part
}

// The number that the two bytes of a place encode.
fn number_at(bytes: &[u8], i: usize) -> u16
    requires { i < length bytes.now / 2 }
    ensures { result ≡ slice_index (file_numbers bytes.now) i }
{
    u16_at(bytes, 2 * i)
}

// How the numbers that bytes encode compare, number by number: a prefix comes before a longer list.
fn compare_numbers(left: &[u8], right: &[u8]) -> Ordering
    ensures { result ≡ key_cmp (file_numbers left.now) (file_numbers right.now) }
{
    let left_count = left.len() / 2;
    let right_count = right.len() / 2;
    for i in 0..left_count.min(right_count) {
        match number_at(left, i).cmp(&number_at(right, i)) {
            Ordering::Equal => {}
            unequal => return unequal,
        }
    }
    left_count.cmp(&right_count)
}

impl<'a> Parameters<'a> {
    /// The numbers that the bytes of a file encode, two bytes for each.
    pub(crate) fn of_file(bytes: &'a [u8]) -> Parameters<'a>
        ensures { result ≡ ushorts_at bytes.now 0 (length bytes.now / 2) }
    {
        Parameters {
            kept: Kept::File(bytes),
        }
    }

    /// These numbers.
    pub fn own(numbers: Vec<usize>) -> Parameters<'a>
        ensures { result ≡ numbers.items }
    {
        Parameters {
            kept: Kept::Own(numbers),
        }
    }

    /// The parameters of a row.
    pub fn part(&self, span: Span) -> TypeNumbers<'_>
        requires { HasSpan self.now span }
        ensures { result ≡ span_of self.now span }
    {
        if let Kept::File(bytes) = &self.kept {
            return TypeNumbers::shorts(file_part(bytes, span));
        }
        if let Kept::Own(numbers) = &self.kept {
            return TypeNumbers::words(span.of(numbers));
        }
        TypeNumbers::words(&[])
    }

    /// How the parameters of two rows compare, number by number.
    pub(crate) fn compare(&self, left: Span, right: Span) -> Ordering
        requires left { HasSpan self.now left }
        requires right { HasSpan self.now right }
        ensures { result ≡ key_cmp (span_of self.now left) (span_of self.now right) }
    {
        if let Kept::File(bytes) = &self.kept {
            return compare_numbers(file_part(bytes, left), file_part(bytes, right));
        }
        self.part(left).compare(&self.part(right))
    }

    /// Returns a copy of the numbers: those of a file stay in its bytes.
    pub fn copy(&self) -> Result<Parameters<'a>, AllocError>
        ensures { IfOk result (λ copy. copy ≡ self.now) }
    {
        match &self.kept {
            Kept::File(bytes) => Ok(Parameters::of_file(bytes)),
            Kept::Own(numbers) => Ok(Parameters::own(numbers.clone()?)),
        }
    }
}
