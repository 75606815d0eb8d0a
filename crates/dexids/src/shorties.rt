//! The letters of types in shorties.

ghost use Rattle.std.specs.Prelude.{◌≡◌, ◌↔◌, ◌<◌, All, IsTrue, IfOk, length};
ghost use Rattle.dexspec.specs.Names.{shorty_letter};
ghost use Rattle.dexids.specs.Tables.{type_of};
ghost use Rattle.dexids.specs.Reading.{AreNames};
ghost use Rattle.dexids.specs.internal.CheckedLists.{AreLetters, IsNotVoid, IsLetter, letter_in, letters_in, SpellNumbers, AreThese};

use crate::kinds::letter;
use crate::names::Names;
use dexrows::TypeNumbers;
use std::alloc::{AllocError, Global};

// The letter of void, as the byte that spells it.
const VOID: u8 = 0x56;

// The letter of the type of a row.
fn letter_at(names: &Names<'_, '_>, i: usize) -> u16
    requires names { AreNames names.now.frame.now names.now.strings.now names.now.types.now }
    requires row { i < length names.now.types.now }
    ensures { result ≡ shorty_letter (type_of names.now.strings.now names.now.types.now i) }
{
    letter(&names.strings[names.types[i]])
}

// The byte that spells the letter of the type of a row.
#[tactic(auto, using(crate::proofs::FirstUnits::letter_ascii))]
fn byte_at(names: &Names<'_, '_>, i: usize) -> u8
    requires names { AreNames names.now.frame.now names.now.strings.now names.now.types.now }
    requires row { i < length names.now.types.now }
    ensures { result ≡ shorty_letter (type_of names.now.strings.now names.now.types.now i) }
{
    letter_at(names, i) as u8
}

/// The letter of each type, by row.
///
/// Source: "ShortyDescriptor".
pub(crate) fn letters_of(alloc: Global, names: &Names<'_, '_>) -> Result<Vec<u8>, AllocError>
    requires { AreNames names.now.frame.now names.now.strings.now names.now.types.now }
    ensures { IfOk result (λ letters.
        AreLetters names.now.strings.now names.now.types.now letters.items) }
{
    let mut letters = Vec::with_capacity(alloc, names.types.len())?;
    for i in 0..names.types.len() {
        letters.push(byte_at(names, i))?;
    }
    Ok(letters)
}

// The letter of a number, and void's where there is none.
fn letter_in(letters: &[u8], number: usize) -> u8
    ensures { result ≡ letter_in letters.now number }
{
    letters.get(number).copied().unwrap_or(VOID)
}

/// The letters of numbers, and void's for those that have none.
///
/// Error: the memory for the letters was refused.
pub(crate) fn spelling(
    alloc: Global,
    letters: &[u8],
    numbers: &TypeNumbers<'_>,
) -> Result<Vec<u8>, AllocError>
    ensures { IfOk result (λ spelled. spelled.items ≡ letters_in letters.now numbers.now) }
{
    let mut spelled = Vec::with_capacity(alloc, numbers.len())?;
    for i in 0..numbers.len() {
        spelled.push(letter_in(letters, numbers.at(i)))?;
    }
    Ok(spelled)
}

// Returns whether a unit is the letter of this number, that of a type of values.
fn is_letter(letters: &[u8], number: usize, unit: u8) -> bool
    ensures { IsTrue result ↔ IsLetter letters.now number unit }
{
    let letter = letter_in(letters, number);
    letter != VOID && letter == unit
}

// Returns whether the units are the letters of the numbers, each that of a type of values.
pub(crate) fn are_letters(letters: &[u8], units: &[u8], numbers: &TypeNumbers<'_>) -> bool
    ensures { IsTrue result ↔ SpellNumbers letters.now units.now numbers.now }
{
    if units.len() != numbers.len() {
        return false;
    }
    for i in 0..units.len() {
        if !is_letter(letters, numbers.at(i), units[i]) {
            return false;
        }
    }
    true
}

// Returns whether void's letter is not among the units. It does not stop at the first one, so that it goes over many
// at once.
fn has_no_void(units: &[u8]) -> bool
    ensures { IsTrue result ↔ All IsNotVoid units.now }
{
    let mut has_void = false;
    for unit in units {
        if *unit == VOID {
            has_void = true;
        }
    }
    !has_void
}

/// Returns whether the units are these letters, each that of a type of values.
///
/// Source: "ShortyDescriptor".
pub(crate) fn are_these(letters: &[u8], units: &[u8]) -> bool
    ensures { IsTrue result ↔ AreThese letters.now units.now }
{
    units == letters && has_no_void(units)
}
