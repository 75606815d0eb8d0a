//! Borrowed lists of the numbers of types.

ghost use Rattle.std.specs.Prelude.{◌≡◌, ◌<◌, ◌*◌, ◌/◌, length, slice_index};
ghost use Rattle.dexspec.specs.Bytes.{ushort_at, ushorts_at};
ghost use Rattle.dexspec.specs.Rows.{key_cmp};

use dexio::u16_at;
use std::cmp::Ordering;
use std::marker::Model;

/// How a list is kept.
#[derive(Clone, Copy)]
pub(crate) enum Listed<'p> {
    /// Each number by itself.
    Words(&'p [usize]),
    /// As a type_list has them, each in two bytes.
    Shorts(&'p [u8]),
}

/// The numbers of types, in their order, in a table or in the bytes of a file, which are borrowed. Contracts see a
/// list.
///
/// Source: the heading "type_list" of the Android page "Dalvik Executable format".
#[derive(Drop)]
pub struct TypeNumbers<'p> {
    listed: Listed<'p>,
}

impl<'p> Model for TypeNumbers<'p> {
    ghost use Rattle.std.specs.Prelude.{ℕ, List};
    ghost use Rattle.dexrows.specs.Listed.{numbers_in};

    ghost Value = { List ℕ };

    ghost view = { λ n. numbers_in n.listed };
}

// The number at a place.
fn word_at(numbers: &[usize], place: usize) -> usize
    requires { place < length numbers.now }
    ensures { result ≡ slice_index numbers.now place }
{
    numbers[place]
}

// The number that the two bytes of a place spell.
fn short_at(bytes: &[u8], place: usize) -> usize
    requires { place < length bytes.now / 2 }
    ensures { result ≡ ushort_at bytes.now (2 * place) }
{
    usize::from(u16_at(bytes, 2 * place))
}

impl<'p> TypeNumbers<'p> {
    /// These numbers.
    pub fn words(numbers: &'p [usize]) -> TypeNumbers<'p>
        ensures { result ≡ numbers.now }
    {
        TypeNumbers {
            listed: Listed::Words(numbers),
        }
    }

    /// The numbers that the bytes spell, two bytes for each (a `ushort`). A last single byte is left out.
    pub fn shorts(bytes: &'p [u8]) -> TypeNumbers<'p>
        ensures { result ≡ ushorts_at bytes.now 0 (length bytes.now / 2) }
    {
        TypeNumbers {
            listed: Listed::Shorts(bytes),
        }
    }

    /// The same list.
    pub fn clone(&self) -> TypeNumbers<'p>
        ensures { result ≡ self.now }
    {
        TypeNumbers {
            listed: self.listed,
        }
    }

    /// How many numbers there are.
    pub fn len(&self) -> usize
        ensures { result ≡ length self.now }
    {
        match self.listed {
            Listed::Words(numbers) => numbers.len(),
            Listed::Shorts(bytes) => bytes.len() / 2,
        }
    }

    /// The number at a place.
    ///
    /// Condition: the place is below the number of numbers.
    pub fn at(&self, place: usize) -> usize
        requires { place < length self.now }
        ensures { result ≡ slice_index self.now place }
    {
        match self.listed {
            Listed::Words(numbers) => word_at(numbers, place),
            Listed::Shorts(bytes) => short_at(bytes, place),
        }
    }

    /// How two lists compare, number by number: a prefix comes before a longer list.
    pub fn compare(&self, other: &TypeNumbers<'_>) -> Ordering
        ensures { result ≡ key_cmp self.now other.now }
    {
        for i in 0..self.len().min(other.len()) {
            match self.at(i).cmp(&other.at(i)) {
                Ordering::Equal => {}
                unequal => return unequal,
            }
        }
        self.len().cmp(&other.len())
    }
}
