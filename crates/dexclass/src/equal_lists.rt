//! Which classes have the same list of interfaces, where it is long.

ghost use Rattle.std.specs.Prelude.{◌≡◌, ◌<◌, ◌≤◌, length, slice_index_or, IfOk, IsTrue};
ghost use Rattle.dexclass.specs.Numbered.{NumberedClass};
ghost use Rattle.dexorder.specs.EqualLists.{AreFirstEqual};

use crate::classes::Class;
use std::alloc::{AllocError, Global};
use std::collections::HashMap;

// Shorter lists are not looked up: to read them again costs less.
const LONG_LIST: usize = 64;

/// Which list of numbers it is, by its place in a file.
#[derive(Clone, Copy, PartialEq, Eq, Hash)]
struct ListKey {
    part: usize,
    source: u128,
    start: usize,
    len: usize,
}

/// The lists of interfaces of some classes, by their places in files, and a number for each: that of its first class.
#[derive(Drop)]
pub struct KnownLists {
    numbers: HashMap<ListKey, usize>,
}

impl KnownLists {
    /// No list.
    pub fn none(alloc: Global) -> KnownLists {
        KnownLists {
            numbers: HashMap::new(alloc),
        }
    }

    /// The number of a class that may have the same list of interfaces: that of the first class of a part that had its
    /// list at the same place of the same file, or else the number before this one, since lists of other places may be
    /// equal too. If the list is short, or this number is 0, it is this number. No clause speaks of it: the caller
    /// compares the lists.
    ///
    /// Error: an allocation failed.
    pub fn first(
        &mut self,
        part: usize,
        class: &Class<'_>,
        number: usize,
    ) -> Result<usize, AllocError> {
        let len = class.interfaces.numbers().len();
        if len < LONG_LIST {
            return Ok(number);
        }
        let Some(place) = class.interfaces.place() else {
            return Ok(number);
        };
        let key = ListKey {
            part,
            source: place.source,
            start: place.start,
            len,
        };
        if let Some(first) = self.numbers.get(&key) {
            return Ok(*first);
        }
        self.numbers.insert(key, number)?;
        Ok(number.saturating_sub(1))
    }
}

impl<'a> Class<'a> {
    /// Returns whether the classes have the same interfaces, both in two bytes for each, as in files, or both in whole
    /// numbers that other classes share. Others are not compared. The numbers are compared many at a time.
    ///
    /// Source: "class_def_item", the field `interfaces_off`, and "type_list".
    pub fn has_interfaces_of(&self, other: &Class<'_>) -> bool
        ensures { IsTrue result → self.now.interfaces ≡ other.now.interfaces }
    {
        self.interfaces.is_same(&other.interfaces)
    }
}

// Class `found`, if it is before class `i` and has the same interfaces, and else class `i`.
fn first_or_same(classes: &[Class<'_>], i: usize, found: usize) -> usize
    requires { i < length classes.now }
    ensures before { result ≤ i }
    ensures equal { (d : NumberedClass) → (slice_index_or classes.now result d).interfaces
        ≡ (slice_index_or classes.now i d).interfaces }
{
    if found < i && classes[i].has_interfaces_of(&classes[found]) {
        return found;
    }
    i
}

/// For each class the number of one with the same interfaces: itself, or one before it. A class with a long list has one
/// before it, if an earlier class has its list at the same place of the same file, or if the class just before it has an
/// equal list.
///
/// Error: an allocation failed.
///
/// Source: "class_def_item", the field `interfaces_off`, and "type_list".
pub fn first_equal(alloc: Global, classes: &[Class<'_>]) -> Result<Vec<usize>, AllocError>
    ensures { IfOk result (λ firsts.
        AreFirstEqual (λ c. c.interfaces) classes.now firsts.items) }
{
    let mut known = KnownLists::none(alloc);
    let mut firsts = Vec::with_capacity(alloc, classes.len())?;
    for i in 0..classes.len() {
        let found = known.first(0, &classes[i], i)?;
        firsts.push(first_or_same(classes, i, found))?;
    }
    Ok(firsts)
}
