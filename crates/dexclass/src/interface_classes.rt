//! The interfaces of a class that are classes themselves.

ghost use Rattle.std.specs.Prelude.{◌≡◌, MatchOption};
ghost use Rattle.dexorder.specs.Parents.{HasNoClassFrom, IsFirstClassFrom};
ghost use Rattle.dexclass.specs.Renumbering.{renumbered_class};
ghost use Rattle.dexclass.specs.internal.InterfaceClasses.{type_of, types_of};

use crate::classes::Class;
use crate::renumbering::type_number;
use dexorder::{InterfaceClass, class_of_type};
use dexpool::Remap;
use dexrows::TypeNumbers;

// The number of a type, remapped if there is a map.
fn number_of_type(remap: Option<&Remap>, number: usize) -> usize
    ensures { result ≡ type_of remap.entry number }
{
    match remap {
        Some(remap) => type_number(remap, number),
        None => number,
    }
}

/// The first of the numbers after the first `passed` of them that is the type of a class, by `by_type`, once it is
/// remapped, if there is a map.
pub(crate) fn first_class(
    by_type: &[Option<usize>],
    numbers: &TypeNumbers<'_>,
    remap: Option<&Remap>,
    passed: usize,
) -> Option<InterfaceClass>
    ensures { MatchOption result
        (HasNoClassFrom by_type.now (types_of remap.entry numbers.now) passed)
        (IsFirstClassFrom by_type.now (types_of remap.entry numbers.now) passed) }
{
    for k in passed..numbers.len() {
        let typ = number_of_type(remap, numbers.at(k));
        if let Some(class) = class_of_type(by_type, typ) {
            return Some(InterfaceClass {
                passed: k + 1,
                typ,
                class,
            });
        }
    }
    None
}

impl<'a> Class<'a> {
    /// What [`dexorder::HasParents::next_class`] returns for the class once it is remapped as [`Class::renumber`] does.
    pub fn next_class_mapped(
        &self,
        remap: &Remap,
        by_type: &[Option<usize>],
        passed: usize,
    ) -> Option<InterfaceClass>
        ensures { MatchOption result
            (HasNoClassFrom by_type.now (renumbered_class remap.now self.now).interfaces passed)
            (IsFirstClassFrom by_type.now (renumbered_class remap.now self.now).interfaces passed) }
    {
        first_class(by_type, &self.interfaces.numbers(), Some(remap), passed)
    }
}
