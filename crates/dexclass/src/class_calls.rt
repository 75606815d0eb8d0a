//! What a class weighs, copies of classes, and classes of two numberings that are the same.

ghost use Rattle.std.specs.Prelude.{◌≡◌, ◌↔◌, IfOk, IsTrue};
ghost use Rattle.dexspec.specs.Mentions.{Mentions};
ghost use Rattle.dexpool.specs.Numberings.{AreRising};
ghost use Rattle.dexclass.specs.Uses.{IsKnownClass, class_weight};
ghost use Rattle.dexclass.specs.Renumbering.{renumbered_class, remapped_types};

use crate::classes::Class;
use crate::renumbering::{optional_text_number, optional_type_number, type_number};
use dexpool::Remap;
use dexrows::TypeNumbers;
use std::alloc::AllocError;

impl<'a> Class<'a> {
    /// What the class weighs without the symbols that it names, in bytes, or 2^64 - 1 where that is more.
    ///
    /// Source: "class_def_item" and "type_list", and what [`dexmembers::Members::weight`] names, the sizes of their
    /// fields; the weight is this project's rule.
    pub fn weight(&self) -> u64
        ensures { (m : Mentions) → AreRising m → IsKnownClass m self.now
            → result ≡ class_weight m self.now }
    {
        self.weight
    }

    /// The same class, with lists of its own. The units of code, and the interfaces that a file lists, are borrowed as
    /// before.
    pub fn copy(&self) -> Result<Class<'a>, AllocError>
        ensures { IfOk result (λ copy. copy ≡ self.now) }
    {
        Ok(Class {
            interfaces: self.interfaces.copy()?,
            members: self.members.copy()?,
            ..*self
        })
    }

    /// Returns whether the two classes are equal once the numbers of each are remapped as `renumber` does. The names
    /// are compared first.
    pub fn same_mapped(&self, mine: &Remap, other: &Class<'_>, theirs: &Remap) -> bool
        ensures { IsTrue result ↔
            (renumbered_class mine.now self.now ≡ renumbered_class theirs.now other.now) }
    {
        let superclass = optional_type_number(theirs, other.superclass);
        type_number(mine, self.name) == type_number(theirs, other.name)
            && self.flags == other.flags
            && self.weight == other.weight
            && optional_type_number(mine, self.superclass) == superclass
            && optional_text_number(mine, self.source) == optional_text_number(theirs, other.source)
            && eq_mapped(mine, &self.interfaces(), theirs, &other.interfaces())
            && self.members.same_mapped(mine, &other.members, theirs)
    }
}

// Returns whether two lists of types are mapped to the same numbers.
fn eq_mapped(
    mine: &Remap,
    numbers: &TypeNumbers<'_>,
    theirs: &Remap,
    others: &TypeNumbers<'_>,
) -> bool
    ensures { IsTrue result
        ↔ (remapped_types mine.now numbers.now ≡ remapped_types theirs.now others.now) }
{
    if numbers.len() != others.len() {
        return false;
    }
    for k in 0..numbers.len() {
        if type_number(mine, numbers.at(k)) != type_number(theirs, others.at(k)) {
            return false;
        }
    }
    true
}
