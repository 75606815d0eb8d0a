//! Class definitions with numbers instead of symbols.

ghost use Rattle.std.specs.Prelude.{◌≡◌};
ghost use Rattle.dexclass.specs.Numbered.{number_of};

use crate::interface_classes::first_class;
use crate::interface_lists::Interfaces;
use dexflags::ClassFlags;
use dexmembers::Members;
use dexorder::{HasParents, InterfaceClass};
use dexrows::TypeNumbers;
use std::marker::Model;

/// The index that names nothing.
///
/// Source: "class_def_item", the constant NO_INDEX.
pub(crate) const NO_INDEX: u32 = 0xffff_ffff;

/// A class definition. Its types and texts, and the symbols of what it declares, are numbers of a numbering.
///
/// Source: "class_def_item".
pub struct Class<'a> {
    pub(crate) name: usize,
    pub(crate) flags: u32,
    pub(crate) superclass: Option<usize>,
    pub(crate) interfaces: Interfaces<'a>,
    pub(crate) source: Option<usize>,
    pub(crate) members: Members<'a>,
    // What the class weighs without the symbols that it names, found once, as it is read.
    pub(crate) weight: u64,
}

// So that a class is dropped by one call, in the crates above too.
impl Drop for Class<'_> {
    fn drop(self) {
        let Class {
            name: _,
            flags: _,
            superclass: _,
            interfaces: _,
            source: _,
            members: _,
            weight: _,
        } = self;
    }
}

impl<'a> Model for Class<'a> {
    ghost use Rattle.std.specs.Coded.{codes};
    ghost use Rattle.dexval.specs.Stored.{elements_code, values_code};
    ghost use Rattle.dexclass.specs.Numbered.{NumberedClass};

    ghost Value = { NumberedClass };

    ghost coded = { Prim.hlevel (codes, elements_code, values_code) };

    ghost view = { λ c. record { name = c.name; flags = c.flags; superclass = c.superclass; interfaces = c.interfaces; source = c.source; members = c.members; weight = c.weight } };
}

impl<'a> Class<'a> {
    /// The number of the class's type.
    pub fn name(&self) -> usize
        ensures { result ≡ self.now.name }
    {
        self.name
    }

    /// The access flags.
    ///
    /// Source: "access_flags definitions".
    pub fn flags(&self) -> ClassFlags
        ensures { result.0 ≡ self.now.flags }
    {
        ClassFlags::from_bits_retain(self.flags)
    }

    /// The number of the superclass's type, if there is one.
    pub fn superclass(&self) -> Option<usize>
        ensures { result ≡ self.now.superclass }
    {
        self.superclass
    }

    /// The numbers of the interfaces' types, in their order.
    ///
    /// Source: "class_def_item", the field `interfaces_off`, and "type_list".
    pub fn interfaces(&self) -> TypeNumbers<'_>
        ensures { result ≡ self.now.interfaces }
    {
        self.interfaces.numbers()
    }

    /// The number of the source name's text, if there is one.
    pub fn source(&self) -> Option<usize>
        ensures { result ≡ self.now.source }
    {
        self.source
    }

    /// What the class declares: its annotations, its fields and methods, and what its static fields begin with.
    ///
    /// Source: "class_data_item", "annotations_directory_item", "encoded_array_item".
    pub fn members(&self) -> &Members<'a>
        ensures { result.now ≡ self.now.members }
    {
        &self.members
    }
}

impl<'a> HasParents for Class<'a> {
    ghost name_of = { λ c. c.name };

    ghost superclass_of = { λ c. c.superclass };

    ghost interfaces_of = { λ c. c.interfaces };

    fn name(&self) -> usize {
        self.name
    }

    fn superclass(&self) -> Option<usize> {
        self.superclass
    }

    fn next_class(&self, by_type: &[Option<usize>], passed: usize) -> Option<InterfaceClass> {
        first_class(by_type, &self.interfaces.numbers(), None, passed)
    }
}

/// The number of an index, if it is one.
pub(crate) fn number_of(index: u32) -> Option<usize>
    ensures { result ≡ number_of index }
{
    (index != NO_INDEX).then_some(index as usize)
}
