//! Marks on the symbols that occur in classes.

ghost use Rattle.std.specs.Prelude.{All, IsTrue, map};
ghost use Rattle.dexpool.specs.Uses.{HasMark, AreMarkedToo, IsMarkedUse};
ghost use Rattle.dexclass.specs.Uses.{use_of, type_use, class_uses};

use crate::classes::Class;
use dexpool::{Marks, SymbolKind};
use dexrows::TypeNumbers;

// Marks symbols of a kind.
fn mark_all(kind: SymbolKind, numbers: &[usize], marks: &mut Marks)
    requires { All (HasMark marks.old) (map (use_of kind) numbers.now) }
    ensures { AreMarkedToo (map (use_of kind) numbers.now) marks.old marks.new }
{
    for number in numbers {
        marks.mark(kind, *number);
    }
}

// Marks types.
fn mark_types(types: &TypeNumbers<'_>, marks: &mut Marks)
    requires { All (HasMark marks.old) (map type_use types.now) }
    ensures { AreMarkedToo (map type_use types.now) marks.old marks.new }
{
    for k in 0..types.len() {
        marks.mark(SymbolKind::Typ, types.at(k));
    }
}

// Marks types, unless they are marked.
fn mark_unless(are_marked: bool, types: &TypeNumbers<'_>, marks: &mut Marks)
    requires known { All (HasMark marks.old) (map type_use types.now) }
    requires marked { IsTrue are_marked → All (IsMarkedUse marks.old) (map type_use types.now) }
    ensures { AreMarkedToo (map type_use types.now) marks.old marks.new }
{
    if !are_marked {
        mark_types(types, marks);
    }
}

impl<'a> Class<'a> {
    /// Marks each symbol that occurs in the class: its type, its superclass, its interfaces, its source text, its
    /// fields and methods, and what their code, annotations and values name. Marks that are set stay.
    ///
    /// Condition: there is a mark for each of them.
    ///
    /// Source: "class_def_item".
    pub fn mark(&self, marks: &mut Marks)
        requires { All (HasMark marks.old) (class_uses self.now) }
        ensures { AreMarkedToo (class_uses self.now) marks.old marks.new }
    {
        self.mark_with(false, marks);
    }

    /// As [`Class::mark`]. Of interfaces that are marked no number is read.
    pub(crate) fn mark_with(&self, are_interfaces_marked: bool, marks: &mut Marks)
        requires known { All (HasMark marks.old) (class_uses self.now) }
        requires marked { IsTrue are_interfaces_marked
            → All (IsMarkedUse marks.old) (map type_use self.now.interfaces) }
        ensures { AreMarkedToo (class_uses self.now) marks.old marks.new }
    {
        marks.mark(SymbolKind::Typ, self.name);
        mark_all(SymbolKind::Typ, self.superclass.as_slice(), marks);
        mark_unless(are_interfaces_marked, &self.interfaces.numbers(), marks);
        mark_all(SymbolKind::Text, self.source.as_slice(), marks);
        self.members.mark(marks);
    }
}
