//! Laws of classes that are remapped, and of the symbols that occur in them. Each function does nothing: its contract
//! is the law, for the callers that cite it.

ghost use Rattle.dexclass.specs.Laws.{ClassUsesAreSymbols, ClassUsesHaveMarks, MappedStaysSame, AllAreMapped, SameOnceMapped};

use dexmembers::{members_remapped_law, members_uses_law};

/// The symbols that occur in a class are those of what it denotes, one for one and in their order. Where there is a
/// mark for each symbol, there is one for each that occurs.
pub fn uses_law()
    ensures uses { ClassUsesAreSymbols }
    ensures marks { ClassUsesHaveMarks }
{
    members_uses_law();
}

/// A class of which each symbol that occurs is mapped to the same one in another numbering denotes the same definition
/// there. Where all symbols of a numbering that rises have images, those of the class do.
pub fn renumbering_law()
    ensures same { MappedStaysSame }
    ensures all { AllAreMapped }
{
    uses_law();
    members_remapped_law();
}

/// Classes of two numberings denote the same definition if and only if they are mapped to the same class of a third.
/// Numbers need not fit their places there.
pub fn same_law()
    ensures { SameOnceMapped }
{
    renumbering_law();
}
