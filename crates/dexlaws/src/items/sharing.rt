//! Type lists, debug programs and annotation sets that are written once: the tests decide equality, and each use has
//! the number of the item that equals it.
ghost use Rattle.std.specs.Prelude.{List, Option};
ghost use Rattle.dexspec.specs.Texts.{Text};
ghost use Rattle.dexspec.specs.Debug.{Debug};
ghost use Rattle.dexspec.specs.Annotations.{AnnotationSet};
ghost use Rattle.dexspec.specs.Sameness.{same_types, same_debug, same_set};
ghost use Rattle.dexspec.specs.Placing.{shared_items};
ghost use Rattle.dexlaws.specs.Items.{ReportsEqual, AreShared};

/// Two type lists, two debug programs or two sets are the same by their test exactly if they are equal.
pub fn sameness_is_equality()
    ensures type_lists { ReportsEqual same_types }
    ensures debugs { ReportsEqual same_debug }
    ensures sets { ReportsEqual same_set }
{}

/// No two written items are equal, and each has a use. Each use that is not empty has the number of the item that
/// equals it, and the items are in the order of their first uses.
pub fn items_are_shared()
    ensures type_lists { (uses : List (Option (List Text)))
        → AreShared uses (shared_items same_types uses) }
    ensures debugs { (uses : List (Option Debug)) → AreShared uses (shared_items same_debug uses) }
    ensures sets { (uses : List (Option AnnotationSet))
        → AreShared uses (shared_items same_set uses) }
{}
