//! A whole file laid out by hand: it is accepted, and denotes its class.

ghost use Rattle.std.specs.Prelude.{[], ◌∷◌, codes};
ghost use Rattle.std.specs.FinMap.{from_entries};
ghost use Rattle.dexspec.specs.Accepted.{HasMembers, HoldsThroughout, IsAccepted, IsFrame, IsRefused};
ghost use Rattle.dexspec.specs.Classes.{ClassRow};
ghost use Rattle.dexspec.specs.Conditions.{Strings, Types, Protos, Fields, Methods, Classes};
ghost use Rattle.dexspec.specs.Files.{Denotes};
ghost use Rattle.dexspec.specs.Rows.{StringRow, TypeRow};
ghost use Rattle.dexexamples.specs.Examples.{object, body_under, class_a, class_p};
ghost use Rattle.dexexamples.specs.Whole.{whole_a, changed_a, cut_a, later_a, whole_p};

/// Header, sums, layout and map are valid: conditions 1 to 10.
pub fn frame()
    ensures { IsFrame whole_a }
{}

/// The rows are these texts and types, and conditions 11 to 15 hold.
pub fn rows()
    ensures first_string { StringRow whole_a 0 (codes "LA;") }
    ensures second_string { StringRow whole_a 1 object }
    ensures first_type { TypeRow whole_a 0 (codes "LA;") }
    ensures second_type { TypeRow whole_a 1 object }
    ensures strings { HoldsThroughout Strings whole_a }
    ensures types { HoldsThroughout Types whole_a }
    ensures protos { HoldsThroughout Protos whole_a }
    ensures fields { HoldsThroughout Fields whole_a }
    ensures methods { HoldsThroughout Methods whole_a }
{}

/// The class row is the class, and condition 16 holds.
pub fn class_row()
    ensures is { ClassRow whole_a 0 (codes "LA;") (body_under object) }
    ensures classes { HoldsThroughout Classes whole_a }
{}

/// All 23 conditions hold.
pub fn accepted()
    ensures { IsAccepted whole_a }
{}

/// The file denotes the class, and nothing else.
pub fn denotes()
    ensures { Denotes whole_a (from_entries (class_a ∷ [])) }
{}

/// A changed byte is a wrong checksum, a missing byte is a wrong length, and another version is reported with its
/// number.
pub fn refused()
    ensures changed { IsRefused changed_a 7 0 }
    ensures cut { IsRefused cut_a 4 0 }
    ensures later { IsRefused later_a 3 38 }
{}

/// The class row of a file with members is its class, with a method and its code.
pub fn class_row_with_members()
    ensures members { HasMembers whole_p 0 }
    ensures is { ClassRow whole_p 0 (codes "LA;") (class_p (codes "hi")).1 }
{}
