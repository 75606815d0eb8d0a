//! Laws of numberings and of what class definitions mention. Each function does nothing: its contract is the law,
//! for the callers that cite it.

ghost use Rattle.std.specs.Prelude.{List, All};
ghost use Rattle.dexspec.specs.Mentions.{Mentions};
ghost use Rattle.dexpool.specs.declared.marks.Marks.{Marks};
ghost use Rattle.dexpool.specs.Numberings.{AreRising, Maps, AllMapTo};
ghost use Rattle.dexpool.specs.Laws.{RanksAreNumbers, MapsWithin, RanksGrowInUnions, UnionsAddNone, MentionsAreUnions, MarksStay, MarkedAreMapped};
ghost use Rattle.dexpool.specs.Uses.{Use, AreMarkedToo, IsMarkedUse};

/// In a union no symbol has a lesser rank than in a part, and of no kind are there more symbols than in the parts
/// together.
pub fn union_law()
    ensures ranks { RanksGrowInUnions }
    ensures counts { UnionsAddNone }
{}

/// What definitions of several lists mention together is the union of what those of each list mention.
#[tactic(auto, using(crate::proofs::UnionLaws::mentions_join))]
pub fn mentions_law()
    ensures { MentionsAreUnions }
{}

/// In lists that rise, as those of every numbering do, the number of a symbol is its rank.
#[tactic(auto, using(crate::proofs::UnionLaws::ranks_are_numbers))]
pub fn number_law()
    ensures { (m : Mentions) → AreRising m → RanksAreNumbers m }
{}

/// A map from one numbering to another has images in the other: each image is below the count of its kind. So it is for
/// what a join or a keep returns.
#[tactic(auto, using(crate::proofs::KeptNumbers::maps_within))]
pub fn within_law()
    ensures { (m n : Mentions) (r : Maps) → AllMapTo m n r → MapsWithin n r }
{}

/// What is marked with others is marked, and what was marked stays so; and where each marked number has an image, as
/// after a keep, so has each number that occurs in what was marked.
#[tactic(auto, using(crate::proofs::KeptNumbers::are_marked, crate::proofs::KeptNumbers::stay_marked, crate::proofs::KeptNumbers::marked_remapped))]
pub fn marked_law()
    ensures marked { (us : List Use) (old new : Marks) → AreMarkedToo us old new
        → All (IsMarkedUse new) us }
    ensures stays { MarksStay }
    ensures images { MarkedAreMapped }
{}
