//! Laws of values and sets with numbers. Each function does nothing: its contract is the law, for the callers that cite
//! it.

ghost use Rattle.std.specs.Prelude.{All};
ghost use Rattle.std.specs.List.{flat_map};
ghost use Rattle.dexspec.specs.Mentions.{Mentions, value_symbols, values_symbols, set_symbols};
ghost use Rattle.dexpool.specs.Numberings.{Maps};
ghost use Rattle.dexpool.specs.Laws.{MapsWithin};
ghost use Rattle.dexpool.specs.Orderly.{MapsDown};
ghost use Rattle.dexval.specs.Numbered.{values_of_list, IsKnown, AreKnown, IsKnownSet, Denotes, Denote, DenotesSet};
ghost use Rattle.dexval.specs.Renumbering.{renumbered, renumbered_values, renumbered_set, MapsNarrow, HasPlaces, HavePlaces, AnnotationHasPlaces, SetHasPlaces};
ghost use Rattle.dexval.specs.Spelled.{IsCounted, IsCountedAnnotation};
ghost use Rattle.dexval.specs.Uses.{value_uses, values_uses, annotation_uses, set_uses};
ghost use Rattle.dexval.specs.Directories.{set_weight_in};
ghost use Rattle.dexval.specs.Laws.{RemappedDenote, UsesAreSymbols, RemappedAreSame, UsesHaveMarks, UsesHaveImages, PlacedHaveImages, ImagesArePlaces, HasFewSymbols, KnownHavePlaces, LightAreCounted, AreCountedStatics, LightSetsFit};
ghost use Rattle.dexval.specs.Writing.{value_weight_in, statics_weight_in, annotation_weight_in};

use dexpool::within_law;

/// If each number has an image, a remapped value, list of values or set denotes the same as before.
pub fn renumber_law()
    ensures value { RemappedDenote Denotes renumbered value_uses }
    ensures values { RemappedDenote Denote renumbered_values values_uses }
    ensures set { RemappedDenote DenotesSet renumbered_set set_uses }
{}

/// The symbols that occur are those of the items that the numbers denote, one for one and in order.
#[tactic(auto, using(crate::proofs::Meanings::value_encoded, crate::proofs::Meanings::values_encoded, crate::proofs::Meanings::set_encoded))]
pub fn uses_law()
    ensures value { UsesAreSymbols Denotes value_uses value_symbols }
    ensures values { UsesAreSymbols Denote values_uses values_symbols }
    ensures set { UsesAreSymbols DenotesSet set_uses set_symbols }
{}

/// If there is a mark for each symbol, there is a mark for each symbol that occurs.
#[tactic(auto, using(crate::proofs::Meanings::value_marks, crate::proofs::Meanings::values_marks, crate::proofs::Meanings::set_marks))]
pub fn marks_law()
    ensures value { UsesHaveMarks IsKnown value_uses }
    ensures values { UsesHaveMarks AreKnown values_uses }
    ensures set { UsesHaveMarks IsKnownSet set_uses }
{}

/// In a map that has an image for each number, the numbers of a value, of values and of a set have images. Items that
/// may be remapped have images for all their numbers.
pub fn images_law()
    ensures value { UsesHaveImages IsKnown value_uses }
    ensures values { UsesHaveImages AreKnown values_uses }
    ensures set { UsesHaveImages IsKnownSet set_uses }
    ensures placed_value { PlacedHaveImages HasPlaces value_uses }
    ensures placed_values { PlacedHaveImages HavePlaces values_uses }
    ensures placed_set { PlacedHaveImages SetHasPlaces set_uses }
{}

/// A map that does not increase numbers, such as a map into a part, maps numbers of 32 bits to numbers of 32 bits. So
/// does a map into a numbering of at most 2^32 symbols of each kind, such as a join. Each number of the code has 32
/// bits. So under such a map a value, values, an annotation, a set and sets may be remapped if each of their numbers
/// has an image.
#[tactic(auto, using(crate::proofs::Images::cut_within, crate::proofs::Images::join_within, crate::proofs::Images::uses_placed, crate::proofs::Images::sets_placed))]
pub fn narrow_law()
    ensures cut { (r : Maps) → MapsDown r → MapsNarrow r }
    ensures join { (n : Mentions) (r : Maps) → MapsWithin n r → HasFewSymbols n → MapsNarrow r }
    ensures value { ImagesArePlaces value_uses HasPlaces }
    ensures values { ImagesArePlaces values_uses HavePlaces }
    ensures annotation { ImagesArePlaces annotation_uses AnnotationHasPlaces }
    ensures set { ImagesArePlaces set_uses SetHasPlaces }
    ensures sets { ImagesArePlaces (flat_map set_uses) (λ r. All (SetHasPlaces r)) }
{}

/// If each number has an image, as those of a part do when numberings are joined, and no kind has more than 2^32
/// symbols, a value, values and a set may be remapped.
pub fn places_law()
    ensures value { KnownHavePlaces IsKnown HasPlaces }
    ensures values { KnownHavePlaces AreKnown HavePlaces }
    ensures set { KnownHavePlaces IsKnownSet SetHasPlaces }
{
    within_law();
}

/// An item that weighs less than 2^32 has few enough members to be put: a value, static values, an annotation, and each
/// annotation of a set. A set may be put at an offset if the offset and its weight are together less than 2^32.
pub fn counts_law()
    ensures value { LightAreCounted value_weight_in IsCounted }
    ensures statics { LightAreCounted (λ m xs.
        statics_weight_in m (values_of_list xs)) AreCountedStatics }
    ensures annotation { LightAreCounted annotation_weight_in IsCountedAnnotation }
    ensures set { LightAreCounted set_weight_in (All IsCountedAnnotation) }
    ensures offsets { LightSetsFit }
{}

/// Values, lists of values and sets of two numberings are remapped to a third in which each of their numbers has an
/// image. They are equal there exactly if they denote the same.
pub fn same_law()
    ensures value { RemappedAreSame Denotes renumbered value_uses }
    ensures values { RemappedAreSame Denote renumbered_values values_uses }
    ensures set { RemappedAreSame DenotesSet renumbered_set set_uses }
{}
