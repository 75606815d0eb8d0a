//! Laws of numbered pieces. Each function does nothing: its contract is the law, for the callers that cite it.

ghost use Rattle.std.specs.Prelude.{◌↔◌, List, All};
ghost use Rattle.dexspec.specs.Mentions.{Mentions};
ghost use Rattle.dexpool.specs.Numberings.{Maps, AllMapTo};
ghost use Rattle.dexpool.specs.Uses.{IsMappedUse};
ghost use Rattle.dexinsn.specs.Fitting.{ImagesFit, IsNotTooLarge};
ghost use Rattle.dexinsn.specs.Numbered.{NumberedPiece, uses_of, HasImage, HasPlace};
ghost use Rattle.dexinsn.specs.Laws.{UnitsAreDenoted, RenumberedDenote, UsesAreDenoted, UsesHaveMarks, FitMappedDown, FitWhereGreatestDoes, ConstStringsAreShort, ShortStringsAreConst};

/// Where the symbols rise, the units of numbered pieces are those of the pieces that they denote, each index the rank
/// of its symbol.
pub fn units_law()
    ensures { UnitsAreDenoted }
{}

/// Once renumbered, the pieces denote what they denoted before.
pub fn renumber_law()
    ensures keeps { RenumberedDenote }
    ensures places { (r : Maps) (ps : List NumberedPiece) → All (HasPlace r) ps
        → All (HasImage r) ps }
{}

/// The symbols that occur are those of the pieces that they denote, one for one and in their order.
pub fn uses_law()
    ensures { UsesAreDenoted }
{}

/// Where there is a mark for each symbol, there is one for each that occurs.
pub fn marks_law()
    ensures { UsesHaveMarks }
{}

/// Each number has an image just where the symbol that occurs has one.
pub fn images_law()
    ensures { (r : Maps) (ps : List NumberedPiece) → All (HasImage r) ps
        ↔ All (IsMappedUse r) (uses_of ps) }
{}

/// After a cut: where numbers fit their places, and each that occurs has an image, none of them greater than its
/// number, each image fits the place.
pub fn cut_places_law()
    ensures { FitMappedDown }
{}

/// After a join: where the numbering is not too large, its numbers fit but for those of texts at a const-string, and
/// these fit where the greatest does. So the image of each number that has one fits its place.
#[tactic(auto, using(crate::proofs::Fits::images_after_join, crate::proofs::Fits::places_after_join))]
pub fn joined_places_law()
    ensures images { (m n : Mentions) (r : Maps) → AllMapTo m n r → IsNotTooLarge n → ImagesFit r }
    ensures places { FitWhereGreatestDoes }
{}

/// The short strings of pieces are the texts that a const-string names in the pieces that they denote.
pub fn short_strings_law()
    ensures named { ConstStringsAreShort }
    ensures encodes { ShortStringsAreConst }
{}
