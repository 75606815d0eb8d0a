//! Laws of numbered code items: of their bytes and weights, of their numbers and those of debug programs, and of what
//! they mean. Each function does nothing: its contract is the law, for the callers that cite it.

ghost use Rattle.std.specs.Prelude.{◌≡◌, ◌↔◌, List, All};
ghost use Rattle.dexspec.specs.Code as symbolic;
ghost use Rattle.dexspec.specs.Mentions.{Mentions};
ghost use Rattle.dexpool.specs.Numberings.{Maps};
ghost use Rattle.dexpool.specs.declared.marks.Marks.{Marks};
ghost use Rattle.dexpool.specs.Uses.{Use, AreMarkedToo, IsMappedUse, IsMarkedUse};
ghost use Rattle.dexcode.specs.Meaning.{code_in, IsKnownCode, DenotesCode};
ghost use Rattle.dexcode.specs.Numbered.{NumberedItem};
ghost use Rattle.dexcode.specs.Renumbering.{item_uses, HasPlaces, HasImages};
ghost use Rattle.dexcode.specs.Laws.{CodeBytesAreDenoted, CodeBytesAreFewer, CodeWeightIsDenoted, CaughtTypesAreShort, RenumberedCodeDenotes, MappedCodeHasImages, CodeHasPlaces, MarkedUsesHaveImages, CodeFitsMappedDown, CodeFitsWhereGreatestDoes, CodeUsesAreDenoted, CodeUsesHaveMarks, DebugFitsMappedDown, DebugFitsWhereImagesDo, RemappedCodeIsMeant, EqualRemappedCode};

use dexinsn::units_law;

/// Where the symbols rise, the bytes of a numbered code item are those of the code that it denotes, each index the rank
/// of its symbol. Where caught types have numbers below 2^16, they are at least 3 fewer than it weighs.
pub fn code_bytes_law()
    ensures bytes { CodeBytesAreDenoted }
    ensures few { CodeBytesAreFewer }
{
    units_law();
}

/// Where the symbols rise, a numbered code item weighs as much as the code that it denotes.
pub fn code_weight_law()
    ensures { CodeWeightIsDenoted }
{
    units_law();
}

/// Where there are 65,536 types or fewer, the number of each that a handler catches is below 2^16.
pub fn code_types_law()
    ensures { CaughtTypesAreShort }
{}

/// Once renumbered, the code denotes what it denoted before. Numbers that have places have images.
pub fn code_renumber_law()
    ensures keeps { RenumberedCodeDenotes }
    ensures places { (r : Maps) (c : NumberedItem) → HasPlaces r c → HasImages r c }
{}

/// Where each number of a numbering has an image, those in the code do. They have places in a numbering of less than
/// 2^32 symbols of each kind, where those of instructions do.
pub fn code_places_law()
    ensures images { MappedCodeHasImages }
    ensures places { CodeHasPlaces }
{}

/// Each symbol that a call marks is marked afterwards. Where a numbering keeps just the symbols that are marked, and
/// those that they name, the number of each has an image. So the numbers in code have images if its symbols are marked.
pub fn code_kept_law()
    ensures marked { (us : List Use) (old new : Marks) → AreMarkedToo us old new
        → All (IsMarkedUse new) us }
    ensures images { MarkedUsesHaveImages }
    ensures code { (r : Maps) (c : NumberedItem) → All (IsMappedUse r) (item_uses c)
        → HasImages r c }
{}

/// Each number has an image just where each symbol that occurs has one.
pub fn code_images_law()
    ensures { (r : Maps) (c : NumberedItem) → HasImages r c ↔ All (IsMappedUse r) (item_uses c) }
{}

/// After a cut: where numbers fit their places, as those of all code do ([`Code::numbers_fit`]), and each that occurs
/// has an image, none of them greater than its number, each image fits the place.
pub fn code_cut_law()
    ensures { CodeFitsMappedDown }
{}

/// After a join: where the numbering is not too large, and the image of the greatest short string
/// ([`Code::greatest_short_string`]) is below 2^16, the image of each number that has one fits its place.
/// [`joined_places_law`](dexinsn::joined_places_law) says of the maps of a join that they fit.
pub fn code_joined_law()
    ensures { CodeFitsWhereGreatestDoes }
{}

/// Where the symbols rise, those that occur are those of the code that it denotes, one for one and in their order.
/// Where there is a mark for each symbol, there is one for each that occurs.
pub fn code_uses_law()
    ensures uses { CodeUsesAreDenoted }
    ensures marks { CodeUsesHaveMarks }
{}

/// Of a debug program, after a cut: where numbers fit their places, and each that occurs has an image, none of them
/// greater than its number, each image fits the place. After a join the same, where the numbering is not too large.
pub fn debug_places_law()
    ensures cut { DebugFitsMappedDown }
    ensures joined { DebugFitsWhereImagesDo }
{}

/// A numbered code item denotes code just where its numbers are those of symbols of the right kind, and then the code
/// that has these symbols for the numbers.
pub fn code_meaning_law()
    ensures known { (m : Mentions) (c : NumberedItem) (x : symbolic.Code) → DenotesCode m c x
        → IsKnownCode m c }
    ensures meant { (m : Mentions) (c : NumberedItem) (x : symbolic.Code) → DenotesCode m c x
        → x ≡ code_in m c }
    ensures encodes { (m : Mentions) (c : NumberedItem) → IsKnownCode m c
        → DenotesCode m c (code_in m c) }
{}

/// Where each number of code has an image, the code denotes the same once renumbered. Code of two numberings, mapped to
/// a third whose symbols rise, is the same there just where it denotes the same.
pub fn code_remapped_law()
    ensures keeps { RemappedCodeIsMeant }
    ensures same { EqualRemappedCode }
{}
