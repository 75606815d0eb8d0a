//! Laws of what classes declare. Each function does nothing: its contract is the law, for the callers that cite it.

ghost use Rattle.dexmembers.specs.Laws.{RemappedMembersAreMeant, RemappedMembersAreOrdered, RemappedMembersAreOfClass, EqualRemappedMembers, MembersFitMappedDown, MembersFitWhereGreatestDoes, ClassDataIsDenoted, DirectoryIsDenoted, MembersUsesAreDenoted, MembersUsesHaveMarks, StrippedMembersAreMeant, StrippedMembersAreKnown, StrippedMembersAreOfClass, StrippedMembersKeepShortStrings, StrippedMembersKeepTries};
ghost use Rattle.dexmembers.specs.Numbered.{NumberedMembers, AreOrdered};
ghost use Rattle.dexmembers.specs.Stripped.{stripped_members};

use dexcode::{
    code_cut_law, code_images_law, code_joined_law, code_kept_law, code_meaning_law,
    code_remapped_law, code_uses_law,
};
use dexpool::number_law;
use dexval::{narrow_law, renumber_law};

/// Once renumbered, where each number has an image, members denote what they denoted before. They are in order where
/// they were, and of the class that they were of.
pub fn members_remapped_law()
    ensures keeps { RemappedMembersAreMeant }
    ensures order { RemappedMembersAreOrdered }
    ensures class { RemappedMembersAreOfClass }
{
    renumber_law();
    code_remapped_law();
    code_kept_law();
}

/// Members of classes of one name in two numberings, mapped to a third whose symbols rise and in which each of their
/// numbers has an image, are the same there just where they denote the same. The numbers need not fit their places
/// there.
pub fn members_same_law()
    ensures { EqualRemappedMembers }
{
    members_remapped_law();
}

/// After a cut: where numbers fit their places, as those of all members do
/// ([`Members::numbers_fit`](crate::Members::numbers_fit)), and each that occurs has an image, none of them greater
/// than its number, each image fits the place, and [`renumber`](crate::Members::renumber) may be called.
pub fn members_cut_law()
    ensures { MembersFitMappedDown }
{
    narrow_law();
    code_cut_law();
    code_images_law();
}

/// After a join: where the numbering is not too large, and the image of the greatest short string
/// ([`Members::greatest_short_string`](crate::Members::greatest_short_string)) is below 2^16, the image of each number
/// that has one fits its place. [`joined_places_law`](dexinsn::joined_places_law) says of the maps of a join that they
/// fit.
pub fn members_joined_law()
    ensures { MembersFitWhereGreatestDoes }
{
    narrow_law();
    code_joined_law();
    code_images_law();
}

/// Where the symbols rise, the class data and the annotations directory of members are those of the class definition
/// that they denote, each index the rank of its symbol. So [`Members::directory_len`](crate::Members::directory_len)
/// returns the length of this directory.
pub fn members_bytes_law()
    ensures class_data { ClassDataIsDenoted }
    ensures directory { DirectoryIsDenoted }
{
    number_law();
}

/// Where the symbols rise, those that occur are those of what the numbers denote, one for one and in their order. Where
/// there is a mark for each symbol, there is one for each that occurs.
pub fn members_uses_law()
    ensures uses { MembersUsesAreDenoted }
    ensures marks { MembersUsesHaveMarks }
{
    code_meaning_law();
    code_uses_law();
}

/// Members without their debug programs denote what they denoted before, without debug programs. They stay known to a
/// numbering, in order, and members of their class. The numbers of texts that a const-string names are the same, and so
/// is the greatest of them, and each method keeps its tries. The call does nothing: its contract is the law, for the
/// callers that cite it.
pub fn members_stripped_law()
    ensures same { StrippedMembersAreMeant }
    ensures known { StrippedMembersAreKnown }
    ensures ordered { (x : NumberedMembers) → AreOrdered x → AreOrdered (stripped_members x) }
    ensures own { StrippedMembersAreOfClass }
    ensures short_strings { StrippedMembersKeepShortStrings }
    ensures tries { StrippedMembersKeepTries }
{}
