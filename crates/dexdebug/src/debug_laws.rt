//! Laws of numbered debug programs and of what they mean. Each function does nothing: its contract is the law, for the callers that cite it.

ghost use Rattle.std.specs.Prelude.{◌≡◌, ◌↔◌, ◌≤◌, IsTrue, length};
ghost use Rattle.dexspec.specs.Mentions.{Mentions};
ghost use Rattle.dexspec.specs.Weight.{debug_weight};
ghost use Rattle.dexdebug.specs.Debug.{NumberedDebug, unindexed, numbered_debug_bytes};
ghost use Rattle.dexdebug.specs.Meaning.{debug_in, IsKnownDebug, DenotesDebug};
ghost use Rattle.dexdebug.specs.Laws.{DebugBytesAreDenoted, DebugWeightIsDenoted, DebugPositionsAreDenoted, RenumberedDebugDenotes, DebugPlacesAreImages, DebugUsesAreDenoted, DebugUsesHaveMarks, DenotingDebugIsKnown, DenotedDebugIsMeant, RemappedDebugIsMeant, EqualRemappedDebugs};

use crate::debug::Debug;
use crate::debug_operation::Operation;

/// Where the symbols rise, the bytes of a numbered debug program are those of the program that it denotes, each index
/// the rank of its symbol. They are no more than it weighs.
pub fn debug_bytes_law()
    ensures bytes { DebugBytesAreDenoted }
    ensures few { (d : NumberedDebug)
        → length (numbered_debug_bytes d) ≤ debug_weight (unindexed d) }
{}

/// A numbered debug program weighs as much as the program that it denotes, and has the same positions.
pub fn debug_unindexed_law()
    ensures weight { DebugWeightIsDenoted }
    ensures positions { DebugPositionsAreDenoted }
{}

/// Once renumbered, a debug program denotes what it denoted before.
pub fn debug_renumber_law()
    ensures keeps { RenumberedDebugDenotes }
    ensures places { DebugPlacesAreImages }
{}

/// The symbols that occur are those of the debug program that it denotes, one for one and in their order. Where there
/// is a mark for each symbol, there is one for each that occurs.
pub fn debug_uses_law()
    ensures uses { DebugUsesAreDenoted }
    ensures marks { DebugUsesHaveMarks }
{}

/// Operations are equal exactly where they are the same, their numbers too.
pub fn operation_equality_law()
    ensures { (x y : Operation) → IsTrue (⟦<Operation as PartialEq>⟧.eq x y) ↔ (x ≡ y) }
{}

/// Debug programs are equal exactly where the lines that they start at, their names and their operations are.
#[tactic(auto, using(crate::proofs::DebugEqual::debug_decides))]
pub fn debug_equality_law()
    ensures { (d e : NumberedDebug) → IsTrue (⟦<Debug<'static> as PartialEq>⟧.eq d e) ↔ (d ≡ e) }
{
    operation_equality_law();
}

/// A numbered debug program denotes a debug program just where its numbers are those of texts and types, and then the
/// one that has these texts and types for the numbers.
pub fn debug_meaning_law()
    ensures known { DenotingDebugIsKnown }
    ensures meant { DenotedDebugIsMeant }
    ensures encodes { (m : Mentions) (d : NumberedDebug) → IsKnownDebug m d
        → DenotesDebug m d (debug_in m d) }
{}

/// Where each number of a debug program has an image, the program denotes the same once renumbered. Debug programs of
/// two numberings, mapped to a third whose symbols rise, are the same there just where they denote the same.
pub fn debug_remapped_law()
    ensures keeps { RemappedDebugIsMeant }
    ensures same { EqualRemappedDebugs }
{}
