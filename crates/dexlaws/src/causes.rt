//! Class definitions are mergeable, or there is a cause against it, and among all such causes a first one.
ghost use Rattle.std.specs.Prelude.{◌≡◌, ◌⊎◌, ◌<◌, List, length, map, true};
ghost use Rattle.std.specs.FinMap as map;
ghost use Rattle.dexspec.specs.Texts.{Text};
ghost use Rattle.dexspec.specs.Classes.{Definition};
ghost use Rattle.dexspec.specs.Files.{Collection, definitions, AreSame, IsCollectionOf};
ghost use Rattle.dexspec.specs.Depth.{is_below, HasDepth, IsAcyclic, depth};
ghost use Rattle.dexspec.specs.Merging.{Caps, Cap, Exceeds, Fits, IsConflict, IsConsistent, IsCycle, IsGood, Cause, IsCause, IsFirstCause};
ghost use Rattle.dexlaws.specs.Causes.{HasLeast, IsDepth, IsOneMore, OnDepth, IsDeeperThan, KeepsDepth, HasFirstExceeded, HasMembersOnce, HasFirstCause, GoodHasNoCause, FirstCauseRestsOnMembers, IsDecided, AreDefinitionsOf};
ghost use Rattle.dexlaws.specs.Items.{HasAtMostOne};

/// Either no name has two definitions, or some name has a conflict, and then there is a least such name.
pub fn consistent_or_conflict()
    ensures decided { (D : List Definition) → IsConsistent D ⊎ HasLeast (IsConflict D) }
    ensures apart { (D : List Definition) (name : Text) → IsConsistent D → IsConflict D name → ⊥ }
{}

/// Either every defined name has a depth, or some has none, and then there is a least such name.
pub fn acyclic_or_cycle()
    ensures decided { (D : List Definition) → IsAcyclic D ⊎ HasLeast (IsCycle D) }
    ensures apart { (D : List Definition) (name : Text) → IsAcyclic D → IsCycle D name → ⊥ }
{}

/// A depth is found within as many rounds as there are definitions. It is one more than the greatest depth of the
/// defined parents, or 0 if there are none, so a defined parent has a lesser depth. Depths depend on the members alone.
pub fn depth_is_found()
    ensures rounds { (D : List Definition) (name : Text)
        → OnDepth D name (is_below D (length D) name ≡ true) }
    ensures depth { (D : List Definition) (name : Text) → HasDepth D name
        → IsDepth D name (depth D name) }
    ensures one_more { (D : List Definition) (name : Text) → HasDepth D name → IsOneMore D name }
    ensures bound { (D : List Definition) (name : Text) → OnDepth D name (depth D name < length D) }
    ensures parents { (D : List Definition) (name parent : Text) → HasDepth D name
        → IsDeeperThan D name parent }
    ensures alone { (D E : List Definition) (name : Text) → AreSame D E → KeepsDepth D E name }
{}

/// Each list of definitions has a list of the same members without repeats, and no distinct members weigh more.
pub fn members_once()
    ensures { (D : List Definition) → HasMembersOnce D }
{}

/// Either the definitions fit the caps, or they exceed some cap, and then there is a first such cap.
pub fn fits_or_exceeds()
    ensures decided { (caps : Caps) (D : List Definition) → Fits caps D ⊎ HasFirstExceeded caps D }
    ensures apart { (caps : Caps) (D : List Definition) (cap : Cap) → Fits caps D
        → Exceeds caps D cap → ⊥ }
{}

/// Definitions are either mergeable or have a first cause against it. The first cause is unique, and depends on the
/// members alone. Whether a cause holds for them is decidable.
pub fn good_or_first_cause()
    ensures decided { (caps : Caps) (D : List Definition) → IsGood caps D ⊎ HasFirstCause caps D }
    ensures apart { (caps : Caps) → GoodHasNoCause caps }
    ensures each { (caps : Caps) (D : List Definition) (cause : Cause)
        → IsDecided (IsCause caps D cause) }
    ensures one { (caps : Caps) (D : List Definition) → HasAtMostOne (IsFirstCause caps D) }
    ensures alone { (caps : Caps) → FirstCauseRestsOnMembers caps }
{}

/// Definitions without two of a name form exactly one collection; its definitions are the members of the list, by name.
/// Other definitions form none, and each collection is that of its definitions.
pub fn collection_of()
    ensures is { (D : List Definition) → IsConsistent D → IsCollectionOf D (map.from_entries D) }
    ensures one { (D : List Definition) (K L : Collection) → IsCollectionOf D K → IsCollectionOf D L
        → K ≡ L }
    ensures members { (D : List Definition) (K : Collection) → IsCollectionOf D K
        → AreDefinitionsOf D K }
    ensures consistent { (D : List Definition) (K : Collection) → IsCollectionOf D K
        → IsConsistent D }
    ensures own { (K : Collection) → IsCollectionOf (definitions K) K }
{}
