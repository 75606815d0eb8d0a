//! Mentions, ranks, depths and weights do not decrease as class definitions are added.
ghost use Rattle.std.specs.Prelude.{List, ◌≡◌, ◌≤◌};
ghost use Rattle.dexspec.specs.Lists.{AreDistinct};
ghost use Rattle.dexspec.specs.Texts.{text_cmp};
ghost use Rattle.dexspec.specs.Symbols.{proto_cmp, field_cmp, method_cmp};
ghost use Rattle.dexspec.specs.Classes.{Definition};
ghost use Rattle.dexspec.specs.Files.{AreSame, AreWithin};
ghost use Rattle.dexspec.specs.Mentions.{mentions};
ghost use Rattle.dexspec.specs.Weight.{weight};
ghost use Rattle.dexspec.specs.Merging.{Caps, IsGood, Cause, IsCause};
ghost use Rattle.dexlaws.specs.Growth.{IsExactOrder, PutsInOrder, RanksArePlaces, MentionsGrow, MentionsRise, MentionsAreParts, AreClosed, DepthsGrow, Absorbs};

/// The orders of texts and of the symbols of each pool are total, and only equal symbols are equal by order.
pub fn order_law()
    ensures texts { IsExactOrder text_cmp }
    ensures protos { IsExactOrder proto_cmp }
    ensures fields { IsExactOrder field_cmp }
    ensures methods { IsExactOrder method_cmp }
{}

/// A list put in order rises, has the members of the original list, and depends on these alone.
pub fn in_order_law()
    ensures texts { PutsInOrder text_cmp }
    ensures protos { PutsInOrder proto_cmp }
    ensures fields { PutsInOrder field_cmp }
    ensures methods { PutsInOrder method_cmp }
{}

/// In a rising list the rank of a member is its place.
pub fn rank_law()
    ensures texts { RanksArePlaces text_cmp }
    ensures protos { RanksArePlaces proto_cmp }
    ensures fields { RanksArePlaces field_cmp }
    ensures methods { RanksArePlaces method_cmp }
{}

/// The mentions of definitions rise in order, grow with the definitions, and depend on the members alone. So with more
/// definitions no rank decreases.
pub fn mentions_law()
    ensures grow { (D E : List Definition) → AreWithin D E → MentionsGrow D E }
    ensures rise { (D : List Definition) → MentionsRise D }
    ensures same { (D E : List Definition) → AreSame D E → mentions D ≡ mentions E }
{}

/// The mentions of definitions are exactly the parts of the symbols that occur in them, and with a symbol its parts.
pub fn parts_law()
    ensures parts { (D : List Definition) → MentionsAreParts D }
    ensures closed { (D : List Definition) → AreClosed (mentions D) }
{}

/// A name that has a depth among more definitions has a depth among fewer, and it is no greater.
pub fn depth_law()
    ensures { (D E : List Definition) → AreWithin D E → DepthsGrow D E }
{}

/// Distinct definitions weigh at most as much as any definitions that include them, and the order does not matter.
pub fn weight_law()
    ensures same { (D E : List Definition) → AreDistinct D → AreDistinct E → AreSame D E
        → weight D ≡ weight E }
    ensures grow { (D E : List Definition) → AreDistinct D → AreWithin D E → weight D ≤ weight E }
{}

/// If definitions are mergeable under some caps, any part of them is, and each cause against a part is a cause against
/// the whole.
pub fn absorption_law()
    ensures { (D E : List Definition) → AreWithin D E → Absorbs D E }
{}

/// Definitions that are mergeable under some caps have no cause against them.
pub fn cause_law()
    ensures { (caps : Caps) (D : List Definition) (cause : Cause) → IsGood caps D
        → IsCause caps D cause → ⊥ }
{}
