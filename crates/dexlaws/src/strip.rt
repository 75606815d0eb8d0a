//! How class definitions change when their debug programs and source texts are dropped.
ghost use Rattle.std.specs.Prelude.{List, ◌≡◌, ◌↔◌, ◌≤◌, ◌++◌};
ghost use Rattle.std.specs.List.{Contains};
ghost use Rattle.dexspec.specs.Lists.{AreDistinct};
ghost use Rattle.dexspec.specs.Texts.{Text};
ghost use Rattle.dexspec.specs.Classes.{Body, Definition};
ghost use Rattle.dexspec.specs.Files.{Collection, AreSame, AreWithin, IsCollectionOf};
ghost use Rattle.dexspec.specs.Mentions.{mentions};
ghost use Rattle.dexspec.specs.WellFormed.{IsWellFormed, AreWellFormed};
ghost use Rattle.dexspec.specs.Weight.{body_weight, weight};
ghost use Rattle.dexspec.specs.Merging.{Caps, HasShortString, Fits, IsConsistent, IsConflict, IsGood, Plan};
ghost use Rattle.dexspec.specs.Stripping.{strip_body, strip_definition, strip};
ghost use Rattle.dexlaws.specs.Causes.{KeepsCauses};
ghost use Rattle.dexlaws.specs.Strip.{IsLeft, StripsUnion, IsWithoutDebug, KeepsDefinition, KeepsDepths, HasSymbolsOf, AreParts, HasHeavier, StripsCollection, FormsStripped, MergesStripped};

/// A stripped union is the union of the stripped parts: of the files that a plan names, of two lists, and by members
/// alone.
pub fn strip_union()
    ensures plan { (files : List (List Definition)) (plan : Plan) → StripsUnion files plan }
    ensures join { (D E : List Definition) → strip (D ++ E) ≡ strip D ++ strip E }
    ensures members { (D : List Definition) (d : Definition) → Contains (strip D) d ↔ IsLeft D d }
    ensures within { (D E : List Definition) → AreWithin D E → AreWithin (strip D) (strip E) }
    ensures same { (D E : List Definition) → AreSame D E → AreSame (strip D) (strip E) }
{}

/// A stripped definition has no source text and no debug program, and only definitions that have one change: so
/// stripping twice is stripping once.
pub fn strip_without_debug()
    ensures without_debug { (c : Body) → IsWithoutDebug (strip_body c) }
    ensures unchanged { (c : Body) → IsWithoutDebug c → strip_body c ≡ c }
    ensures twice { (D : List Definition) → strip (strip D) ≡ strip D }
{}

/// Stripping keeps all else: the name, the parents, the fields and static values, the annotations,
/// and each method with its code, in their order.
pub fn strip_keeps()
    ensures { (d : Definition) → KeepsDefinition d }
{}

/// The same names are defined and have the same depths, and a cycle stays a cycle.
pub fn strip_depth()
    ensures { (D : List Definition) → KeepsDepths D }
{}

/// The mentions of stripped definitions are part of the mentions of the definitions, all but some texts and types, so
/// no rank increases. The same texts are short strings.
pub fn strip_mentions()
    ensures symbols { (d : Definition) → HasSymbolsOf (strip_definition d) d }
    ensures lists { (D : List Definition) → AreParts (mentions (strip D)) (mentions D) }
    ensures protos { (D : List Definition) → (mentions (strip D)).protos ≡ (mentions D).protos }
    ensures fields { (D : List Definition) → (mentions (strip D)).fields ≡ (mentions D).fields }
    ensures methods { (D : List Definition) → (mentions (strip D)).methods ≡ (mentions D).methods }
    ensures short { (D : List Definition) (s : Text) → HasShortString (strip D) s
        ↔ HasShortString D s }
{}

/// Stripped definitions weigh at most as much as the definitions; and distinct stripped definitions come from distinct
/// definitions.
pub fn strip_weight()
    ensures bodies { (c : Body) → body_weight (strip_body c) ≤ body_weight c }
    ensures whole { (D : List Definition) → weight (strip D) ≤ weight D }
    ensures parts { (D E : List Definition) → AreDistinct E → AreWithin E (strip D)
        → HasHeavier D E }
{}

/// If definitions are mergeable under some caps, so are the stripped definitions, and stripped well-formed definitions
/// are well formed. Each cause against stripped definitions is a cause against the definitions.
pub fn strip_good()
    ensures good { (caps : Caps) (D : List Definition) → IsGood caps D → IsGood caps (strip D) }
    ensures fits { (caps : Caps) (D : List Definition) → Fits caps D → Fits caps (strip D) }
    ensures consistent { (D : List Definition) → IsConsistent D → IsConsistent (strip D) }
    ensures conflict { (D : List Definition) (name : Text) → IsConflict (strip D) name
        → IsConflict D name }
    ensures cause { (caps : Caps) (D : List Definition) → KeepsCauses caps (strip D) D }
    ensures definition { (d : Definition) → IsWellFormed d → IsWellFormed (strip_definition d) }
    ensures well_formed { (D : List Definition) → AreWellFormed D → AreWellFormed (strip D) }
{}

/// A stripped collection has the stripped definitions under the same names, also if a list gives the definitions of the
/// collection in another order.
pub fn strip_collection_law()
    ensures whole { (K : Collection) → StripsCollection K }
    ensures listed { (D : List Definition) (K : Collection) → IsCollectionOf D K
        → FormsStripped D K }
{}

/// If collections merge to a collection by a plan, the stripped collections merge by this plan to the stripped one, and
/// to no other, and fit the caps that the collections fit.
pub fn strip_merge_law()
    ensures { (caps : Caps) (Ks : List Collection) (plan : Plan) → MergesStripped caps Ks plan }
{}
