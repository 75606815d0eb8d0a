//! What the rows of a canonical file denote, and that the canonical file of a collection is accepted and
//! denotes it.
ghost use Rattle.std.specs.Prelude.{◌≡◌, ℕ, List};
ghost use Rattle.dexspec.specs.Texts.{text_cmp};
ghost use Rattle.dexspec.specs.Symbols.{proto_cmp, field_cmp, method_cmp};
ghost use Rattle.dexspec.specs.Rows.{StringRow, TypeRow, ProtoRow, FieldRow, MethodRow};
ghost use Rattle.dexspec.specs.Classes.{Definition};
ghost use Rattle.dexspec.specs.Files.{Collection, IsCollectionOf};
ghost use Rattle.dexspec.specs.Merging.{Caps, IsGood};
ghost use Rattle.dexspec.specs.Conditions.{Condition};
ghost use Rattle.dexspec.specs.Accepted.{HoldsThroughout, HoldBelow};
ghost use Rattle.dexspec.specs.Canonical.{canonical};
ghost use Rattle.dexlaws.specs.Denotes.{OnAccepted, AreReadable};
ghost use Rattle.dexlaws.specs.Normal.{OnFitting, OnGood, RowsAreMentions, MentionsAreAtRanks, RowsAreClasses, DefinitionsHaveRows, FilesTellApart, IsCanonicalAgain, HasAcceptedFile, IsDenotedByFile, OnUnion};

/// The string rows of the canonical file of definitions that fit are the mentioned texts, in order.
pub fn strings_at_ranks()
    ensures rows { RowsAreMentions StringRow (λ m. m.texts) }
    ensures ranks { MentionsAreAtRanks text_cmp StringRow (λ m. m.texts) }
    ensures holds { (K : Collection)
        → OnFitting K (HoldsThroughout Condition.Strings (canonical K)) }
{}

/// The type rows are the mentioned types, in order.
pub fn types_at_ranks()
    ensures rows { RowsAreMentions TypeRow (λ m. m.types) }
    ensures ranks { MentionsAreAtRanks text_cmp TypeRow (λ m. m.types) }
    ensures holds { (K : Collection) → OnFitting K (HoldsThroughout Condition.Types (canonical K)) }
{}

/// The proto rows are the mentioned protos, in order, with their lists of parameters.
pub fn protos_at_ranks()
    ensures rows { RowsAreMentions ProtoRow (λ m. m.protos) }
    ensures ranks { MentionsAreAtRanks proto_cmp ProtoRow (λ m. m.protos) }
    ensures holds { (K : Collection)
        → OnFitting K (HoldsThroughout Condition.Protos (canonical K)) }
{}

/// The field rows are the mentioned fields, in order.
pub fn fields_at_ranks()
    ensures rows { RowsAreMentions FieldRow (λ m. m.fields) }
    ensures ranks { MentionsAreAtRanks field_cmp FieldRow (λ m. m.fields) }
    ensures holds { (K : Collection)
        → OnFitting K (HoldsThroughout Condition.Fields (canonical K)) }
{}

/// The method rows are the mentioned methods, in order.
pub fn methods_at_ranks()
    ensures rows { RowsAreMentions MethodRow (λ m. m.methods) }
    ensures ranks { MentionsAreAtRanks method_cmp MethodRow (λ m. m.methods) }
    ensures holds { (K : Collection)
        → OnFitting K (HoldsThroughout Condition.Methods (canonical K)) }
{}

/// The class rows of the canonical file of a good collection are its definitions, in order, and all items of the rows
/// can be read.
pub fn classes_at_ranks()
    ensures holds { (K : Collection) → OnGood K (HoldsThroughout Condition.Classes (canonical K)) }
    ensures rows { (K : Collection) → OnGood K (RowsAreClasses K) }
    ensures readable { (K : Collection) → OnGood K (AreReadable (canonical K)) }
    ensures weight { (K : Collection) → OnGood K (HoldsThroughout Condition.Weight (canonical K)) }
{}

/// Each symbol that occurs in a definition of a collection that fits is, in the canonical file, in the row
/// of its index, and the index plus one fits 32 bits.
pub fn symbols_at_ranks()
    ensures { (K : Collection) → OnFitting K (DefinitionsHaveRows K) }
{}

/// The canonical file of any collection that is good and well formed meets conditions 1 to 16.
pub fn rows_hold()
    ensures { (K : Collection) → OnGood K (HoldBelow 17 (canonical K)) }
{}

/// The canonical file of a collection that is good and well formed is accepted, and denotes it. So two different such
/// collections have different canonical files.
pub fn normal_form()
    ensures accepted { (K : Collection) → OnGood K (HasAcceptedFile K) }
    ensures denotes { (K : Collection) → OnGood K (IsDenotedByFile K) }
    ensures one { (K L : Collection) → OnGood K (OnGood L (canonical K ≡ canonical L → K ≡ L)) }
{}

/// The normal form of an accepted file, which is the canonical file of the collection that it denotes, is accepted and
/// denotes it too. So accepted files have the same normal form exactly if they denote the same collection, and the
/// normal form of a normal form is the same bytes.
pub fn files_normal_form()
    ensures accepted { (b : List ℕ) (K : Collection) → OnAccepted b K (HasAcceptedFile K) }
    ensures denotes { (b : List ℕ) (K : Collection) → OnAccepted b K (IsDenotedByFile K) }
    ensures same { (a b : List ℕ) (K L : Collection)
        → OnAccepted a K (OnAccepted b L (FilesTellApart K L)) }
    ensures twice { (b : List ℕ) (K L : Collection) → OnAccepted b K (IsCanonicalAgain K L) }
{}

/// If the definitions of some accepted files are mergeable under caps of the format, the canonical file of their
/// collection is accepted and denotes it; and there is such a collection.
pub fn union_normal_form()
    ensures accepted { (caps : Caps) (files : List (List ℕ)) → OnUnion caps files HasAcceptedFile }
    ensures denotes { (caps : Caps) (files : List (List ℕ)) → OnUnion caps files IsDenotedByFile }
    ensures some { (caps : Caps) (D : List Definition) → IsGood caps D → (K : Collection)
        × IsCollectionOf D K }
{}
