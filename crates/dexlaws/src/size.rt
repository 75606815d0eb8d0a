//! The canonical file has at most as many bytes as its definitions weigh, item by item, section by section and as a
//! whole, and no more than if equal items were not shared.
ghost use Rattle.std.specs.Prelude.{◌≡◌, ℕ, ◌+◌, ◌*◌, ◌<◌, ◌≤◌, List, length, map};
ghost use Rattle.dexspec.specs.Lists.{AreDistinct};
ghost use Rattle.dexspec.specs.Texts.{Text, string_data};
ghost use Rattle.dexspec.specs.Debug.{Debug};
ghost use Rattle.dexspec.specs.Classes.{Definition};
ghost use Rattle.dexspec.specs.Files.{Collection, definitions};
ghost use Rattle.dexspec.specs.Mentions.{Mentions, mentions};
ghost use Rattle.dexspec.specs.Weight.{text_weight, debug_weight, weight};
ghost use Rattle.dexspec.specs.Spellings.{debug_bytes, offsets_bytes};
ghost use Rattle.dexspec.specs.Placing.{Ordered};
ghost use Rattle.dexspec.specs.Canonical.{canonical};
ghost use Rattle.dexspec.specs.Merging.{Caps, AreCaps};
ghost use Rattle.dexspec.specs.Header.{HasSize};
ghost use Rattle.dexlaws.specs.Size.{ordered_file, unshared_file, HasFewTypes, ValuesAreWithin, CodeIsWithin, HandlersAreWithin, ClassDataIsWithin, DirectoryIsWithin, TypeListHas, ExtendsToEnd, EndsWithin, KeepsSum, IsWithinWeight, IsWithinCap, PartsAreWithin};
ghost use Rattle.dexlaws.specs.Frame.{OnFits};

/// Each item has at most as many bytes as it weighs, or as its number of members allows: a text without its row, code
/// with the bytes of its alignment, the others without.
pub fn item_size_law()
    ensures texts { (s : Text) → length (string_data s) + 4 ≤ text_weight s }
    ensures debugs { (m : Mentions) (d : Debug) → length (debug_bytes m d) ≤ debug_weight d }
    ensures values { (m : Mentions) → ValuesAreWithin m }
    ensures codes { (m : Mentions) → HasFewTypes m → CodeIsWithin m }
    ensures handlers { (m : Mentions) → HasFewTypes m → HandlersAreWithin m }
    ensures class_data { (m : Mentions) → ClassDataIsWithin m }
    ensures directories { (m : Mentions) → DirectoryIsWithin m }
    ensures sets_and_lists { (offs : List ℕ) → length (offsets_bytes offs) ≡ 4 + 4 * length offs }
    ensures type_lists { (m : Mentions) (ts : List Text) → TypeListHas m ts }
{}

/// The bytes of a section extend from its start to its end, which is no later than its items reach, each with the bytes
/// of its alignment.
pub fn section_size_law()
    ensures bytes { (align from : ℕ) (items : List (List ℕ)) → ExtendsToEnd align from items }
    ensures end { (align from : ℕ) (items : List (List ℕ)) → 0 < align
        → EndsWithin align from items }
{}

/// Definitions of different names are in class order, each once, so any sum over them is the same. Those of a
/// collection have different names.
pub fn class_order_law()
    ensures names { (K : Collection) → AreDistinct (map (λ d. d.0) (definitions K)) }
    ensures sums { (f : Definition → ℕ) (D : List Definition) → AreDistinct (map (λ d. d.0) D)
        → KeepsSum f D }
{}

/// All rows and sections have at most as many bytes as their contents weigh.
pub fn parts_size_law()
    ensures { (K : Ordered) → HasFewTypes K.pools → PartsAreWithin K }
{}

/// The canonical file has at most as many bytes as its class definitions weigh.
pub fn size_law()
    ensures ordered { (D : List Definition) → HasFewTypes (mentions D)
        → length (ordered_file D) ≤ weight D }
    ensures canonical { (K : Collection) → HasFewTypes (mentions (definitions K))
        → IsWithinWeight K }
{}

/// The canonical file is at most as long as the file of the same definitions in which each use of a type list, of a
/// debug program and of an annotation set has its own item.
pub fn sharing_law()
    ensures ordered { (D : List Definition) → length (ordered_file D) ≤ length (unshared_file D) }
    ensures canonical { (K : Collection)
        → length (canonical K) ≤ length (unshared_file (definitions K)) }
{}

/// Distinct definitions that fit caps have a canonical file of at most as many bytes as the cap on weight. The
/// canonical file of a collection meets the condition on size.
pub fn fitting_size_law()
    ensures ordered { (caps : Caps) (D : List Definition) → AreCaps caps → AreDistinct D
        → IsWithinCap caps D }
    ensures canonical { (caps : Caps) (K : Collection) → OnFits caps K (HasSize (canonical K)) }
{}
