//! Canonical files: the offset of each part, and the conditions that header, map and rows meet.
ghost use Rattle.std.specs.Prelude.{List, ℕ, ◌≡◌, ◌<◌, ◌^◌, length};
ghost use Rattle.dexspec.specs.Bytes.{ushort, uint, ushort_at, uint_at, BytesAt};
ghost use Rattle.dexspec.specs.Header.{HasMagic, HasVersion, HasChecksum, HasSignature};
ghost use Rattle.dexspec.specs.Sections.{Section};
ghost use Rattle.dexspec.specs.Accepted.{HoldBelow, IsFrame};
ghost use Rattle.dexspec.specs.Symbols.{Symbol};
ghost use Rattle.dexspec.specs.Files.{Collection, definitions};
ghost use Rattle.dexspec.specs.Mentions.{mentions};
ghost use Rattle.dexspec.specs.Merging.{Caps};
ghost use Rattle.dexspec.specs.Placing.{Ordered};
ghost use Rattle.dexspec.specs.Canonical.{with_sums, canonical};
ghost use Rattle.dexlaws.specs.Frame.{signed_file, IsFrameIfShort, OnFits, OnFitsFormed, HasFewSymbols, HasFields, HasRows, HasItems, IsOpenedAtSize, opening, OnMap, HasEntries, HasItsRow};

/// A number is read at the offset of its bytes.
pub fn numbers_law()
    ensures two { (b : List ℕ) (o n : ℕ) → n < 2 ^ 16 → BytesAt b o (ushort n) → ushort_at b o ≡ n }
    ensures four { (b : List ℕ) (o n : ℕ) → n < 2 ^ 32 → BytesAt b o (uint n) → uint_at b o ≡ n }
{}

/// The magic and the two sums before any bytes are valid.
pub fn sums_law()
    ensures magic { (rest : List ℕ) → HasMagic (with_sums rest) }
    ensures version { (rest : List ℕ) → HasVersion (with_sums rest) }
    ensures checksum { (rest : List ℕ) → HasChecksum (with_sums rest) }
    ensures signature { (rest : List ℕ) → HasSignature (with_sums rest) }
{}

/// In the file of classes in order, if it is not too long, header, rows, items and map are at the offsets of
/// the layout.
pub fn layout_law()
    ensures fields { (K : Ordered) → length (signed_file K) < 2 ^ 32 → HasFields K (signed_file K) }
    ensures rows { (K : Ordered) → length (signed_file K) < 2 ^ 32 → HasRows K (signed_file K) }
    ensures items { (K : Ordered) → length (signed_file K) < 2 ^ 32 → HasItems K (signed_file K) }
{}

/// The canonical file of a collection meets conditions 1 to 10, if it is not too long and no pool has too many symbols.
/// It also meets them if the collection fits any caps, with no premise on its bytes.
pub fn frame_law()
    ensures frame { (K : Collection) → HasFewSymbols (mentions (definitions K)) → IsFrameIfShort K }
    ensures fits { (caps : Caps) (K : Collection) → OnFits caps K (IsFrame (canonical K)) }
{}

/// A header that has the file's length, before any bytes and with its sums set, meets conditions 1 to 8.
pub fn header_law()
    ensures { (size : ℕ) (tail : List ℕ) → IsOpenedAtSize size (with_sums (opening size tail)) }
{}

/// A map is read at its offset: the number of its entries, and each entry.
pub fn map_law()
    ensures count { (b : List ℕ) (o : ℕ) (es : List (Section × ℕ × ℕ))
        → OnMap b o es (uint_at b o ≡ length es) }
    ensures entries { (b : List ℕ) (o : ℕ) (es : List (Section × ℕ × ℕ))
        → OnMap b o es (HasEntries b o es) }
{}

/// The canonical file of well-formed definitions that fit caps meets conditions 1 to 15, and each symbol that
/// they mention is in the row of its index.
pub fn pools_law()
    ensures rows { (caps : Caps) (K : Collection)
        → OnFitsFormed caps K (HoldBelow 16 (canonical K)) }
    ensures symbols { (caps : Caps) (K : Collection) (s : Symbol)
        → OnFitsFormed caps K (HasItsRow K s) }
{}
