//! Collections: what a file denotes.
ghost use Rattle.std.specs.Prelude.{◌≡◌, ℕ, List};
ghost use Rattle.dexspec.specs.Texts.{Text};
ghost use Rattle.dexspec.specs.Rows.{TypeRow};
ghost use Rattle.dexspec.specs.Classes.{Definition};
ghost use Rattle.dexspec.specs.Files.{Collection, Denotes};
ghost use Rattle.dexspec.specs.Accepted.{HoldBelow, IsAccepted};
ghost use Rattle.dexlaws.specs.Denotes.{AreReadable, NamesHaveOneRow, DenotesRows};

/// A file denotes at most one collection.
pub fn one_collection()
    ensures { (b : List ℕ) (K L : Collection) → Denotes b K → Denotes b L → K ≡ L }
{}

/// If the first sixteen conditions hold, a type has one row, and a name has one class row.
pub fn one_row_each()
    ensures types { (b : List ℕ) (i j : ℕ) (t : Text) → HoldBelow 17 b → TypeRow b i t
        → TypeRow b j t → i ≡ j }
    ensures classes { (b : List ℕ) → NamesHaveOneRow b }
{}

/// If the first sixteen conditions hold and all class rows can be read, the file denotes a collection.
pub fn denotes_readable()
    ensures { (b : List ℕ) → HoldBelow 17 b → AreReadable b → (K : Collection) × Denotes b K }
{}

/// An accepted file denotes a collection.
pub fn denotes_some()
    ensures { (b : List ℕ) → IsAccepted b → (K : Collection) × Denotes b K }
{}

/// The definitions of the denoted collection are those of the class rows.
pub fn denoted_rows()
    ensures { (b : List ℕ) (D : List Definition) (K : Collection) → HoldBelow 17 b
        → DenotesRows b D K }
{}
