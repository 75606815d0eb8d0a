//! Code items: the bytes determine the cuts of the units, the pieces, the tries and the debug program.
ghost use Rattle.std.specs.Prelude.{ℕ, List, []};
ghost use Rattle.std.specs.List.{flat_map};
ghost use Rattle.dexspec.specs.Pieces.{Cut, AreCut, IsCode, units_of};
ghost use Rattle.dexspec.specs.Code.{CatchAt, HandlerAt, TriesAt, CodeAt};
ghost use Rattle.dexlaws.specs.Items.{IsDetermined, IsOne, HasAtMostOne};
ghost use Rattle.dexlaws.specs.Denotes.{ArePiecesDetermined, AreTriesDetermined, OnPieces, HasAllUnits};

/// Units are cut into pieces up to their end in at most one way.
pub fn cut_is_determined()
    ensures { (at : ℕ) (units : List ℕ) → HasAtMostOne (λ cuts. AreCut at units cuts []) }
{}

/// The units of at most one code item are at an offset, cut in one way, and with one list of pieces.
pub fn pieces_are_determined()
    ensures { (b : List ℕ) (o : ℕ) → ArePiecesDetermined b o }
{}

/// There is at most one catch of a type at an offset, and at most one handler, in one size.
pub fn handler_is_determined()
    ensures catch { (units : List ℕ) (cuts : List Cut) → IsDetermined (CatchAt units cuts) }
    ensures handler { (units : List ℕ) (cuts : List Cut) → IsDetermined (HandlerAt units cuts) }
{}

/// There is at most one list of `count` tries at an offset, and a code item has at most one list of tries.
pub fn tries_are_determined()
    ensures items { (units : List ℕ) (cuts : List Cut) → AreTriesDetermined units cuts }
    ensures tries { (b : List ℕ) (o : ℕ) (cuts : List Cut) → HasAtMostOne (TriesAt b o cuts) }
{}

/// There is at most one code item at an offset.
pub fn code_is_determined()
    ensures { IsOne CodeAt }
{}

/// Code with zero for its indices is code, cut in the same way, and has as many units.
pub fn code_without_indices()
    ensures code { (b : List ℕ) (o : ℕ)
        → OnPieces b o (λ cuts ps. IsCode (flat_map units_of ps) cuts) }
    ensures size { (b : List ℕ) (o : ℕ) → OnPieces b o (λ cuts ps. HasAllUnits b o ps) }
{}
