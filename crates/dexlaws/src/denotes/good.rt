//! The collection that an accepted file denotes is well formed, and good under the greatest caps.
ghost use Rattle.std.specs.Prelude.{ℕ, List};
ghost use Rattle.dexspec.specs.Files.{Collection, definitions};
ghost use Rattle.dexspec.specs.WellFormed.{AreWellFormed};
ghost use Rattle.dexspec.specs.Merging.{IsGood, greatest_caps};
ghost use Rattle.dexlaws.specs.Denotes.{OnAccepted};

/// The collection that an accepted list of bytes denotes has no conflict and no cycle, fits the greatest caps, and is
/// well formed.
pub fn denoted_is_good()
    ensures good { (b : List ℕ) (K : Collection)
        → OnAccepted b K (IsGood greatest_caps (definitions K)) }
    ensures formed { (b : List ℕ) (K : Collection)
        → OnAccepted b K (AreWellFormed (definitions K)) }
{}
