//! Collections that are well formed and good under the greatest caps: their canonical files are accepted.

ghost use Rattle.std.specs.Prelude.{[], ◌∷◌};
ghost use Rattle.std.specs.FinMap.{from_entries};
ghost use Rattle.dexspec.specs.Accepted.{IsAccepted};
ghost use Rattle.dexspec.specs.Canonical.{canonical};
ghost use Rattle.dexspec.specs.Files.{definitions, Denotes};
ghost use Rattle.dexspec.specs.Merging.{IsGood, greatest_caps};
ghost use Rattle.dexspec.specs.WellFormed.{AreWellFormed};
ghost use Rattle.dexexamples.specs.Examples.{class_f, with_hi, with_debug_twice};
ghost use Rattle.dexexamples.specs.Varied.{varied};

/// A class with code.
pub fn with_code()
    ensures formed { AreWellFormed (definitions with_hi) }
    ensures good { IsGood greatest_caps (definitions with_hi) }
    ensures accepted { IsAccepted (canonical with_hi) }
    ensures denotes { Denotes (canonical with_hi) with_hi }
{
    dexlaws::normal::normal_form();
}

/// A class with an annotation and a static value.
pub fn with_annotations()
    ensures formed { AreWellFormed (definitions (from_entries (class_f ∷ []))) }
    ensures good { IsGood greatest_caps (definitions (from_entries (class_f ∷ []))) }
    ensures accepted { IsAccepted (canonical (from_entries (class_f ∷ []))) }
    ensures denotes { Denotes (canonical (from_entries (class_f ∷ [])))
        (from_entries (class_f ∷ [])) }
{
    dexlaws::normal::normal_form();
}

/// A class with two equal debug programs.
pub fn with_equal_debug()
    ensures formed { AreWellFormed (definitions with_debug_twice) }
    ensures good { IsGood greatest_caps (definitions with_debug_twice) }
    ensures accepted { IsAccepted (canonical with_debug_twice) }
    ensures denotes { Denotes (canonical with_debug_twice) with_debug_twice }
{
    dexlaws::normal::normal_form();
}

/// Six classes that were made without this project, with tries, debug programs, payloads, and annotations of classes,
/// fields, methods and parameters.
pub fn of_all_kinds()
    ensures formed { AreWellFormed (definitions (from_entries varied)) }
    ensures good { IsGood greatest_caps (definitions (from_entries varied)) }
    ensures accepted { IsAccepted (canonical (from_entries varied)) }
    ensures denotes { Denotes (canonical (from_entries varied)) (from_entries varied) }
{
    dexlaws::normal::normal_form();
}
