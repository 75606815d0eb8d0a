//! The result of merging depends on the definitions alone, whatever the order, the grouping and the repeats.
ghost use Rattle.std.specs.Prelude.{◌++◌, List};
ghost use Rattle.dexspec.specs.Classes.{Definition};
ghost use Rattle.dexspec.specs.Files.{AreSame};
ghost use Rattle.dexspec.specs.Merging.{Caps};
ghost use Rattle.dexlaws.specs.Causes.{KeepsCauses};
ghost use Rattle.dexlaws.specs.Merge.{HaveSameResult, PlansHaveSameUnion, PlansHaveSameFile, PartsAreWithin, PartsGiveCauses, PartsAreGood, StepsHaveSameFile, StepsHaveSameResult};

/// Lists of definitions with the same members, in any order and with any repeats, have the same result: both are
/// mergeable or neither is, they form the same collection, and have the same first cause.
pub fn result_depends_on_members()
    ensures { (caps : Caps) (D E : List Definition) → AreSame D E → HaveSameResult caps D E }
{}

/// All plans for the same files have the same result: the same definitions, the same collection, the same canonical
/// file.
pub fn plans_agree()
    ensures members { (files : List (List Definition)) → PlansHaveSameUnion files }
    ensures bytes { (files : List (List Definition)) → PlansHaveSameFile files }
{}

/// The definitions of a part of a plan are among those of the plan. So a cause against the part is a cause against the
/// whole, and if the whole is mergeable, so is the part.
pub fn parts_of_plans()
    ensures within { (files : List (List Definition)) → PartsAreWithin files }
    ensures causes { (caps : Caps) (files : List (List Definition)) → PartsGiveCauses caps files }
    ensures good { (caps : Caps) (files : List (List Definition)) → PartsAreGood caps files }
{}

/// If some definitions are merged first, and the result is merged with the others, the canonical file at the end is
/// that of all definitions merged at once. A cause against the first definitions is a cause against all.
pub fn steps()
    ensures bytes { (first rest : List Definition) → StepsHaveSameFile first rest }
    ensures result_agrees { (caps : Caps) (first rest : List Definition)
        → StepsHaveSameResult caps first rest }
    ensures causes { (caps : Caps) (first rest : List Definition)
        → KeepsCauses caps first (first ++ rest) }
{}
