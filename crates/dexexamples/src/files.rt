//! Whole canonical files, without the two sums.

ghost use Rattle.std.specs.Prelude.{◌≡◌, [], ◌∷◌, ◌++◌, codes};
ghost use Rattle.sha1.specs.Sha1.{sha1};
ghost use Rattle.dexspec.specs.Canonical.{ordered, unsigned_file, with_sums};
ghost use Rattle.dexexamples.specs.Examples.{class_a, class_p, class_debug_twice, class_debug_first_use, class_set_twice, class_set_first_use, class_equal_sets, class_sets_kind, classes_list_thrice, classes_sharing, class_annotation_twice};
ghost use Rattle.dexexamples.specs.SharedFiles.{debug_twice_file, debug_first_use_file, set_twice_file, set_first_use_file, equal_sets_file, sets_kind_file, list_thrice_file, shared_by_classes_file, annotation_twice_file, code_twice_file};
ghost use Rattle.dexspec.specs.Stripping.{strip};
ghost use Rattle.dexspec.specs.Weight.{weight};
ghost use Rattle.dexexamples.specs.ExpectedFiles.{empty_file, file_a, file_p, prefix_a, sha1_of_abc};
ghost use Rattle.dexexamples.specs.Valued.{valued, valued_file};
ghost use Rattle.dexexamples.specs.Varied.{varied, varied_file, varied_stripped};

/// The canonical files, after their signature, of no class, of a class without members, and of a class with a method.
pub fn layouts()
    ensures nothing { unsigned_file (ordered []) ≡ empty_file }
    ensures plain { unsigned_file (ordered (class_a ∷ [])) ≡ file_a }
    ensures method { unsigned_file (ordered (class_p (codes "hi") ∷ [])) ≡ file_p }
{}

/// SHA-1 of `abc`, and a whole file with both sums.
pub fn sums()
    ensures word { sha1 (codes "abc") ≡ sha1_of_abc }
    ensures file { with_sums file_a ≡ prefix_a ++ file_a }
{}

/// Equal debug programs are written once, at the place of their first use.
pub fn shared_debug()
    ensures twice { unsigned_file (ordered (class_debug_twice ∷ [])) ≡ debug_twice_file }
    ensures first_use { unsigned_file (ordered (class_debug_first_use ∷ []))
        ≡ debug_first_use_file }
    ensures first_use_weight { weight (class_debug_first_use ∷ []) ≡ 1518 }
{}

/// Equal sets of annotations are written once, at the place of their first use. Sets that have only their types in
/// common are two, and so are sets that differ only in the kind of a number.
pub fn shared_sets()
    ensures twice { unsigned_file (ordered (class_set_twice ∷ [])) ≡ set_twice_file }
    ensures twice_weight { weight (class_set_twice ∷ []) ≡ 1353 }
    ensures first_use { unsigned_file (ordered (class_set_first_use ∷ [])) ≡ set_first_use_file }
    ensures first_use_weight { weight (class_set_first_use ∷ []) ≡ 1456 }
    ensures equivalent { unsigned_file (ordered (class_equal_sets ∷ [])) ≡ equal_sets_file }
    ensures equivalent_weight { weight (class_equal_sets ∷ []) ≡ 1379 }
    ensures kind { unsigned_file (ordered (class_sets_kind ∷ [])) ≡ sets_kind_file }
    ensures kind_weight { weight (class_sets_kind ∷ []) ≡ 1379 }
{}

/// Equal lists of types are written once, those of protos and of classes together.
pub fn shared_lists()
    ensures thrice { unsigned_file (ordered classes_list_thrice) ≡ list_thrice_file }
    ensures thrice_weight { weight classes_list_thrice ≡ 1464 }
{}

/// Classes share with one another: three classes have one list of types, one set and one debug program.
pub fn shared_by_classes()
    ensures file { unsigned_file (ordered classes_sharing) ≡ shared_by_classes_file }
    ensures file_weight { weight classes_sharing ≡ 1927 }
{}

/// Nothing else is shared: equal annotations of different sets are written twice, and so is equal code.
pub fn not_shared()
    ensures annotations { unsigned_file (ordered (class_annotation_twice ∷ []))
        ≡ annotation_twice_file }
    ensures annotations_weight { weight (class_annotation_twice ∷ []) ≡ 1377 }
    ensures code { unsigned_file (ordered (strip (class_debug_twice ∷ []))) ≡ code_twice_file }
{}

/// Two files that were made without this project: one with tries, debug programs, payloads, annotations of
/// classes, fields, methods and parameters, one with static values.
pub fn made_elsewhere()
    ensures varied { unsigned_file (ordered varied) ≡ varied_file }
    ensures varied_weight { weight varied ≡ 5124 }
    ensures varied_stripped { unsigned_file (ordered (strip varied)) ≡ varied_stripped }
    ensures valued { unsigned_file (ordered valued) ≡ valued_file }
    ensures valued_weight { weight valued ≡ 2604 }
{}
