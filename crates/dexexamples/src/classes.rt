//! Weights, ranks and the order of classes.

ghost use Rattle.std.specs.Prelude.{◌≡◌, [], ◌∷◌, codes};
ghost use Rattle.dexspec.specs.Depth.{in_class_order};
ghost use Rattle.dexflags.specs.Flags.{flags_text, OfClass, OfField, OfMethod};
ghost use Rattle.dexspec.specs.Lists.{rank};
ghost use Rattle.dexspec.specs.Mentions.{mentions};
ghost use Rattle.dexspec.specs.Stripping.{strip};
ghost use Rattle.dexspec.specs.Texts.{text_cmp};
ghost use Rattle.dexspec.specs.Weight.{weight};
ghost use Rattle.dexexamples.specs.Examples.{object, class_a, class_b, class_d, class_p, class_f, class_z, class_b_under_z, class_debug_twice};

/// The weights of no class, of a class without members, of two classes, of a class with a method, of a class with a
/// static field, a static value and an annotation, and of a class with debug programs, as it is and stripped.
pub fn weights()
    ensures nothing { weight [] ≡ 1024 }
    ensures plain { weight (class_a ∷ []) ≡ 1211 }
    ensures two { weight (class_a ∷ class_b ∷ []) ≡ 1330 }
    ensures method { weight (class_p (codes "hi") ∷ []) ≡ 1346 }
    ensures annotated { weight (class_f ∷ []) ≡ 1329 }
    ensures debug { weight (class_debug_twice ∷ []) ≡ 1428 }
    ensures stripped { weight (strip (class_debug_twice ∷ [])) ≡ 1404 }
{}

/// A text's index is the number of lesser texts that are mentioned, which grows with the classes.
pub fn ranks()
    ensures alone { rank text_cmp (codes "zz") (mentions (class_p (codes "zz") ∷ [])).texts ≡ 4 }
    ensures together { rank text_cmp (codes "zz")
        (mentions (class_p (codes "zz") ∷ class_d ∷ [])).texts ≡ 5 }
    ensures types { (mentions (class_a ∷ class_b ∷ [])).types ≡ codes "LA;" ∷ codes "LB;"
        ∷ object ∷ [] }
{}

/// A class comes after its superclass, whatever their names are and in whatever order they are given.
pub fn class_order()
    ensures one_way { in_class_order (class_z ∷ class_b_under_z ∷ [])
        ≡ class_z ∷ class_b_under_z ∷ [] }
    ensures other_way { in_class_order (class_b_under_z ∷ class_z ∷ [])
        ≡ class_z ∷ class_b_under_z ∷ [] }
    ensures by_name { in_class_order (class_d ∷ class_a ∷ []) ≡ class_a ∷ class_d ∷ [] }
{}

/// Texts of flags: by their kind, with no bit set, and with a bit that has no name.
pub fn flags()
    ensures class { flags_text OfClass 0x1 ≡ codes "0x1(public)" }
    ensures method { flags_text OfMethod 0x9 ≡ codes "0x9(public,static)" }
    ensures nothing { flags_text OfClass 0 ≡ codes "0x0()" }
    ensures unnamed { flags_text OfClass 0x40 ≡ codes "0x40()" }
    ensures field { flags_text OfField 0x40 ≡ codes "0x40(volatile)" }
    ensures unknown { flags_text OfClass 0x80000000 ≡ codes "0x80000000()" }
    ensures greatest { flags_text OfMethod 0x20000 ≡ codes "0x20000(declared-synchronized)" }
{}
