//! Texts, their bytes, and their order by units.

ghost use Rattle.std.specs.declared.cmp.Ordering.TheVariants.{Less};
ghost use Rattle.std.specs.Prelude.{◌≡◌, [], ◌∷◌, codes};
ghost use Rattle.dexspec.specs.Names.{shorty};
ghost use Rattle.dexspec.specs.Texts.{text_cmp, spelling, string_data};

/// A surrogate is less than a unit above the surrogates, and unit 0 less than unit 1, though its bytes are not.
pub fn order()
    ensures surrogate { text_cmp (0xd800 ∷ 0xdc00 ∷ []) (0xe000 ∷ []) ≡ Less }
    ensures zero_unit { text_cmp (0 ∷ []) (1 ∷ []) ≡ Less }
    ensures prefix { text_cmp (codes "LA") (codes "LA;") ≡ Less }
{}

/// Units of one, two and three bytes; a surrogate is encoded by itself.
pub fn bytes()
    ensures surrogates { spelling (0xd800 ∷ 0xdc00 ∷ []) ≡ 0xed ∷ 0xa0 ∷ 0x80 ∷ 0xed ∷ 0xb0
        ∷ 0x80 ∷ [] }
    ensures private_use { spelling (0xe000 ∷ []) ≡ 0xee ∷ 0x80 ∷ 0x80 ∷ [] }
    ensures zero_unit { string_data (0 ∷ []) ≡ 0x01 ∷ 0xc0 ∷ 0x80 ∷ 0x00 ∷ [] }
    ensures one { string_data (1 ∷ []) ≡ 0x01 ∷ 0x01 ∷ 0x00 ∷ [] }
    ensures two_bytes { spelling (0x7ff ∷ []) ≡ 0xdf ∷ 0xbf ∷ [] }
{}

/// Every class or array type has the letter `L`.
pub fn shorties()
    ensures { shorty (codes "V") (codes "I" ∷ codes "[I" ∷ codes "Ljava/lang/Object;" ∷ [])
        ≡ codes "VILL" }
{}
