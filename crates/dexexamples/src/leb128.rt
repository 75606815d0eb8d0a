//! LEB128 numbers, and Adler-32.

ghost use Rattle.std.specs.Prelude.{◌≡◌, ℕ, ℤ, [], ◌∷◌, None, Some, codes, pos, negsuc};
ghost use Rattle.dexspec.specs.Header.{adler_32};
ghost use Rattle.dexspec.specs.Numbers.{IsUleb128, IsSleb128, IsUleb128p1, uleb128, sleb128, uleb128p1};
ghost use Rattle.dexleb.specs.Leb.{IsCutOff};

/// One pair of bytes read as each of the three kinds.
pub fn two_bytes()
    ensures unsigned { IsUleb128 (0x80 ∷ 0x7f ∷ []) 16256 }
    ensures signed { IsSleb128 (0x80 ∷ 0x7f ∷ []) (negsuc 127) }
    ensures plus_one { IsUleb128p1 (0x80 ∷ 0x7f ∷ []) (Some 16255) }
{}

/// One zero byte read as each of the three kinds.
pub fn zero_byte()
    ensures unsigned { IsUleb128 (0x00 ∷ []) 0 }
    ensures signed { IsSleb128 (0x00 ∷ []) (pos 0) }
    ensures plus_one { IsUleb128p1 (0x00 ∷ []) None }
{}

/// The ends of the ranges, longer encodings, and bytes that are out of range or cut off.
pub fn bounds()
    ensures greatest { IsUleb128 (0xff ∷ 0xff ∷ 0xff ∷ 0xff ∷ 0x0f ∷ []) 4294967295 }
    ensures too_great { (v : ℕ) → ¬ IsUleb128 (0xff ∷ 0xff ∷ 0xff ∷ 0xff ∷ 0x1f ∷ []) v }
    ensures longer { IsUleb128 (0x80 ∷ 0x00 ∷ []) 0 }
    ensures cut_off { IsCutOff (0x80 ∷ []) }
    ensures least { IsSleb128 (0x80 ∷ 0x80 ∷ 0x80 ∷ 0x80 ∷ 0x78 ∷ []) (negsuc 2147483647) }
    ensures too_great_signed { (v : ℤ) → ¬ IsSleb128 (0x80 ∷ 0x80 ∷ 0x80 ∷ 0x80 ∷ 0x08 ∷ []) v }
    ensures minus_one { IsSleb128 (0xff ∷ 0xff ∷ 0xff ∷ 0xff ∷ 0x7f ∷ []) (negsuc 0) }
{}

/// Shortest encodings.
pub fn shortest()
    ensures zero { uleb128 0 ≡ 0x00 ∷ [] }
    ensures two_bytes { uleb128 16256 ≡ 0x80 ∷ 0x7f ∷ [] }
    ensures greatest { uleb128 4294967295 ≡ 0xff ∷ 0xff ∷ 0xff ∷ 0xff ∷ 0x0f ∷ [] }
    ensures minus_one { sleb128 (negsuc 0) ≡ 0x7f ∷ [] }
    ensures negative { sleb128 (negsuc 127) ≡ 0x80 ∷ 0x7f ∷ [] }
    ensures least { sleb128 (negsuc 2147483647) ≡ 0x80 ∷ 0x80 ∷ 0x80 ∷ 0x80 ∷ 0x78 ∷ [] }
    ensures sixty_three { sleb128 (pos 63) ≡ 0x3f ∷ [] }
    ensures sixty_four { sleb128 (pos 64) ≡ 0xc0 ∷ 0x00 ∷ [] }
    ensures no_index { uleb128p1 None ≡ 0x00 ∷ [] }
    ensures index { uleb128p1 (Some 16255) ≡ 0x80 ∷ 0x7f ∷ [] }
{}

/// Adler-32 of nothing, of one letter and of a word.
pub fn adler_sums()
    ensures nothing { adler_32 [] ≡ 0x00000001 }
    ensures letter { adler_32 (codes "a") ≡ 0x00620062 }
    ensures word { adler_32 (codes "Wikipedia") ≡ 0x11e60398 }
{}
