//! LEB128 numbers: the encoding that is written is the shortest, and no encoding is a prefix of another.
ghost use Rattle.std.specs.Prelude.{ℕ, ℤ, ◌^◌, ◌<◌, ◌≤◌, length, Option, FitsSigned};
ghost use Rattle.std.specs.Int.{w32};
ghost use Rattle.dexspec.specs.Numbers.{IsUleb128, IsSleb128, IsUleb128p1, uleb128, sleb128, uleb128p1, plus_one};
ghost use Rattle.dexlaws.specs.Leb128.{BeginsWithOne, IsShortest};

/// The bytes that are written for an unsigned number encode it, and no shorter bytes do.
pub fn uleb128_is_shortest()
    ensures { (v : ℕ) → v < 2 ^ 32 → IsShortest IsUleb128 (uleb128 v) v }
{}

/// The bytes that are written for a signed number encode it, and no shorter bytes do.
pub fn sleb128_is_shortest()
    ensures { (v : ℤ) → FitsSigned w32 v → IsShortest IsSleb128 (sleb128 v) v }
{}

/// The bytes that are written for a number plus one, or for none, encode it, and no shorter bytes do.
pub fn uleb128p1_is_shortest()
    ensures { (v : Option ℕ) → plus_one v < 2 ^ 32 → IsShortest IsUleb128p1 (uleb128p1 v) v }
{}

/// The encoding that is written for a number has one to five bytes.
pub fn shortest_has_one_to_five_bytes()
    ensures unsigned { (v : ℕ) → (1 ≤ length (uleb128 v)) × (length (uleb128 v) ≤ 5) }
    ensures signed { (v : ℤ) → (1 ≤ length (sleb128 v)) × (length (sleb128 v) ≤ 5) }
    ensures one_more { (v : Option ℕ) → (1 ≤ length (uleb128p1 v)) × (length (uleb128p1 v) ≤ 5) }
{}

/// Bytes of which an encoding is a prefix begin with its number, in the encoding's length, and with no other: no
/// encoding is a prefix of another, and a written number is read back.
pub fn one_number_begins()
    ensures unsigned { BeginsWithOne IsUleb128 }
    ensures signed { BeginsWithOne IsSleb128 }
    ensures one_more { BeginsWithOne IsUleb128p1 }
{}
