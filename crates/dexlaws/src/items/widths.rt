//! Numbers in encoded values: they are written in the fewest bytes, and are read back.
ghost use Rattle.std.specs.Prelude.{◌≡◌, ℕ, ℤ, ◌^◌, ◌<◌, ◌≤◌, List, FitsSigned};
ghost use Rattle.std.specs.Int.{w64};
ghost use Rattle.dexspec.specs.Bytes.{number_of, bytes_of};
ghost use Rattle.dexspec.specs.Spellings.{unsigned_width, signed_width};
ghost use Rattle.dexlaws.specs.Items.{OnWidth, signed_read_back, bits_read_back, signed_of, IsLeastWidth, IsLeastBitsWidth, UnsignedIsWritten, SignedIsWritten, AreBitsWritten};

/// A number of 64 bits, or a bit pattern of one to eight bytes, in its least width is read back.
pub fn least_width_is_read_back()
    ensures unsigned { (v : ℕ) → v < 2 ^ 64 → number_of (bytes_of (unsigned_width v) v) ≡ v }
    ensures signed { (z : ℤ) → FitsSigned w64 z → signed_read_back z ≡ z }
    ensures bits { (width v : ℕ) → OnWidth width v (bits_read_back width v ≡ v) }
{}

/// No fewer bytes encode the number or the bit pattern.
pub fn width_is_least()
    ensures unsigned { (v : ℕ) (bytes : List ℕ) → v < 2 ^ 64
        → IsLeastWidth unsigned_width number_of v bytes }
    ensures signed { (z : ℤ) (bytes : List ℕ) → FitsSigned w64 z
        → IsLeastWidth signed_width signed_of z bytes }
    ensures bits { (width v : ℕ) (bytes : List ℕ) → 1 ≤ width → width ≤ 8
        → IsLeastBitsWidth width v bytes }
{}

/// The bytes that are written for a number or a bit pattern that fits a type's width encode it, and are one more than
/// its least width.
pub fn written_number_encoded()
    ensures unsigned { (code width : ℕ) (b : List ℕ) → UnsignedIsWritten code width b }
    ensures signed { (code width : ℕ) (b : List ℕ) → SignedIsWritten code width b }
    ensures bits { (code width : ℕ) (b : List ℕ) → AreBitsWritten code width b }
{}
