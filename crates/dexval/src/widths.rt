//! The minimum number of bytes for a number.

ghost use Rattle.std.specs.Prelude.{◌≡◌, ◌^◌, ◌<◌, ◌≤◌};
ghost use Rattle.dexspec.specs.Numbers.{magnitude};
ghost use Rattle.dexspec.specs.Spellings.{unsigned_width, signed_width, bits_width};

/// The minimum number of bytes for a number, at least one.
pub(crate) fn unsigned_width(value: u64) -> usize
    ensures width { result ≡ unsigned_width value }
    ensures some { 1 ≤ result }
    ensures few { result ≤ 8 }
{
    value.max(1).ilog2() as usize / 8 + 1
}

/// The number, or for a negative number the number with all its bits inverted.
pub(crate) fn magnitude(value: i64) -> u64
    ensures size { result ≡ magnitude value }
    ensures bound { result < 2 ^ 63 }
{
    value.max(!value) as u64
}

/// The minimum number of bytes for a number and its sign.
pub(crate) fn signed_width(value: i64) -> usize
    ensures width { result ≡ signed_width value }
    ensures some { 1 ≤ result }
    ensures few { result ≤ 8 }
{
    unsigned_width(2 * magnitude(value))
}

/// The minimum number of bytes for a bit pattern of `width` bytes, without the zeros at its low end.
pub(crate) fn bits_width(width: usize, bits: u64) -> usize
    requires some { 1 ≤ width }
    requires few { width ≤ 8 }
    ensures width { result ≡ bits_width width bits }
    ensures some { 1 ≤ result }
    ensures few { result ≤ width }
{
    let mut rest = bits;
    let mut left = width;
    while left > 1 && rest % 0x100 == 0 {
        rest /= 0x100;
        left -= 1;
    }
    left
}
