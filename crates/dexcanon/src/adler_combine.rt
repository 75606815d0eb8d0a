//! The checksum of joined bytes.

ghost use Rattle.std.specs.Prelude.{◌≡◌, ◌%◌, ◌/◌};
ghost use Rattle.dexcanon.specs.internal.Checksums.{IsChecksumOfBoth};

// The greatest prime below 2^16.
const MODULUS: u64 = 65521;

/// The Adler-32 of bytes followed by others, from that of each and the number of the others.
///
/// Source: "Dalvik Executable format", "header_item", the field `checksum`.
pub(crate) fn adler_combine(front: u32, back: u32, len: u32) -> u32
    ensures { IsChecksumOfBoth front back len result }
{
    let (front_first, front_second) = halves(front);
    let (back_first, back_second) = halves(back);
    let step = front_first + (MODULUS - 1);
    let first = (back_first + step) % MODULUS;
    let second = (back_second + front_second + u64::from(len) * step) % MODULUS;
    (second * 65536 + first) as u32
}

// The first sum and the second.
fn halves(checksum: u32) -> (u64, u64)
    ensures { result ≡ (checksum % 65536, checksum / 65536) }
{
    (u64::from(checksum % 65536), u64::from(checksum / 65536))
}
