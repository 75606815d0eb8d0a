//! Adler-32 of bytes that are all there.

ghost use Rattle.std.specs.Prelude.{◌≡◌};
ghost use Rattle.dexspec.specs.Header.{adler_32};

use crate::stream::Adler;

/// The Adler-32 of the bytes.
///
/// Source: "Dalvik Executable format", "header_item", the field `checksum`.
#[tactic(auto, unfolding(dexspec::specs::Header::adler_32))]
pub fn adler(bytes: &[u8]) -> u32
    ensures { result ≡ adler_32 bytes.now }
{
    let mut sums = Adler::new();
    sums.update(bytes);
    sums.value()
}
