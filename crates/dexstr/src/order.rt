ghost use Rattle.std.specs.Prelude.{◌≡◌, ◌<◌, IfSome, length};
ghost use Rattle.dexstr.specs.internal.Order.{place_of, bytes_cmp};

/// Where a byte comes in the order of texts. Bytes come in the order of the units that they spell, but for
/// `c0`, which begins unit 0 alone: it comes first.
pub(crate) fn place_of(byte: u8) -> u16
    ensures { result ≡ place_of byte }
{
    if byte == 0xc0 { 0 } else { u16::from(byte) + 1 }
}

// What is after the first eight bytes, if these are the same in both.
#[inline]
fn after_common_group<'a, 'b>(left: &'a [u8], right: &'b [u8]) -> Option<(&'a [u8], &'b [u8])>
    ensures order { IfSome result (λ rests. bytes_cmp rests.0.now rests.1.now
        ≡ bytes_cmp left.now right.now) }
    ensures less { IfSome result (λ rests. length rests.0.now < length left.now) }
{
    let (group, left) = left.split_first_chunk::<8>()?;
    let (other, right) = right.split_first_chunk::<8>()?;
    if u64::from_le_bytes(*group) == u64::from_le_bytes(*other) {
        Some((left, right))
    } else {
        None
    }
}

/// What is after the common prefix of both, but for its last bytes, of which there are fewer than eight.
pub(crate) fn after_common_groups<'a, 'b>(left: &'a [u8], right: &'b [u8]) -> (&'a [u8], &'b [u8])
    ensures { bytes_cmp result.0.now result.1.now ≡ bytes_cmp left.now right.now }
{
    let (mut left, mut right) = (left, right);
    while let Some(rests) = after_common_group(left, right) {
        (left, right) = rests;
    }
    (left, right)
}
