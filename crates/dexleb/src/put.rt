ghost use Rattle.std.specs.Prelude.{◌≡◌, ◌+◌, ◌*◌, ◌^◌, ◌<◌, ◌≤◌, length, IsOk, vec_len, vec_capacity};
ghost use Rattle.dexspec.specs.Numbers.{uleb128, uleb128p1, sleb128, groups, plus_one, magnitude, held_in};
ghost use Rattle.dexspec.specs.internal.Writing.{Puts};

use crate::MAX_LEN;
use std::alloc::AllocError;

/// Appends the shortest encoding of an unsigned number (uleb128), one to five bytes.
///
/// On error the vector is unchanged. There is no error if the spare capacity is at least five bytes.
pub fn put_u(value: u32, out: &mut Vec<u8>) -> Result<(), AllocError>
    ensures puts { Puts (uleb128 value) out.old out.new result }
    ensures bound { length (uleb128 value) ≤ 5 }
    ensures room_for_five { vec_len out.old + 5 ≤ vec_capacity out.old → IsOk result }
{
    put_groups(u64::from(value), len_u(value), out)
}

/// Appends the shortest encoding of an unsigned number plus one (uleb128p1), one to five bytes, where `None` denotes
/// -1, which is NO_INDEX. The number must be below 2^32 - 1.
///
/// On error the vector is unchanged. There is no error if the spare capacity is at least five bytes.
pub fn put_p1(value: Option<u32>, out: &mut Vec<u8>) -> Result<(), AllocError>
    requires { plus_one value < 2 ^ 32 }
    ensures puts { Puts (uleb128p1 value) out.old out.new result }
    ensures bound { length (uleb128p1 value) ≤ 5 }
    ensures room_for_five { vec_len out.old + 5 ≤ vec_capacity out.old → IsOk result }
{
    put_u(value.map_or(0, |number| number + 1), out)
}

/// Appends the shortest encoding of a signed number (sleb128), one to five bytes.
///
/// On error the vector is unchanged. There is no error if the spare capacity is at least five bytes.
pub fn put_s(value: i32, out: &mut Vec<u8>) -> Result<(), AllocError>
    ensures puts { Puts (sleb128 value) out.old out.new result }
    ensures bound { length (sleb128 value) ≤ 5 }
    ensures room_for_five { vec_len out.old + 5 ≤ vec_capacity out.old → IsOk result }
{
    let len = len_s(value);
    put_groups(held_in(len, value), len, out)
}

/// The number of bytes that [`put_u`] appends for the value, from 1 to 5.
pub fn len_u(value: u32) -> usize
    ensures shortest { result ≡ length (uleb128 value) }
    ensures bounds { (1 ≤ result) × (result ≤ 5) }
{
    match value {
        0..=0x7f => 1,
        0x80..=0x3fff => 2,
        0x4000..=0x1f_ffff => 3,
        0x20_0000..=0xfff_ffff => 4,
        _ => 5,
    }
}

/// The number of bytes that [`put_s`] appends for the value, from 1 to 5.
pub fn len_s(value: i32) -> usize
    ensures shortest { result ≡ length (sleb128 value) }
    ensures bounds { (1 ≤ result) × (result ≤ 5) }
{
    match value {
        -0x40..=0x3f => 1,
        -0x2000..=0x1fff => 2,
        -0x10_0000..=0xf_ffff => 3,
        -0x800_0000..=0x7ff_ffff => 4,
        _ => 5,
    }
}

/// The number in two's complement of `len` groups: if it is negative, 2^(7 * len) is added.
fn held_in(len: usize, value: i32) -> u64
    requires few { len ≤ 5 }
    requires fits { 2 * magnitude value < 2 ^ (7 * len) }
    ensures { result ≡ held_in len value }
{
    if value < 0 {
        (1 << (7 * len)) - u64::from(value.unsigned_abs())
    } else {
        value as u64
    }
}

/// Appends a number as `len` groups of seven bits.
fn put_groups(value: u64, len: usize, out: &mut Vec<u8>) -> Result<(), AllocError>
    requires some { 0 < len }
    requires few { len ≤ 5 }
    requires fits { value < 2 ^ (7 * len) }
    ensures { Puts (groups len value) out.old out.new result }
{
    let mut bytes = [0; MAX_LEN];
    let mut rest = value;
    for i in 0..len - 1 {
        bytes[i] = 0x80 + (rest % 0x80) as u8;
        rest /= 0x80;
    }
    bytes[len - 1] = rest as u8;
    out.extend_from_slice(&bytes[..len])
}
