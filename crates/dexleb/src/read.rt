ghost use Rattle.std.specs.Prelude.{◌≡◌, ◌↔◌, ◌≤◌, length, take, drop, IfOk, OnErr};
ghost use Rattle.dexspec.specs.Numbers.{IsUleb128, IsSleb128, IsUleb128p1, signed_sum};
ghost use Rattle.dexleb.specs.Leb.{IsCutOff};
ghost use Rattle.dexleb.specs.Leb.{Reads, IsFirst, HasNoFirst};

use crate::MAX_LEN;

/// Why no number is read.
#[derive(Clone, Copy, Debug, PartialEq, Eq)]
pub enum LebFault {
    /// Fewer than five bytes, perhaps none, are left, and each has its top bit set: the number may go on after them.
    Short,
    /// No encoding of a number in range begins here, and the bytes are not `Short`.
    Range,
}

/// Reads the unsigned number (uleb128) that begins at byte `at`. Returns the number, from 0 to 2^32 - 1, and the number
/// of bytes that encode it, from 1 to 5.
///
/// Errors: [`LebFault::Short`] if fewer than five bytes, perhaps none, are left and each has its top bit set; otherwise
/// [`LebFault::Range`] if no encoding of a number in range begins at `at`.
#[inline(always)]
pub fn read_u(b: &[u8], at: usize) -> Result<(u32, usize), LebFault>
    requires { at ≤ length b.now }
    ensures { Reads IsUleb128 (drop at b.now) result }
{
    let (sum, len) = first_groups(&b[at..])?;
    match u32::try_from(sum) {
        Ok(value) => Ok((value, len)),
        Err(_) => Err(LebFault::Range),
    }
}

/// Reads the unsigned number plus one (uleb128p1) that begins at byte `at`. Returns the number, from 0 to 2^32 - 2, or
/// `None` for -1, which is NO_INDEX, and the number of bytes that encode it, from 1 to 5.
///
/// Errors: as [`read_u`].
#[inline(always)]
pub fn read_p1(b: &[u8], at: usize) -> Result<(Option<u32>, usize), LebFault>
    requires { at ≤ length b.now }
    ensures { Reads IsUleb128p1 (drop at b.now) result }
{
    let (value, len) = read_u(b, at)?;
    Ok((value.checked_sub(1), len))
}

/// Reads the signed number (sleb128) that begins at byte `at`. Returns the number, from -2^31 to 2^31 - 1, and the
/// number of bytes that encode it, from 1 to 5.
///
/// Errors: as [`read_u`].
#[inline(always)]
pub fn read_s(b: &[u8], at: usize) -> Result<(i32, usize), LebFault>
    requires { at ≤ length b.now }
    ensures { Reads IsSleb128 (drop at b.now) result }
{
    let rest = &b[at..];
    let (sum, len) = first_groups(rest)?;
    match i32::try_from(with_sign(rest, sum, len)) {
        Ok(value) => Ok((value, len)),
        Err(_) => Err(LebFault::Range),
    }
}

/// The sum of the groups of the first number, whatever its range, and the number of groups.
#[inline(always)]
fn first_groups(bytes: &[u8]) -> Result<(u64, usize), LebFault>
    ensures first { IfOk result (λ groups. IsFirst bytes.now groups.0 groups.1) }
    ensures none { OnErr result (HasNoFirst bytes.now) }
    ensures short { (result ≡ Err LebFault.Short) ↔ IsCutOff bytes.now }
{
    match bytes.first() {
        Some(&byte) if byte < 0x80 => Ok((u64::from(byte), 1)),
        _ => all_groups(bytes),
    }
}

/// As [`first_groups`], for a number of any length.
fn all_groups(bytes: &[u8]) -> Result<(u64, usize), LebFault>
    ensures first { IfOk result (λ groups. IsFirst bytes.now groups.0 groups.1) }
    ensures none { OnErr result (HasNoFirst bytes.now) }
    ensures short { (result ≡ Err LebFault.Short) ↔ IsCutOff bytes.now }
{
    let mut sum = 0;
    for i in 0..bytes.len().min(MAX_LEN) {
        let byte = bytes[i];
        sum += u64::from(byte % 0x80) << (7 * i);
        if byte < 0x80 {
            return Ok((sum, i + 1));
        }
    }
    if bytes.len() < MAX_LEN {
        Err(LebFault::Short)
    } else {
        Err(LebFault::Range)
    }
}

/// The signed number: the sum, less 2^(7 * len) if bit 6 of the last byte is set.
#[inline(always)]
fn with_sign(bytes: &[u8], sum: u64, len: usize) -> i64
    requires { IsFirst bytes.now sum len }
    ensures { result ≡ signed_sum (take len bytes.now) }
{
    let sum = sum as i64;
    if bytes[len - 1] & 0x40 == 0 {
        sum
    } else {
        sum - (1 << (7 * len))
    }
}
