//! Numbers of one to eight bytes, the lowest first.

ghost use Rattle.std.specs.Prelude.{◌≡◌, ℕ, ◌-◌, ◌*◌, ◌^◌, ◌<◌, ◌≤◌, length};
ghost use Rattle.dexspec.specs.Bytes.{number_of, signed_in};
ghost use Rattle.dexspec.specs.Numbers.{magnitude};

use byteorder::{ByteOrder, LittleEndian};

/// The number that the bytes encode.
#[tactic(auto, using(crate::proofs::Spelled::number_is))]
pub(crate) fn unsigned(bytes: &[u8]) -> u64
    requires some { 0 < length bytes.now }
    requires few { length bytes.now ≤ 8 }
    ensures value { result ≡ number_of bytes.now }
    ensures room { (n : ℕ) → length bytes.now ≤ n → result < 256 ^ n }
{
    LittleEndian::read_uint(bytes, bytes.len())
}

/// The number that the bytes encode in two's complement.
#[tactic(auto, using(crate::proofs::Spelled::signed_is))]
pub(crate) fn signed(bytes: &[u8]) -> i64
    requires some { 0 < length bytes.now }
    requires few { length bytes.now ≤ 8 }
    ensures value { result ≡ signed_in (length bytes.now) (number_of bytes.now) }
    ensures room { (n : ℕ) → length bytes.now ≤ n → 2 * magnitude result < 256 ^ n }
{
    LittleEndian::read_int(bytes, bytes.len())
}

/// The bit pattern of `width` bytes whose highest bytes these are; the others are zero.
pub(crate) fn bits(bytes: &[u8], width: usize) -> u64
    requires some { 0 < length bytes.now }
    requires few { length bytes.now ≤ width }
    requires width { width ≤ 8 }
    ensures value { result ≡ 256 ^ (width - length bytes.now) * number_of bytes.now }
    ensures room { result < 256 ^ width }
{
    unsigned(bytes) << (8 * (width - bytes.len()))
}
