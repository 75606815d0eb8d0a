//! The fixed numbers of a file: all are little-endian.
//!
//! Source: the heading "Overall file layout" of the Android page "Dalvik Executable format".

ghost use Rattle.std.specs.Prelude.{◌≡◌, ◌+◌, ◌≤◌, length};
ghost use Rattle.dexspec.specs.Bytes.{ushort, uint, ushort_at, uint_at};
ghost use Rattle.dexspec.specs.internal.Writing.{Puts};

use byteorder::{ByteOrder, LittleEndian};
use std::alloc::AllocError;

/// The number that the two bytes from `at` on spell (a `ushort`).
///
/// Condition: the two bytes are there.
#[tactic(auto, unfolding(dexspec::specs::Bytes::ushort_at), using(crate::proofs::Spelled::number_of_two))]
#[inline(always)]
pub fn u16_at(bytes: &[u8], at: usize) -> u16
    requires { at + 2 ≤ length bytes.now }
    ensures { result ≡ ushort_at bytes.now at }
{
    let (_, rest) = bytes.split_at(at);
    LittleEndian::read_u16(rest)
}

/// The number that the four bytes from `at` on spell (a `uint`).
///
/// Condition: the four bytes are there.
#[tactic(auto, unfolding(dexspec::specs::Bytes::uint_at), using(crate::proofs::Spelled::number_of_four))]
#[inline(always)]
pub fn u32_at(bytes: &[u8], at: usize) -> u32
    requires { at + 4 ≤ length bytes.now }
    ensures { result ≡ uint_at bytes.now at }
{
    let (_, rest) = bytes.split_at(at);
    LittleEndian::read_u32(rest)
}

/// Appends a number as two bytes (a `ushort`).
///
/// It fails only if allocation fails, and never if the spare room is at least two bytes. After a failure the vector is
/// unchanged.
#[tactic(auto, using(crate::proofs::Spelled::two_bytes, crate::proofs::Spelled::length_ushort))]
pub fn put_u16(value: u16, out: &mut Vec<u8>) -> Result<(), AllocError>
    ensures { Puts (ushort value) out.old out.new result }
{
    out.extend_from_slice(&value.to_le_bytes())
}

/// Appends a number as four bytes (a `uint`).
///
/// It fails only if allocation fails, and never if the spare room is at least four bytes. After a failure the vector is
/// unchanged.
#[tactic(auto, using(crate::proofs::Spelled::four_bytes, crate::proofs::Spelled::length_uint))]
pub fn put_u32(value: u32, out: &mut Vec<u8>) -> Result<(), AllocError>
    ensures { Puts (uint value) out.old out.new result }
{
    out.extend_from_slice(&value.to_le_bytes())
}
