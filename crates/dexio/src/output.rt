//! Outputs of bytes, and items that are encoded to them.

ghost use Rattle.std.specs.Prelude.{◌≡◌, ℕ, ◌+◌, ◌-◌, ◌^◌, ◌<◌, ◌∷◌, [], ◌++◌, List, All, length, min};
ghost use Rattle.std.specs.List.{flat_map};
ghost use Rattle.dexspec.specs.Bytes.{ushort, uint};
ghost use Rattle.dexspec.specs.Numbers.{uleb128, sleb128};
ghost use Rattle.dexspec.specs.internal.Writing.{Puts};
ghost use Rattle.dexio.specs.Pushing.{Pushes, HasRoomFor};
ghost use Rattle.dexio.specs.OutputLaws.{counted_nothing, counted_both, pushed_nothing, pushed_both};

use crate::little_endian::{put_u16, put_u32};
use dexleb::{len_s, len_u, put_s, put_u};
use std::alloc::AllocError;

/// An output of bytes. Writing requires nothing: `gives` states what a write leaves, under a condition of its own, for
/// example that a vector has room.
pub trait Output {
    // the bytes, the output before they were written, and the output after it
    ghost gives: { List ℕ → Self → Self → Type 0 };

    /// Writes a byte.
    fn byte(&mut self, byte: u8)
        ensures { gives (byte ∷ []) self.old self.new };

    /// Writes bytes.
    fn bytes(&mut self, bytes: &[u8])
        ensures { gives bytes.now self.old self.new };

    /// Writes a uleb128.
    fn uleb(&mut self, value: u32)
        ensures { gives (uleb128 value) self.old self.new };

    /// Writes an sleb128.
    fn sleb(&mut self, value: i32)
        ensures { gives (sleb128 value) self.old self.new };

    /// Writes a number of 16 bits.
    fn u16(&mut self, value: u16)
        ensures { gives (ushort value) self.old self.new };

    /// Writes a number of 32 bits.
    fn u32(&mut self, value: u32)
        ensures { gives (uint value) self.old self.new };

    ghost nothing: { (a : Self) → gives [] a a };

    ghost both: { (x y : List ℕ) (a b c : Self) → gives x a b → gives y b c → gives (x ++ y) a c };
}

/// An item that is encoded to bytes.
pub trait Encode {
    // whether it has an encoding
    ghost formed: { Self → Type 0 };

    // its encoding
    ghost bytes: { Self → List ℕ };

    /// Writes its encoding.
    fn encode<O: Output>(&self, out: &mut O)
        requires { formed self.now }
        ensures { O.gives (bytes self.now) out.old out.new };
}

/// Writes the encoding of each item, one after the other.
pub fn encode_all<T: Encode, O: Output>(items: &[T], out: &mut O)
    requires { All T.formed items.now }
    ensures { O.gives (flat_map T.bytes items.now) out.old out.new }
{
    for item in items {
        item.encode(out);
    }
}

/// An output that counts the bytes.
#[derive(Drop)]
pub struct Count {
    /// How many bytes were written, or 2^64 - 1 where they are more.
    pub len: usize,
}

impl Output for Count {
    ghost gives = { λ x a b. a.len < 2 ^ 64 → b.len ≡ min (2 ^ 64 - 1) (a.len + length x) };

    fn byte(&mut self, _byte: u8) {
        self.len = self.len.saturating_add(1);
    }

    fn bytes(&mut self, bytes: &[u8]) {
        self.len = self.len.saturating_add(bytes.len());
    }

    fn uleb(&mut self, value: u32) {
        self.len = self.len.saturating_add(len_u(value));
    }

    fn sleb(&mut self, value: i32) {
        self.len = self.len.saturating_add(len_s(value));
    }

    fn u16(&mut self, _value: u16) {
        self.len = self.len.saturating_add(2);
    }

    fn u32(&mut self, _value: u32) {
        self.len = self.len.saturating_add(4);
    }

    ghost nothing = { λ a. counted_nothing a.len };

    ghost both = { λ x y a b c. counted_both x y a.len b.len c.len };
}

// Appends bytes. It fails only where the allocation fails, and not where there is room for them.
fn put_bytes(bytes: &[u8], out: &mut Vec<u8>) -> Result<(), AllocError>
    ensures { Puts bytes.now out.old out.new result }
{
    out.extend_from_slice(bytes)
}

/// A vector takes bytes only where it has room for them, and allocates nothing. Where there is no room it may lack some
/// of them.
impl Output for Vec<u8> {
    ghost gives = { λ x a b. HasRoomFor x a → Pushes x a b };

    fn byte(&mut self, byte: u8) {
        if self.len() < self.capacity() {
            self.push_reserved(byte);
        }
    }

    fn bytes(&mut self, bytes: &[u8]) {
        let _ = put_bytes(bytes, self);
    }

    fn uleb(&mut self, value: u32) {
        if value < 0x80 {
            self.byte(value as u8);
        } else {
            let _ = put_u(value, self);
        }
    }

    fn sleb(&mut self, value: i32) {
        let _ = put_s(value, self);
    }

    fn u16(&mut self, value: u16) {
        let _ = put_u16(value, self);
    }

    fn u32(&mut self, value: u32) {
        let _ = put_u32(value, self);
    }

    ghost nothing = { λ a. pushed_nothing a };

    ghost both = { λ x y a b c. pushed_both x y a b c };
}

/// How many bytes the encoding of an item has, or 2^64 - 1 where they are more.
pub fn encoded_len<T: Encode>(item: &T) -> usize
    requires { T.formed item.now }
    ensures { result ≡ min (2 ^ 64 - 1) (length (T.bytes item.now)) }
{
    let mut count = Count { len: 0 };
    item.encode(&mut count);
    count.len
}

/// Appends the encoding of an item, which has `len` bytes: reserves room for them, then encodes.
///
/// It fails only if allocation fails, and never if the spare room is at least `len`. After a failure the vector is
/// unchanged.
pub fn put_with_len<T: Encode>(item: &T, len: usize, out: &mut Vec<u8>) -> Result<(), AllocError>
    requires formed { T.formed item.now }
    requires len { len ≡ length (T.bytes item.now) }
    ensures { Puts (T.bytes item.now) out.old out.new result }
{
    out.reserve(len)?;
    item.encode(out);
    Ok(())
}

/// Appends the encoding of an item: reserves room for it, then encodes. The item is encoded twice, first to measure it.
///
/// It fails only if allocation fails, and never if the spare room is at least the length of the encoding. After a
/// failure the vector is unchanged.
pub fn put_encoded<T: Encode>(item: &T, out: &mut Vec<u8>) -> Result<(), AllocError>
    requires { T.formed item.now }
    ensures { Puts (T.bytes item.now) out.old out.new result }
{
    out.reserve(encoded_len(item))?;
    item.encode(out);
    Ok(())
}
