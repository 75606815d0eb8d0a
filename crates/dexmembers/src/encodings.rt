//! Members of class data as they are encoded, one by one.

ghost use Rattle.std.specs.Prelude.{◌≡◌, ◌↔◌, ◌≤◌, ◌+◌, ℕ, List, Option, length, IsTrue, IfSome, IfNone, MatchOption};
ghost use Rattle.dexspec.specs.Numbers.{Uleb128At};
ghost use Rattle.dexspec.specs.Mentions.{Mentions};
ghost use Rattle.dexspec.specs.ClassData.{IsNextIndex};
ghost use Rattle.dexmembers.specs.internal.EncodedMembers.{IsOwnField, IsOwnMethod, HeadAt, FieldAt, MethodAt, HasGreaterIndex, IsMember, IsOneMember, IsOnlyHead, NoMember, NoNextIndex};

use crate::class_data::{EncodedField, EncodedMethod};
use crate::encoded_lists::ClassReader;
use dexleb::read_u;
use dexpool::SymbolKind;

/// A member of a list of class data.
pub(crate) trait Encoded: Copy {
    // The index of the member.
    ghost index_of: { Self → ℕ };

    // A member of a class is at an offset of the bytes, after an index, if there is one, and has this many bytes.
    ghost encodes: { Mentions → ℕ → List ℕ → ℕ → Option ℕ → Self → ℕ → Type 0 };

    /// The index of the member.
    fn index(&self) -> u32
        ensures { result ≡ index_of self.now };

    /// Reads the member at an offset, after a member with the index `last`, if there is one. Returns it with the number
    /// of bytes that encode it, or `None` if there is no member of the class.
    fn read(reader: &ClassReader<'_, '_>, at: usize, last: Option<u32>) -> Option<(Self, usize)>
        requires { at ≤ length reader.now.bytes.now }
        ensures none { IfNone result (NoMember
            (encodes reader.now.pools.now reader.now.class) reader.now.bytes.now at last) }
        ensures some { IfSome result (IsMember
            (encodes reader.now.pools.now reader.now.class) reader.now.bytes.now at last) }
        ensures within { IfSome result (λ x. at + x.1 ≤ length reader.now.bytes.now) };

    // There is at most one member at an offset, it has one size, and its index is above the one before it.
    fn law()
        ensures one { IsOneMember encodes }
        ensures follows { HasGreaterIndex encodes index_of };
}

impl Encoded for EncodedField {
    ghost index_of = { λ f. f.index };

    ghost encodes = { FieldAt };

    fn index(&self) -> u32 {
        self.index
    }

    fn law() {}

    fn read(reader: &ClassReader<'_, '_>, at: usize, last: Option<u32>) -> Option<(Self, usize)> {
        let (index, flags, size) = head_at(reader.bytes, at, last)?;
        if !reader.has_field(index) {
            return None;
        }
        Some((EncodedField { index, flags }, size))
    }
}

impl Encoded for EncodedMethod {
    ghost index_of = { λ x. x.index };

    ghost encodes = { MethodAt };

    fn index(&self) -> u32 {
        self.index
    }

    fn law() {}

    fn read(reader: &ClassReader<'_, '_>, at: usize, last: Option<u32>) -> Option<(Self, usize)> {
        let (index, flags, head_size) = head_at(reader.bytes, at, last)?;
        if !reader.has_method(index) {
            return None;
        }
        let (code_off, code_size) = number_at(reader.bytes, at + head_size)?;
        let method = EncodedMethod {
            index,
            flags,
            code_off,
        };
        Some((method, head_size + code_size))
    }
}

/// Reads the number at an offset. Returns it with the number of bytes that encode it, or `None` if no number is there.
pub(crate) fn number_at(bytes: &[u8], at: usize) -> Option<(u32, usize)>
    requires { at ≤ length bytes.now }
    ensures none { IfNone result ((v n : ℕ) → Uleb128At bytes.now at v n → ⊥) }
    ensures some { IfSome result (λ x. Uleb128At bytes.now at x.0 x.1) }
    ensures within { IfSome result (λ x. at + x.1 ≤ length bytes.now) }
{
    read_u(bytes, at).ok()
}

// Reads the index of a member, after one with the index `last`, if there is one, and its access flags. Returns them
// with the number of bytes that encode both.
fn head_at(bytes: &[u8], at: usize, last: Option<u32>) -> Option<(u32, u32, usize)>
    requires { at ≤ length bytes.now }
    ensures some { IfSome result (λ x. HeadAt bytes.now at last x.0 x.1 x.2) }
    ensures only { IsOnlyHead bytes.now at last result }
    ensures within { IfSome result (λ x. at + x.2 ≤ length bytes.now) }
{
    let (difference, index_size) = number_at(bytes, at)?;
    let index = next_index(last, difference)?;
    let (flags, flags_size) = number_at(bytes, at + index_size)?;
    Some((index, flags, index_size + flags_size))
}

// Returns the index after another one, or `None` where the difference is 0, or the index has more than 32 bits. The
// first index is the difference itself.
fn next_index(last: Option<u32>, difference: u32) -> Option<u32>
    ensures { MatchOption result (NoNextIndex last difference) (IsNextIndex last difference) }
{
    match last {
        None => Some(difference),
        Some(_) if difference == 0 => None,
        Some(index) => index.checked_add(difference),
    }
}

impl ClassReader<'_, '_> {
    // Returns whether the index is that of a field of the class.
    fn has_field(&self, index: u32) -> bool
        ensures { IsTrue result ↔ IsOwnField self.now.pools.now self.now.class index }
    {
        self.pools.numbering().is_numbering();
        (index as usize) < self.pools.len(SymbolKind::Field)
            && self.pools.field(index).class == self.class
    }

    // Returns whether the index is that of a method of the class.
    fn has_method(&self, index: u32) -> bool
        ensures { IsTrue result ↔ IsOwnMethod self.now.pools.now self.now.class index }
    {
        self.pools.numbering().is_numbering();
        (index as usize) < self.pools.len(SymbolKind::Method)
            && self.pools.method(index).class == self.class
    }
}
