//! Starts of instructions as bits, 64 to a word.

ghost use Rattle.std.specs.Prelude.{◌≡◌, ◌↔◌, ℕ, ◌+◌, ◌/◌, ◌<◌, ◌^◌, pos, ◌+ℤ◌, true, length, All, MatchOption};
ghost use Rattle.std.specs.Int.{bit_at};
ghost use Rattle.dexinsn.specs.internal.LongSwitches.{EndsEmpty, HasBit, HasPlace, HasPlaces};
ghost use Rattle.dexinsn.specs.Checking.{HasNoBit, IsNextBit};

use crate::target_group::TargetGroup;

/// Sets the bit of a unit, if it is to be set.
#[inline(always)]
pub(crate) fn put_bit(words: &mut Vec<u64>, unit: usize, bit: bool)
    requires { unit / 64 < length words.old.items }
    ensures len { length words.new.items ≡ length words.old.items }
    ensures set { bit ≡ true → HasBit words.new.items unit }
    ensures others { (k : ℕ) → (k ≡ unit → bit ≡ true → ⊥) → HasBit words.new.items k
        ↔ HasBit words.old.items k }
{
    words[unit / 64] |= u64::from(bit) << (unit % 64) as u32;
}

// The bits of 64 units, from one on.
fn bits_from(words: &[u64], unit: usize) -> u64
    requires { unit / 64 + 1 < length words.now }
    ensures { (i : ℕ) → i < 64 → HasBit words.now (unit + i) ↔ (bit_at result i ≡ 1) }
{
    let word = unit / 64;
    let shift = (unit % 64) as u32;
    let low = words[word] >> shift;
    if shift == 0 {
        low
    } else {
        low | words[word + 1] << (64 - shift)
    }
}

// Returns whether the bits that the mask has are set, from a place on.
fn are_set(words: &[u64], place: i64, mask: u64) -> bool
    requires first { bit_at mask 0 ≡ 1 }
    requires last { EndsEmpty words.now }
    ensures { (result ≡ true) ↔ HasPlaces words.now place mask }
{
    if place < 0 {
        return false;
    }
    let unit = place as usize;
    if words.len() <= unit / 64 + 1 {
        return false;
    }
    mask & !bits_from(words, unit) == 0
}

/// Returns whether the bits of all targets of the groups are set, counted from the instruction at unit `at`.
pub(crate) fn groups_right(words: &[u64], groups: &[TargetGroup], at: usize) -> bool
    requires small { at < 2 ^ 62 }
    requires last { EndsEmpty words.now }
    ensures { (result ≡ true)
        ↔ All (λ g. HasPlaces words.now (pos at +ℤ g.first) g.bits) groups.now }
{
    for group in groups {
        if !are_set(words, at as i64 + i64::from(group.first), group.bits) {
            return false;
        }
    }
    true
}

/// The first unit from one on whose bit is set.
pub(crate) fn next_bit(words: &[u64], from: usize) -> Option<usize>
    requires { length words.now < 2 ^ 57 }
    ensures { MatchOption result (HasNoBit words.now from) (IsNextBit words.now from) }
{
    let mut at = from;
    while at / 64 < words.len() {
        let rest = words[at / 64] >> (at % 64) as u32;
        if rest != 0 {
            return Some(at + rest.trailing_zeros() as usize);
        }
        at = (at / 64 + 1) * 64;
    }
    None
}

/// Returns whether the bit of a place is set.
pub(crate) fn has_place(words: &[u64], place: i64) -> bool
    ensures { (result ≡ true) ↔ HasPlace words.now place }
{
    if place < 0 {
        return false;
    }
    let unit = place as usize;
    if words.len() <= unit / 64 {
        return false;
    }
    (words[unit / 64] >> (unit % 64) as u32) % 2 == 1
}
