ghost use Rattle.std.specs.Prelude.{◌≡◌, ◌↔◌, ◌^◌, ◌<◌, List, [], All, length, IsTrue, IfSome, IfNone, ◌==◌};
ghost use Rattle.std.proofs.Common.{rules};
ghost use Rattle.std.specs.Cmp.{partial_order_from_own_ties};
ghost use Rattle.std.specs.Cmp.Rules.{comparing};
ghost use Rattle.std.specs.Cmp.Lexicographic.{slice_cmp, pointwise};
ghost use Rattle.std.specs.Ordering.{nat_cmp, as_partial_cmp};

use crate::order::{after_common_groups, place_of};
use crate::units::Units;
use std::cmp::Ordering;
use std::marker::Model;

/// A text: fewer than 2^32 units of 16 bits, in borrowed bytes that spell them as MUTF-8. Texts are equal
/// where their units are, and come in the order of their units; a text that begins another comes before
/// it.
///
/// Source: the heading "MUTF-8 (Modified UTF-8) encoding" of the Android page "Dalvik Executable format".
#[derive(Drop)]
pub struct Text<'a> {
    bytes: &'a [u8],
    count: u32,
}

impl<'a> Model for Text<'a> {
    ghost use Rattle.std.specs.Prelude.{ℕ, List};
    ghost use Rattle.dexstr.specs.Units.{units_of, SpellsUnits};

    ghost Value = { List ℕ };

    ghost view = { λ text. units_of text.bytes.now };

    ghost invariant = { λ text. SpellsUnits text.bytes.now text.count };
}

impl<'a> Text<'a> {
    ghost use Rattle.dexspec.specs.Texts.{AreUnits};
    ghost use Rattle.dexstr.specs.Units.{units_of, SpellsUnits, IsAscii};

    /// The text of `count` units that the bytes spell.
    pub(crate) fn of_spelling(bytes: &'a [u8], count: u32) -> Text<'a>
        requires { SpellsUnits bytes.now count }
        ensures { result ≡ units_of bytes.now }
    {
        Text { bytes, count }
    }

    /// The bytes that spell the text.
    pub(crate) fn bytes(&self) -> &'a [u8]
        ensures units { units_of result.now ≡ self.now }
        ensures spelled { SpellsUnits result.now (length self.now) }
    {
        self.bytes
    }

    /// The same text, of the same bytes.
    pub fn clone(&self) -> Text<'a>
        ensures { result ≡ self.now }
    {
        Text {
            bytes: self.bytes,
            count: self.count,
        }
    }

    /// The number of units, below 2^32.
    pub fn len(&self) -> usize
        ensures len { result ≡ length self.now }
        ensures few { result < 2 ^ 32 }
    {
        self.count as usize
    }

    /// Returns whether the text has no unit.
    pub fn is_empty(&self) -> bool
        ensures { IsTrue result ↔ (self.now ≡ []) }
    {
        self.bytes.is_empty()
    }

    /// The units as bytes, where all are of ASCII and none is zero, so that each is spelled by one byte; `None` of
    /// other texts. It takes no memory.
    pub fn ascii(&self) -> Option<&'a [u8]>
        ensures units { IfSome result (λ bytes. bytes.now ≡ self.now) }
        ensures other { IfNone result (¬ All IsAscii self.now) }
    {
        (self.len() == self.bytes.len()).then_some(self.bytes)
    }

    /// The units, one after the other, each of 16 bits.
    pub fn units(&self) -> Units<'a>
        ensures same { result ≡ self.now }
        ensures units { AreUnits self.now }
    {
        Units::of_spelling(self.bytes)
    }
}

impl PartialEq for Text<'_> {
    ghost eq = { pointwise ◌==◌ };

    ghost laws = { Prim.search (comparing, rules) };

    fn eq(&self, other: &Self) -> bool {
        self.bytes == other.bytes
    }
}

impl Eq for Text<'_> {
    ghost laws = { Prim.search (comparing, rules) };
}

impl Ord for Text<'_> {
    ghost cmp = { slice_cmp nat_cmp };

    ghost total = { Prim.search (comparing, rules) };

    ghost matches_partial_cmp = { Prim.search (comparing, rules) };

    ghost matches_eq = { Prim.search (comparing, rules) };

    // The first bytes that differ decide, and else the shorter text comes first.
    fn cmp(&self, other: &Self) -> Ordering {
        let (left, right) = after_common_groups(self.bytes, other.bytes);
        for i in 0..left.len().min(right.len()) {
            if left[i] != right[i] {
                return place_of(left[i]).cmp(&place_of(right[i]));
            }
        }
        left.len().cmp(&right.len())
    }
}

impl PartialOrd for Text<'_> {
    ghost partial_cmp = { as_partial_cmp (slice_cmp nat_cmp) };

    ghost laws = { partial_order_from_own_ties (Prim.search (comparing, rules)) (Prim.search (comparing, rules)) };

    fn partial_cmp(&self, other: &Self) -> Option<Ordering> {
        Some(self.cmp(other))
    }
}
