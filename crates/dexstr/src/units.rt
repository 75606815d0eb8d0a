ghost use Rattle.std.specs.Prelude.{◌≡◌, ℕ, ◌+◌, ◌<◌, ◌∷◌, IfSome, IfNone, length};
ghost use Rattle.std.specs.Iterator.{YieldsFirst, item_count};
ghost use Rattle.dexstr.specs.Units.{BeginsWithAscii, BeginsWithUnit, BeginsWithNone, IsNoTail, AfterUnits};

use std::marker::Model;

/// The units that are left of a text, from the first on.
///
/// Source: the heading "MUTF-8 (Modified UTF-8) encoding" of the Android page "Dalvik Executable format".
#[derive(Drop)]
pub struct Units<'a> {
    bytes: &'a [u8],
}

impl<'a> Model for Units<'a> {
    ghost use Rattle.std.specs.Prelude.{ℕ, List};
    ghost use Rattle.dexstr.specs.Units.{units_of, IsSpelling};

    ghost Value = { List ℕ };

    ghost view = { λ units. units_of units.bytes.now };

    ghost invariant = { λ units. IsSpelling units.bytes.now };
}

impl<'a> Units<'a> {
    ghost use Rattle.dexstr.specs.Units.{units_of, IsSpelling};

    /// The units that the bytes spell.
    pub(crate) fn of_spelling(bytes: &'a [u8]) -> Units<'a>
        requires { IsSpelling bytes.now }
        ensures { result ≡ units_of bytes.now }
    {
        Units { bytes }
    }
}

impl<'a> Iterator for Units<'a> {
    type Item = u16;

    ghost next_gives = { YieldsFirst (λ us. us) };

    ghost remaining = { item_count (λ us. us) };

    fn next(&mut self) -> Option<u16> {
        let (unit, rest) = first_unit(self.bytes)?;
        self.bytes = rest;
        Some(unit)
    }
}

/// How many units come first, and the bytes after them.
pub(crate) fn skip_units(bytes: &[u8]) -> (usize, &[u8])
    ensures { AfterUnits bytes.now result.0 result.1.now }
{
    let mut count = 0;
    let mut rest = bytes;
    while let Some(after) = after_ascii(rest) {
        count += 4;
        rest = after;
    }
    while let Some(after) = after_ascii_unit(rest) {
        count += 1;
        rest = after;
    }
    while let Some((_, after)) = first_unit(rest) {
        count += 1;
        rest = after;
    }
    (count, rest)
}

// The bytes after the first four, if each of these spells a unit of ASCII. Most texts are of such units alone.
#[inline]
fn after_ascii(bytes: &[u8]) -> Option<&[u8]>
    ensures { IfSome result (λ rest. BeginsWithAscii 4 bytes.now rest.now) }
{
    match bytes {
        [
            0x01..=0x7f,
            0x01..=0x7f,
            0x01..=0x7f,
            0x01..=0x7f,
            rest @ ..,
        ] => Some(rest),
        _ => None,
    }
}

// The bytes after the first one, if it spells a unit of ASCII.
#[inline]
fn after_ascii_unit(bytes: &[u8]) -> Option<&[u8]>
    ensures { IfSome result (λ rest. BeginsWithAscii 1 bytes.now rest.now) }
{
    match bytes {
        [0x01..=0x7f, rest @ ..] => Some(rest),
        _ => None,
    }
}

/// The unit whose spelling comes first, and the bytes after it.
#[inline]
pub(crate) fn first_unit(bytes: &[u8]) -> Option<(u16, &[u8])>
    ensures found { IfSome result (λ x. BeginsWithUnit bytes.now x.0 x.1.now) }
    ensures none { IfNone result (BeginsWithNone bytes.now) }
{
    let (lead, rest) = bytes.split_first()?;
    match *lead {
        0x01..=0x7f => Some((u16::from(*lead), rest)),
        0xc0..=0xdf => {
            let (low, rest) = six_bits(rest)?;
            let unit = u16::from(*lead - 0xc0) * 64 + low;
            (unit == 0 || unit >= 0x80).then_some((unit, rest))
        }
        0xe0..=0xef => {
            let (middle, rest) = six_bits(rest)?;
            let (low, rest) = six_bits(rest)?;
            let unit = (u16::from(*lead - 0xe0) * 64 + middle) * 64 + low;
            (unit >= 0x800).then_some((unit, rest))
        }
        _ => None,
    }
}

/// The low six bits of a byte from 0x80 to 0xbf, and the bytes after it.
#[inline]
fn six_bits(bytes: &[u8]) -> Option<(u16, &[u8])>
    ensures found { IfSome result (λ x. (x.0 < 64) × (bytes.now ≡ (0x80 + x.0) ∷ x.1.now)) }
    ensures none { IfNone result (IsNoTail bytes.now) }
{
    match bytes {
        [byte @ 0x80..=0xbf, rest @ ..] => Some((u16::from(*byte - 0x80), rest)),
        _ => None,
    }
}
