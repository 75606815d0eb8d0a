//! Texts as they are printed.

ghost use Rattle.std.specs.Prelude.{◌≡◌, ◌<◌, All};
ghost use Rattle.dexout.specs.Printed.{signs_of, unit_text, shown, quoted};

use dexio::Output;
use dexstr::{Text, escaped};

/// The signs of ASCII that a unit is printed as.
#[derive(Clone, Copy, Debug, PartialEq, Eq)]
pub enum UnitText {
    /// The sign that it is.
    Sign(u8),
    /// A quotation mark or a backslash, after a backslash.
    Quoted([u8; 2]),
    /// Its number, in four digits in hexadecimal, after `\u`.
    Escaped([u8; 6]),
}

/// A unit as it is printed: a sign of ASCII as it is, but a quotation mark and a backslash after a backslash, and all
/// others by their numbers.
///
/// Source: the form is this project's rule.
#[inline(always)]
pub fn unit_text(unit: u16) -> UnitText
    ensures is { signs_of result ≡ unit_text unit }
    ensures ascii { All (λ sign. sign < 128) (signs_of result) }
{
    match u8::try_from(unit) {
        Ok(sign @ (b'"' | b'\\')) => UnitText::Quoted([b'\\', sign]),
        Ok(sign @ 0x20..=0x7e) => UnitText::Sign(sign),
        _ => UnitText::Escaped(escaped(unit)),
    }
}

// Writes a unit as it is printed.
fn encode_unit<O: Output>(unit: u16, out: &mut O)
    ensures { O.gives (unit_text unit) out.old out.new }
{
    match unit_text(unit) {
        UnitText::Sign(sign) => out.byte(sign),
        UnitText::Quoted(signs) => out.bytes(&signs),
        UnitText::Escaped(signs) => out.bytes(&signs),
    }
}

/// Writes a text as it is printed.
///
/// Source: the form is this project's rule.
pub fn encode_text<O: Output>(text: &Text<'_>, out: &mut O)
    ensures { O.gives (shown text.now) out.old out.new }
{
    for unit in text.units() {
        encode_unit(unit, out);
    }
}

/// Writes a text between quotation marks.
///
/// Source: the form is this project's rule.
pub fn encode_quoted<O: Output>(text: &Text<'_>, out: &mut O)
    ensures { O.gives (quoted text.now) out.old out.new }
{
    out.byte(b'"');
    encode_text(text, out);
    out.byte(b'"');
}
