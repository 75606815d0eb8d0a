//! Numbers as they are printed.

ghost use Rattle.std.specs.Prelude.{◌≡◌, ◌<◌, false};
ghost use Rattle.std.specs.Fmt.{digits, digit_glyph};
ghost use Rattle.dexout.specs.Printed.{count_text, place_text};

use dexio::Output;
use dexstr::{escaped, hexadecimal_digit};
use itoa::Buffer;

// The most hexadecimal digits of a number.
const MAX_DIGITS: usize = 8;

/// Writes words, and a number in decimal.
#[tactic(auto, unfolding(crate::specs::Printed::count_text))]
pub fn encode_count<O: Output>(words: &[u8], count: usize, out: &mut O)
    ensures { O.gives (count_text words.now count) out.old out.new }
{
    let mut buffer = Buffer::new();
    out.bytes(words);
    out.bytes(buffer.format(count).as_bytes());
}

// The digit of a number below 16.
fn digit(value: u32) -> u8
    requires { value < 16 }
    ensures { result ≡ digit_glyph false value }
{
    hexadecimal_digit(value as u16)
}

/// Writes a number in lower-case hexadecimal, without leading zeros.
pub fn encode_hexadecimal<O: Output>(number: u32, out: &mut O)
    ensures { O.gives (digits 16 false number) out.old out.new }
{
    let mut digits = [0; MAX_DIGITS];
    let mut start = MAX_DIGITS - 1;
    let mut rest = number;
    while rest >= 16 {
        digits[start] = digit(rest % 16);
        rest /= 16;
        start -= 1;
    }
    digits[start] = digit(rest);
    out.bytes(&digits[start..]);
}

/// Writes the place of a unit in lower-case hexadecimal, in four digits at least.
///
/// Source: the form is this project's rule.
#[tactic(auto, unfolding(crate::specs::Printed::place_text))]
pub fn encode_place<O: Output>(place: u32, out: &mut O)
    ensures { O.gives (place_text place) out.old out.new }
{
    if place < 0x1000 {
        out.bytes(&escaped(place as u16)[2..]);
    } else {
        encode_hexadecimal(place, out);
    }
}
