//! Digits in hexadecimal, and units that are printed by their numbers.

ghost use Rattle.std.specs.Prelude.{◌≡◌, ◌<◌, All};
ghost use Rattle.dexstr.specs.Escapes.{hexadecimal_digit, escaped};

/// The digit of a number's last four bits, in lower-case hexadecimal.
#[inline(always)]
pub fn hexadecimal_digit(number: u16) -> u8
    ensures is { result ≡ hexadecimal_digit number }
    ensures ascii { result < 128 }
{
    let digit = (number % 16) as u8;
    if digit < 10 { digit + 48 } else { digit + 87 }
}

/// A unit by its number: `\u` and four digits in lower-case hexadecimal.
pub fn escaped(unit: u16) -> [u8; 6]
    ensures is { result ≡ escaped unit }
    ensures ascii { All (λ byte. byte < 128) result }
{
    [
        b'\\',
        b'u',
        hexadecimal_digit(unit / 4096),
        hexadecimal_digit(unit / 256),
        hexadecimal_digit(unit / 16),
        hexadecimal_digit(unit),
    ]
}
