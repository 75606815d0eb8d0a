//! Numbers with a sign, and numbers of 64 bits in hexadecimal.

ghost use Rattle.dexlisting.specs.FullListing.{signed_text};
ghost use Rattle.dexout.specs.Printed.{place_text};

use dexhead::Output;
use dexout::{encode_count, encode_hexadecimal, encode_place};

/// Writes a number with its sign.
pub(crate) fn encode_signed<O: Output>(number: i64, out: &mut O)
    ensures { O.gives (signed_text number) out.old out.new }
{
    let size = number.unsigned_abs() as usize;
    if number < 0 {
        encode_count(b"-", size, out);
    } else {
        encode_count(b"+", size, out);
    }
}

/// Writes a number of 64 bits in lower-case hexadecimal, in four digits at least.
pub(crate) fn encode_wide<O: Output>(number: u64, out: &mut O)
    ensures { O.gives (place_text number) out.old out.new }
{
    if number < 0x1_0000_0000 {
        encode_place(number as u32, out);
    } else {
        encode_hexadecimal((number / 0x1_0000_0000) as u32, out);
        encode_unit((number / 0x1_0000 % 0x1_0000) as u16, out);
        encode_unit((number % 0x1_0000) as u16, out);
    }
}

/// Writes a unit in four digits in lower-case hexadecimal.
pub(crate) fn encode_unit<O: Output>(unit: u16, out: &mut O)
    ensures { O.gives (place_text unit) out.old out.new }
{
    encode_place(u32::from(unit), out);
}
