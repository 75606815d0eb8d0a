//! The text of flags of any kind.

ghost use Rattle.std.specs.Prelude.{◌≡◌, map};
ghost use Rattle.std.specs.List.{join_with_byte};
ghost use Rattle.dexflags.specs.Flags.{has_bit};
ghost use Rattle.dexflags.specs.internal.FlagNames.{listed, shown_byte, set_names, table_text, IsSingleBit, HasSingleBits};

use bitflags::{Flag, Flags};
use dexio::Output;
use dexout::encode_hexadecimal;

// A byte of a constant's name as the text shows it.
fn shown_byte(byte: u8) -> u8
    ensures { result ≡ shown_byte byte }
{
    if byte == b'_' {
        b'-'
    } else {
        byte.to_ascii_lowercase()
    }
}

// Returns whether the bit of a named flag is set.
#[tactic(auto, using(crate::proofs::SingleBits::single_bit))]
fn has_flag<F: Flags>(flags: &F, flag: &Flag<F>) -> bool
    requires exact { F.exact }
    requires single { IsSingleBit (F.set_of flag.now.value) }
    ensures { result ≡ has_bit (F.set_of flags.now) (F.set_of flag.now.value) }
{
    flags.contains(F::from_bits_retain(flag.value().bits()))
}

// Writes a constant's name as the text shows it.
fn encode_name<O: Output>(name: &str, out: &mut O)
    ensures { O.gives (map shown_byte name.now) out.old out.new }
{
    for byte in name.as_bytes() {
        out.byte(shown_byte(*byte));
    }
}

// Writes a name, after a comma unless it is the first.
fn encode_item<O: Output>(is_first: bool, name: &str, out: &mut O)
    ensures { O.gives (listed is_first (map shown_byte name.now)) out.old out.new }
{
    if is_first {
        encode_name(name, out);
        return;
    }
    out.byte(b',');
    encode_name(name, out);
}

// Writes the names of the flags, joined by commas.
fn encode_names<F: Flags, O: Output>(flags: &F, out: &mut O)
    requires exact { F.exact }
    requires single { HasSingleBits F.table }
    ensures { O.gives
        (join_with_byte 0x2c (set_names F.table (F.set_of flags.now))) out.old out.new }
{
    let mut is_first = true;
    let named = F::flags();
    for flag in named {
        if has_flag(flags, flag) {
            encode_item(is_first, flag.name(), out);
            is_first = false;
        }
    }
}

/// Writes the text of flags: the number in hexadecimal, and in brackets the names of its bits in the table.
pub(crate) fn encode_text<F: Flags<Bits = u32>, O: Output>(flags: &F, out: &mut O)
    requires exact { F.exact }
    requires single { HasSingleBits F.table }
    ensures { O.gives (table_text F.table (F.set_of flags.now)) out.old out.new }
{
    out.bytes(b"0x");
    encode_hexadecimal(flags.bits(), out);
    out.byte(b'(');
    encode_names(flags, out);
    out.byte(b')');
}
