//! The operands of instructions.

ghost use Rattle.std.specs.Prelude.{◌≡◌, ◌<◌, ◌++◌, ◌+ℤ◌, pos, nat_abs, codes, slice_index};
ghost use Rattle.dexspec.specs.Pieces.{high_byte, low_byte};
ghost use Rattle.dexinsn.specs.Opcode.{format_of};
ghost use Rattle.dexlisting.specs.FullListing.{register_text, registers_text, literal_text, target_text, signed_nibble, high_literal, long_literal, listed_registers, range_text, operands_text};

use crate::numbers::{encode_signed, encode_wide};
use crate::units::{Units, fourth_nibble, third_nibble};
use dexhead::Output;
use dexinsn::Format;
use dexout::encode_count;

/// The opcode of const-wide/high16.
const CONST_WIDE_HIGH16: u16 = 0x19;

/// The most registers that the format 35c counts.
const MOST_LISTED: usize = 5;

/// Writes a register.
#[tactic(auto, unfolding(crate::specs::FullListing::register_text))]
pub(crate) fn encode_register<O: Output>(register: usize, out: &mut O)
    ensures { O.gives (register_text register) out.old out.new }
{
    encode_count(b"v", register, out);
}

/// Writes a literal.
#[tactic(auto, unfolding(crate::specs::FullListing::literal_text))]
pub(crate) fn encode_literal<O: Output>(literal: i64, out: &mut O)
    ensures { O.gives (literal_text literal) out.old out.new }
{
    out.byte(b'#');
    encode_signed(literal, out);
}

// The unit at a distance from another.
fn target_of(at: u32, offset: i32) -> u64
    ensures { result ≡ nat_abs (pos at +ℤ offset) }
{
    (i64::from(at) + i64::from(offset)).unsigned_abs()
}

// Writes the address to which an instruction at a unit refers.
fn encode_target<O: Output>(at: u32, offset: i32, out: &mut O)
    ensures { O.gives (target_text at offset) out.old out.new }
{
    encode_wide(target_of(at, offset), out);
}

// The byte above the opcode.
fn high_byte(unit: u16) -> u8
    ensures { result ≡ high_byte unit }
{
    (unit / 0x100) as u8
}

// The byte of the opcode.
fn low_byte(unit: u16) -> u8
    ensures { result ≡ low_byte unit }
{
    (unit % 0x100) as u8
}

// A number of four bits in two's complement.
fn signed_nibble(nibble: u16) -> i64
    ensures { result ≡ signed_nibble nibble }
{
    if nibble < 8 {
        i64::from(nibble)
    } else {
        i64::from(nibble) - 16
    }
}

// The literal of format 21h.
fn high_literal(units: &Units<'_, '_>) -> i64
    ensures { result ≡ high_literal units.now }
{
    let high = units.at(1);
    if units.at(0) % 0x100 == CONST_WIDE_HIGH16 {
        (0x1_0000_0000_0000 * u64::from(high)).cast_signed()
    } else {
        i64::from((0x1_0000 * u32::from(high)).cast_signed())
    }
}

// The literal of format 51l.
fn long_literal(units: &Units<'_, '_>) -> i64
    ensures { result ≡ long_literal units.now }
{
    (u64::from(units.two_at(1)) + 0x1_0000_0000 * u64::from(units.two_at(3))).cast_signed()
}

// Writes a register after a blank.
fn encode_one<O: Output>(register: usize, out: &mut O)
    ensures { O.gives (codes " " ++ register_text register) out.old out.new }
{
    out.byte(b' ');
    encode_register(register, out);
}

// Writes an address after a blank.
fn encode_one_target<O: Output>(at: u32, offset: i32, out: &mut O)
    ensures { O.gives (codes " " ++ target_text at offset) out.old out.new }
{
    out.byte(b' ');
    encode_target(at, offset, out);
}

// Writes a register after a comma.
fn encode_next<O: Output>(register: usize, out: &mut O)
    ensures { O.gives (codes ", " ++ register_text register) out.old out.new }
{
    out.bytes(b", ");
    encode_register(register, out);
}

// Writes a literal after a comma.
fn encode_next_literal<O: Output>(literal: i64, out: &mut O)
    ensures { O.gives (codes ", " ++ literal_text literal) out.old out.new }
{
    out.bytes(b", ");
    encode_literal(literal, out);
}

// Writes an address after a comma.
fn encode_next_target<O: Output>(at: u32, offset: i32, out: &mut O)
    ensures { O.gives (codes ", " ++ target_text at offset) out.old out.new }
{
    out.bytes(b", ");
    encode_target(at, offset, out);
}

// Writes two registers.
fn encode_two<O: Output>(first: usize, second: usize, out: &mut O)
    ensures { O.gives (codes " " ++ (register_text first ++ (codes ", " ++ register_text second)))
        out.old out.new }
{
    encode_one(first, out);
    encode_next(second, out);
}

// Writes three registers.
fn encode_three<O: Output>(first: usize, second: usize, third: usize, out: &mut O)
    ensures { O.gives (codes " " ++ (register_text first ++ (codes ", " ++ (register_text second
        ++ (codes ", " ++ register_text third))))) out.old out.new }
{
    encode_two(first, second, out);
    encode_next(third, out);
}

// Writes a register and a literal.
fn encode_with_literal<O: Output>(register: usize, literal: i64, out: &mut O)
    ensures { O.gives
        (codes " " ++ (register_text register ++ (codes ", " ++ literal_text literal)))
        out.old out.new }
{
    encode_one(register, out);
    encode_next_literal(literal, out);
}

// Writes a register and an address.
fn encode_with_target<O: Output>(register: usize, at: u32, offset: i32, out: &mut O)
    ensures { O.gives
        (codes " " ++ (register_text register ++ (codes ", " ++ target_text at offset)))
        out.old out.new }
{
    encode_one(register, out);
    encode_next_target(at, offset, out);
}

// Writes two registers and a literal.
fn encode_two_with_literal<O: Output>(first: usize, second: usize, literal: i64, out: &mut O)
    ensures { O.gives (codes " " ++ (register_text first ++ (codes ", " ++ (register_text second
        ++ (codes ", " ++ literal_text literal))))) out.old out.new }
{
    encode_two(first, second, out);
    encode_next_literal(literal, out);
}

// Writes two registers and an address.
fn encode_two_with_target<O: Output>(first: usize, second: usize, at: u32, offset: i32, out: &mut O)
    ensures { O.gives (codes " " ++ (register_text first ++ (codes ", " ++ (register_text second
        ++ (codes ", " ++ target_text at offset))))) out.old out.new }
{
    encode_two(first, second, out);
    encode_next_target(at, offset, out);
}

// Writes registers with commas between them.
fn encode_registers<O: Output>(registers: &[u16], out: &mut O)
    ensures { O.gives (registers_text registers.now) out.old out.new }
{
    let Some((first, others)) = registers.split_first() else {
        return;
    };
    encode_register(usize::from(*first), out);
    for register in others {
        encode_next(usize::from(*register), out);
    }
}

// Writes the registers of format 35c.
fn encode_listed<O: Output>(units: &Units<'_, '_>, out: &mut O)
    ensures { O.gives (codes " {" ++ (registers_text (listed_registers units.now) ++ codes "}"))
        out.old out.new }
{
    let first = units.at(0);
    let third = units.at(2);
    let registers = [
        third % 0x10,
        third / 0x10 % 0x10,
        third_nibble(third),
        fourth_nibble(third),
        third_nibble(first),
    ];
    let count = usize::from(fourth_nibble(first)).min(MOST_LISTED);
    out.bytes(b" {");
    encode_registers(&registers[..count], out);
    out.byte(b'}');
}

// Writes the first and the last of some consecutive registers.
fn encode_range<O: Output>(first: usize, count: usize, out: &mut O)
    requires first { first < 65536 }
    requires count { count < 256 }
    ensures { O.gives (range_text first count) out.old out.new }
{
    let Some(more) = count.checked_sub(1) else {
        return;
    };
    encode_register(first, out);
    out.bytes(b" .. ");
    encode_register(first + more, out);
}

// Writes the registers of format 3rc.
fn encode_consecutive<O: Output>(units: &Units<'_, '_>, out: &mut O)
    ensures { O.gives (codes " {" ++ (range_text (slice_index units.now 2)
        (high_byte (slice_index units.now 0)) ++ codes "}")) out.old out.new }
{
    out.bytes(b" {");
    encode_range(
        usize::from(units.at(2)),
        usize::from(high_byte(units.at(0))),
        out,
    );
    out.byte(b'}');
}

/// Writes the registers, literals and addresses of an instruction of a format at a unit.
pub(crate) fn encode_operands<O: Output>(
    format: Format,
    at: u32,
    units: &Units<'_, '_>,
    out: &mut O,
)
    ensures { O.gives (operands_text (format_of format) at units.now) out.old out.new }
{
    let first = units.at(0);
    let second = units.at(1);
    let low = usize::from(third_nibble(first));
    let high = usize::from(fourth_nibble(first));
    let register = usize::from(high_byte(first));
    match format {
        Format::Format10x => {}
        Format::Format12x => encode_two(low, high, out),
        Format::Format11n => encode_with_literal(low, signed_nibble(fourth_nibble(first)), out),
        Format::Format11x => encode_one(register, out),
        Format::Format10t => {
            encode_one_target(at, i32::from(high_byte(first).cast_signed()), out);
        }
        Format::Format20t => encode_one_target(at, i32::from(second.cast_signed()), out),
        Format::Format30t => encode_one_target(at, units.int_at(1), out),
        Format::Format22x => encode_two(register, usize::from(second), out),
        Format::Format21t => {
            encode_with_target(register, at, i32::from(second.cast_signed()), out);
        }
        Format::Format31t => encode_with_target(register, at, units.int_at(1), out),
        Format::Format21s => {
            encode_with_literal(register, i64::from(second.cast_signed()), out);
        }
        Format::Format21h => encode_with_literal(register, high_literal(units), out),
        Format::Format21c => encode_one(register, out),
        Format::Format31c => encode_one(register, out),
        Format::Format23x => encode_three(
            register,
            usize::from(low_byte(second)),
            usize::from(high_byte(second)),
            out,
        ),
        Format::Format22b => encode_two_with_literal(
            register,
            usize::from(low_byte(second)),
            i64::from(high_byte(second).cast_signed()),
            out,
        ),
        Format::Format22s => {
            encode_two_with_literal(low, high, i64::from(second.cast_signed()), out);
        }
        Format::Format22t => {
            encode_two_with_target(low, high, at, i32::from(second.cast_signed()), out);
        }
        Format::Format22c => encode_two(low, high, out),
        Format::Format32x => encode_two(usize::from(second), usize::from(units.at(2)), out),
        Format::Format31i => encode_with_literal(register, i64::from(units.int_at(1)), out),
        Format::Format51l => encode_with_literal(register, long_literal(units), out),
        Format::Format35c => encode_listed(units, out),
        Format::Format3rc => encode_consecutive(units, out),
    }
}
