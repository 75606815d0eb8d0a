//! An instruction: its size, its branch, and its index.

ghost use Rattle.std.specs.Prelude.{◌≡◌, ◌+◌, ◌<◌, ◌≤◌, ◌^◌, length, slice_index, drop, true};
ghost use Rattle.std.specs.Option.{option_map};
ghost use Rattle.dexspec.specs.Opcodes.{units_in};
ghost use Rattle.dexspec.specs.Pieces.{branch_offset, instruction_size, is_first_unit, index_pool, is_wide_index, index_in, two_units};
ghost use Rattle.dexinsn.specs.Opcode.{format_of};
ghost use Rattle.dexinsn.specs.Numbered.{kind_of_pool, kind_in, index_room};

use crate::code_units::{Units, high_byte_of, int_at, opcode_in};
use crate::format::Format;
use crate::opcodes::index_kind;
use dexpool::SymbolKind;

/// The most registers that the format 35c counts.
const MAX_COUNTED: u16 = 5;

/// The number of units of the first instruction; `None` where its opcode is unused, the units are too few, a byte that
/// the format leaves empty is not zero, or 35c counts too many registers.
pub(crate) fn instruction_size(units: &Units<'_>) -> Option<usize>
    requires { 0 < length units.now }
    ensures { result ≡ instruction_size units.now }
{
    let first = units.at(0);
    let format = Format::of(opcode_in(first))?;
    let needed = format.units();
    (needed <= units.len() && is_first_unit(format, first)).then_some(needed)
}

/// Returns whether the format lets an instruction begin with this unit.
fn is_first_unit(format: Format, first: u16) -> bool
    ensures { result ≡ is_first_unit (format_of format) first }
{
    if format == Format::Format35c {
        first / 0x1000 <= MAX_COUNTED
    } else {
        !format.has_zero_byte() || high_byte_of(first) == 0
    }
}

/// Returns the distance of the branch target or of the payload of the instruction at unit `at`, in units from its own;
/// `None` where it has neither.
pub(crate) fn branch_offset(format: Format, units: &Units<'_>, at: usize) -> Option<i32>
    requires within { at + units_in (format_of format) ≤ length units.now }
    requires small { length units.now < 2 ^ 62 }
    ensures { result ≡ branch_offset (format_of format) units.now at }
{
    match format {
        Format::Format10t => Some(i32::from(high_byte_of(units.at(at)).cast_signed())),
        Format::Format20t | Format::Format21t | Format::Format22t => {
            Some(i32::from(units.at(at + 1).cast_signed()))
        }
        Format::Format30t | Format::Format31t => Some(int_at(units, at + 1)),
        _ => None,
    }
}

/// The opcode of the one instruction whose index has 32 bits, const-string/jumbo.
const JUMBO: u8 = 0x1b;

/// The kind of symbol that the index of the piece at a unit names; `None` where the piece has no index.
#[tactic(auto, using(crate::proofs::IndexRoom::pool_of_first))]
pub(crate) fn kind_at(units: &Units<'_>, unit: usize) -> Option<SymbolKind>
    requires { unit < length units.now }
    ensures { result ≡ option_map kind_of_pool (index_pool (drop unit units.now)) }
{
    // A payload begins as the instruction nop does, which has no index.
    index_kind(opcode_in(units.at(unit)))
}

/// Returns whether the index of the instruction at a unit has 32 bits.
pub(crate) fn is_wide_at(units: &Units<'_>, unit: usize) -> bool
    requires { unit < length units.now }
    ensures { result ≡ is_wide_index (drop unit units.now) }
{
    opcode_in(units.at(unit)) == JUMBO
}

/// The index of the instruction at a unit, which has one.
pub(crate) fn index_at(units: &Units<'_>, unit: usize) -> u32
    requires some { unit + 1 < length units.now }
    requires wide { is_wide_index (drop unit units.now) ≡ true → unit + 2 < length units.now }
    ensures is { result ≡ index_in (drop unit units.now) }
    ensures fits { result < index_room (drop unit units.now) }
{
    let rest = units.rest(unit);
    let low = u32::from(rest.at(1));
    if is_wide_at(units, unit) {
        low + 0x1_0000 * u32::from(rest.at(2))
    } else {
        low
    }
}

/// The kind of symbol that the index at a unit names; a text where there is no index.
pub(crate) fn index_kind_at(units: &Units<'_>, unit: usize) -> SymbolKind
    requires { unit < length units.now }
    ensures { result ≡ kind_in (drop unit units.now) }
{
    kind_at(units, unit).unwrap_or(SymbolKind::Text)
}
