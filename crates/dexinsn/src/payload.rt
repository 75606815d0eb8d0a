ghost use Rattle.std.specs.Prelude.{◌≡◌, ◌+◌, ◌*◌, ◌<◌, ◌≤◌, ◌^◌, length, slice_index, IfSome, Some, None, if◌then◌else◌};
ghost use Rattle.std.specs.Option.{option_map};
ghost use Rattle.std.specs.Ordering.{int_cmp};
ghost use Rattle.dexspec.specs.Lists.{rises};
ghost use Rattle.dexspec.specs.Pieces.{ints_in, is_payload_ident, payload_ident, payload_size, array_data_ident};
ghost use Rattle.dexinsn.specs.Payload.{ident_of};

use crate::code_units::{Units, int_at};

/// The three kinds of payload: the data of an instruction, stored apart from it.
///
/// Source: the headings "packed-switch-payload format", "sparse-switch-payload format" and
/// "fill-array-data-payload format" of the Android page "Dalvik bytecode".
#[derive(Clone, Copy, Debug, PartialEq, Eq)]
pub enum PayloadKind {
    PackedSwitch = 0x0100,
    SparseSwitch = 0x0200,
    ArrayData = 0x0300,
}

impl PayloadKind {
    /// The kind of payload that begins with this unit; `None` where the unit begins an instruction.
    pub fn of(unit: u16) -> Option<PayloadKind>
        ensures { option_map ident_of result ≡ (if is_payload_ident unit then Some unit else None) }
    {
        match unit {
            0x0100 => Some(PayloadKind::PackedSwitch),
            0x0200 => Some(PayloadKind::SparseSwitch),
            0x0300 => Some(PayloadKind::ArrayData),
            _ => None,
        }
    }

    /// The first unit of a payload of this kind.
    pub fn ident(self) -> u16
        ensures { result ≡ ident_of self }
    {
        self as u16
    }

    /// The kind of payload that an instruction of the format 31t refers to.
    pub(crate) fn payload_kind_of(op: u8) -> PayloadKind
        ensures { ident_of result ≡ payload_ident op }
    {
        match op {
            0x2b => PayloadKind::PackedSwitch,
            0x2c => PayloadKind::SparseSwitch,
            _ => PayloadKind::ArrayData,
        }
    }

    /// The number of units of the first payload; `None` where the units are too few, where the keys of a sparse switch
    /// do not rise strictly, and where an element is not 1, 2, 4 or 8 bytes wide.
    pub(crate) fn size(self, units: &Units<'_>) -> Option<usize>
        requires { slice_index units.now 0 ≡ ident_of self }
        ensures { result ≡ payload_size units.now }
    {
        if units.len() < 2 {
            return None;
        }
        let size = usize::from(units.at(1));
        let needed = match self {
            PayloadKind::PackedSwitch => 4 + 2 * size,
            PayloadKind::SparseSwitch => 2 + 4 * size,
            PayloadKind::ArrayData => return array_data_size(units),
        };
        let fits = needed <= units.len();
        (fits && (self != PayloadKind::SparseSwitch || keys_rise(units, size))).then_some(needed)
    }
}

fn array_data_size(units: &Units<'_>) -> Option<usize>
    requires { slice_index units.now 0 ≡ array_data_ident }
    ensures { result ≡ payload_size units.now }
{
    if units.len() < 4 {
        return None;
    }
    let width = u64::from(units.at(1));
    let count = u64::from(units.at(2)) + 0x1_0000 * u64::from(units.at(3));
    let needed = 4 + (count * width + 1) / 2;
    let fits = needed <= units.len() as u64 && matches!(width, 1 | 2 | 4 | 8);
    fits.then_some(needed as usize)
}

/// Returns whether `size` keys, from the third unit on, rise strictly.
fn keys_rise(units: &Units<'_>, size: usize) -> bool
    requires within { 2 + 2 * size ≤ length units.now }
    requires few { size < 2 ^ 16 }
    ensures { result ≡ rises int_cmp (ints_in units.now 2 size) }
{
    for i in 1..size {
        if int_at(units, 2 * i) >= int_at(units, 2 * i + 2) {
            return false;
        }
    }
    true
}
