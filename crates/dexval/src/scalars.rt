//! Values that hold no other value.

ghost use Rattle.std.specs.Prelude.{◌≡◌, ◌≢◌, ◌+◌, ◌%◌, ◌<◌, ◌≤◌, false, MatchOption, IfSome, length, slice_index};
ghost use Rattle.dexpool.specs.Pools.{ArePools};
ghost use Rattle.dexval.specs.Numbered.{Reference};
ghost use Rattle.dexval.specs.internal.Scalars.{width_of, code_of_reference, HasNumber, IsUnknown, HasNoSymbol};
ghost use Rattle.dexval.specs.internal.Found.{FindsNumber, SpellsValue, FindsScalar, IsScalarOf};

use crate::sized_numbers::{bits, signed, unsigned};
use crate::type_codes::{
    BOOLEAN, BYTE, CHAR, DOUBLE, ENUM, FIELD, FLOAT, INT, LONG, METHOD, NULL, SHORT, STRING, TYPE,
};
use crate::value::Value;
use dexpool::{Pools, SymbolKind};

// The first byte of a truth value, whose argument is the value.
const FALSE: u8 = BOOLEAN;

const TRUE: u8 = 0x20 + BOOLEAN;

// The maximum number of bytes of a value of a type code, if an argument counts them.
fn width_of(code: u8) -> Option<usize>
    ensures { result ≡ width_of code }
{
    match code {
        BYTE => Some(1),
        SHORT | CHAR => Some(2),
        INT | FLOAT | STRING | TYPE | FIELD | METHOD | ENUM => Some(4),
        LONG | DOUBLE => Some(8),
        _ => None,
    }
}

/// Returns `false` only if values of the type code name no symbol.
#[inline(always)]
pub(crate) fn is_reference(code: u8) -> bool
    ensures { result ≡ false → (reference : Reference) → code ≢ code_of_reference reference }
{
    matches!(code, STRING | TYPE | FIELD | METHOD | ENUM)
}

// The bytes of a number, which are after the first byte of a value.
fn number_at(bytes: &[u8], at: usize, width: usize) -> Option<&[u8]>
    requires { at < length bytes.now }
    ensures { FindsNumber bytes.now at width result }
{
    let size = usize::from(bytes[at] / 32) + 1;
    let (_, rest) = bytes.split_at(at + 1);
    if size > width || size > rest.len() {
        return None;
    }
    let (number, _) = rest.split_at(size);
    Some(number)
}

// The index of a symbol of a kind, or `None` if the number is that of no symbol.
fn index_of(number: &[u8], kind: SymbolKind, pools: &Pools<'_>) -> Option<u32>
    requires some { 0 < length number.now }
    requires few { length number.now ≤ 4 }
    ensures { MatchOption result (HasNoSymbol pools.now kind number.now)
        (HasNumber pools.now kind number.now) }
{
    let index = unsigned(number) as u32;
    ((index as usize) < pools.len(kind)).then_some(index)
}

// The value of a type code and these bytes, or `None` if they are the index of no symbol.
fn spelled(code: u8, number: &[u8], pools: &Pools<'_>) -> Option<Value>
    requires some { 0 < length number.now }
    requires few { IfSome (width_of code) (λ width. length number.now ≤ width) }
    ensures { MatchOption result (IsUnknown pools.now code number.now)
        (SpellsValue pools.now code number.now) }
{
    match code {
        BYTE => Some(Value::Byte(signed(number) as i8)),
        SHORT => Some(Value::Short(signed(number) as i16)),
        CHAR => Some(Value::Char(unsigned(number) as u16)),
        INT => Some(Value::Int(signed(number) as i32)),
        LONG => Some(Value::Long(signed(number))),
        FLOAT => Some(Value::Float(bits(number, 4) as u32)),
        DOUBLE => Some(Value::Double(bits(number, 8))),
        STRING => Some(Value::String(index_of(number, SymbolKind::Text, pools)?)),
        TYPE => Some(Value::Typ(index_of(number, SymbolKind::Typ, pools)?)),
        FIELD => Some(Value::Field(index_of(number, SymbolKind::Field, pools)?)),
        METHOD => Some(Value::Method(index_of(number, SymbolKind::Method, pools)?)),
        ENUM => Some(Value::Enum(index_of(number, SymbolKind::Field, pools)?)),
        _ => None,
    }
}

// The value after a first byte whose argument counts the bytes of a number, and its size. It is kept out of `scalar_at`,
// which is then small enough to be inlined.
#[inline(never)]
fn sized_at(bytes: &[u8], pools: &Pools<'_>, at: usize) -> Option<(Value, usize)>
    requires within { at < length bytes.now }
    requires array { slice_index bytes.now at ≢ 0x1c }
    requires annotation { slice_index bytes.now at ≢ 0x1d }
    requires null { slice_index bytes.now at ≢ 0x1e }
    requires no { slice_index bytes.now at ≢ 0x1f }
    requires yes { slice_index bytes.now at ≢ 0x3f }
    ensures read { ArePools bytes.now pools.now → FindsScalar bytes.now at pools.now result }
    ensures scalar { IfSome result
        (λ read. IsScalarOf (slice_index bytes.now at % 32) read.0) }
    ensures within { IfSome result (λ read. at + read.1 ≤ length bytes.now) }
    ensures some { IfSome result (λ read. 1 ≤ read.1) }
{
    let code = bytes[at] % 32;
    let width = width_of(code)?;
    let number = number_at(bytes, at, width)?;
    let value = spelled(code, number, pools)?;
    Some((value, 1 + number.len()))
}

/// The value at an offset that holds no other value, and its size, or `None` if there is none. Indices refer to the
/// pools.
///
/// Condition: the byte at the offset exists, and begins no array and no annotation.
///
/// Source: "encoded_value encoding", "Value formats".
#[inline]
pub(crate) fn scalar_at(bytes: &[u8], pools: &Pools<'_>, at: usize) -> Option<(Value, usize)>
    requires within { at < length bytes.now }
    requires array { slice_index bytes.now at ≢ 0x1c }
    requires annotation { slice_index bytes.now at ≢ 0x1d }
    ensures read { ArePools bytes.now pools.now → FindsScalar bytes.now at pools.now result }
    ensures scalar { IfSome result
        (λ read. IsScalarOf (slice_index bytes.now at % 32) read.0) }
    ensures within { IfSome result (λ read. at + read.1 ≤ length bytes.now) }
    ensures some { IfSome result (λ read. 1 ≤ read.1) }
{
    match bytes[at] {
        NULL => Some((Value::Null, 1)),
        FALSE => Some((Value::Boolean(false), 1)),
        TRUE => Some((Value::Boolean(true), 1)),
        _ => sized_at(bytes, pools, at),
    }
}
