//! Values and annotations as bytes.

ghost use Rattle.std.specs.Prelude.{◌-◌, ◌<◌, ◌≤◌, ◌∷◌, ⊤, map};
ghost use Rattle.dexspec.specs.Bytes.{bytes_of};
ghost use Rattle.dexspec.specs.Values.{value_byte};
ghost use Rattle.dexspec.specs.Spellings.{unsigned_bytes, signed_bytes, bits_bytes};
ghost use Rattle.dexval.specs.Code.{value_of, encoded_type, encoded_elements, annotation_of};
ghost use Rattle.dexval.specs.Numbered.{values_of_list};
ghost use Rattle.dexval.specs.Spelled.{count_bytes, numbered_bytes, numbered_array_bytes, encoded_annotation_bytes, numbered_annotation_bytes};

use crate::widths::{bits_width, signed_width, unsigned_width};
use crate::{Annotation, EncodedAnnotation, Value, type_codes as codes};
use dexhead::{Encode, Output};

// Writes a type code with the count of bytes after it, and the lowest bytes of a number.
fn encode_low<O: Output>(code: u8, width: usize, value: u64, out: &mut O)
    requires code { code < 32 }
    requires some { 1 ≤ width }
    requires few { width ≤ 8 }
    ensures { O.gives (value_byte (width - 1) code ∷ bytes_of width value) out.old out.new }
{
    let bytes = value.to_le_bytes();
    out.byte(32 * (width - 1) as u8 + code);
    out.bytes(&bytes[..width]);
}

// Writes a value of an unsigned kind.
fn encode_unsigned<O: Output>(code: u8, value: u64, out: &mut O)
    requires { code < 32 }
    ensures { O.gives (unsigned_bytes code value) out.old out.new }
{
    encode_low(code, unsigned_width(value), value, out);
}

// Writes a value of a signed kind.
fn encode_signed<O: Output>(code: u8, value: i64, out: &mut O)
    requires { code < 32 }
    ensures { O.gives (signed_bytes code value) out.old out.new }
{
    encode_low(code, signed_width(value), value.cast_unsigned(), out);
}

// Writes a bit pattern of `width` bytes without the zeros at its low end.
fn encode_bits<O: Output>(code: u8, width: usize, bits: u64, out: &mut O)
    requires code { code < 32 }
    requires some { 1 ≤ width }
    requires few { width ≤ 8 }
    ensures { O.gives (bits_bytes code width bits) out.old out.new }
{
    let left = bits_width(width, bits);
    encode_low(code, left, bits >> (8 * (width - left)), out);
}

// Writes a count as a uleb128, which holds 32 bits.
#[tactic(auto, unfolding(crate::specs::Spelled::count_bytes))]
fn encode_count<O: Output>(count: usize, out: &mut O)
    ensures { O.gives (count_bytes count) out.old out.new }
{
    out.uleb(count.min(u32::MAX as usize) as u32);
}

/// Writes an encoded_value.
// Inlined, so that a value that holds no other is written without a recursive call.
#[cycle(encoding)]
#[inline(always)]
pub(crate) fn encode_value<O: Output>(value: &Value, out: &mut O)
    ensures { O.gives (numbered_bytes (value_of value.now)) out.old out.new }
{
    match value {
        Value::Byte(number) => encode_signed(codes::BYTE, i64::from(*number), out),
        Value::Short(number) => encode_signed(codes::SHORT, i64::from(*number), out),
        Value::Char(unit) => encode_unsigned(codes::CHAR, u64::from(*unit), out),
        Value::Int(number) => encode_signed(codes::INT, i64::from(*number), out),
        Value::Long(number) => encode_signed(codes::LONG, *number, out),
        Value::Float(bits) => encode_bits(codes::FLOAT, 4, u64::from(*bits), out),
        Value::Double(bits) => encode_bits(codes::DOUBLE, 8, *bits, out),
        Value::String(number) => encode_unsigned(codes::STRING, u64::from(*number), out),
        Value::Typ(number) => encode_unsigned(codes::TYPE, u64::from(*number), out),
        Value::Field(number) => encode_unsigned(codes::FIELD, u64::from(*number), out),
        Value::Method(number) => encode_unsigned(codes::METHOD, u64::from(*number), out),
        Value::Enum(number) => encode_unsigned(codes::ENUM, u64::from(*number), out),
        Value::Array(values) => {
            out.byte(codes::ARRAY);
            encode_array(values, out);
        }
        Value::Annotation(annotation) => {
            out.byte(codes::ANNOTATION);
            encode_annotation(annotation, out);
        }
        Value::Null => out.byte(codes::NULL),
        Value::Boolean(is) => out.byte(32 * u8::from(*is) + codes::BOOLEAN),
    }
}

/// Writes an encoded_array.
#[cycle(encoding)]
pub(crate) fn encode_array<O: Output>(values: &[Value], out: &mut O)
    ensures { O.gives
        (numbered_array_bytes (values_of_list (map value_of values.now))) out.old out.new }
{
    encode_count(values.len(), out);
    for value in values {
        encode_value(value, out);
    }
}

// Writes an encoded_annotation.
#[cycle(encoding)]
fn encode_annotation<O: Output>(annotation: &EncodedAnnotation, out: &mut O)
    ensures { O.gives (encoded_annotation_bytes
        (encoded_type annotation.now) (encoded_elements annotation.now)) out.old out.new }
{
    out.uleb(annotation.typ);
    encode_count(annotation.elements.len(), out);
    for element in &annotation.elements {
        out.uleb(element.name);
        encode_value(&element.value, out);
    }
}

// As an encoded_value.
impl Encode for Value {
    ghost formed = { λ _. ⊤ };

    ghost bytes = { λ v. numbered_bytes (value_of v) };

    fn encode<O: Output>(&self, out: &mut O) {
        encode_value(self, out);
    }
}

/// Values, to be encoded as an encoded_array.
#[derive(Drop)]
pub(crate) struct ArrayItem<'a>(pub(crate) &'a [Value]);

impl Encode for ArrayItem<'_> {
    ghost formed = { λ _. ⊤ };

    ghost bytes = { λ i. numbered_array_bytes (values_of_list (map value_of i.0.now)) };

    fn encode<O: Output>(&self, out: &mut O) {
        encode_array(self.0, out);
    }
}

// As an annotation_item.
impl Encode for Annotation {
    ghost formed = { λ _. ⊤ };

    ghost bytes = { λ a. numbered_annotation_bytes (annotation_of a) };

    fn encode<O: Output>(&self, out: &mut O) {
        out.byte(self.visibility.number());
        encode_annotation(&self.annotation, out);
    }
}
