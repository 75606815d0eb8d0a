//! Values in their least widths, and wider ones that are accepted.

ghost use Rattle.std.specs.Prelude.{◌≡◌, [], ◌∷◌, true, pos, negsuc};
ghost use Rattle.dexspec.specs.Spellings.{value_bytes};
ghost use Rattle.dexspec.specs.Mentions.{closed};
ghost use Rattle.dexspec.specs.Values.{ValueAt, ByteValue, CharValue, IntValue, LongValue, FloatValue, DoubleValue, BooleanValue, ArrayValue, NullValue, NoValues, ThenValue, value_depth};
ghost use Rattle.dexexamples.specs.Values.{null_array, long_minus_one, double_one};

/// Least widths.
pub fn least()
    ensures int { value_bytes (closed []) (IntValue (pos 5)) ≡ 0x04 ∷ 0x05 ∷ [] }
    ensures sign { value_bytes (closed []) (IntValue (pos 128)) ≡ 0x24 ∷ 0x80 ∷ 0x00 ∷ [] }
    ensures float { value_bytes (closed []) (FloatValue 0x3f800000) ≡ 0x30 ∷ 0x80 ∷ 0x3f ∷ [] }
    ensures zero { value_bytes (closed []) (FloatValue 0) ≡ 0x10 ∷ 0x00 ∷ [] }
    ensures boolean { value_bytes (closed []) (BooleanValue true) ≡ 0x3f ∷ [] }
    ensures minus_one { value_bytes (closed []) (LongValue (negsuc 0)) ≡ 0x06 ∷ 0xff ∷ [] }
    ensures double { value_bytes (closed []) (DoubleValue 0x3ff0000000000000)
        ≡ 0x31 ∷ 0xf0 ∷ 0x3f ∷ [] }
    ensures array { value_bytes (closed []) null_array ≡ 0x1c ∷ 0x01 ∷ 0x1e ∷ [] }
{}

/// Values as they are read.
pub fn read()
    ensures wide { ValueAt (0x64 ∷ 0x05 ∷ 0x00 ∷ 0x00 ∷ 0x00 ∷ []) 0 (IntValue (pos 5)) 5 }
    ensures byte { ValueAt (0x00 ∷ 0x80 ∷ []) 0 (ByteValue (negsuc 127)) 2 }
    ensures char { ValueAt (0x23 ∷ 0xff ∷ 0xff ∷ []) 0 (CharValue 65535) 3 }
    ensures long { ValueAt long_minus_one 0 (LongValue (negsuc 0)) 9 }
    ensures double { ValueAt double_one 0 (DoubleValue 0x3ff0000000000000) 9 }
    ensures array { ValueAt (0x1c ∷ 0x01 ∷ 0x1e ∷ []) 0 null_array 3 }
{}

/// A scalar has depth 0. An array has a depth one more than its deepest member, also without members.
pub fn depths()
    ensures scalar { value_depth NullValue ≡ 0 }
    ensures empty { value_depth (ArrayValue NoValues) ≡ 1 }
    ensures nested { value_depth (ArrayValue (ThenValue null_array NoValues)) ≡ 2 }
{}
