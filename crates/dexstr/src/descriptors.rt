ghost use Rattle.std.specs.Prelude.{◌≡◌, ◌↔◌, ◌≤◌, false, length, IsTrue, IfSome};
ghost use Rattle.dexspec.specs.Names.{IsDescriptor, HasKind, IsMemberName, shorty_letter};
ghost use Rattle.dexstr.specs.Kinds.{type_kind, ends_class, is_primitive_letter, element_kind, dimensions, kind_of};

use crate::texts::Text;

/// The kind of type that a descriptor names.
///
/// Source: the heading "TypeDescriptor" of the Android page "Dalvik Executable format".
#[derive(Clone, Copy, Debug, PartialEq, Eq)]
pub enum Kind {
    /// `V`, the return type of a method that returns nothing.
    Void,
    /// `Z` `B` `S` `C` `J` `I` `F` `D`.
    Primitive,
    /// `L`, the name of a class, `;`.
    Class,
    /// 1 to 255 times `[`, and then a primitive type or a class.
    Array,
}

/// The kind of type that the text is the descriptor of, or `None` where it is no type descriptor.
///
/// Source: the heading "TypeDescriptor" of the Android page "Dalvik Executable format".
pub fn descriptor_kind(text: &Text) -> Option<Kind>
    ensures found { IfSome result (λ kind. HasKind (type_kind kind) text.now) }
    ensures some { (kind : Kind) → (result ≡ Some kind) ↔ HasKind (type_kind kind) text.now }
    ensures none { (result ≡ None) ↔ (¬ IsDescriptor text.now) }
{
    kind_of(text.bytes())
}

/// Returns whether the text may name a field or a method: it has a unit, and none of `.` `;` `[` `/`.
///
/// Source: the heading "MemberName" of the Android page "Dalvik Executable format".
pub fn is_member_name(text: &Text) -> bool
    ensures { IsTrue result ↔ IsMemberName text.now }
{
    is_name(text.bytes())
}

/// The unit that denotes a type in a shorty, from the type's descriptor: `L` for each class or array type, and else
/// the descriptor's one letter.
///
/// Source: the heading "ShortyDescriptor" of the Android page "Dalvik Executable format".
pub fn shorty_letter(kind: Kind, text: &Text) -> u16
    requires { HasKind (type_kind kind) text.now }
    ensures { result ≡ shorty_letter text.now }
{
    match kind {
        Kind::Void => u16::from(b'V'),
        Kind::Primitive => u16::from(text.bytes()[0]),
        Kind::Class | Kind::Array => u16::from(b'L'),
    }
}

/// Returns whether there is a byte, and none of `.` `;` `[` `/`.
fn is_name(bytes: &[u8]) -> bool
    ensures { IsTrue result ↔ IsMemberName bytes.now }
{
    !bytes.is_empty()
        && bytes
            .iter()
            .all(|byte| !matches!(byte, b'.' | b';' | b'[' | b'/'))
}

/// The kind of a descriptor in its bytes, or `None`.
fn kind_of(bytes: &[u8]) -> Option<Kind>
    ensures { result ≡ kind_of bytes.now }
{
    match bytes {
        [b'V'] => Some(Kind::Void),
        [b'[', ..] => {
            let dimensions = dimensions(bytes);
            let is_array = dimensions <= 255 && element_kind(&bytes[dimensions..]).is_some();
            is_array.then_some(Kind::Array)
        }
        _ => element_kind(bytes),
    }
}

/// How many `[` come first.
fn dimensions(bytes: &[u8]) -> usize
    ensures count { result ≡ dimensions bytes.now }
    ensures within { result ≤ length bytes.now }
{
    for i in 0..bytes.len() {
        if bytes[i] != b'[' {
            return i;
        }
    }
    bytes.len()
}

/// The kind of what an array may hold, a primitive type or a class, or `None`.
fn element_kind(bytes: &[u8]) -> Option<Kind>
    ensures { result ≡ element_kind bytes.now }
{
    match bytes {
        [b'L', rest @ ..] if ends_class(rest) => Some(Kind::Class),
        [letter] if is_primitive_letter(*letter) => Some(Kind::Primitive),
        _ => None,
    }
}

/// Returns whether these are the name of a class and `;`.
fn ends_class(bytes: &[u8]) -> bool
    ensures { result ≡ ends_class false bytes.now }
{
    let mut begun = false;
    for i in 0..bytes.len() {
        match bytes[i] {
            b';' => return begun && i + 1 == bytes.len(),
            b'/' if begun => begun = false,
            b'/' | b'.' | b'[' => return false,
            _ => begun = true,
        }
    }
    false
}

/// Returns whether the letter is that of a primitive type.
fn is_primitive_letter(letter: u8) -> bool
    ensures { result ≡ is_primitive_letter letter }
{
    matches!(
        letter,
        b'Z' | b'B' | b'S' | b'C' | b'J' | b'I' | b'F' | b'D'
    )
}
