//! The kind of a type, by the first unit of its descriptor alone.

ghost use Rattle.std.specs.Prelude.{◌≡◌, ◌↔◌, IsTrue};
ghost use Rattle.dexspec.specs.Names.{IsDescriptor, IsClass, IsValueType, IsReferenceType, shorty_letter};
ghost use Rattle.dexids.specs.internal.Kinds.{first_of};

use dexstr::Text;

/// The letter of void in a shorty.
pub(crate) const VOID: u16 = 0x56;

const CLASS: u16 = 0x4c;

const ARRAY: u16 = 0x5b;

// The first unit, and 0 where there is none.
fn first(text: &Text<'_>) -> u16
    ensures { result ≡ first_of text.now }
{
    text.units().next().unwrap_or(0)
}

/// Returns whether the type is a class.
#[tactic(auto, using(crate::proofs::FirstUnits::class_if, crate::proofs::FirstUnits::class_first))]
pub(crate) fn is_class(descriptor: &Text<'_>) -> bool
    requires { IsDescriptor descriptor.now }
    ensures { IsTrue result ↔ IsClass descriptor.now }
{
    first(descriptor) == CLASS
}

/// Returns whether the type is one of values: not void.
#[tactic(auto, using(crate::proofs::FirstUnits::value_if, crate::proofs::FirstUnits::value_not))]
pub(crate) fn is_value(descriptor: &Text<'_>) -> bool
    requires { IsDescriptor descriptor.now }
    ensures { IsTrue result ↔ IsValueType descriptor.now }
{
    first(descriptor) != VOID
}

/// Returns whether the type is a class or an array.
#[tactic(auto, using(crate::proofs::FirstUnits::reference_if, crate::proofs::FirstUnits::reference_letter))]
pub(crate) fn is_reference(descriptor: &Text<'_>) -> bool
    requires { IsDescriptor descriptor.now }
    ensures { IsTrue result ↔ IsReferenceType descriptor.now }
{
    letter(descriptor) == CLASS
}

/// The type's letter in a shorty.
///
/// Source: "ShortyDescriptor".
pub(crate) fn letter(descriptor: &Text<'_>) -> u16
    ensures { result ≡ shorty_letter descriptor.now }
{
    let unit = first(descriptor);
    if unit == ARRAY { CLASS } else { unit }
}
