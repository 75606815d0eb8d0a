//! What a union comes to, and the first cap that it exceeds.

ghost use Rattle.std.specs.Prelude.{◌≡◌, ◌-◌, ◌^◌, min, nat_lt, All};
ghost use Rattle.dexspec.specs.Mentions.{Mentions};
ghost use Rattle.dexpool.specs.Pools.{count_of};
ghost use Rattle.dexclass.specs.Uses.{IsKnownClass};
ghost use Rattle.dexmerge.specs.Candidates.{IsOfPart, classes_of};
ghost use Rattle.dexmerge.specs.internal.Amounts.{weight_over, short_numbers, has_from, first_over};
ghost use Rattle.dexmerge.specs.Counting.{Decides};

use crate::candidates::Candidate;
use crate::caps::{CapKind, Caps};
use dexpool::{Numbering, SymbolKind};

/// What the classes weigh, with the symbols of the numbering, or 2^64 - 1 where that is more.
///
/// Condition: the classes are classes of parts, mapped to the numbering.
pub(crate) fn weight(numbering: &Numbering<'_>, classes: &[Candidate<'_, '_>]) -> u64
    requires { All (IsOfPart numbering.now) classes.now }
    ensures { result ≡ min (2 ^ 64 - 1) (weight_over numbering.now (classes_of classes.now)) }
{
    let mut weight = numbering.weight().saturating_add(1024);
    for i in 0..classes.len() {
        weight = weight.saturating_add(classes[i].class.weight());
    }
    weight
}

// Returns whether there are more symbols of a kind than a cap allows.
fn has_more(numbering: &Numbering<'_>, kind: SymbolKind, cap: u32) -> bool
    ensures { result ≡ nat_lt cap (count_of kind numbering.now) }
{
    numbering.count(kind) > cap as usize
}

/// The greatest number of a text that a `const-string` names, or `None` without one; a `const-string/jumbo` does not
/// count.
///
/// Condition: the classes are classes of parts, mapped to a numbering.
pub(crate) fn greatest_short_string(classes: &[Candidate<'_, '_>]) -> Option<usize>
    requires { (m : Mentions) × All (IsOfPart m) classes.now }
    ensures { Decides result (short_numbers (classes_of classes.now)) }
{
    let mut greatest = None;
    for i in 0..classes.len() {
        greatest = greatest.max(classes[i].greatest_short_string());
    }
    greatest
}

// Returns whether the number of a text that a `const-string` names is not below a cap. No code is read where there are
// no more texts than the cap.
fn has_text_from(numbering: &Numbering<'_>, classes: &[Candidate<'_, '_>], cap: u32) -> bool
    requires parts { All (IsOfPart numbering.now) classes.now }
    requires known { All (IsKnownClass numbering.now) (classes_of classes.now) }
    ensures { result ≡ has_from cap (short_numbers (classes_of classes.now)) }
{
    if !has_more(numbering, SymbolKind::Text, cap) {
        return false;
    }
    greatest_short_string(classes).is_some_and(|number| number >= cap as usize)
}

// Returns whether the classes weigh more than a cap allows.
fn is_heavier(numbering: &Numbering<'_>, classes: &[Candidate<'_, '_>], caps: &Caps) -> bool
    requires { All (IsOfPart numbering.now) classes.now }
    ensures { result ≡ nat_lt caps.now.weight (weight_over numbering.now (classes_of classes.now)) }
{
    caps.are_caps();
    weight(numbering, classes) > u64::from(caps.weight())
}

/// The number of the first cap that classes exceed, with the symbols of their numbering, if there is one.
///
/// Condition: the classes are classes of parts, mapped to the numbering.
pub(crate) fn first_exceeded(
    numbering: &Numbering<'_>,
    classes: &[Candidate<'_, '_>],
    caps: &Caps,
) -> Option<u8>
    requires parts { All (IsOfPart numbering.now) classes.now }
    requires known { All (IsKnownClass numbering.now) (classes_of classes.now) }
    ensures { result ≡ first_over caps.now numbering.now (classes_of classes.now) }
{
    if has_more(numbering, SymbolKind::Typ, caps.types()) {
        Some(CapKind::Types as u8)
    } else if has_more(numbering, SymbolKind::Proto, caps.protos()) {
        Some(CapKind::Protos as u8)
    } else if has_more(numbering, SymbolKind::Field, caps.fields()) {
        Some(CapKind::Fields as u8)
    } else if has_more(numbering, SymbolKind::Method, caps.methods()) {
        Some(CapKind::Methods as u8)
    } else if has_text_from(numbering, classes, caps.short_strings()) {
        Some(CapKind::ShortStrings as u8)
    } else if is_heavier(numbering, classes, caps) {
        Some(CapKind::Weight as u8)
    } else {
        None
    }
}
