//! Fields put together: what class data says of them, with the places of the sets of a directory.

ghost use Rattle.std.specs.Prelude.{◌≡◌, ℕ, ◌<◌, IfOk, IfSome};
ghost use Rattle.dexmembers.specs.internal.Attaching.{place_for, EntriesRise, AreHeldFields, HaveFieldSetsBelow, PlacesBelow};

use crate::class_data::EncodedField;
use crate::members::DeclaredField;
use crate::places::Place;
use dexflags::FieldFlags;
use std::alloc::{AllocError, Global};

/// Returns the place in the entry of a number, if there is one.
pub(crate) fn place_for(entries: &[(u32, u32)], number: u32) -> Result<Place, AllocError>
    ensures found { EntriesRise entries.now
        → IfOk result (λ place. place ≡ place_for entries.now number) }
    ensures held { (limit : ℕ) → PlacesBelow limit entries.now
        → IfOk result (λ place. IfSome place (λ p. p < limit)) }
{
    match entries.binary_search_by_key(&number, |entry| entry.0) {
        Ok(at) => Place::of(Some(entries[at].1)),
        Err(_) => Place::of(None),
    }
}

/// The fields of a list of class data, with the places of their sets in a directory.
///
/// Source: "encoded_field format", "field_annotation format".
pub(crate) fn attach_fields(
    alloc: Global,
    listed: &[EncodedField],
    sets: &[(u32, u32)],
) -> Result<Vec<DeclaredField>, AllocError>
    ensures fields { EntriesRise sets.now → IfOk result (AreHeldFields sets.now listed.now) }
    ensures held { (limit : ℕ) → PlacesBelow limit sets.now
        → IfOk result (HaveFieldSetsBelow limit) }
{
    let mut fields = Vec::with_capacity(alloc, listed.len())?;
    for field in listed {
        fields.push(DeclaredField {
            number: field.index,
            flags: FieldFlags::from_bits_retain(field.flags),
            set: place_for(sets, field.index)?,
        })?;
    }
    Ok(fields)
}
