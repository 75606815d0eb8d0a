//! Annotations and static values, encoded.

ghost use Rattle.std.specs.Prelude.{◌≡◌, ◌^◌, ◌≤◌, IfOk, OnOk};
ghost use Rattle.dexlayout.specs.internal.Annotated.{set_annotations};
ghost use Rattle.dexlayout.specs.internal.Encoding.{encode_uses, no_items_from, encode_use, static_item};
ghost use Rattle.dexlayout.specs.internal.Placing.{AreKnownSets};
ghost use Rattle.dexspec.specs.Placing.{end};
ghost use Rattle.dexspec.specs.Canonical.{annotation_section};
ghost use Rattle.dexclass.specs.Uses.{IsKnownClass};
ghost use Rattle.dexlayout.specs.Laid.{AreWritable, ordered_of, AreStaticValues};

use crate::input::Input;
use crate::items::Items;
use dexclass::Class;
use dexval::put_annotation;
use std::alloc::AllocError;

/// The annotations of the sets that are written, encoded, and the offset of each, from an offset on, set by set.
///
/// Condition: they end within what a file may have.
///
/// Source: "annotation_item".
pub(crate) fn place_annotations(input: &Input<'_, '_>, from: u32) -> Result<Items, AllocError>
    requires known { AreKnownSets input.now.numbering.now input.now.written.now }
    requires fits { (encode_uses 1 (no_items_from from)
        (set_annotations input.now.numbering.now input.now.written.now)).places.end ≤ 2 ^ 30 }
    ensures { IfOk result (λ items. items ≡ encode_uses 1 (no_items_from from)
        (set_annotations input.now.numbering.now input.now.written.now)) }
{
    input.numbering.is_numbering();
    let mut items = Items::starting_at(input.alloc, from, input.written.len())?;
    for set in input.written {
        for annotation in set.annotations() {
            let before = items.bytes.len();
            put_annotation(annotation, input.numbering, &mut items.bytes)?;
            items.end_item(before)?;
        }
    }
    Ok(items)
}

/// The arrays of static values of the classes, encoded, and their offsets: one for each class. They are after the
/// annotations.
///
/// Source: "encoded_array_item".
pub(crate) fn place_static_values(input: &Input<'_, '_>, from: u32) -> Result<Items, AllocError>
    requires classes { AreWritable input.now.numbering.now input.now.classes.now }
    requires from { from
        ≡ end (annotation_section (ordered_of input.now.numbering.now input.now.classes.now)) }
    ensures { IfOk result (AreStaticValues input.now.numbering.now input.now.classes.now) }
{
    let mut items = Items::starting_at(input.alloc, from, input.classes.len())?;
    for class in input.classes {
        put_array(input, class, &mut items)?;
    }
    Ok(items)
}

// Encodes the array of one class after the others.
fn put_array(input: &Input<'_, '_>, class: &Class<'_>, items: &mut Items) -> Result<(), AllocError>
    requires known { IsKnownClass input.now.numbering.now class.now }
    requires fits { (encode_use 1 items.old
        (static_item input.now.numbering.now class.now)).places.end
        ≤ 2 ^ 30 }
    ensures { OnOk result (items.new
        ≡ encode_use 1 items.old (static_item input.now.numbering.now class.now)) }
{
    let members = class.members();
    if members.static_values().is_empty() {
        return items.pass();
    }
    let before = items.bytes.len();
    members.put_static_values(input.numbering, &mut items.bytes)?;
    items.end_item(before)
}
