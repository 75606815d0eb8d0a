//! Programs without debug programs and source texts.

ghost use Rattle.std.specs.Prelude.{◌≡◌, List, map, IfOk};
ghost use Rattle.dexspec.specs.Classes.{Definition};
ghost use Rattle.dexspec.specs.Merging.{Caps, IsGood};
ghost use Rattle.dexspec.specs.Stripping as stripping;
ghost use Rattle.dexspec.specs.Stripping.{strip_collection};
ghost use Rattle.dexclass.specs.Laws.{StrippedStaysGood, StripCommutesWithMerge};
ghost use Rattle.dexclass.specs.internal.Stripped.{stripped_class};

use crate::classes::Class;
use crate::programs::Program;
use crate::trimming::into_trimmed;
use dexlaws::strip::{strip_collection_law, strip_depth, strip_good, strip_merge_law};
use dexmembers::{members_stripped_law, members_weight_law};
use std::alloc::{AllocError, Global};

// Drops the class's source text and its methods' debug programs.
fn strip_class(class: &mut Class<'_>)
    ensures { class.new ≡ stripped_class class.old }
{
    class.source = None;
    class.members.drop_debug();
    let interfaces = class.interfaces.numbers().len() as u64;
    let row = 2u64.saturating_mul(interfaces).saturating_add(96);
    class.weight = row.saturating_add(class.members.weight());
}

// Drops the source texts and the debug programs of the classes.
fn strip_all(classes: &mut Vec<Class<'_>>)
    ensures { classes.new.items ≡ map stripped_class classes.old.items }
{
    for i in 0..classes.len() {
        strip_class(&mut classes[i]);
    }
}

/// What [`strip`] makes of a program that is given up: its classes are changed in place, and not copied.
///
/// Source: as of [`strip`].
pub fn into_stripped<'a>(alloc: Global, program: Program<'a>) -> Result<Program<'a>, AllocError>
    ensures { IfOk result (λ stripped. stripped ≡ strip_collection program.entry) }
{
    strip_collection_law();
    strip_depth();
    strip_good();
    members_stripped_law();
    members_weight_law();
    program.is_good();
    let (numbering, mut classes) = program.into_parts();
    numbering.is_numbering();
    strip_all(&mut classes);
    let trimmed = into_trimmed(alloc, numbering, &mut classes)?;
    // Names, superclasses and interfaces stay, so the classes are in order still.
    Ok(Program::of_ordered(trimmed, classes))
}

/// The program without its debug programs and source texts. The texts and types that only they mentioned leave the
/// pools. What is good under caps stays so; a stripped program is its own strip; and where programs merge by a plan
/// under caps, the stripped ones merge by the same plan under the same caps, to what is left of their union.
///
/// Source: "code_item", the field `debug_info_off`, where 0 encodes none, and "class_def_item", the field
/// `source_file_idx`, where NO_INDEX encodes none.
pub fn strip<'a>(alloc: Global, program: &Program<'a>) -> Result<Program<'a>, AllocError>
    ensures stripped { IfOk result (λ stripped. stripped ≡ strip_collection program.now) }
    ensures good { StrippedStaysGood program.now }
    ensures all_good { (caps : Caps) (D : List Definition) → IsGood caps D
        → IsGood caps (stripping.strip D) }
    ensures merges { StripCommutesWithMerge }
    ensures twice { strip_collection (strip_collection program.now) ≡ strip_collection program.now }
{
    strip_collection_law();
    strip_good();
    strip_merge_law();
    program.is_good();
    into_stripped(alloc, program.copy()?)
}
