//! Classes over a numbering of just what they mention.

ghost use Rattle.std.specs.Prelude.{◌≡◌, All, IfOk, OnOk, map};
ghost use Rattle.dexpool.specs.Orderly.{MapsDown};
ghost use Rattle.dexclass.specs.Numbered.{definition_of};
ghost use Rattle.dexclass.specs.Uses.{IsKnownClass};
ghost use Rattle.dexclass.specs.internal.Trimming.{MarkClasses, AreTrimmed};
ghost use Rattle.dexclass.specs.Renumbering.{renumbered_class, IsMappedClass};

use crate::classes::Class;
use crate::equal_lists::first_equal;
use crate::laws::{renumbering_law, uses_law};
use crate::shared_renumbering::Renumbering;
use dexmembers::members_cut_law;
use dexpool::{Marks, Numbering, Remap};
use dexval::KnownImages;
use std::alloc::{AllocError, Global};
use std::mem;

// Marks what the classes name. A long list that several of them share is gone over once.
fn marked(
    alloc: Global,
    numbering: &Numbering<'_>,
    classes: &[Class<'_>],
) -> Result<Marks, AllocError>
    requires { All (IsKnownClass numbering.now) classes.now }
    ensures { IfOk result (MarkClasses numbering.now classes.now) }
{
    uses_law();
    numbering.is_numbering();
    let firsts = first_equal(alloc, classes)?;
    let mut marks = Marks::none(alloc, numbering)?;
    for i in 0..classes.len() {
        classes[i].mark_with(firsts[i] < i, &mut marks);
    }
    Ok(marks)
}

// Remaps the numbers of the classes to those of a part of their numbering. Known images are tried, and those that are made
// are known then.
fn cut_all<'a>(
    alloc: Global,
    remap: &Remap,
    classes: &mut Vec<Class<'a>>,
    known: &mut KnownImages,
) -> Result<(), AllocError>
    requires down { MapsDown remap.now }
    requires remapped { All (IsMappedClass remap.now) classes.old.items }
    ensures { OnOk result (classes.new.items ≡ map (renumbered_class remap.now) classes.old.items) }
{
    members_cut_law();
    let images = mem::replace(known, KnownImages::none(alloc));
    let mut renumbering = Renumbering::with_known(alloc, remap, classes, images)?;
    for i in 0..classes.len() {
        classes[i].members().numbers_fit();
        renumbering.renumber(&mut classes[i])?;
    }
    *known = renumbering.into_known();
    Ok(())
}

/// The numbering of just what the classes mention, to which their numbers are remapped. Known images of what classes
/// share are tried, and those that are made are known then.
///
/// Condition: the classes' numbers are those of the numbering.
pub(crate) fn trim<'a>(
    alloc: Global,
    numbering: &Numbering<'a>,
    classes: &mut Vec<Class<'a>>,
    known: &mut KnownImages,
) -> Result<Numbering<'a>, AllocError>
    requires { All (IsKnownClass numbering.now) classes.old.items }
    ensures { IfOk result (λ trimmed. AreTrimmed
        (map (definition_of numbering.now) classes.old.items) trimmed classes.new.items) }
{
    uses_law();
    renumbering_law();
    numbering.is_numbering();
    let marks = marked(alloc, numbering, classes)?;
    let (trimmed, remap) = numbering.keep(alloc, &marks)?;
    cut_all(alloc, &remap, classes, known)?;
    Ok(trimmed)
}

/// What [`trim`] makes of a numbering that is given up. Where the classes mention every symbol, it is that numbering,
/// and no number changes: a file that was written by rule has no other symbols.
///
/// Condition: as of [`trim`].
pub(crate) fn into_trimmed<'a>(
    alloc: Global,
    numbering: Numbering<'a>,
    classes: &mut Vec<Class<'a>>,
) -> Result<Numbering<'a>, AllocError>
    requires { All (IsKnownClass numbering) classes.old.items }
    ensures { IfOk result (λ trimmed. AreTrimmed
        (map (definition_of numbering.entry) classes.old.items) trimmed classes.new.items) }
{
    uses_law();
    renumbering_law();
    numbering.is_numbering();
    let marks = marked(alloc, &numbering, classes)?;
    let (trimmed, remap) = numbering.into_kept(alloc, &marks)?;
    if let Some(remap) = remap {
        cut_all(alloc, &remap, classes, &mut KnownImages::none(alloc))?;
    }
    Ok(trimmed)
}
