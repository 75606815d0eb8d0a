//! Programs merged.

ghost use Rattle.std.specs.Prelude.{◌≡◌, List, IfOk, IfErr};
ghost use Rattle.dexspec.specs.Classes.{Definition};
ghost use Rattle.dexspec.specs.Files.{AreWithin};
ghost use Rattle.dexspec.specs.Merging.{IsFirstCause};
ghost use Rattle.dexlaws.specs.Causes.{GoodHasNoCause};
ghost use Rattle.dexlaws.specs.Growth.{Absorbs};
ghost use Rattle.dexmerge.specs.Faults.{IsMerged, Reports};
ghost use Rattle.dexmerge.specs.Parts.{referents, definitions_in, all_parts, all_definitions};
ghost use Rattle.dexmerge.specs.internal.Unions.{IsChecked, IsJoined};
ghost use Rattle.dexclass.specs.Parents.{AreDepthsByName};

use crate::caps::Caps;
use crate::class_union::collect_classes;
use crate::faults::MergeFault;
use crate::union_checks::check;
use dexclass::Program;
use dexpool::{Numbering, Remap, SymbolKind};
use std::alloc::{AllocError, Global};

// The parts: those that are owned, and then the files.
fn all_parts<'a, 'b>(
    alloc: Global,
    owned: &'b [Program<'a>],
    files: &[&'b Program<'a>],
) -> Result<Vec<&'b Program<'a>>, AllocError>
    ensures { IfOk result (λ parts. referents parts.items ≡ all_parts owned.now files.now) }
{
    let mut parts: Vec<&Program<'a>> = owned.iter().collect(alloc)?;
    parts.extend_from_slice(files)?;
    Ok(parts)
}

/// The numbering of all parts, and the map of the numbers of each.
pub(crate) fn joined<'a>(
    alloc: Global,
    parts: &[&Program<'a>],
) -> Result<(Numbering<'a>, Vec<Remap>), AllocError>
    ensures { IfOk result (λ joined. IsJoined (referents parts.now) joined.0 joined.1.items) }
{
    let numberings: Vec<_> = parts.iter().map(|part| part.numbering()).collect(alloc)?;
    let (numbering, remaps) = Numbering::join(alloc, &numberings)?;
    numbering.is_numbering();
    dexpool::mentions_law();
    Ok((numbering, remaps))
}

// What is found of parts, where they can be merged: their numbering, the map of the numbers of each, and with a place
// for each type, at the number of each class's name the depth of that class.
fn checked<'a>(
    alloc: Global,
    owned: &[Program<'a>],
    files: &[&Program<'a>],
    caps: &Caps,
) -> Result<(Numbering<'a>, Vec<Remap>, Vec<Option<usize>>), MergeFault>
    ensures good { IfOk result (λ found.
        IsChecked caps.now (all_parts owned.now files.now) found.0 found.1.items) }
    ensures depths { IfOk result (λ found.
        AreDepthsByName found.0 (all_definitions owned.now files.now) found.2.items) }
    ensures fault { IfErr result
        (Reports (IsFirstCause caps.now (all_definitions owned.now files.now))) }
{
    let parts = all_parts(alloc, owned, files)?;
    let (numbering, remaps) = joined(alloc, &parts)?;
    let depths = check(alloc, &numbering, &parts, &remaps, caps)?;
    Ok((numbering, remaps, depths))
}

/// The program of all classes of programs, as [`merge`] has it. Classes of those that are owned are moved, those of
/// files are copied.
pub(crate) fn merge_all<'a>(
    alloc: Global,
    owned: Vec<Program<'a>>,
    files: &[&Program<'a>],
    caps: &Caps,
) -> Result<Program<'a>, MergeFault>
    ensures merged { IfOk result (IsMerged caps.now (all_definitions owned.entry.items files.now)) }
    ensures fault { IfErr result
        (Reports (IsFirstCause caps.now (all_definitions owned.entry.items files.now))) }
{
    let (numbering, remaps, depths) = checked(alloc, &owned, files, caps)?;
    caps.are_caps();
    let types = numbering.count(SymbolKind::Typ);
    let classes = collect_classes(alloc, owned, files, &remaps, types)?;
    Ok(Program::of_known(alloc, numbering, classes, &depths)?)
}

/// The program of all classes of the parts, in any order and with any repeats.
///
/// Error: `Conflict` with the least name that has two different classes; else `Cycle` with the least name of a class
/// that is above itself or below such a class; else `Cap` with the first cap that the classes exceed; or `Memory` if an
/// allocation failed. What can be merged whole can be merged in part, each cause of a part is one of the whole, and
/// what can be merged has no cause.
pub fn merge<'a>(
    alloc: Global,
    parts: &[&Program<'a>],
    caps: &Caps,
) -> Result<Program<'a>, MergeFault>
    ensures merged { IfOk result (IsMerged caps.now (definitions_in parts.now)) }
    ensures fault { IfErr result (Reports (IsFirstCause caps.now (definitions_in parts.now))) }
    ensures law { (part whole : List Definition) → AreWithin part whole → Absorbs part whole }
    ensures apart { GoodHasNoCause caps.now }
{
    dexlaws::causes::good_or_first_cause();
    dexlaws::growth::absorption_law();
    merge_all(alloc, Vec::new(alloc), parts, caps)
}
