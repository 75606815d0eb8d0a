//! What a union holds, in numbers.

ghost use Rattle.std.specs.Prelude.{◌≡◌, ◌≤◌, List, All, IfOk, IfErr};
ghost use Rattle.dexspec.specs.Classes.{Definition};
ghost use Rattle.dexpool.specs.Numberings.{Maps};
ghost use Rattle.dexclass.specs.Uses.{IsKnownClass};
ghost use Rattle.dexmerge.specs.Candidates.{IsOfPart, classes_of};
ghost use Rattle.dexmerge.specs.Counting.{AreCounts, AreCountsOver, above_it};
ghost use Rattle.dexmerge.specs.Faults.{ReportsUnderAnyCaps};
ghost use Rattle.dexmerge.specs.Parts.{definitions_in};
ghost use Rattle.dexmerge.specs.internal.CandidateLists.{AreByPart};
ghost use Rattle.dexmerge.specs.internal.Unions.{AreCopies, AreKeptSoundly, CopiesReport};

use crate::candidates::{Candidate, candidates};
use crate::faults::MergeFault;
use crate::fitting::{greatest_short_string, weight};
use crate::merging::joined;
use crate::union_checks::{class_depths, one_of_each};
use dexclass::Program;
use dexpool::{Numbering, SymbolKind};
use std::alloc::Global;

/// What a merged program holds.
#[derive(Clone, Copy, Debug, PartialEq, Eq)]
pub struct Counts {
    /// The types that the classes mention.
    pub types: usize,
    /// The protos.
    pub protos: usize,
    /// The fields.
    pub fields: usize,
    /// The methods.
    pub methods: usize,
    /// One more than the greatest number of a string that a `const-string` names, or 0 without one.
    pub short_strings: usize,
    /// The weight, or 2^64 - 1 where it is more.
    pub weight: u64,
    /// The classes.
    pub classes: usize,
    /// The strings.
    pub strings: usize,
}

// One more than the number, or 0 without one.
fn above_it(number: Option<usize>, count: usize) -> usize
    requires { above_it number ≤ count }
    ensures { result ≡ above_it number }
{
    match number {
        Some(number) if number < count => number + 1,
        _ => 0,
    }
}

// What classes hold, with the symbols of their numbering.
fn counts_of(numbering: &Numbering<'_>, classes: &[Candidate<'_, '_>]) -> Counts
    requires parts { All (IsOfPart numbering.now) classes.now }
    requires known { All (IsKnownClass numbering.now) (classes_of classes.now) }
    ensures { AreCountsOver numbering.now (classes_of classes.now) result }
{
    let strings = numbering.count(SymbolKind::Text);
    Counts {
        types: numbering.count(SymbolKind::Typ),
        protos: numbering.count(SymbolKind::Proto),
        fields: numbering.count(SymbolKind::Field),
        methods: numbering.count(SymbolKind::Method),
        short_strings: above_it(greatest_short_string(classes), strings),
        weight: weight(numbering, classes),
        classes: classes.len(),
        strings,
    }
}

// One class of each name. None of them is above itself.
fn sound_classes<'a, 'b>(
    alloc: Global,
    numbering: &Numbering<'_>,
    copies: &[Candidate<'a, 'b>],
) -> Result<Vec<Candidate<'a, 'b>>, MergeFault>
    requires copies { (D : List Definition) × AreCopies numbering.now D copies.now }
    requires parts { (remaps : List Maps) × AreByPart remaps copies.now }
    ensures kept { IfOk result (λ kept. AreKeptSoundly numbering.now copies.now kept.items) }
    ensures fault { IfErr result (CopiesReport numbering.now copies.now) }
{
    let classes = one_of_each(alloc, numbering, copies)?;
    let _depths = class_depths(alloc, numbering, &classes)?;
    Ok(classes)
}

/// What the program of all classes of the parts holds, in any order and with any repeats: the numbers that caps bound,
/// and those of its classes and strings. No cap is asked. There are counts only where no name has two different classes
/// and no class is above itself.
///
/// Error: `Conflict` with the least name that has two different classes; else `Cycle` with the least name of a class
/// that is above itself or below such a class; or `Memory` if an allocation failed. `Cap` is never returned.
pub fn measure(alloc: Global, parts: &[&Program<'_>]) -> Result<Counts, MergeFault>
    ensures counts { IfOk result (AreCounts (definitions_in parts.now)) }
    ensures fault { IfErr result (ReportsUnderAnyCaps (definitions_in parts.now)) }
{
    let (numbering, remaps) = joined(alloc, parts)?;
    let copies = candidates(alloc, parts, &remaps)?;
    let classes = sound_classes(alloc, &numbering, &copies)?;
    Ok(counts_of(&numbering, &classes))
}
