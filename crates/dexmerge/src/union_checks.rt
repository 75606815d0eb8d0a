//! Whether the classes of parts can be merged: conflicts are checked first, then cycles, and then caps.

ghost use Rattle.std.specs.Prelude.{◌≡◌, IfOk, MatchOption, length, List, IfErr};
ghost use Rattle.dexpool.specs.Numberings.{AreIn, Maps};
ghost use Rattle.dexclass.specs.Parents.{ArePlaces};
ghost use Rattle.dexmerge.specs.Candidates.{classes_of, lesser_of};
ghost use Rattle.dexmerge.specs.internal.CandidateLists.{AllEqual, AreByPart, IsLeastUnequal, kept_of};
ghost use Rattle.dexspec.specs.Classes.{Definition};
ghost use Rattle.dexspec.specs.Mentions.{Mentions};
ghost use Rattle.dexmerge.specs.internal.Cycles.{AreKept, KeptHaveDepths, KeptAreByName};
ghost use Rattle.dexmerge.specs.internal.Unions.{AreOnce, OnceReports, AreCopies, IsJoined, AreKeptOnce, CopiesReport, PartsAreGood};
ghost use Rattle.dexspec.specs.Merging.{IsFirstCause};
ghost use Rattle.dexmerge.specs.Faults.{Reports};
ghost use Rattle.dexmerge.specs.Parts.{referents, definitions_in};

use crate::candidates::{Candidate, candidates, first_equal};
use crate::caps::Caps;
use crate::faults::MergeFault;
use crate::fitting::first_exceeded;
use dexclass::{Program, same_law};
use dexorder::{
    HasParents, class_of_type, classes_by_type, depths_with_firsts, first_without_depth,
};
use dexpool::{Numbering, Remap, SymbolKind};
use dexstr::Name;
use std::alloc::{AllocError, Global};

// The lesser of the names.
fn lesser(least: Option<usize>, name: usize) -> Option<usize>
    ensures { result ≡ lesser_of least name }
{
    Some(least.map_or(name, |least| least.min(name)))
}

/// The least name of different candidates, if there is one.
///
/// Condition: the places are those of the candidates.
fn first_conflict(candidates: &[Candidate<'_, '_>], places: &[Option<usize>]) -> Option<usize>
    requires { ArePlaces (classes_of candidates.now) places.now }
    ensures { MatchOption result (AllEqual candidates.now places.now)
        (IsLeastUnequal candidates.now places.now) }
{
    let mut least = None;
    for i in 0..candidates.len() {
        let name = candidates[i].name();
        if let Some(kept) = class_of_type(places, name) {
            if kept != i && !candidates[i].is_same(&candidates[kept]) {
                least = lesser(least, name);
            }
        }
    }
    least
}

/// The candidates that are kept, by name.
///
/// Condition: the places are those of the candidates.
fn kept<'a, 'b>(
    alloc: Global,
    candidates: &[Candidate<'a, 'b>],
    places: &[Option<usize>],
) -> Result<Vec<Candidate<'a, 'b>>, AllocError>
    requires { ArePlaces (classes_of candidates.now) places.now }
    ensures within { IfOk result (λ kept. AreIn kept.items candidates.now) }
    ensures kept { IfOk result (λ kept. classes_of kept.items ≡ kept_of candidates.now places.now) }
{
    let mut kept = Vec::new(alloc);
    for place in places {
        if let Some(i) = place {
            kept.push(candidates[*i])?;
        }
    }
    Ok(kept)
}

/// The depths of the classes, which come by name, one of each.
///
/// Error: `Cycle` with the least name of a class that is above itself or below such a class; or `Memory` if an
/// allocation failed.
///
/// Source: "class_defs", a superclass and interfaces come before the class.
pub(crate) fn class_depths(
    alloc: Global,
    numbering: &Numbering<'_>,
    classes: &[Candidate<'_, '_>],
) -> Result<Vec<Option<usize>>, MergeFault>
    requires once { (D : List Definition) × AreOnce numbering.now D classes.now }
    requires parts { (remaps : List Maps) × AreByPart remaps classes.now }
    ensures depths { IfOk result (λ depths. KeptHaveDepths classes.now depths.items) }
    ensures fault { IfErr result (OnceReports numbering.now classes.now) }
{
    let types = numbering.count(SymbolKind::Typ);
    let firsts = first_equal(alloc, classes)?;
    let depths = depths_with_firsts(alloc, classes, types, &firsts)?;
    match first_without_depth(&depths) {
        Some(i) => Err(MergeFault::Cycle(Name::of(alloc, numbering.typ(classes[i].name()))?)),
        None => Ok(depths),
    }
}

/// The depths at the numbers of the classes' names, with a place for each type.
///
/// Conditions: the classes are those of a numbering that has `types` types, their names rise, and there is a depth for
/// each class.
fn depths_by_name(
    alloc: Global,
    classes: &[Candidate<'_, '_>],
    depths: &[Option<usize>],
    types: usize,
) -> Result<Vec<Option<usize>>, AllocError>
    requires kept { (m : Mentions) × (length m.types ≡ types) × AreKept m (classes_of classes.now) }
    requires count { length depths.now ≡ length classes.now }
    ensures { IfOk result (λ by_name. KeptAreByName types classes.now depths.now by_name.items) }
{
    let mut by_name = vec![in alloc; None; types]?;
    for i in 0..classes.len() {
        by_name[classes[i].name()] = depths[i];
    }
    Ok(by_name)
}

/// One class of each name. Different classes of one name are a conflict.
pub(crate) fn one_of_each<'a, 'b>(
    alloc: Global,
    numbering: &Numbering<'_>,
    candidates: &[Candidate<'a, 'b>],
) -> Result<Vec<Candidate<'a, 'b>>, MergeFault>
    requires { (D : List Definition) × AreCopies numbering.now D candidates.now }
    ensures kept { IfOk result (λ kept. AreKeptOnce numbering.now candidates.now kept.items) }
    ensures within { IfOk result (λ kept. AreIn kept.items candidates.now) }
    ensures fault { IfErr result (CopiesReport numbering.now candidates.now) }
{
    same_law();
    let places = classes_by_type(alloc, candidates, numbering.count(SymbolKind::Typ))?;
    match first_conflict(candidates, &places) {
        Some(name) => Err(MergeFault::Conflict(Name::of(alloc, numbering.typ(name))?)),
        None => Ok(kept(alloc, candidates, &places)?),
    }
}

/// Returns whether the classes of parts can be merged. Returns the depths of the classes: there is a place for each
/// type of the numbering, and at the number of each class's name the depth of that class.
///
/// Condition: the numbering is that of all parts, and there is a map of each part into it. Error: the first cause
/// why they cannot; or `Memory` if an allocation failed.
pub(crate) fn check(
    alloc: Global,
    numbering: &Numbering<'_>,
    parts: &[&Program<'_>],
    remaps: &[Remap],
    caps: &Caps,
) -> Result<Vec<Option<usize>>, MergeFault>
    requires { IsJoined (referents parts.now) numbering.now remaps.now }
    ensures good { IfOk result (λ depths.
        PartsAreGood caps.now numbering.now parts.now depths.items) }
    ensures fault { IfErr result (Reports (IsFirstCause caps.now (definitions_in parts.now))) }
{
    let copies = candidates(alloc, parts, remaps)?;
    let classes = one_of_each(alloc, numbering, &copies)?;
    let depths = class_depths(alloc, numbering, &classes)?;
    match first_exceeded(numbering, &classes, caps) {
        Some(cap) => Err(MergeFault::Cap(cap)),
        None => Ok(depths_by_name(alloc, &classes, &depths, numbering.count(SymbolKind::Typ))?),
    }
}
