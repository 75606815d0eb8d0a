//! Classes of several parts, with the maps of their numbers into the numbering of the union.

ghost use Rattle.std.specs.Prelude.{◌≡◌, ◌↔◌, ◌<◌, ◌≤◌, List, IfOk, IsTrue, length};
ghost use Rattle.dexmembers.specs.Fitting.{members_short_strings};
ghost use Rattle.dexpool.specs.Numberings.{Maps};
ghost use Rattle.dexclass.specs.Renumbering.{IsMappedClass};
ghost use Rattle.dexorder.specs.EqualLists.{AreFirstEqual};
ghost use Rattle.dexmerge.specs.Candidates.{class_of};
ghost use Rattle.dexmerge.specs.internal.CandidateLists.{AreMembersOf, AreOfParts, AreByPart, HaveEqualInterfaces};
ghost use Rattle.dexmerge.specs.Parts.{referents};
ghost use Rattle.dexmerge.specs.Counting.{Decides};

use dexclass::{Class, KnownLists, Program, renumbering_law};
use dexorder::{HasParents, InterfaceClass};
use dexpool::{Remap, SymbolKind};
use std::alloc::{AllocError, Global};

/// A class of a part, and the map of the numbers of the part into the union.
#[derive(Clone, Copy)]
pub(crate) struct Candidate<'a, 'b> {
    pub(crate) class: &'b Class<'a>,
    remap: &'b Remap,
    // The number of the part, and of its map.
    part: usize,
}

impl<'a, 'b> Candidate<'a, 'b> {
    /// Returns whether the two are the same class of the union.
    pub(crate) fn is_same(&self, other: &Candidate<'_, '_>) -> bool
        ensures { IsTrue result ↔ (class_of self.now ≡ class_of other.now) }
    {
        self.class.same_mapped(self.remap, other.class, other.remap)
    }

    // Returns whether the two are classes of one part that have the same interfaces there.
    fn has_interfaces_of(&self, other: &Candidate<'_, '_>) -> bool
        ensures { IsTrue result → (self.now.part ≡ other.now.part)
            × (self.now.class.now.interfaces ≡ other.now.class.now.interfaces) }
    {
        self.part == other.part && self.class.has_interfaces_of(other.class)
    }

    /// The greatest number in the union of a text that a `const-string` of the class names, or `None` without one; a
    /// `const-string/jumbo` does not count. Maps keep the order of numbers, so only the greatest is remapped.
    ///
    /// Condition: each symbol that occurs in the class has an image.
    ///
    /// Source: "Instruction Formats", the 16 bits of an index.
    pub(crate) fn greatest_short_string(&self) -> Option<usize>
        requires { IsMappedClass self.now.remap.now self.now.class.now }
        ensures { Decides result (members_short_strings (class_of self.now).members) }
    {
        self.remap.keeps_order();
        let greatest = self.class.members().greatest_short_string()?;
        self.remap.image(SymbolKind::Text, greatest as usize)
    }
}

/// The numbers are those of the union.
impl<'a, 'b> HasParents for Candidate<'a, 'b> {
    ghost use Rattle.dexmerge.specs.Candidates.{class_of};

    ghost name_of = { λ c. (class_of c).name };

    ghost superclass_of = { λ c. (class_of c).superclass };

    ghost interfaces_of = { λ c. (class_of c).interfaces };

    fn name(&self) -> usize {
        self.remap.or_same(SymbolKind::Typ, self.class.name())
    }

    fn superclass(&self) -> Option<usize> {
        let superclass = self.class.superclass()?;
        Some(self.remap.or_same(SymbolKind::Typ, superclass))
    }

    fn next_class(&self, by_type: &[Option<usize>], passed: usize) -> Option<InterfaceClass> {
        self.class.next_class_mapped(self.remap, by_type, passed)
    }
}

/// The classes of all parts.
///
/// Condition: a map for each part.
pub(crate) fn candidates<'a, 'b>(
    alloc: Global,
    parts: &'b [&Program<'a>],
    remaps: &'b [Remap],
) -> Result<Vec<Candidate<'a, 'b>>, AllocError>
    requires { length remaps.now ≡ length parts.now }
    ensures members { IfOk result (λ candidates.
        AreMembersOf (referents parts.now) remaps.now candidates.items) }
    ensures parts { IfOk result (λ candidates.
        AreOfParts (referents parts.now) remaps.now candidates.items) }
    ensures remaps { IfOk result (λ candidates. AreByPart remaps.now candidates.items) }
{
    renumbering_law();
    let mut candidates = Vec::new(alloc);
    for i in 0..parts.len() {
        let part = parts[i];
        part.is_good();
        let remap = &remaps[i];
        for class in part.classes() {
            candidates.push(Candidate {
                class,
                remap,
                part: i,
            })?;
        }
    }
    Ok(candidates)
}

// Candidate `found`, if it is before candidate `i` and one with the same interfaces, and else candidate `i`.
fn first_or_same(candidates: &[Candidate<'_, '_>], i: usize, found: usize) -> usize
    requires within { i < length candidates.now }
    requires parts { (remaps : List Maps) × AreByPart remaps candidates.now }
    ensures before { result ≤ i }
    ensures equal { HaveEqualInterfaces candidates.now result i }
{
    if found < i && candidates[i].has_interfaces_of(&candidates[found]) {
        return found;
    }
    i
}

/// For each candidate one with the same interfaces in the union: itself, or one before it. Those of one part that share
/// a long list have one that is before the others, and so has one whose long list equals that of the candidate before
/// it.
pub(crate) fn first_equal(
    alloc: Global,
    candidates: &[Candidate<'_, '_>],
) -> Result<Vec<usize>, AllocError>
    requires { (remaps : List Maps) × AreByPart remaps candidates.now }
    ensures { IfOk result (λ firsts.
        AreFirstEqual (λ c. (class_of c).interfaces) candidates.now firsts.items) }
{
    let mut known = KnownLists::none(alloc);
    let mut firsts = Vec::with_capacity(alloc, candidates.len())?;
    for i in 0..candidates.len() {
        let candidate = candidates[i];
        let found = known.first(candidate.part, candidate.class, i)?;
        firsts.push(first_or_same(candidates, i, found))?;
    }
    Ok(firsts)
}
