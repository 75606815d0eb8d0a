//! Programs: sets of class definitions.

ghost use Rattle.std.specs.Prelude.{◌≡◌, ◌<◌, ◌-◌, ◌^◌, min, length, map, All, IfOk};
ghost use Rattle.std.specs.FinMap as finite;
ghost use Rattle.dexspec.specs.Files.{definitions, IsCollectionOf};
ghost use Rattle.dexspec.specs.WellFormed.{AreWellFormed};
ghost use Rattle.dexspec.specs.Mentions.{mentions};
ghost use Rattle.dexspec.specs.Depth.{in_class_order};
ghost use Rattle.dexspec.specs.Weight.{weight};
ghost use Rattle.dexspec.specs.Merging.{IsGood, greatest_caps};
ghost use Rattle.dexclass.specs.Numbered.{definition_of};
ghost use Rattle.dexorder.specs.Definitions.{AreDepthsOf};
ghost use Rattle.dexclass.specs.Parents.{AreDepthsByName};
ghost use Rattle.dexclass.specs.Uses.{IsKnownClass};
ghost use Rattle.dexclass.specs.Programs.{AreMergeable, AreClassesOf, IsClassAt};

use crate::arranging::arrange;
use crate::classes::Class;
use crate::equal_lists::first_equal;
use crate::ordering::{known_depths, names};
use dexorder::{class_order, depths_with_firsts};
use dexpool::{Numbering, SymbolKind};
use std::alloc::{AllocError, Global};
use std::marker::Model;

/// A set of class definitions that can be merged and written: no two have one name, no class is above itself, and
/// together they fit what a file can hold. Contracts see a finite map from names to the rest of each definition.
///
/// It keeps the numbering of just what the classes mention, and the classes with numbers instead of symbols, by
/// depth and then by name.
pub struct Program<'a> {
    pub(crate) numbering: Numbering<'a>,
    pub(crate) classes: Vec<Class<'a>>,
    pub(crate) weight: u64,
}

// With this a program is dropped by one call, in the crates above too.
impl Drop for Program<'_> {
    fn drop(self) {
        let Program {
            numbering: _,
            classes: _,
            weight: _,
        } = self;
    }
}

impl<'a> Model for Program<'a> {
    ghost use Rattle.dexspec.specs.Files.{Collection};
    ghost use Rattle.dexspec.specs.internal.Codes.{collection_code};
    ghost use Rattle.dexclass.specs.Programs.{collection_of, IsProgram};

    ghost Value = { Collection };

    ghost coded = { collection_code };

    ghost view = { λ p. collection_of p.numbering p.classes.items };

    ghost invariant = { λ p. IsProgram p.numbering p.classes.items p.weight };
}

impl<'a> Program<'a> {
    /// A program without classes.
    pub fn empty(alloc: Global) -> Program<'a>
        ensures { result ≡ finite.empty }
    {
        Program {
            numbering: Numbering::empty(alloc),
            classes: Vec::new(alloc),
            weight: 1024,
        }
    }

    /// The number of classes.
    pub fn len(&self) -> usize
        ensures { result ≡ length (definitions self.now) }
    {
        self.classes.len()
    }

    /// The classes, by depth and then by name. Their numbers are those of the program's numbering.
    ///
    /// Source: "class_defs"; by depth and then by name is this project's rule.
    pub fn classes(&self) -> &[Class<'a>]
        ensures { AreClassesOf self.now result.now }
    {
        &self.classes
    }

    /// Class `i` in the order of `classes`.
    ///
    /// Condition: `i` is below the number of classes.
    pub fn class(&self, i: usize) -> &Class<'a>
        requires { i < length (definitions self.now) }
        ensures { IsClassAt self.now i result.now }
    {
        &self.classes[i]
    }

    /// The classes, by depth and then by name, moved out of the program. Their numbers are those of its numbering.
    pub fn into_classes(self) -> Vec<Class<'a>>
        ensures { AreClassesOf self.entry result.items }
    {
        self.into_parts().1
    }

    /// The numbering of the program and its classes, moved out of it.
    pub(crate) fn into_parts(self) -> (Numbering<'a>, Vec<Class<'a>>)
        ensures numbering { result.0 ≡ mentions (definitions self.entry) }
        ensures classes { AreClassesOf self.entry result.1.items }
    {
        let Program {
            numbering,
            classes,
            weight: _,
        } = self;
        (numbering, classes)
    }

    /// The numbering of just what the classes mention.
    pub fn numbering(&self) -> &Numbering<'a>
        ensures { result.now ≡ mentions (definitions self.now) }
    {
        &self.numbering
    }

    /// What the classes weigh together.
    pub fn weight(&self) -> u64
        ensures { result ≡ weight (definitions self.now) }
    {
        self.weight
    }

    /// Does nothing: its clauses say what holds of every program.
    pub fn is_good(&self)
        ensures good { IsGood greatest_caps (definitions self.now) }
        ensures formed { AreWellFormed (definitions self.now) }
    {
        let _classes = &self.classes;
    }

    /// The program of classes, in any order, over the numbering of just what they mention.
    ///
    /// Conditions: no two classes have one name, none is above itself, and together they fit what a file can hold.
    pub fn of(
        alloc: Global,
        numbering: Numbering<'a>,
        classes: Vec<Class<'a>>,
    ) -> Result<Program<'a>, AllocError>
        requires { AreMergeable numbering classes.items }
        ensures { IfOk result
            (IsCollectionOf (map (definition_of numbering.entry) classes.entry.items)) }
    {
        numbering.is_numbering();
        let weight = weight_of(&numbering, &classes);
        Program::weighing(alloc, numbering, classes, weight)
    }

    /// The program of classes whose depths are known, as [`Program::of`] makes it. `depths` has a place for each type
    /// of the numbering, and at the number of each class's name the depth of that class.
    ///
    /// Conditions: those of [`Program::of`], and the depths are those of the classes.
    pub fn of_known(
        alloc: Global,
        numbering: Numbering<'a>,
        classes: Vec<Class<'a>>,
        depths: &[Option<usize>],
    ) -> Result<Program<'a>, AllocError>
        requires mergeable { AreMergeable numbering classes.items }
        requires depths { AreDepthsByName numbering
            (map (definition_of numbering) classes.items) depths.now }
        ensures { IfOk result
            (IsCollectionOf (map (definition_of numbering.entry) classes.entry.items)) }
    {
        numbering.is_numbering();
        let total = weight_of(&numbering, &classes);
        let known = known_depths(alloc, &classes, depths)?;
        Program::arranged(alloc, numbering, classes, &known, total)
    }

    /// The program of classes that weigh `total` together, as [`Program::of`] makes it.
    ///
    /// Conditions: those of [`Program::of`].
    pub(crate) fn weighing(
        alloc: Global,
        numbering: Numbering<'a>,
        classes: Vec<Class<'a>>,
        total: u64,
    ) -> Result<Program<'a>, AllocError>
        requires mergeable { AreMergeable numbering classes.items }
        requires total { total ≡ weight (map (definition_of numbering) classes.items) }
        ensures { IfOk result
            (IsCollectionOf (map (definition_of numbering.entry) classes.entry.items)) }
    {
        numbering.is_numbering();
        if classes.len() < 2 {
            return Ok(Program {
                numbering,
                classes,
                weight: total,
            });
        }
        let types = numbering.count(SymbolKind::Typ);
        let firsts = first_equal(alloc, &classes)?;
        let depths = depths_with_firsts(alloc, &classes, types, &firsts)?;
        Program::arranged(alloc, numbering, classes, &depths, total)
    }

    /// The program of classes that are by depth and then by name already, as [`Program::of`] makes it. It computes no
    /// depths.
    ///
    /// Conditions: those of [`Program::of`], and the order.
    pub(crate) fn of_ordered(numbering: Numbering<'a>, classes: Vec<Class<'a>>) -> Program<'a>
        requires mergeable { AreMergeable numbering classes.items }
        requires order { in_class_order (map (definition_of numbering) classes.items)
            ≡ map (definition_of numbering) classes.items }
        ensures { IsCollectionOf (map (definition_of numbering.entry) classes.entry.items) result }
    {
        numbering.is_numbering();
        let weight = weight_of(&numbering, &classes);
        Program {
            numbering,
            classes,
            weight,
        }
    }

    // The program of classes of these depths that weigh `total` together. It puts them in order.
    fn arranged(
        alloc: Global,
        numbering: Numbering<'a>,
        mut classes: Vec<Class<'a>>,
        depths: &[Option<usize>],
        total: u64,
    ) -> Result<Program<'a>, AllocError>
        requires mergeable { AreMergeable numbering classes.items }
        requires depths { AreDepthsOf (map (definition_of numbering) classes.items) depths.now }
        requires total { total ≡ weight (map (definition_of numbering) classes.items) }
        ensures { IfOk result
            (IsCollectionOf (map (definition_of numbering.entry) classes.entry.items)) }
    {
        numbering.is_numbering();
        let names = names(alloc, &classes)?;
        let order = class_order(alloc, depths, &names)?;
        arrange(alloc, &mut classes, &order)?;
        Ok(Program {
            numbering,
            classes,
            weight: total,
        })
    }

    /// The same program, in memory of its own.
    pub fn copy(&self) -> Result<Program<'a>, AllocError>
        ensures { IfOk result (λ copy. copy ≡ self.now) }
    {
        let numbering = self.numbering.copy()?;
        let mut classes = Vec::with_capacity(*self.classes.allocator(), self.classes.len())?;
        for class in &self.classes {
            classes.push(class.copy()?)?;
        }
        Ok(Program {
            numbering,
            classes,
            weight: self.weight,
        })
    }
}

// What classes weigh over the numbering of just what they mention, or 2^64 - 1 where that is more.
fn weight_of(numbering: &Numbering<'_>, classes: &[Class<'_>]) -> u64
    requires known { All (IsKnownClass numbering.now) classes.now }
    requires mentions { numbering.now ≡ mentions (map (definition_of numbering.now) classes.now) }
    ensures { result ≡ min (2 ^ 64 - 1) (weight (map (definition_of numbering.now) classes.now)) }
{
    numbering.is_numbering();
    let mut weight = numbering.weight().saturating_add(1024);
    for class in classes {
        weight = weight.saturating_add(class.weight());
    }
    weight
}
