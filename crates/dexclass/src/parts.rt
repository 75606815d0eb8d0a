//! Parts of a program: some of its classes, over the numbering of just what these mention.

ghost use Rattle.std.specs.Prelude.{◌≡◌, ◌≤◌, length, map, not, take, drop, vec_len, IfOk, OnOk};
ghost use Rattle.dexpool.specs.Cut.{kept};
ghost use Rattle.dexspec.specs.Files.{definitions, IsCollectionOf};
ghost use Rattle.dexspec.specs.Depth.{in_class_order};

use crate::classes::Class;
use crate::programs::Program;
use crate::trimming::{into_trimmed, trim};
use dexpool::Numbering;
use dexval::KnownImages;
use std::alloc::{AllocError, Global};
use std::marker::Model;

/// Some classes of a program, in the program's order, over the numbering of just what they mention. Contracts see the
/// list of their definitions.
pub struct Part<'a> {
    numbering: Numbering<'a>,
    classes: Vec<Class<'a>>,
}

// With this a part is dropped by one call, in the crates above too.
impl Drop for Part<'_> {
    fn drop(self) {
        let Part {
            numbering: _,
            classes: _,
        } = self;
    }
}

impl<'a> Model for Part<'a> {
    ghost use Rattle.std.specs.Prelude.{List, map};
    ghost use Rattle.std.specs.Coded.{coded_list};
    ghost use Rattle.dexspec.specs.Classes.{Definition};
    ghost use Rattle.dexspec.specs.internal.Codes.{definition_code};
    ghost use Rattle.dexclass.specs.Numbered.{definition_of};
    ghost use Rattle.dexclass.specs.Programs.{AreMergeable};

    ghost Value = { List Definition };

    ghost coded = { coded_list definition_code };

    ghost view = { λ p. map (definition_of p.numbering) p.classes.items };

    ghost invariant = { λ p. AreMergeable p.numbering p.classes.items };
}

// Classes whose flags are set, and the others.
#[derive(Drop)]
struct Divided<'a> {
    chosen: Vec<Class<'a>>,
    others: Vec<Class<'a>>,
}

// Divides classes by their flags.
fn divide<'a>(
    alloc: Global,
    classes: Vec<Class<'a>>,
    flags: &[bool],
) -> Result<Divided<'a>, AllocError>
    requires { length flags.now ≡ vec_len classes }
    ensures chosen { IfOk result (λ divided.
        divided.chosen.items ≡ kept flags.now classes.entry.items) }
    ensures others { IfOk result (λ divided.
        divided.others.items ≡ kept (map not flags.now) classes.entry.items) }
{
    let mut divided = Divided {
        chosen: Vec::new(alloc),
        others: Vec::new(alloc),
    };
    let mut place = 0;
    for class in classes {
        if flags[place] {
            divided.chosen.push(class)?;
        } else {
            divided.others.push(class)?;
        }
        place += 1;
    }
    Ok(divided)
}

impl<'a> Part<'a> {
    /// All classes of a program, by depth and then by name, in memory of their own.
    pub fn of(program: &Program<'a>) -> Result<Part<'a>, AllocError>
        ensures { IfOk result (λ part. part ≡ in_class_order (definitions program.now)) }
    {
        Ok(program.copy()?.into_part())
    }

    /// The number of classes.
    pub fn len(&self) -> usize
        ensures { result ≡ length self.now }
    {
        self.classes.len()
    }

    /// How many times what their symbols weigh the classes weigh: many times where they share items. No clause speaks of
    /// it.
    pub fn density(&self) -> u64 {
        let mut bodies: u64 = 0;
        for class in &self.classes {
            bodies = bodies.saturating_add(class.weight);
        }
        bodies / self.numbering.weight().max(1)
    }

    /// The classes, to be split off in parts.
    pub fn into_parts(self) -> Parts<'a>
        ensures { result ≡ self.entry }
    {
        let Part { numbering, classes } = self;
        numbering.is_numbering();
        let known = KnownImages::none(*classes.allocator());
        Parts {
            numbering,
            classes,
            known,
        }
    }

    /// The classes whose flags are set, and the others, each in their order. The time grows with the tables of this
    /// part and with what its classes mention.
    ///
    /// Condition: there is a flag for each class.
    ///
    /// Source: this project's rule, that a file has the symbols that its classes mention and no others.
    pub fn partition(
        self,
        alloc: Global,
        flags: &[bool],
    ) -> Result<(Part<'a>, Part<'a>), AllocError>
        requires { length flags.now ≡ length self }
        ensures chosen { IfOk result (λ parts. parts.0 ≡ kept flags.now self.entry) }
        ensures others { IfOk result (λ parts. parts.1 ≡ kept (map not flags.now) self.entry) }
    {
        let Part { numbering, classes } = self;
        numbering.is_numbering();
        let Divided {
            mut chosen,
            mut others,
        } = divide(alloc, classes, flags)?;
        let mut known = KnownImages::none(alloc);
        let chosen_numbering = trim(alloc, &numbering, &mut chosen, &mut known)?;
        let other_numbering = into_trimmed(alloc, numbering, &mut others)?;
        let chosen_part = Part {
            numbering: chosen_numbering,
            classes: chosen,
        };
        let other_part = Part {
            numbering: other_numbering,
            classes: others,
        };
        Ok((chosen_part, other_part))
    }

    /// The program of the classes.
    pub fn into_program(self, alloc: Global) -> Result<Program<'a>, AllocError>
        ensures { IfOk result (IsCollectionOf self.entry) }
    {
        let Part { numbering, classes } = self;
        Program::of(alloc, numbering, classes)
    }
}

/// Classes of a part that are not yet split off in parts of their own. Contracts see the list of their definitions.
pub struct Parts<'a> {
    // It may have more symbols than the classes mention.
    numbering: Numbering<'a>,
    classes: Vec<Class<'a>>,
    // Of what classes share, for those that were split off and those that are.
    known: KnownImages,
}

impl Drop for Parts<'_> {
    fn drop(self) {
        let Parts {
            numbering: _,
            classes: _,
            known: _,
        } = self;
    }
}

impl<'a> Model for Parts<'a> {
    ghost use Rattle.std.specs.Prelude.{List, map};
    ghost use Rattle.std.specs.Coded.{coded_list};
    ghost use Rattle.dexspec.specs.Classes.{Definition};
    ghost use Rattle.dexspec.specs.internal.Codes.{definition_code};
    ghost use Rattle.dexclass.specs.Numbered.{definition_of};
    ghost use Rattle.dexclass.specs.internal.Parts.{AreGoodClasses};

    ghost Value = { List Definition };

    ghost coded = { coded_list definition_code };

    ghost view = { λ p. map (definition_of p.numbering) p.classes.items };

    ghost invariant = { λ p. AreGoodClasses p.numbering p.classes.items };
}

impl<'a> Parts<'a> {
    /// The number of classes that are left.
    pub fn len(&self) -> usize
        ensures { result ≡ length self.now }
    {
        self.classes.len()
    }

    /// The classes from a place on, in a part of their own; those before it are left. The time grows with the tables of
    /// the whole part and with what the classes mention.
    ///
    /// Condition: there are at least as many classes. Error: an allocation failed.
    ///
    /// Source: this project's rule, that a file has the symbols that its classes mention and no others.
    pub fn split_off(&mut self, alloc: Global, at: usize) -> Result<Part<'a>, AllocError>
        requires { at ≤ length self.old }
        ensures left { OnOk result (self.new ≡ take at self.old) }
        ensures part { IfOk result (λ part. part ≡ drop at self.old) }
    {
        let mut classes = self.classes.split_off(at)?;
        let numbering = trim(alloc, &self.numbering, &mut classes, &mut self.known)?;
        Ok(Part { numbering, classes })
    }
}

impl<'a> Program<'a> {
    /// All classes of the program, by depth and then by name, moved out of it.
    pub fn into_part(self) -> Part<'a>
        ensures { result ≡ in_class_order (definitions self.entry) }
    {
        self.is_good();
        let (numbering, classes) = self.into_parts();
        Part { numbering, classes }
    }
}
