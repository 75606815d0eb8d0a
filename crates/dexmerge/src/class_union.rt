//! One class of each name of a union: moved from the parts that are owned, copied from those that are borrowed.

ghost use Rattle.std.specs.Prelude.{◌≡◌, [], ◌<◌, true, false, IfOk, OnOk, length, slice_index_or};
ghost use Rattle.dexspec.specs.Files.{Collection};
ghost use Rattle.dexspec.specs.Mentions.{Mentions};
ghost use Rattle.dexpool.specs.Numberings.{Maps};
ghost use Rattle.dexclass.specs.Numbered.{NumberedClass};
ghost use Rattle.dexclass.specs.Renumbering.{ClassHasPlaces, image_or_same, renumbered_class};
ghost use Rattle.dexmerge.specs.internal.Collecting.{IsPartOf, HasCollected, HasMarks, HasPushed, HasMarked};
ghost use Rattle.dexmerge.specs.internal.Collecting.{HasPlaces, CollectsPart, AreMergeable, HasOneOfEach};

use dexclass::{Class, Program, Renumbering, renumbering_law};
use dexinsn::joined_places_law;
use dexmembers::members_joined_law;
use dexpool::{Remap, SymbolKind};
use std::alloc::{AllocError, Global};

/// Classes of a union, one of each name.
#[derive(Drop)]
struct Collected<'a> {
    classes: Vec<Class<'a>>,
    /// For each type of the union whether a class has it as its name.
    is_name: Vec<bool>,
}

// In a part of a union that is good each number in what a class declares maps to one that fits its place. It does
// nothing: its contract is the law, for the calls that remap classes.
fn places_law()
    ensures { (m : Mentions) (K : Collection) (r : Maps) (c : NumberedClass) → IsPartOf m K r
        → HasPlaces K r c }
{
    renumbering_law();
    joined_places_law();
    members_joined_law();
}

impl<'a> Collected<'a> {
    // No class yet.
    fn none(alloc: Global, types: usize) -> Result<Collected<'a>, AllocError>
        ensures { IfOk result (λ collected. (m : Mentions) → length m.types ≡ types
            → HasCollected m [] collected) }
    {
        let is_name = vec![in alloc; false; types]?;
        Ok(Collected {
            classes: Vec::new(alloc),
            is_name,
        })
    }

    // Returns whether there is a class of the name that a class has in the union.
    fn has_name_of(&self, class: &Class<'a>, remap: &Remap) -> bool
        ensures { result ≡ slice_index_or self.now.is_name.items
            (image_or_same remap.now.types class.now.name) false }
    {
        let name = remap.or_same(SymbolKind::Typ, class.name());
        name < self.is_name.len() && self.is_name[name]
    }

    // Adds a class of a part, with its numbers remapped.
    fn push(
        &mut self,
        mut class: Class<'a>,
        renumbering: &mut Renumbering<'_, 'a>,
    ) -> Result<(), AllocError>
        requires places { ClassHasPlaces renumbering.old class }
        requires name { image_or_same renumbering.old.types class.name
            < length self.old.is_name.items }
        ensures kept { renumbering.new ≡ renumbering.old }
        ensures classes { OnOk result
            (HasPushed (renumbered_class renumbering.old class.entry) self.old self.new) }
        ensures names { OnOk result
            (HasMarked (image_or_same renumbering.old.types class.entry.name) self.old self.new) }
    {
        renumbering.renumber(&mut class)?;
        self.is_name[class.name()] = true;
        self.classes.push(class)?;
        Ok(())
    }

    // Adds the classes of a part whose names are not there yet. They are moved.
    fn take_all(&mut self, part: Program<'a>, remap: &Remap) -> Result<(), AllocError>
        requires { (m : Mentions) × IsPartOf m part remap.now × HasMarks m self.old }
        ensures count { OnOk result (length self.new.is_name.items
            ≡ length self.old.is_name.items) }
        ensures collected { OnOk result (CollectsPart part.entry remap.now self.old self.new) }
    {
        renumbering_law();
        places_law();
        part.is_good();
        let classes = part.into_classes();
        let mut renumbering = Renumbering::of(*self.classes.allocator(), remap, &classes)?;
        for class in classes {
            if !self.has_name_of(&class, remap) {
                self.push(class, &mut renumbering)?;
            }
        }
        Ok(())
    }

    // Adds copies of the classes of a part whose names are not there yet.
    fn copy_all(&mut self, part: &Program<'a>, remap: &Remap) -> Result<(), AllocError>
        requires { (m : Mentions) × IsPartOf m part.now remap.now × HasMarks m self.old }
        ensures count { OnOk result (length self.new.is_name.items
            ≡ length self.old.is_name.items) }
        ensures collected { OnOk result (CollectsPart part.now remap.now self.old self.new) }
    {
        renumbering_law();
        places_law();
        part.is_good();
        let classes = part.classes();
        let mut renumbering = Renumbering::of(*self.classes.allocator(), remap, classes)?;
        for class in classes {
            if !self.has_name_of(class, remap) {
                self.push(class.copy()?, &mut renumbering)?;
            }
        }
        Ok(())
    }
}

/// One class of each name, with the numbers of the union.
///
/// Condition: a map for each part, first those that are owned, into a union of `types` types that is good.
pub(crate) fn collect_classes<'a>(
    alloc: Global,
    owned: Vec<Program<'a>>,
    files: &[&Program<'a>],
    remaps: &[Remap],
    types: usize,
) -> Result<Vec<Class<'a>>, AllocError>
    requires { (m : Mentions) × (length m.types ≡ types)
        × AreMergeable owned.items files.now m remaps.now }
    ensures { IfOk result (λ classes.
        HasOneOfEach types owned.entry.items files.now remaps.now classes.items) }
{
    let (own, rest) = remaps.split_at(owned.len());
    let mut all = Collected::none(alloc, types)?;
    let mut place = 0;
    for part in owned {
        all.take_all(part, &own[place])?;
        place += 1;
    }
    for i in 0..files.len() {
        all.copy_all(files[i], &rest[i])?;
    }
    Ok(all.classes)
}
