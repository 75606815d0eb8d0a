//! Classes of one program renumbered, where many have interfaces that overlap.

ghost use Rattle.std.specs.Prelude.{◌≡◌, All, IfOk, IfSome, OnOk, OnErr, map, unwrap_or};
ghost use Rattle.dexpool.specs.Numberings.{Maps};
ghost use Rattle.dexclass.specs.Renumbering.{image_or_same, renumbered_class, ClassHasPlaces};
ghost use Rattle.dexclass.specs.internal.Shared.{shared_in};
ghost use Rattle.dexclass.specs.internal.Wholes.{IsRemapped};

use crate::classes::Class;
use crate::interface_lists::{Interfaces, remapped_shorts, remapped_types};
use crate::list_parts::{ListPlace, SharedNumbers, SharedPart};
use dexmembers::RemappedMembers;
use dexpool::Remap;
use dexrows::TypeNumbers;
use dexval::KnownImages;
use std::alloc::{AllocError, Global};
use std::collections::HashMap;
use std::marker::Model;
use std::rc::Rc;

// What lists of one file are parts of: from the first number of one of them to the last number of one.
#[derive(Clone, Copy)]
struct Covering {
    // A class with one of the lists.
    owner: usize,
    low: usize,
    high: usize,
    // How many numbers the lists have together.
    total: usize,
}

impl Covering {
    // What covers the `len` numbers from a place on too.
    fn with(self, start: usize, len: usize) -> Covering {
        Covering {
            owner: self.owner,
            low: self.low.min(start),
            high: self.high.max(start.saturating_add(len)),
            total: self.total.saturating_add(len),
        }
    }

    // What the lists of the classes are parts of, if they have more numbers together than that, or nothing.
    fn whole<'a>(self, alloc: Global, classes: &[Class<'a>]) -> Result<Interfaces<'a>, AllocError> {
        let len = self.high.saturating_sub(self.low);
        if len < self.total && self.owner < classes.len() {
            let class = &classes[self.owner];
            return class.interfaces.beside(self.low, len);
        }
        Ok(Interfaces::none(alloc))
    }
}

// What covers the lists of each file, and its number by the file.
#[derive(Drop)]
struct Coverings {
    numbers: HashMap<u128, usize>,
    all: Vec<Covering>,
}

impl Coverings {
    // What covers the lists of these classes that are parts of others.
    fn of(alloc: Global, classes: &[Class<'_>]) -> Result<Coverings, AllocError> {
        let mut coverings = Coverings {
            numbers: HashMap::new(alloc),
            all: Vec::new(alloc),
        };
        for i in 0..classes.len() {
            let class = &classes[i];
            if let Some(place) = class.interfaces.place() {
                coverings.add(i, place, class.interfaces.numbers().len())?;
            }
        }
        Ok(coverings)
    }

    // Adds the list of a class.
    fn add(&mut self, owner: usize, place: ListPlace, len: usize) -> Result<(), AllocError> {
        let ListPlace { source, start } = place;
        if let Some(number) = self.numbers.get(&source) {
            let number = *number;
            if number < self.all.len() {
                self.all[number] = self.all[number].with(start, len);
                return Ok(());
            }
        }
        self.numbers.insert(source, self.all.len())?;
        self.all.push(Covering {
            owner,
            low: start,
            high: start.saturating_add(len),
            total: len,
        })?;
        Ok(())
    }
}

// The images of numbers, for lists that share them: two bytes for each, if all have room in these.
fn shared_images(
    alloc: Global,
    remap: &Remap,
    numbers: &TypeNumbers<'_>,
) -> Result<SharedNumbers, AllocError>
    ensures { IfOk result (λ images.
        shared_in images ≡ map (image_or_same remap.now.types) numbers.now) }
{
    if let Some(bytes) = remapped_shorts(alloc, remap, numbers)? {
        return Ok(SharedNumbers::Shorts(Rc::new(alloc, bytes)?));
    }
    let words = remapped_types(alloc, remap, numbers)?;
    Ok(SharedNumbers::Words(Rc::new(alloc, words)?))
}

/// What lists of one file are parts of, and the images of its numbers.
#[derive(Drop)]
pub(crate) struct Whole<'a> {
    numbers: Interfaces<'a>,
    // Where it begins in the file.
    low: usize,
    images: SharedNumbers,
}

impl<'a> Whole<'a> {
    // What covers lists of classes, remapped.
    fn of(
        alloc: Global,
        remap: &Remap,
        classes: &[Class<'a>],
        covering: Covering,
    ) -> Result<Whole<'a>, AllocError>
        ensures { IfOk result (IsRemapped remap.now) }
    {
        let numbers = covering.whole(alloc, classes)?;
        let images = shared_images(alloc, remap, &numbers.numbers())?;
        Ok(Whole {
            numbers,
            low: covering.low,
            images,
        })
    }

    // The images of a list, if it is a part of this.
    fn images_of(
        &self,
        place: ListPlace,
        list: &Interfaces<'a>,
    ) -> Result<Option<SharedPart>, AllocError>
        ensures { (r : Maps) → IsRemapped r self.now → IfOk result (λ found. IfSome found
            (λ images. images ≡ map (image_or_same r.types) list.now)) }
    {
        let Some(start) = place.start.checked_sub(self.low) else {
            return Ok(None);
        };
        if !self.numbers.has_at(start, list) {
            return Ok(None);
        }
        let from = ListPlace {
            source: place.source,
            start: self.low,
        };
        let images = SharedPart::of(&self.images, from, start, list.numbers().len())?;
        Ok(images)
    }
}

// What covers lists of the classes, each remapped.
fn wholes_of<'a>(
    alloc: Global,
    remap: &Remap,
    classes: &[Class<'a>],
    coverings: &[Covering],
) -> Result<Vec<Whole<'a>>, AllocError>
    ensures { IfOk result (λ wholes. All (IsRemapped remap.now) wholes.items) }
{
    let mut wholes = Vec::with_capacity(alloc, coverings.len())?;
    for k in 0..coverings.len() {
        wholes.push(Whole::of(alloc, remap, classes, coverings[k])?)?;
    }
    Ok(wholes)
}

/// A map of numbers, for the classes of a program. If lists of interfaces that come from one file have more numbers
/// together than what they are parts of, each number of this is remapped once. What classes share besides is remapped
/// once too. Contracts see the map.
#[derive(Drop)]
pub struct Renumbering<'r, 'a> {
    // The map, and what classes share besides lists.
    items: RemappedMembers<'r, 'a>,
    // What lists of each file are parts of, and its number by the file.
    numbers: HashMap<u128, usize>,
    wholes: Vec<Whole<'a>>,
}

impl<'r, 'a> Model for Renumbering<'r, 'a> {
    ghost use Rattle.std.specs.Prelude.{All};
    ghost use Rattle.dexpool.specs.Numberings.{Maps};
    ghost use Rattle.dexclass.specs.internal.Wholes.{IsRemapped};

    ghost Value = { Maps };

    ghost view = { λ r. r.items };

    ghost invariant = { λ r. All (IsRemapped r.items) r.wholes.items };
}

impl<'r, 'a> Renumbering<'r, 'a> {
    /// Remaps numbers by this map.
    ///
    /// Error: the allocation of the images of what lists are parts of failed.
    pub fn of(
        alloc: Global,
        remap: &'r Remap,
        classes: &[Class<'a>],
    ) -> Result<Renumbering<'r, 'a>, AllocError>
        ensures { IfOk result (λ renumbering. renumbering ≡ remap.now) }
    {
        Renumbering::with_known(alloc, remap, classes, KnownImages::none(alloc))
    }

    /// As [`Renumbering::of`], where images that other maps made are tried first, as
    /// [`dexval::RemappedItems::with_known`] does.
    pub(crate) fn with_known(
        alloc: Global,
        remap: &'r Remap,
        classes: &[Class<'a>],
        known: KnownImages,
    ) -> Result<Renumbering<'r, 'a>, AllocError>
        ensures { IfOk result (λ renumbering. renumbering ≡ remap.now) }
    {
        let Coverings { numbers, all } = Coverings::of(alloc, classes)?;
        let wholes = wholes_of(alloc, remap, classes, &all)?;
        Ok(Renumbering {
            items: RemappedMembers::with_known(alloc, remap, known),
            numbers,
            wholes,
        })
    }

    /// The images that were made or tried, for [`Renumbering::with_known`].
    pub(crate) fn into_known(self) -> KnownImages {
        let Renumbering { items, .. } = self;
        items.into_known()
    }

    // What a list of a file may be a part of.
    fn whole_of(&self, source: u128) -> Option<&Whole<'a>>
        ensures { IfSome result (λ whole. IsRemapped self.now whole.now) }
    {
        let number = *self.numbers.get(&source)?;
        if number < self.wholes.len() {
            return Some(&self.wholes[number]);
        }
        None
    }

    // The images of a list, if it is a part of what is remapped already.
    fn images_of(&self, list: &Interfaces<'a>) -> Result<Option<SharedPart>, AllocError>
        ensures { IfOk result (λ found. IfSome found
            (λ images. images ≡ map (image_or_same self.now.types) list.now)) }
    {
        let Some(place) = list.place() else {
            return Ok(None);
        };
        let Some(whole) = self.whole_of(place.source) else {
            return Ok(None);
        };
        whole.images_of(place, list)
    }

    // The list with each number remapped, or `None` if all stay.
    fn renumbered_list(&self, list: &Interfaces<'a>) -> Result<Option<Interfaces<'a>>, AllocError>
        ensures { IfOk result (λ images.
            unwrap_or images list.now ≡ map (image_or_same self.now.types) list.now) }
    {
        if let Some(images) = self.images_of(list)? {
            return Ok(Some(list.part(images)));
        }
        list.renumbered(self.items.remap())
    }

    /// Remaps each number of a class, as [`Class::renumber`] does. What several classes share is remapped once: lists of
    /// interfaces, sets of annotations, values of static fields, code and debug programs.
    ///
    /// Condition: as of [`Class::renumber`]. Error: an allocation failed; the class is as it was.
    pub fn renumber(&mut self, class: &mut Class<'a>) -> Result<(), AllocError>
        requires { ClassHasPlaces self.old class.old }
        ensures kept { self.new ≡ self.old }
        ensures renumbered { OnOk result (class.new ≡ renumbered_class self.old class.old) }
        ensures unchanged { OnErr result (class.new ≡ class.old) }
    {
        let interfaces = self.renumbered_list(&class.interfaces)?;
        class.renumber_with(&mut self.items, interfaces)
    }
}
