//! Items of files that several classes have in common memory, each remapped once.

ghost use Rattle.std.specs.Prelude.{◌≡◌, IfOk, IfSome};
ghost use Rattle.dexval.specs.Renumbering.{renumbered_values, HavePlaces};
ghost use Rattle.dexval.specs.Tables.{IsRemappedSet};

use crate::same::{are_images, is_image_set};
use crate::weighed_set::WeighedSet;
use crate::weighed_values::WeighedValues;
use dexpool::Remap;
use std::alloc::{AllocError, Global};
use std::collections::HashMap;
use std::marker::Model;
use std::rc::Rc;

// Images of items of one kind, by the keys of the items.
#[derive(Drop)]
struct Images<T> {
    by_key: HashMap<u128, Rc<T>>,
}

impl<T: Drop> Images<T> {
    // No images.
    fn none(alloc: Global) -> Images<T> {
        Images {
            by_key: HashMap::new(alloc),
        }
    }

    // Keeps the image of the item of a key instead of the one before it.
    fn keep(&mut self, key: u128, image: &Rc<T>) -> Result<(), AllocError> {
        self.by_key.insert(key, image.clone()?)?;
        Ok(())
    }
}

/// Images of items that classes share, of whatever map. No clause speaks of them: one is taken for the image of an item
/// only where it was compared with the item.
#[derive(Drop)]
pub struct KnownImages {
    sets: Images<WeighedSet>,
    values: Images<WeighedValues>,
}

impl KnownImages {
    /// No images.
    pub fn none(alloc: Global) -> KnownImages {
        KnownImages {
            sets: Images::none(alloc),
            values: Images::none(alloc),
        }
    }
}

/// A map of numbers, and images of the items of classes that other classes have too. Contracts see the map.
#[derive(Drop)]
pub struct RemappedItems<'r> {
    alloc: Global,
    remap: &'r Remap,
    known: KnownImages,
}

impl<'r> Model for RemappedItems<'r> {
    ghost use Rattle.dexpool.specs.Numberings.{Maps};

    ghost Value = { Maps };

    ghost view = { λ r. r.remap.now };
}

// A set, remapped in memory that tables can share: the memory of the set itself where the map leaves it as it is.
fn remapped_set(
    alloc: Global,
    set: &Rc<WeighedSet>,
    remap: &Remap,
) -> Result<Rc<WeighedSet>, AllocError>
    ensures { IfOk result (λ image. IsRemappedSet remap.now set.now.value image.value) }
{
    if is_image_set(set.set(), remap, set.set()) {
        return Ok(set.clone()?);
    }
    Ok(Rc::new(alloc, set.remapped_copy(remap)?)?)
}

// Values, remapped in memory that classes can share: the memory of the values themselves where the map leaves them as
// they are.
fn remapped_values(
    alloc: Global,
    values: &Rc<WeighedValues>,
    remap: &Remap,
) -> Result<Rc<WeighedValues>, AllocError>
    requires { HavePlaces remap.now values.now.value }
    ensures { IfOk result
        (λ image. image.value ≡ renumbered_values remap.now values.now.value) }
{
    if are_images(values.values(), remap, values.values()) {
        return Ok(values.clone()?);
    }
    let image = values.renumbered_copy(remap)?.with_shared_form()?;
    Ok(Rc::new(alloc, image)?)
}

impl<'r> RemappedItems<'r> {
    /// No items yet that numbers are mapped in.
    pub fn of(alloc: Global, remap: &'r Remap) -> RemappedItems<'r>
        ensures { result ≡ remap.now }
    {
        RemappedItems::with_known(alloc, remap, KnownImages::none(alloc))
    }

    /// A map for which images that other maps made are tried first. Maps to the numberings of single classes often have
    /// the same image of an item that the classes share.
    pub fn with_known(alloc: Global, remap: &'r Remap, known: KnownImages) -> RemappedItems<'r>
        ensures { result ≡ remap.now }
    {
        RemappedItems {
            alloc,
            remap,
            known,
        }
    }

    /// The images that were made or tried, for [`RemappedItems::with_known`].
    pub fn into_known(self) -> KnownImages {
        let RemappedItems { known, .. } = self;
        known
    }

    /// The map.
    pub fn remap(&self) -> &'r Remap
        ensures { result.now ≡ self.now }
    {
        self.remap
    }

    // The known image of the item of a key, if it is that of this set by the map.
    fn known_set(&self, key: u128, set: &WeighedSet) -> Result<Option<Rc<WeighedSet>>, AllocError>
        ensures { IfOk result (λ known. IfSome known
            (λ image. IsRemappedSet self.now set.now image.value)) }
    {
        let Some(image) = self.known.sets.by_key.get(&key) else {
            return Ok(None);
        };
        if !is_image_set(set.set(), self.remap, image.set()) || !set.set().fits(self.remap) {
            return Ok(None);
        }
        Ok(Some(image.clone()?))
    }

    // The known image of the item of a key, if it is that of these values by the map.
    fn known_values(
        &self,
        key: u128,
        values: &WeighedValues,
    ) -> Result<Option<Rc<WeighedValues>>, AllocError>
        ensures { IfOk result (λ known. IfSome known
            (λ image. image.value ≡ renumbered_values self.now values.now)) }
    {
        let Some(image) = self.known.values.by_key.get(&key) else {
            return Ok(None);
        };
        if !are_images(values.values(), self.remap, image.values()) {
            return Ok(None);
        }
        Ok(Some(image.clone()?))
    }

    /// A set with each number replaced by the one that it maps to, if each has an image below 2^32. An equal set of the
    /// same key is remapped once; a set that the map leaves as it is is its own image.
    pub(crate) fn set_image(
        &mut self,
        key: u128,
        set: &Rc<WeighedSet>,
    ) -> Result<Rc<WeighedSet>, AllocError>
        ensures kept { self.new ≡ self.old }
        ensures image { IfOk result (λ image. IsRemappedSet self.old set.now.value image.value) }
    {
        if let Some(known) = self.known_set(key, set)? {
            return Ok(known);
        }
        let image = remapped_set(self.alloc, set, self.remap)?;
        self.known.sets.keep(key, &image)?;
        Ok(image)
    }

    /// Values with each number replaced by the one that it maps to. Equal values of the same key are remapped once;
    /// values that the map leaves as they are, as those that name no symbol, are their own image.
    ///
    /// Condition: each number maps to a number below 2^32. Error: an allocation failed.
    pub fn values_image(
        &mut self,
        key: u128,
        values: &Rc<WeighedValues>,
    ) -> Result<Rc<WeighedValues>, AllocError>
        requires { HavePlaces self.old values.now.value }
        ensures kept { self.new ≡ self.old }
        ensures image { IfOk result
            (λ image. image.value ≡ renumbered_values self.old values.now.value) }
    {
        if !values.names_symbols() {
            return Ok(values.clone()?);
        }
        if let Some(known) = self.known_values(key, values)? {
            return Ok(known);
        }
        let image = remapped_values(self.alloc, values, self.remap)?;
        self.known.values.keep(key, &image)?;
        Ok(image)
    }
}
