//! Items that several owners have in common memory, each remapped once.

ghost use Rattle.std.specs.Prelude.{◌≡◌, IfOk, IfSome, IsTrue};
ghost use Rattle.dexpool.specs.Numberings.{Maps};
ghost use Rattle.dexpool.specs.Sharing.{shared_in};

use crate::remap::Remap;
use std::alloc::{AllocError, Global};
use std::collections::HashMap;
use std::marker::Model;
use std::rc::Rc;

/// An item with numbers of symbols that several owners can have in common memory.
pub trait Share: Drop {
    // what contracts see of it
    ghost Item: { Type 0 };

    ghost item_of: { Self → Item };

    // whether an item can be remapped
    ghost places: { Maps → Item → Type 0 };

    // whether the second item is the first one remapped
    ghost remaps: { Maps → Item → Item → Type 0 };

    /// The same item, in memory of its own.
    fn copied(&self) -> Result<Self, AllocError>
        ensures { IfOk result (λ copy. item_of copy ≡ item_of self.now) };

    /// Replaces each number of a symbol by its image.
    fn remap(&mut self, remap: &Remap)
        requires { places remap.now (item_of self.old) }
        ensures { remaps remap.now (item_of self.old) (item_of self.new) };

    /// Returns whether two items are the same.
    fn is_same(&self, other: &Self) -> bool
        ensures { IsTrue result → item_of self.now ≡ item_of other.now };
}

// An item, with the key of where it was read. No clause speaks of the key: what has the key of another is compared.
#[derive(Drop)]
pub(crate) struct Keyed<T> {
    pub(crate) key: u128,
    pub(crate) item: T,
}

/// An item that several owners have in common memory.
#[derive(Drop)]
pub struct SharedItem<T> {
    pub(crate) memory: Rc<Keyed<T>>,
}

impl<T: Share> SharedItem<T> {
    /// An item of this key in memory that owners can share.
    pub fn of(alloc: Global, key: u128, item: T) -> Result<SharedItem<T>, AllocError>
        ensures { IfOk result (λ shared. shared_in T.item_of shared ≡ T.item_of item) }
    {
        let memory = Rc::new(alloc, Keyed { key, item })?;
        Ok(SharedItem { memory })
    }

    /// The item.
    pub fn item(&self) -> &T
        ensures { T.item_of result.now ≡ shared_in T.item_of self.now }
    {
        &self.memory.as_ref().item
    }

    /// The same item, in the same memory.
    pub fn again(&self) -> Result<SharedItem<T>, AllocError>
        ensures { IfOk result (λ again.
            shared_in T.item_of again ≡ shared_in T.item_of self.now) }
    {
        let memory = self.memory.clone()?;
        Ok(SharedItem { memory })
    }
}

/// Items by their keys, in memory that owners can share.
#[derive(Drop)]
pub struct SharedPool<T> {
    alloc: Global,
    items: HashMap<u128, SharedItem<T>>,
}

impl<T: Share> SharedPool<T> {
    /// No items.
    pub fn none(alloc: Global) -> SharedPool<T> {
        SharedPool {
            alloc,
            items: HashMap::new(alloc),
        }
    }

    /// An item in memory that owners can share: that of the same item of the same key, if there is one.
    pub fn share(&mut self, key: u128, item: T) -> Result<SharedItem<T>, AllocError>
        ensures { IfOk result (λ shared. shared_in T.item_of shared ≡ T.item_of item) }
    {
        if let Some(known) = self.items.get(&key) {
            if known.item().is_same(&item) {
                return known.again();
            }
        }
        let shared = SharedItem::of(self.alloc, key, item)?;
        self.items.insert(key, shared.again()?)?;
        Ok(shared)
    }
}

/// An item before it is remapped, and after.
#[derive(Drop)]
pub(crate) struct Image<T> {
    pub(crate) before: SharedItem<T>,
    pub(crate) after: SharedItem<T>,
}

/// A map of numbers, and the items that it was applied to, where several owners have them. Contracts see the map.
pub struct RemappedItems<'r, T: Share> {
    alloc: Global,
    remap: &'r Remap,
    // The place of each item by its key.
    places: HashMap<u128, usize>,
    images: Vec<Image<T>>,
}

impl<T: Share> Drop for RemappedItems<'_, T> {
    fn drop(self) {
        let RemappedItems {
            alloc: _,
            remap: _,
            places: _,
            images: _,
        } = self;
    }
}

impl<'r, T: Share> Model for RemappedItems<'r, T> {
    ghost use Rattle.std.specs.Prelude.{All};
    ghost use Rattle.dexpool.specs.Numberings.{Maps};
    ghost use Rattle.dexpool.specs.Sharing.{IsImage};

    ghost Value = { Maps };

    ghost view = { λ r. r.remap.now };

    ghost invariant = { λ r. All (IsImage T.item_of T.remaps r.remap.now) r.images.items };
}

impl<'r, T: Share> RemappedItems<'r, T> {
    /// No items yet that numbers are mapped in.
    pub fn of(alloc: Global, remap: &'r Remap) -> RemappedItems<'r, T>
        ensures { result ≡ remap.now }
    {
        RemappedItems {
            alloc,
            remap,
            places: HashMap::new(alloc),
            images: Vec::new(alloc),
        }
    }

    /// The map.
    pub fn remap(&self) -> &'r Remap
        ensures { result.now ≡ self.now }
    {
        self.remap
    }

    // The image of an item, if it is known.
    fn known(&self, item: &SharedItem<T>) -> Result<Option<SharedItem<T>>, AllocError>
        ensures { IfOk result (λ known. IfSome known (λ image. T.remaps self.now
            (shared_in T.item_of item.now) (shared_in T.item_of image))) }
    {
        let Some(place) = self.places.get(&item.memory.key) else {
            return Ok(None);
        };
        let Some(image) = self.images.get(*place) else {
            return Ok(None);
        };
        if !image.before.item().is_same(item.item()) {
            return Ok(None);
        }
        Ok(Some(image.after.again()?))
    }

    // Adds an item with its image, if its key has none.
    fn add(&mut self, before: &SharedItem<T>, after: &SharedItem<T>) -> Result<(), AllocError>
        requires { T.remaps self.old (shared_in T.item_of before.now)
            (shared_in T.item_of after.now) }
        ensures { self.new ≡ self.old }
    {
        let key = before.memory.key;
        if self.places.contains_key(&key) {
            return Ok(());
        }
        let image = Image {
            before: before.again()?,
            after: after.again()?,
        };
        self.places.insert(key, self.images.len())?;
        self.images.push(image)?;
        Ok(())
    }

    /// An item with each number replaced by its image. The same item of the same key is remapped once.
    ///
    /// Condition: the item can be remapped.
    pub fn image(&mut self, item: &SharedItem<T>) -> Result<SharedItem<T>, AllocError>
        requires { T.places self.old (shared_in T.item_of item.now) }
        ensures kept { self.new ≡ self.old }
        ensures image { IfOk result (λ image. T.remaps self.old
            (shared_in T.item_of item.now) (shared_in T.item_of image)) }
    {
        if let Some(known) = self.known(item)? {
            return Ok(known);
        }
        let mut remapped = item.item().copied()?;
        remapped.remap(self.remap);
        let image = SharedItem::of(self.alloc, item.memory.key, remapped)?;
        self.add(item, &image)?;
        Ok(image)
    }
}
