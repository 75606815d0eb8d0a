//! The code of methods of one kind, in memory that several lists share.

ghost use Rattle.std.specs.Prelude.{◌≡◌, IfOk, IfSome, All, map};
ghost use Rattle.std.specs.Option.{option_map};
ghost use Rattle.dexcode.specs.Renumbering.{HasPlaces, renumbered_item};
ghost use Rattle.dexdebug.specs.Debug.{HasPlace, debug_uses, renumbered_debug};
ghost use Rattle.dexmembers.specs.Borrowed.{IsBorrowedCode};
ghost use Rattle.dexmembers.specs.SharedDebugs.{code_debug, AreSameBefore};
ghost use Rattle.dexmembers.specs.Stripped.{stripped_code};
ghost use Rattle.dexmembers.specs.internal.SharedCodes.{debugs_in, stored_in};
ghost use Rattle.dexmembers.specs.internal.Stored.{item_at, remapped_code, IsStoredCodeMapped};

use crate::code_list::StoredCode;
use crate::method_list::DeclaredMethod;
use crate::places::Place;
use crate::remapped_members::RemappedMembers;
use crate::shared_debugs::first_with_debugs;
use dexcode::{BorrowedCode, Code, Debug};
use dexpool::SharedItem;
use std::alloc::{AllocError, Global};
use std::marker::Model;

/// Code as it is stored, in memory that several lists share.
pub(crate) type SharedCode<'a> = StoredCode<SharedItem<Code<'a>>>;

/// The code of methods of one kind, each item once, and its debug programs, each once, where other lists have them too.
#[derive(Drop)]
pub(crate) struct SharedCodes<'a> {
    pub(crate) items: Vec<SharedCode<'a>>,
    pub(crate) debugs: Vec<SharedItem<Debug<'a>>>,
}

impl<'a> Model for SharedCodes<'a> {
    ghost use Rattle.std.specs.Prelude.{List};
    ghost use Rattle.dexcode.specs.Numbered.{NumberedItem};
    ghost use Rattle.dexmembers.specs.internal.Stored.{codes_with, AreStoredCodes};
    ghost use Rattle.dexmembers.specs.internal.SharedCodes.{debugs_in, stored_in};

    ghost Value = { List NumberedItem };

    ghost view = { λ x. codes_with (debugs_in x.debugs.items) (stored_in x.items.items) };

    ghost invariant = { λ x. AreStoredCodes (debugs_in x.debugs.items) (stored_in x.items.items) };
}

// The debug program at a place, if there is one.
fn debug_at<'m, 'a>(debugs: &'m [SharedItem<Debug<'a>>], place: Place) -> Option<&'m Debug<'a>>
    ensures { option_map (λ debug. debug.now) result ≡ item_at (debugs_in debugs.now) place }
{
    let debug = debugs.get(place.get()? as usize)?;
    Some(debug.item())
}

// The code at a place, if there is one, without its debug program.
fn stored_at<'m, 'a>(items: &'m [SharedCode<'a>], place: Place) -> Option<&'m SharedCode<'a>>
    ensures { option_map (λ item. item.now) result ≡ item_at items.now place }
{
    items.get(place.get()? as usize)
}

// Code with each number replaced by its image.
//
// Condition: each number has an image that fits its place.
fn code_images<'a>(
    items: &Vec<SharedCode<'a>>,
    remapped: &mut RemappedMembers<'_, 'a>,
) -> Result<Vec<SharedCode<'a>>, AllocError>
    requires { All (IsStoredCodeMapped remapped.old) (stored_in items.now.items) }
    ensures kept { remapped.new ≡ remapped.old }
    ensures images { IfOk result (λ images.
        stored_in images.items ≡ map (remapped_code remapped.old) (stored_in items.now.items)) }
{
    let mut images = Vec::with_capacity(*items.allocator(), items.len())?;
    for item in items {
        let code = remapped.code_image(&item.code)?;
        let debug = item.debug;
        images.push(StoredCode { code, debug })?;
    }
    Ok(images)
}

// Debug programs with each number replaced by its image.
//
// Condition: each number has an image that fits its place.
fn debug_images<'a>(
    debugs: &Vec<SharedItem<Debug<'a>>>,
    remapped: &mut RemappedMembers<'_, 'a>,
) -> Result<Vec<SharedItem<Debug<'a>>>, AllocError>
    requires { All (λ debug. All (HasPlace remapped.old) (debug_uses debug))
        (debugs_in debugs.now.items) }
    ensures kept { remapped.new ≡ remapped.old }
    ensures images { IfOk result (λ images.
        debugs_in images.items ≡ map (renumbered_debug remapped.old) (debugs_in debugs.now.items)) }
{
    let mut images = Vec::with_capacity(*debugs.allocator(), debugs.len())?;
    for debug in debugs {
        images.push(remapped.debug_image(debug)?)?;
    }
    Ok(images)
}

impl<'a> SharedCodes<'a> {
    /// The code at a place, if there is one.
    pub(crate) fn get<'m>(&'m self, place: Place) -> Option<BorrowedCode<'m, 'a>>
        ensures { IsBorrowedCode result (item_at self.now place) }
    {
        let item = stored_at(&self.items, place)?;
        let debug = debug_at(&self.debugs, item.debug);
        Some(item.code.item().with_debug(debug))
    }

    /// The code with each number of a symbol replaced by its image, in memory that lists share.
    ///
    /// Condition: each number has an image that fits its place.
    pub(crate) fn image(
        &self,
        remapped: &mut RemappedMembers<'_, 'a>,
    ) -> Result<SharedCodes<'a>, AllocError>
        requires { All (HasPlaces remapped.old) self.now }
        ensures kept { remapped.new ≡ remapped.old }
        ensures image { IfOk result (λ image.
            image ≡ map (renumbered_item remapped.old) self.now) }
    {
        let items = code_images(&self.items, remapped)?;
        let debugs = debug_images(&self.debugs, remapped)?;
        Ok(SharedCodes { items, debugs })
    }

    /// Leaves out the debug programs.
    pub(crate) fn drop_debug(&mut self)
        ensures { self.new ≡ map stripped_code self.old }
    {
        self.debugs = Vec::new(*self.debugs.allocator());
        for i in 0..self.items.len() {
            self.items[i].debug = Place::none();
        }
    }

    /// For each of the methods the place of the first one whose debug program is at the same place, or its own; `None`
    /// where no two methods have one at the same place.
    pub(crate) fn shared_debugs(
        &self,
        alloc: Global,
        methods: &[DeclaredMethod],
    ) -> Result<Option<Vec<usize>>, AllocError>
        ensures { IfOk result (λ places. IfSome places (λ places.
            AreSameBefore (λ x. code_debug (item_at self.now x.code)) methods.now places.items)) }
    {
        first_with_debugs(alloc, &self.items, self.debugs.len(), methods)
    }

    /// Returns the same code, in the same memory.
    pub(crate) fn copy(&self) -> Result<SharedCodes<'a>, AllocError>
        ensures { IfOk result (λ copy. copy ≡ self.now) }
    {
        let alloc = *self.items.allocator();
        let mut items = Vec::with_capacity(alloc, self.items.len())?;
        for item in &self.items {
            let code = item.code.again()?;
            let debug = item.debug;
            items.push(StoredCode { code, debug })?;
        }
        let mut debugs = Vec::with_capacity(alloc, self.debugs.len())?;
        for debug in &self.debugs {
            debugs.push(debug.again()?)?;
        }
        Ok(SharedCodes { items, debugs })
    }
}
