//! The code of methods of one kind, with its debug programs beside it.

ghost use Rattle.std.specs.Prelude.{◌≡◌, IfOk, All, map};
ghost use Rattle.std.specs.Option.{option_map};
ghost use Rattle.dexcode.specs.Renumbering.{HasPlaces, renumbered_item};
ghost use Rattle.dexmembers.specs.Borrowed.{IsBorrowedCode};
ghost use Rattle.dexmembers.specs.Stripped.{stripped_code};
ghost use Rattle.dexmembers.specs.internal.Stored.{codes_with, item_at, remapped_code, IsStoredCodeMapped};

use crate::places::Place;
use dexcode::{BorrowedCode, Code, Debug};
use dexpool::{Remap, Renumber, renumber_all};
use std::alloc::AllocError;
use std::marker::Model;

/// Code as it is stored: without a debug program of its own, and with the place of the one that it has.
#[derive(Drop)]
pub(crate) struct StoredCode<C> {
    pub(crate) code: C,
    pub(crate) debug: Place,
}

impl Renumber for StoredCode<Code<'_>> {
    ghost places = { IsStoredCodeMapped };

    ghost remapped = { remapped_code };

    // The debug programs are remapped beside the code.
    fn renumber(&mut self, remap: &Remap) {
        self.code.renumber(remap);
    }
}

/// The code of methods of one kind, each item once, and its debug programs, each once.
#[derive(Drop)]
pub(crate) struct CodeList<'a> {
    pub(crate) items: Vec<StoredCode<Code<'a>>>,
    pub(crate) debugs: Vec<Debug<'a>>,
}

impl<'a> Model for CodeList<'a> {
    ghost use Rattle.std.specs.Prelude.{List};
    ghost use Rattle.dexcode.specs.Numbered.{NumberedItem};
    ghost use Rattle.dexmembers.specs.internal.Stored.{codes_with, AreStoredCodes};

    ghost Value = { List NumberedItem };

    ghost view = { λ x. codes_with x.debugs.items x.items.items };

    ghost invariant = { λ x. AreStoredCodes x.debugs.items x.items.items };
}

// The debug program at a place, if there is one.
fn debug_at<'m, 'a>(debugs: &'m [Debug<'a>], place: Place) -> Option<&'m Debug<'a>>
    ensures { option_map (λ debug. debug.now) result ≡ item_at debugs.now place }
{
    debugs.get(place.get()? as usize)
}

/// The code at a place, if there is one, with its debug program among these.
pub(crate) fn code_at<'m, 'a>(
    items: &'m [StoredCode<Code<'a>>],
    debugs: &'m [Debug<'a>],
    place: Place,
) -> Option<BorrowedCode<'m, 'a>>
    ensures { IsBorrowedCode result (item_at (codes_with debugs.now items.now) place) }
{
    let item = items.get(place.get()? as usize)?;
    Some(item.code.with_debug(debug_at(debugs, item.debug)))
}

impl<'a> CodeList<'a> {
    /// The code at a place, if there is one.
    pub(crate) fn get<'m>(&'m self, place: Place) -> Option<BorrowedCode<'m, 'a>>
        ensures { IsBorrowedCode result (item_at self.now place) }
    {
        code_at(&self.items, &self.debugs, place)
    }

    /// Replaces each number of a symbol by its image.
    ///
    /// Condition: each number has an image that fits its place.
    pub(crate) fn renumber(&mut self, remap: &Remap)
        requires { All (HasPlaces remap.now) self.old }
        ensures { self.new ≡ map (renumbered_item remap.now) self.old }
    {
        renumber_all(&mut self.items, remap);
        for i in 0..self.debugs.len() {
            self.debugs[i].renumber(remap);
        }
    }

    /// Leaves out the debug programs.
    pub(crate) fn drop_debug(&mut self)
        ensures { self.new ≡ map stripped_code self.old }
    {
        self.debugs = Vec::new(*self.debugs.allocator());
        for i in 0..self.items.len() {
            self.items[i].debug = Place::none();
        }
    }

    /// Returns a copy of the code, whose units are borrowed as before.
    pub(crate) fn copy(&self) -> Result<CodeList<'a>, AllocError>
        ensures { IfOk result (λ copy. copy ≡ self.now) }
    {
        let alloc = *self.items.allocator();
        let mut items = Vec::with_capacity(alloc, self.items.len())?;
        for item in &self.items {
            let code = item.code.copy()?;
            let debug = item.debug;
            items.push(StoredCode { code, debug })?;
        }
        let mut debugs = Vec::with_capacity(alloc, self.debugs.len())?;
        for debug in &self.debugs {
            debugs.push(debug.copy()?)?;
        }
        Ok(CodeList { items, debugs })
    }
}
