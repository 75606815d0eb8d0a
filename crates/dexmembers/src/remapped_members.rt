//! What several classes have in common memory of what they declare, each remapped once.

ghost use Rattle.std.specs.Prelude.{◌≡◌, All, IfOk, OnOk, OnErr, length};
ghost use Rattle.dexcode.specs.Renumbering.{HasPlaces, renumbered_item};
ghost use Rattle.dexdebug.specs.Debug.{HasPlace, debug_uses, renumbered_debug};
ghost use Rattle.dexval.specs.Renumbering.{HavePlaces};
ghost use Rattle.dexval.specs.Tables.{AreRemappedSets};
ghost use Rattle.dexmembers.specs.StaticValues.{values_in, AreReady};
ghost use Rattle.dexmembers.specs.internal.SharedCodes.{code_in, debug_in};

use crate::static_values::StaticValues;
use dexcode::{Code, Debug};
use dexpool::{Remap, SharedItem};
use dexval::{KnownImages, SetTable};
use std::alloc::{AllocError, Global};
use std::marker::Model;

/// A map of numbers, and what it was applied to of what classes declare, where other classes have it too: sets of
/// annotations, values of static fields, code and debug programs. Contracts see the map.
#[derive(Drop)]
pub struct RemappedMembers<'r, 'a> {
    items: dexval::RemappedItems<'r>,
    codes: dexpool::RemappedItems<'r, Code<'a>>,
    debugs: dexpool::RemappedItems<'r, Debug<'a>>,
}

impl<'r, 'a> Model for RemappedMembers<'r, 'a> {
    ghost use Rattle.std.specs.Prelude.{◌≡◌};
    ghost use Rattle.dexpool.specs.Numberings.{Maps};

    ghost Value = { Maps };

    ghost view = { λ x. x.items };

    ghost invariant = { λ x. (x.codes ≡ x.items) × (x.debugs ≡ x.items) };
}

impl<'r, 'a> RemappedMembers<'r, 'a> {
    /// Nothing yet that numbers are mapped in.
    pub fn of(alloc: Global, remap: &'r Remap) -> RemappedMembers<'r, 'a>
        ensures { result ≡ remap.now }
    {
        RemappedMembers::with_known(alloc, remap, KnownImages::none(alloc))
    }

    /// A map for which images of sets and values that other maps made are tried first, as
    /// [`dexval::RemappedItems::with_known`] does.
    pub fn with_known(
        alloc: Global,
        remap: &'r Remap,
        known: KnownImages,
    ) -> RemappedMembers<'r, 'a>
        ensures { result ≡ remap.now }
    {
        RemappedMembers {
            items: dexval::RemappedItems::with_known(alloc, remap, known),
            codes: dexpool::RemappedItems::of(alloc, remap),
            debugs: dexpool::RemappedItems::of(alloc, remap),
        }
    }

    /// The images of sets and values that were made or tried, for [`RemappedMembers::with_known`].
    pub fn into_known(self) -> KnownImages {
        let RemappedMembers { items, .. } = self;
        items.into_known()
    }

    /// The map.
    pub fn remap(&self) -> &'r Remap
        ensures { result.now ≡ self.now }
    {
        self.items.remap()
    }

    /// Code with each number replaced by its image.
    ///
    /// Condition: each number has an image that fits its place.
    pub(crate) fn code_image(
        &mut self,
        code: &SharedItem<Code<'a>>,
    ) -> Result<SharedItem<Code<'a>>, AllocError>
        requires { HasPlaces self.old (code_in code.now) }
        ensures kept { self.new ≡ self.old }
        ensures image { IfOk result (λ image.
            code_in image ≡ renumbered_item self.old (code_in code.now)) }
    {
        self.codes.image(code)
    }

    /// A debug program with each number replaced by its image.
    ///
    /// Condition: each number has an image that fits its place.
    pub(crate) fn debug_image(
        &mut self,
        debug: &SharedItem<Debug<'a>>,
    ) -> Result<SharedItem<Debug<'a>>, AllocError>
        requires { All (HasPlace self.old) (debug_uses (debug_in debug.now)) }
        ensures kept { self.new ≡ self.old }
        ensures image { IfOk result (λ image.
            debug_in image ≡ renumbered_debug self.old (debug_in debug.now)) }
    {
        self.debugs.image(debug)
    }

    /// As [`StaticValues::prepare`].
    pub(crate) fn prepare_values(&mut self, values: &mut StaticValues) -> Result<(), AllocError>
        requires { HavePlaces self.old (values_in values.old) }
        ensures values { values_in values.new ≡ values_in values.old }
        ensures items { self.new ≡ self.old }
        ensures ready { OnOk result (AreReady self.old values.new) }
    {
        values.prepare(&mut self.items)
    }

    /// Replaces each number of a symbol in the sets of a table by the one that it maps to, as [`SetTable::renumber`]
    /// does.
    pub(crate) fn renumber_table(&mut self, table: &mut SetTable) -> Result<(), AllocError>
        ensures items { self.new ≡ self.old }
        ensures size { length table.new.sets ≡ length table.old.sets }
        ensures lists { table.new.lists ≡ table.old.lists }
        ensures sets { OnOk result (AreRemappedSets self.old table.old.sets table.new.sets) }
        ensures unchanged { OnErr result (table.new ≡ table.old) }
    {
        table.renumber(&mut self.items)
    }
}
