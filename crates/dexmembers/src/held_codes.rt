//! The code of methods of one kind: in memory of one list, or of several.

ghost use Rattle.std.specs.Prelude.{◌≡◌, IfOk, IfSome, All, map};
ghost use Rattle.dexcode.specs.Renumbering.{HasPlaces, renumbered_item};
ghost use Rattle.dexmembers.specs.Borrowed.{IsBorrowedCode};
ghost use Rattle.dexmembers.specs.HeldCodes.{codes_in, AreReady};
ghost use Rattle.dexmembers.specs.SharedDebugs.{code_debug, AreSameBefore};
ghost use Rattle.dexmembers.specs.Stripped.{stripped_code};
ghost use Rattle.dexmembers.specs.internal.Stored.{item_at};

use crate::code_list::CodeList;
use crate::method_list::DeclaredMethod;
use crate::places::Place;
use crate::remapped_members::RemappedMembers;
use crate::shared_codes::SharedCodes;
use dexcode::BorrowedCode;
use dexpool::Remap;
use std::alloc::{AllocError, Global};

/// Who has the memory of the code of methods of one kind.
#[derive(Drop)]
pub(crate) enum HeldCodes<'a> {
    /// One list of methods.
    Own(CodeList<'a>),
    /// Several lists.
    Shared(SharedCodes<'a>),
}

impl<'a> HeldCodes<'a> {
    /// The code at a place, if there is one.
    pub(crate) fn get<'m>(&'m self, place: Place) -> Option<BorrowedCode<'m, 'a>>
        ensures { IsBorrowedCode result (item_at (codes_in self.now) place) }
    {
        match self {
            HeldCodes::Own(codes) => codes.get(place),
            HeldCodes::Shared(codes) => codes.get(place),
        }
    }

    /// The images of the code where several lists have its memory, or `None` where one has.
    ///
    /// Condition: each number has an image that fits its place.
    pub(crate) fn images(
        &self,
        remapped: &mut RemappedMembers<'_, 'a>,
    ) -> Result<Option<SharedCodes<'a>>, AllocError>
        requires { All (HasPlaces remapped.old) (codes_in self.now) }
        ensures kept { remapped.new ≡ remapped.old }
        ensures ready { IfOk result (AreReady remapped.old self.now) }
    {
        match self {
            HeldCodes::Own(_) => Ok(None),
            HeldCodes::Shared(codes) => Ok(Some(codes.image(remapped)?)),
        }
    }

    /// Replaces each number of a symbol by its image.
    ///
    /// Condition: each number has an image that fits its place; where several lists have the memory, these are the
    /// images.
    pub(crate) fn renumber(&mut self, remap: &Remap, images: Option<SharedCodes<'a>>)
        requires places { All (HasPlaces remap.now) (codes_in self.old) }
        requires ready { AreReady remap.now self.old images }
        ensures { codes_in self.new ≡ map (renumbered_item remap.now) (codes_in self.old) }
    {
        if let Some(images) = images {
            *self = HeldCodes::Shared(images);
            return;
        }
        if let HeldCodes::Own(codes) = self {
            codes.renumber(remap);
        }
    }

    /// Leaves out the debug programs.
    pub(crate) fn drop_debug(&mut self)
        ensures { codes_in self.new ≡ map stripped_code (codes_in self.old) }
    {
        match self {
            HeldCodes::Own(codes) => codes.drop_debug(),
            HeldCodes::Shared(codes) => codes.drop_debug(),
        }
    }

    /// For each of the methods the place of the first one whose debug program is at the same place, or its own; `None`
    /// where no two methods have one at the same place.
    pub(crate) fn shared_debugs(
        &self,
        alloc: Global,
        methods: &[DeclaredMethod],
    ) -> Result<Option<Vec<usize>>, AllocError>
        ensures { IfOk result (λ places. IfSome places (λ places.
            AreSameBefore (λ x. code_debug (item_at (codes_in self.now) x.code))
            methods.now places.items)) }
    {
        match self {
            HeldCodes::Own(codes) => codes.shared_debugs(alloc, methods),
            HeldCodes::Shared(codes) => codes.shared_debugs(alloc, methods),
        }
    }

    /// The same code: in memory of its own, or in the same memory where others have it too. Its units are borrowed as
    /// before.
    pub(crate) fn copy(&self) -> Result<HeldCodes<'a>, AllocError>
        ensures { IfOk result (λ copy. codes_in copy ≡ codes_in self.now) }
    {
        match self {
            HeldCodes::Own(codes) => Ok(HeldCodes::Own(codes.copy()?)),
            HeldCodes::Shared(codes) => Ok(HeldCodes::Shared(codes.copy()?)),
        }
    }
}
