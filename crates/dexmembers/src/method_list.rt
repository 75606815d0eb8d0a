//! Declared methods of one kind, with their code beside them.

ghost use Rattle.std.specs.Prelude.{◌≡◌, IfOk, IfSome, All, map};
ghost use Rattle.dexmembers.specs.internal.Stored.{remapped_stored, IsStoredMethodMapped};
ghost use Rattle.dexmembers.specs.HeldCodes.{methods_in, AreCodesPlaced, AreReady};
ghost use Rattle.dexmembers.specs.Renumbering.{remapped_method, IsHeldMethodMapped};
ghost use Rattle.dexmembers.specs.SharedDebugs.{code_debug, AreSameBefore};
ghost use Rattle.dexmembers.specs.Stripped.{stripped_held};

use crate::held_codes::HeldCodes;
use crate::places::Place;
use crate::remapped_members::RemappedMembers;
use crate::shared_codes::SharedCodes;
use dexflags::MethodFlags;
use dexpool::{Remap, Renumber, SymbolKind, renumber_all};
use dexval::remapped;
use std::alloc::{AllocError, Global};
use std::marker::Model;

/// A declared method as it is stored, in 20 bytes: its number among the methods, its access flags, the place of its code
/// among that of the list, the place of its annotations in a table of sets, and the place of the list of sets for its
/// parameters; `None` where it has none.
///
/// Source: "encoded_method format", "method_annotation format", "parameter_annotation format".
#[derive(Clone, Copy)]
pub(crate) struct DeclaredMethod {
    pub(crate) number: u32,
    pub(crate) flags: MethodFlags,
    pub(crate) code: Place,
    pub(crate) set: Place,
    pub(crate) list: Place,
}

impl Model for DeclaredMethod {
    ghost use Rattle.std.specs.Coded.{codes};
    ghost use Rattle.dexval.specs.Stored.{elements_code};
    ghost use Rattle.dexmembers.specs.internal.Stored.{StoredMethod};

    ghost Value = { StoredMethod };

    ghost coded = { Prim.hlevel (codes, elements_code) };

    ghost view = { λ x. record { number = x.number; flags = x.flags.0; code = x.code; set = x.set; list = x.list } };

    ghost inverse = { λ x. record { number = x.number; flags = record { 0 = x.flags }; code = x.code; set = x.set; list = x.list } };
}

impl Renumber for DeclaredMethod {
    ghost places = { IsStoredMethodMapped };

    ghost remapped = { remapped_stored };

    // The sets are remapped in their table, and the code beside the methods.
    fn renumber(&mut self, remap: &Remap) {
        self.number = remapped(remap, SymbolKind::Method, self.number);
    }
}

/// Methods of one kind that a class declares, by number. Most have code, which is in one list. Contracts see the
/// methods with their code.
#[derive(Drop)]
pub(crate) struct MethodList<'a> {
    pub(crate) methods: Vec<DeclaredMethod>,
    pub(crate) code_items: HeldCodes<'a>,
}

impl<'a> MethodList<'a> {
    /// The methods without their code.
    pub(crate) fn declared(&self) -> &[DeclaredMethod]
        ensures { map (λ x. x.number) result.now ≡ map (λ x. x.number) (methods_in self.now) }
    {
        &self.methods
    }

    /// The images of the code where several lists have its memory, or `None` where this one has.
    ///
    /// Condition: each number has an image that fits its place; all code is that of methods.
    pub(crate) fn code_images(
        &self,
        remapped: &mut RemappedMembers<'_, 'a>,
    ) -> Result<Option<SharedCodes<'a>>, AllocError>
        requires mapped { All (IsHeldMethodMapped remapped.old) (methods_in self.now) }
        requires placed { AreCodesPlaced self.now }
        ensures kept { remapped.new ≡ remapped.old }
        ensures ready { IfOk result (AreReady remapped.old self.now.code_items) }
    {
        self.code_items.images(remapped)
    }

    /// Replaces each number of a symbol in the methods and in their code by its image.
    ///
    /// Condition: each number has an image that fits its place; all code is that of methods; where several lists have
    /// its memory, these are its images.
    pub(crate) fn renumber(&mut self, remap: &Remap, images: Option<SharedCodes<'a>>)
        requires mapped { All (IsHeldMethodMapped remap.now) (methods_in self.old) }
        requires placed { AreCodesPlaced self.old }
        requires ready { AreReady remap.now self.old.code_items images }
        ensures renumbered { methods_in self.new
            ≡ map (remapped_method remap.now) (methods_in self.old) }
        ensures placed { AreCodesPlaced self.new }
    {
        renumber_all(&mut self.methods, remap);
        self.code_items.renumber(remap, images);
    }

    /// Leaves out the debug programs.
    pub(crate) fn drop_debug(&mut self)
        ensures stripped { methods_in self.new ≡ map stripped_held (methods_in self.old) }
        ensures placed { AreCodesPlaced self.old → AreCodesPlaced self.new }
    {
        self.code_items.drop_debug();
    }

    /// For each method the place of the first one whose debug program is in the same memory, or its own; `None` where
    /// those of no two methods are.
    pub(crate) fn shared_debugs(&self, alloc: Global) -> Result<Option<Vec<usize>>, AllocError>
        ensures { IfOk result (λ places. IfSome places (λ places.
            AreSameBefore (λ x. code_debug x.code) (methods_in self.now) places.items)) }
    {
        self.code_items.shared_debugs(alloc, &self.methods)
    }

    /// Returns a copy of the methods. Code that other lists have too is in the same memory as before, and other code is
    /// copied; its units are borrowed as before.
    pub(crate) fn copy(&self) -> Result<MethodList<'a>, AllocError>
        ensures same { IfOk result (λ copy. methods_in copy ≡ methods_in self.now) }
        ensures placed { AreCodesPlaced self.now → IfOk result AreCodesPlaced }
    {
        let methods = Vec::from_slice(*self.methods.allocator(), &self.methods)?;
        let code_items = self.code_items.copy()?;
        Ok(MethodList {
            methods,
            code_items,
        })
    }
}
