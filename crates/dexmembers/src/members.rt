//! What a class declares, with numbers for symbols.

ghost use Rattle.std.specs.Prelude.{◌≡◌, [], MatchOption, length, map, IfOk, OnOk, OnErr};
ghost use Rattle.dexspec.specs.internal.Writing.{Puts};
ghost use Rattle.dexval.specs.Code.{set_of, value_of};
ghost use Rattle.dexval.specs.Numbered.{values_of_list};
ghost use Rattle.dexval.specs.Spelled.{numbered_array_bytes};
ghost use Rattle.dexval.specs.Writing.{PutsValues};
ghost use Rattle.dexmembers.specs.Numbered.{fields_of, methods_of, HasFewMembers};
ghost use Rattle.dexmembers.specs.Renumbering.{remapped_field, renumbered_members, IsHeldFieldMapped, MembersHavePlaces};
ghost use Rattle.dexmembers.specs.Stripped.{stripped_members};

use crate::method_list::MethodList;
use crate::places::Place;
use crate::static_values::StaticValues;
use crate::{Fields, Methods, RemappedMembers};
use dexflags::FieldFlags;
use dexpool::{Numbering, Remap, Renumber, SymbolKind, renumber_all};
use dexval::{AnnotationSet, SetTable, Value, WeighedValues, remapped};
use std::alloc::AllocError;
use std::marker::Model;

/// A declared field: its number among the fields, its access flags, and the place of its annotations in a table of
/// sets, or `None` where it has none.
///
/// Source: "encoded_field format", "field_annotation format".
#[derive(Clone, Copy)]
pub(crate) struct DeclaredField {
    pub(crate) number: u32,
    pub(crate) flags: FieldFlags,
    pub(crate) set: Place,
}

impl Model for DeclaredField {
    ghost use Rattle.std.specs.Coded.{codes};
    ghost use Rattle.dexval.specs.Stored.{elements_code};
    ghost use Rattle.dexmembers.specs.Held.{HeldField};

    ghost Value = { HeldField };

    ghost coded = { Prim.hlevel (codes, elements_code) };

    ghost view = { λ f. record { number = f.number; flags = f.flags.0; set = f.set } };

    ghost inverse = { λ f. record { number = f.number; flags = record { 0 = f.flags }; set = f.set } };
}

/// What a class declares: its own annotations, its fields and methods by number, and the initial values of its static
/// fields, in their order, which may be fewer.
///
/// Source: "class_data_item", "annotations_directory_item", "encoded_array_item".
pub struct Members<'a> {
    pub(crate) contents: Contents<'a>,
}

// One call drops what a class declares, in the crates above too.
impl Drop for Members<'_> {
    fn drop(self) {
        let Members { contents: _ } = self;
    }
}

/// The contents of members, before and after they are weighed: their sets of annotations in a table, each once, and the
/// place of the class's own.
#[derive(Drop)]
pub(crate) struct Contents<'a> {
    pub(crate) table: SetTable,
    pub(crate) set: Option<u32>,
    pub(crate) static_fields: Vec<DeclaredField>,
    pub(crate) instance_fields: Vec<DeclaredField>,
    pub(crate) direct_methods: MethodList<'a>,
    pub(crate) virtual_methods: MethodList<'a>,
    pub(crate) static_values: StaticValues,
}

impl<'a> Model for Members<'a> {
    ghost use Rattle.std.specs.Coded.{codes};
    ghost use Rattle.dexval.specs.Stored.{elements_code, values_code};
    ghost use Rattle.dexmembers.specs.Numbered.{NumberedMembers};
    ghost use Rattle.dexmembers.specs.Contents.{contents_in, AreKept};

    ghost Value = { NumberedMembers };

    ghost coded = { Prim.hlevel (codes, elements_code, values_code) };

    ghost view = { λ x. contents_in x.contents };

    ghost invariant = { λ x. AreKept x.contents };
}

impl Renumber for DeclaredField {
    ghost places = { IsHeldFieldMapped };

    ghost remapped = { remapped_field };

    // The sets are remapped in their table.
    fn renumber(&mut self, remap: &Remap) {
        self.number = remapped(remap, SymbolKind::Field, self.number);
    }
}

impl<'a> Members<'a> {
    /// A class declares fewer than 2^32 fields and fewer than 2^32 methods. The call does nothing: its contract states
    /// what holds of all that is declared, for the proofs of callers.
    pub fn are_few(&self)
        ensures { HasFewMembers self.now }
    {
        let _fields = &self.contents.static_fields;
    }

    /// Returns the number of fields that the class declares.
    ///
    /// Source: "class_data_item", the fields `static_fields_size` and `instance_fields_size`.
    pub fn field_count(&self) -> usize
        ensures { result ≡ length (fields_of self.now) }
    {
        self.are_few();
        self.static_fields().len() + self.instance_fields().len()
    }

    /// Returns the number of methods that the class declares.
    ///
    /// Source: "class_data_item", the fields `direct_methods_size` and `virtual_methods_size`.
    pub fn method_count(&self) -> usize
        ensures { result ≡ length (methods_of self.now) }
    {
        self.are_few();
        self.direct_methods().len() + self.virtual_methods().len()
    }

    /// The annotations of the class itself; `None` says that it has none.
    ///
    /// Source: "annotations_directory_item", the field `class_annotations_off`.
    pub fn annotations(&self) -> Option<&AnnotationSet>
        ensures { MatchOption result (self.now.annotations ≡ []) (λ set.
            set_of set.now ≡ self.now.annotations) }
    {
        self.contents.table.set(self.contents.set)
    }

    /// The static fields, by number.
    ///
    /// Source: "class_data_item", the field `static_fields`.
    pub fn static_fields(&self) -> Fields<'_>
        ensures { result ≡ self.now.static_fields }
    {
        Fields::of(&self.contents.table, &self.contents.static_fields)
    }

    /// The instance fields, by number.
    ///
    /// Source: "class_data_item", the field `instance_fields`.
    pub fn instance_fields(&self) -> Fields<'_>
        ensures { result ≡ self.now.instance_fields }
    {
        Fields::of(&self.contents.table, &self.contents.instance_fields)
    }

    /// The direct methods, by number.
    ///
    /// Source: "class_data_item", the field `direct_methods`.
    pub fn direct_methods(&self) -> Methods<'_, 'a>
        ensures { result ≡ self.now.direct_methods }
    {
        Methods::of(&self.contents.table, &self.contents.direct_methods)
    }

    /// The virtual methods, by number.
    ///
    /// Source: "class_data_item", the field `virtual_methods`.
    pub fn virtual_methods(&self) -> Methods<'_, 'a>
        ensures { result ≡ self.now.virtual_methods }
    {
        Methods::of(&self.contents.table, &self.contents.virtual_methods)
    }

    /// The initial values of the static fields, in their order.
    pub fn static_values(&self) -> &[Value]
        ensures { values_of_list (map value_of result.now) ≡ self.now.static_values }
    {
        self.weighed_values().values()
    }

    /// Appends the initial values of the static fields, as [`put_statics`](dexval::put_statics) does.
    ///
    /// On error the vector is unchanged.
    ///
    /// Source: "encoded_array_item".
    pub fn put_static_values(
        &self,
        numbering: &Numbering<'_>,
        out: &mut Vec<u8>,
    ) -> Result<(), AllocError>
        ensures bytes { Puts
            (numbered_array_bytes self.now.static_values) out.old out.new result }
        ensures symbolic { PutsValues numbering.now
            self.now.static_values out.old out.new result }
    {
        self.weighed_values().put(numbering, out)
    }

    /// The initial values of the static fields with their weight.
    pub(crate) fn weighed_values(&self) -> &WeighedValues
        ensures { result.now ≡ self.now.static_values }
    {
        self.contents.static_values.weighed()
    }

    /// Returns a copy of the members, with lists of their own. The units of code are borrowed as before.
    pub fn copy(&self) -> Result<Members<'a>, AllocError>
        ensures { IfOk result (λ copy. copy ≡ self.now) }
    {
        let alloc = *self.contents.static_fields.allocator();
        Ok(Members {
            contents: Contents {
                table: self.contents.table.copy()?,
                set: self.contents.set,
                static_fields: Vec::from_slice(alloc, &self.contents.static_fields)?,
                instance_fields: Vec::from_slice(alloc, &self.contents.instance_fields)?,
                direct_methods: self.contents.direct_methods.copy()?,
                virtual_methods: self.contents.virtual_methods.copy()?,
                static_values: self.contents.static_values.copy()?,
            },
        })
    }

    /// Maps each number of a symbol in what the class declares to its image.
    ///
    /// Condition: each number has an image that fits its place: below 2^16 in an instruction but for
    /// const-string/jumbo, below 2^32 - 1 in a debug program, and below 2^32 elsewhere.
    /// [`members_cut_law`](crate::members_cut_law) and [`members_joined_law`](crate::members_joined_law) say when it has.
    /// Error: the class shares sets of annotations, values, code or debug programs with others, and the allocation of
    /// their images failed; the members are as they were.
    pub fn renumber(&mut self, items: &mut RemappedMembers<'_, 'a>) -> Result<(), AllocError>
        requires { MembersHavePlaces items.old self.old }
        ensures items { items.new ≡ items.old }
        ensures renumbered { OnOk result (self.new ≡ renumbered_members items.old self.old) }
        ensures unchanged { OnErr result (self.new ≡ self.old) }
    {
        let remap = items.remap();
        let direct_images = self.contents.direct_methods.code_images(items)?;
        let virtual_images = self.contents.virtual_methods.code_images(items)?;
        items.prepare_values(&mut self.contents.static_values)?;
        items.renumber_table(&mut self.contents.table)?;
        renumber_all(&mut self.contents.static_fields, remap);
        renumber_all(&mut self.contents.instance_fields, remap);
        self.contents.direct_methods.renumber(remap, direct_images);
        self.contents
            .virtual_methods
            .renumber(remap, virtual_images);
        self.contents.static_values.renumber(remap);
        Ok(())
    }

    /// Leaves out the debug programs of all methods. Instructions and tries stay, and so do the texts that a
    /// const-string names.
    ///
    /// Source: "code_item", the field `debug_info_off`, where 0 denotes none.
    pub fn drop_debug(&mut self)
        ensures { self.new ≡ stripped_members self.old }
    {
        self.contents.direct_methods.drop_debug();
        self.contents.virtual_methods.drop_debug();
    }
}
