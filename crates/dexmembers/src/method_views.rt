//! Views of declared methods.

ghost use Rattle.std.specs.Prelude.{◌≡◌, ◌<◌, ◌==◌, ◌-◌, ◌^◌, ℕ, List, [], Some, None, length, map, min, slice_index_or, All, IfOk, IfSome, MatchOption};
ghost use Rattle.dexval.specs.Code.{set_of};
ghost use Rattle.dexval.specs.Spelled.{numbered_sets_weight};
ghost use Rattle.dexval.specs.Tables.{IsPlaceIn, set_at};
ghost use Rattle.dexmembers.specs.Held.{method_of, IsHeldMethod};
ghost use Rattle.dexmembers.specs.HeldCodes.{methods_in};
ghost use Rattle.dexmembers.specs.SharedDebugs.{debug_of, AreSameBefore};
ghost use Rattle.dexmembers.specs.Borrowed.{IsBorrowedSet};

use crate::held_codes::HeldCodes;
use crate::method_list::{DeclaredMethod, MethodList};
use dexcode::BorrowedCode;
use dexflags::MethodFlags;
use dexval::{AnnotationSet, SetTable};
use std::alloc::{AllocError, Global};
use std::marker::Model;

/// Methods of one kind that a class declares, by number. They are borrowed.
///
/// Source: "class_data_item", the fields `direct_methods` and `virtual_methods`.
#[derive(Drop)]
pub struct Methods<'m, 'a> {
    table: &'m SetTable,
    methods: &'m MethodList<'a>,
}

impl<'m, 'a> Model for Methods<'m, 'a> {
    ghost use Rattle.std.specs.Prelude.{List, map, All};
    ghost use Rattle.std.specs.Coded.{codes};
    ghost use Rattle.dexval.specs.Stored.{elements_code};
    ghost use Rattle.dexmembers.specs.Numbered.{NumberedMethod};
    ghost use Rattle.dexmembers.specs.Held.{method_of, IsHeldMethod};
    ghost use Rattle.dexmembers.specs.HeldCodes.{methods_in};

    ghost Value = { List NumberedMethod };

    ghost coded = { Prim.hlevel (codes, elements_code) };

    ghost view = { λ x. map (method_of x.table.now) (methods_in x.methods.now) };

    ghost invariant = { λ x. All (IsHeldMethod x.table.now) (methods_in x.methods.now) };
}

/// A declared method, which is borrowed: its number among the methods, its access flags, its code, if it has some, its
/// annotations, and sets of annotations for its parameters.
///
/// Source: "encoded_method format", "method_annotation format", "parameter_annotation format".
#[derive(Drop)]
pub struct Method<'m, 'a> {
    table: &'m SetTable,
    method: &'m DeclaredMethod,
    code_items: &'m HeldCodes<'a>,
}

impl<'m, 'a> Model for Method<'m, 'a> {
    ghost use Rattle.std.specs.Coded.{codes};
    ghost use Rattle.dexval.specs.Stored.{elements_code};
    ghost use Rattle.dexmembers.specs.Numbered.{NumberedMethod};
    ghost use Rattle.dexmembers.specs.Held.{method_of, IsHeldMethod};
    ghost use Rattle.dexmembers.specs.HeldCodes.{codes_in};
    ghost use Rattle.dexmembers.specs.internal.Stored.{held_in};

    ghost Value = { NumberedMethod };

    ghost coded = { Prim.hlevel (codes, elements_code) };

    ghost view = { λ x. method_of x.table.now (held_in (codes_in x.code_items.now) x.method.now) };

    ghost invariant = { λ x. IsHeldMethod x.table.now (held_in (codes_in x.code_items.now) x.method.now) };
}

/// The sets of annotations of a method's parameters, from left to right. They are borrowed.
///
/// Source: "parameter_annotation format", "annotation_set_ref_list".
#[derive(Drop)]
pub struct ParameterSets<'m> {
    table: &'m SetTable,
    places: &'m [Option<u32>],
}

impl<'m> Model for ParameterSets<'m> {
    ghost use Rattle.std.specs.Prelude.{List, map, All};
    ghost use Rattle.std.specs.Coded.{codes};
    ghost use Rattle.dexval.specs.Numbered.{NumberedSet};
    ghost use Rattle.dexval.specs.Stored.{elements_code};
    ghost use Rattle.dexval.specs.Tables.{IsPlaceIn, set_at};

    ghost Value = { List NumberedSet };

    ghost coded = { Prim.hlevel (codes, elements_code) };

    ghost view = { λ x. map (set_at x.table.now.sets) x.places.now };

    ghost invariant = { λ x. All (IsPlaceIn x.table.now.sets) x.places.now };
}

impl<'m, 'a> Methods<'m, 'a> {
    /// Returns a view of these methods, with their sets in a table.
    ///
    /// Condition: their places are the table's.
    pub(crate) fn of(table: &'m SetTable, methods: &'m MethodList<'a>) -> Methods<'m, 'a>
        requires { All (IsHeldMethod table.now) (methods_in methods.now) }
        ensures { result ≡ map (method_of table.now) (methods_in methods.now) }
    {
        Methods { table, methods }
    }

    /// Returns the number of methods.
    pub fn len(&self) -> usize
        ensures { result ≡ length self.now }
    {
        let methods = self.methods;
        methods.methods.len()
    }

    /// Returns whether there is no method.
    pub fn is_empty(&self) -> bool
        ensures { result ≡ (length self.now == 0) }
    {
        let methods = self.methods;
        methods.methods.is_empty()
    }

    /// The method at a place.
    ///
    /// Condition: there are more methods than that.
    pub fn get(&self, place: usize) -> Method<'m, 'a>
        requires { place < length self.now }
        ensures { result ≡ slice_index_or self.now place result }
    {
        let list = self.methods;
        Method {
            table: self.table,
            method: &list.methods[place],
            code_items: &list.code_items,
        }
    }
}

impl Methods<'_, '_> {
    /// For each method the place of the first one whose debug program is in the same memory, or its own; `None` where
    /// those of no two methods are. Methods whose code names the same debug_info_item of the file that they were read
    /// from have its debug program in the same memory.
    ///
    /// Error: the memory for the places was refused.
    ///
    /// Source: "code_item", the field `debug_info_off`.
    pub fn shared_debugs(&self, alloc: Global) -> Result<Option<Vec<usize>>, AllocError>
        ensures { IfOk result (λ places. IfSome places (λ places.
            AreSameBefore debug_of self.now places.items)) }
    {
        self.methods.shared_debugs(alloc)
    }
}

impl<'m, 'a> Method<'m, 'a> {
    /// The number of the method.
    ///
    /// Source: "encoded_method format", the field `method_idx_diff`.
    pub fn number(&self) -> u32
        ensures { result ≡ self.now.number }
    {
        let method = self.method;
        method.number
    }

    /// The access flags.
    ///
    /// Source: "access_flags definitions".
    pub fn flags(&self) -> MethodFlags
        ensures { result.0 ≡ self.now.flags }
    {
        let method = self.method;
        method.flags
    }

    /// The code, if the method has some.
    ///
    /// Source: "code_item".
    pub fn code(&self) -> Option<BorrowedCode<'m, 'a>>
        ensures { MatchOption result (self.now.code ≡ None) (λ code. self.now.code ≡ Some code) }
    {
        let (items, method) = (self.code_items, self.method);
        items.get(method.code)
    }

    /// The annotations; `None` says that the method has none.
    ///
    /// Source: "method_annotation format".
    pub fn annotations(&self) -> Option<&'m AnnotationSet>
        ensures { MatchOption result (self.now.annotations ≡ []) (λ set.
            set_of set.now ≡ self.now.annotations) }
    {
        let (table, method) = (self.table, self.method);
        table.set(method.set.get())
    }

    /// The annotations of the parameters, from left to right; their number is not compared with that of the parameters.
    ///
    /// Source: "parameter_annotation format".
    pub fn parameter_annotations(&self) -> ParameterSets<'m>
        ensures { result ≡ self.now.parameter_annotations }
    {
        let (table, method) = (self.table, self.method);
        ParameterSets::of(table, table.list(method.list.get()))
    }

    /// The weight of the annotations of the parameters, or 2^64 - 1 where that is more.
    pub(crate) fn parameters_weight(&self) -> u64
        ensures { result
            ≡ min (2 ^ 64 - 1) (numbered_sets_weight self.now.parameter_annotations) }
    {
        let (table, method) = (self.table, self.method);
        table.list_weight(method.list.get())
    }
}

impl<'m> ParameterSets<'m> {
    // The sets of a table at these places.
    //
    // Condition: the places are the table's.
    fn of(table: &'m SetTable, places: &'m [Option<u32>]) -> ParameterSets<'m>
        requires { All (IsPlaceIn table.now.sets) places.now }
        ensures { result ≡ map (set_at table.now.sets) places.now }
    {
        ParameterSets { table, places }
    }

    /// Returns the number of sets.
    pub fn len(&self) -> usize
        ensures { result ≡ length self.now }
    {
        self.places.len()
    }

    /// Returns whether there is no set.
    pub fn is_empty(&self) -> bool
        ensures { result ≡ (length self.now == 0) }
    {
        self.places.is_empty()
    }

    /// The set at a place; `None` says that it is empty.
    ///
    /// Condition: there are more sets than that.
    pub fn get(&self, place: usize) -> Option<&'m AnnotationSet>
        requires { place < length self.now }
        ensures { IsBorrowedSet result (slice_index_or self.now place []) }
    {
        self.table.set(self.places[place])
    }
}
