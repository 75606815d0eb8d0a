//! Views of declared fields.

ghost use Rattle.std.specs.Prelude.{◌≡◌, ◌<◌, ◌==◌, [], length, map, slice_index_or, All, MatchOption};
ghost use Rattle.dexval.specs.Code.{set_of};
ghost use Rattle.dexmembers.specs.Held.{field_of, IsHeldField};

use crate::members::DeclaredField;
use dexflags::FieldFlags;
use dexval::{AnnotationSet, SetTable};
use std::marker::Model;

/// Fields of one kind that a class declares, by number. They are borrowed.
///
/// Source: "class_data_item", the fields `static_fields` and `instance_fields`.
#[derive(Drop)]
pub struct Fields<'m> {
    table: &'m SetTable,
    fields: &'m [DeclaredField],
}

impl<'m> Model for Fields<'m> {
    ghost use Rattle.std.specs.Prelude.{List, map, All};
    ghost use Rattle.std.specs.Coded.{codes};
    ghost use Rattle.dexval.specs.Stored.{elements_code};
    ghost use Rattle.dexmembers.specs.Numbered.{NumberedField};
    ghost use Rattle.dexmembers.specs.Held.{field_of, IsHeldField};

    ghost Value = { List NumberedField };

    ghost coded = { Prim.hlevel (codes, elements_code) };

    ghost view = { λ x. map (field_of x.table.now.sets) x.fields.now };

    ghost invariant = { λ x. All (IsHeldField x.table.now.sets) x.fields.now };
}

/// A declared field, which is borrowed: its number among the fields, its access flags, and its annotations.
///
/// Source: "encoded_field format", "field_annotation format".
#[derive(Drop)]
pub struct Field<'m> {
    table: &'m SetTable,
    field: &'m DeclaredField,
}

impl<'m> Model for Field<'m> {
    ghost use Rattle.std.specs.Coded.{codes};
    ghost use Rattle.dexval.specs.Stored.{elements_code};
    ghost use Rattle.dexmembers.specs.Numbered.{NumberedField};
    ghost use Rattle.dexmembers.specs.Held.{field_of, IsHeldField};

    ghost Value = { NumberedField };

    ghost coded = { Prim.hlevel (codes, elements_code) };

    ghost view = { λ x. field_of x.table.now.sets x.field.now };

    ghost invariant = { λ x. IsHeldField x.table.now.sets x.field.now };
}

impl<'m> Fields<'m> {
    /// Returns a view of these fields, with their sets in a table.
    ///
    /// Condition: their places are the table's.
    pub(crate) fn of(table: &'m SetTable, fields: &'m [DeclaredField]) -> Fields<'m>
        requires { All (IsHeldField table.now.sets) fields.now }
        ensures { result ≡ map (field_of table.now.sets) fields.now }
    {
        Fields { table, fields }
    }

    /// Returns the number of fields.
    pub fn len(&self) -> usize
        ensures { result ≡ length self.now }
    {
        self.fields.len()
    }

    /// Returns whether there is no field.
    pub fn is_empty(&self) -> bool
        ensures { result ≡ (length self.now == 0) }
    {
        self.fields.is_empty()
    }

    /// The field at a place.
    ///
    /// Condition: there are more fields than that.
    pub fn get(&self, place: usize) -> Field<'m>
        requires { place < length self.now }
        ensures { result ≡ slice_index_or self.now place result }
    {
        Field {
            table: self.table,
            field: &self.fields[place],
        }
    }
}

impl<'m> Field<'m> {
    /// The number of the field.
    ///
    /// Source: "encoded_field format", the field `field_idx_diff`.
    pub fn number(&self) -> u32
        ensures { result ≡ self.now.number }
    {
        let field = self.field;
        field.number
    }

    /// The access flags.
    ///
    /// Source: "access_flags definitions".
    pub fn flags(&self) -> FieldFlags
        ensures { result.0 ≡ self.now.flags }
    {
        let field = self.field;
        field.flags
    }

    /// The annotations; `None` says that the field has none.
    ///
    /// Source: "field_annotation format".
    pub fn annotations(&self) -> Option<&'m AnnotationSet>
        ensures { MatchOption result (self.now.annotations ≡ []) (λ set.
            set_of set.now ≡ self.now.annotations) }
    {
        let (table, field) = (self.table, self.field);
        table.set(field.set.get())
    }
}
