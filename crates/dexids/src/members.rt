//! The pools of fields and methods.

ghost use Rattle.std.specs.Prelude.{◌↔◌, ◌<◌, MatchOption, IsTrue};
ghost use Rattle.dexspec.specs.Header.{FieldIds, table_size, MethodIds};
ghost use Rattle.dexspec.specs.Names.{IsDescriptor, IsMemberName};
ghost use Rattle.dexspec.specs.Rows.{HasField, HasMethod};
ghost use Rattle.dexspec.specs.Symbols.{IsField};
ghost use Rattle.dexids.specs.Tables.{field_cmp, method_cmp};
ghost use Rattle.dexids.specs.Reading.{AreNames, FieldRowAt, HasFieldNumbers, AreMethodNames, HasMethodNumbers, MethodRowAt, file_numbers};
ghost use Rattle.dexids.specs.internal.FileRows.{AreMemberNames, IsFileField, AreFileProtos, IsFileMethod};

use crate::kinds::{is_class, is_reference, is_value};
use crate::names::{Names, is_known_name};
use crate::reading::TableReader;
use crate::rows::ProtoEntry;
use dexhead::{Condition, Frame, Table, u16_at, u32_at};
use dexrows::{FieldRow, MethodRow, Row};
use dexstr::Text;
use std::alloc::AllocError;
use std::cmp::Ordering;

// The indices in a row.
fn field_numbers(frame: &Frame<'_>, i: u32) -> FieldRow
    requires { i < table_size frame.now FieldIds }
    ensures { HasFieldNumbers frame.now i result }
{
    let row = frame.row(Table::FieldIds, i);
    FieldRow {
        class: u32::from(u16_at(row, 0)),
        name: u32_at(row, 4),
        typ: u32::from(u16_at(row, 2)),
    }
}

// Returns whether these make a field.
fn is_field(class: &Text<'_>, name: &Text<'_>, typ: &Text<'_>, is_known: &mut bool) -> bool
    requires class { IsDescriptor class.now }
    requires typ { IsDescriptor typ.now }
    requires known { IsTrue is_known.old → IsMemberName name.now }
    ensures known { IsTrue is_known.new → IsMemberName name.now }
    ensures field { IsTrue result
        ↔ IsField (record { class = class.now; name = name.now; type = typ.now }) }
{
    is_class(class) && is_value(typ) && is_known_name(name, is_known)
}

// The numbers of a row, if it is a field. `known` has the texts that were found to be names of members.
fn field_at(names: &Names<'_, '_>, known: &mut [bool], i: u32) -> Option<FieldRow>
    requires names { AreNames names.now.frame.now names.now.strings.now names.now.types.now }
    requires known { AreMemberNames names.now.strings.now known.old }
    requires row { i < table_size names.now.frame.now FieldIds }
    ensures known { AreMemberNames names.now.strings.now known.new }
    ensures field { MatchOption result (HasField names.now.frame.now i → ⊥)
        (IsFileField names.now i) }
{
    let field = field_numbers(names.frame, i);
    let class = names.typ(field.class as usize)?;
    let typ = names.typ(field.typ as usize)?;
    let name = names.text(field.name as usize)?;
    is_field(class, name, typ, &mut known[field.name as usize]).then_some(field)
}

/// Reads the fields of a file whose texts and types are read. The condition fails at a row with an index out of range,
/// whose class is no class type, whose type is void, whose name is no member's, or which does not come after the row
/// before it, by class, name and type.
///
/// Source: "field_id_item" and "MemberName".
impl TableReader for Names<'_, '_> {
    ghost use Rattle.dexspec.specs.Conditions as conditions;

    type Row = FieldRow;

    type Memory = Vec<bool>;

    ghost condition = { conditions.Fields };

    ghost file = { λ names. names.frame.now };

    ghost can_read = { λ names. AreNames names.frame.now names.strings.now names.types.now };

    ghost remembers = { λ names known. AreMemberNames names.strings.now known.items };

    ghost is_row = { λ names. FieldRowAt names.strings.now names.types.now };

    ghost row_cmp = { λ names. field_cmp };

    fn rows(&self) -> (Condition, u32) {
        (Condition::Fields, self.frame.size(Table::FieldIds))
    }

    fn row_at(&self, known: &mut Vec<bool>, i: u32) -> Result<Option<FieldRow>, AllocError> {
        Ok(field_at(self, known, i))
    }

    fn compare(&self, left: &FieldRow, right: &FieldRow) -> Ordering {
        Row::compare(left, right)
    }

    fn law(&self) {}
}

// The indices in a row.
fn method_numbers(frame: &Frame<'_>, i: u32) -> MethodRow
    requires { i < table_size frame.now MethodIds }
    ensures { HasMethodNumbers frame.now i result }
{
    let row = frame.row(Table::MethodIds, i);
    MethodRow {
        class: u32::from(u16_at(row, 0)),
        name: u32_at(row, 4),
        proto: u32::from(u16_at(row, 2)),
    }
}

// Returns whether a method may belong to the type and have the name.
fn is_method(class: &Text<'_>, name: &Text<'_>, is_known: &mut bool) -> bool
    requires class { IsDescriptor class.now }
    requires known { IsTrue is_known.old → IsMemberName name.now }
    ensures known { IsTrue is_known.new → IsMemberName name.now }
    ensures method { IsTrue result ↔ AreMethodNames class.now name.now }
{
    is_reference(class) && is_known_name(name, is_known)
}

// The numbers of a row, if it is a method. `known` has the texts that were found to be names of members.
fn method_at(
    names: &Names<'_, '_>,
    protos: &[ProtoEntry],
    known: &mut [bool],
    i: u32,
) -> Option<MethodRow>
    requires names { AreNames names.now.frame.now names.now.strings.now names.now.types.now }
    requires protos { AreFileProtos names.now protos.now }
    requires known { AreMemberNames names.now.strings.now known.old }
    requires row { i < table_size names.now.frame.now MethodIds }
    ensures known { AreMemberNames names.now.strings.now known.new }
    ensures method { MatchOption result (HasMethod names.now.frame.now i → ⊥)
        (IsFileMethod names.now protos.now i) }
{
    let method = method_numbers(names.frame, i);
    let class = names.typ(method.class as usize)?;
    let name = names.text(method.name as usize)?;
    if protos.len() <= method.proto as usize {
        return None;
    }
    is_method(class, name, &mut known[method.name as usize]).then_some(method)
}

/// Reads the methods of a file whose texts, types and protos are read. The condition fails at a row with an index out of
/// range, whose class is neither a class nor an array type, whose name is no member's, or which does not come after the
/// row before it, by class, name and proto.
///
/// Source: "method_id_item" and "MemberName".
#[derive(Clone, Copy)]
pub(crate) struct MethodReader<'r, 'p, 'a> {
    pub(crate) names: &'r Names<'p, 'a>,
    pub(crate) protos: &'r [ProtoEntry],
}

impl TableReader for MethodReader<'_, '_, '_> {
    ghost use Rattle.dexspec.specs.Conditions as conditions;

    type Row = MethodRow;

    type Memory = Vec<bool>;

    ghost condition = { conditions.Methods };

    ghost file = { λ reader. reader.names.now.frame.now };

    ghost can_read = { λ reader. AreNames reader.names.now.frame.now reader.names.now.strings.now reader.names.now.types.now × AreFileProtos reader.names.now reader.protos.now };

    ghost remembers = { λ reader known. AreMemberNames reader.names.now.strings.now known.items };

    ghost is_row = { λ reader. MethodRowAt reader.names.now.strings.now reader.names.now.types.now (file_numbers reader.names.now.frame.now) reader.protos.now };

    ghost row_cmp = { λ reader. method_cmp };

    fn rows(&self) -> (Condition, u32) {
        (Condition::Methods, self.names.frame.size(Table::MethodIds))
    }

    fn row_at(&self, known: &mut Vec<bool>, i: u32) -> Result<Option<MethodRow>, AllocError> {
        Ok(method_at(self.names, self.protos, known, i))
    }

    fn compare(&self, left: &MethodRow, right: &MethodRow) -> Ordering {
        Row::compare(left, right)
    }

    fn law(&self) {}
}
