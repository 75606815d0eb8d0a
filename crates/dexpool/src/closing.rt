//! Marks closed downwards: what a marked symbol names is marked too.

ghost use Rattle.std.specs.Prelude.{◌≡◌, ◌<◌, length, map, All, IfOk};
ghost use Rattle.std.specs.List.{flat_map};
ghost use Rattle.dexpool.specs.Cut.{kept};
ghost use Rattle.dexpool.specs.Numberings.{AreMarksOf};
ghost use Rattle.dexpool.specs.Stored.{symbols_in, AreTables};
ghost use Rattle.dexpool.specs.internal.Renumbering.{IsEntryWithin, IsFieldWithin};
ghost use Rattle.dexpool.specs.internal.Closing.{mark_all, field_types, AreClosure, protos_types, HasMethodMarks};

use crate::marks::Marks;
use crate::numbering::Tables;
use dexids::{Parameters, ProtoEntry, Span};
use dexrows::{FieldRow, MethodRow};
use std::alloc::AllocError;

/// Returns the marks, and marks on what marked symbols name, in one pass over each table.
pub(crate) fn closed(tables: &Tables<'_>, marks: &Marks) -> Result<Marks, AllocError>
    requires tables { AreTables tables.now }
    requires marks { AreMarksOf (symbols_in tables.now) marks.now }
    ensures { IfOk result (AreClosure tables.now marks.now) }
{
    let alloc = *marks.strings.allocator();
    let mut closed = Marks {
        strings: Vec::from_slice(alloc, &marks.strings)?,
        types: Vec::from_slice(alloc, &marks.types)?,
        protos: Vec::from_slice(alloc, &marks.protos)?,
        fields: Vec::from_slice(alloc, &marks.fields)?,
        methods: Vec::from_slice(alloc, &marks.methods)?,
    };
    let Marks {
        strings,
        types,
        protos,
        fields,
        methods,
    } = &mut closed;
    mark_by_methods(&tables.methods, methods, strings, types, protos);
    mark_by_fields(&tables.fields, fields, strings, types);
    mark_by_protos(&tables.protos, &tables.parameters, protos, strings, types);
    mark_by_types(&tables.types, types, strings);
    Ok(closed)
}

// Marks the classes, names and protos of marked methods.
fn mark_by_methods(
    methods: &[MethodRow],
    marks: &[bool],
    strings: &mut [bool],
    types: &mut [bool],
    protos: &mut [bool],
)
    requires marks { length marks.now ≡ length methods.now }
    requires within { All (HasMethodMarks strings.old types.old protos.old) methods.now }
    ensures strings { strings.new
        ≡ mark_all strings.old (map (λ m. m.name) (kept marks.now methods.now)) }
    ensures types { types.new
        ≡ mark_all types.old (map (λ m. m.class) (kept marks.now methods.now)) }
    ensures protos { protos.new
        ≡ mark_all protos.old (map (λ m. m.proto) (kept marks.now methods.now)) }
{
    for (i, method) in methods.iter().enumerate() {
        if marks[i] {
            strings[method.name as usize] = true;
            types[method.class as usize] = true;
            protos[method.proto as usize] = true;
        }
    }
}

// Marks the classes, names and types of marked fields.
fn mark_by_fields(fields: &[FieldRow], marks: &[bool], strings: &mut [bool], types: &mut [bool])
    requires marks { length marks.now ≡ length fields.now }
    requires within { All (IsFieldWithin (length strings.old) (length types.old)) fields.now }
    ensures strings { strings.new
        ≡ mark_all strings.old (map (λ f. f.name) (kept marks.now fields.now)) }
    ensures types { types.new
        ≡ mark_all types.old (flat_map field_types (kept marks.now fields.now)) }
{
    for (i, field) in fields.iter().enumerate() {
        if marks[i] {
            strings[field.name as usize] = true;
            types[field.class as usize] = true;
            types[field.typ as usize] = true;
        }
    }
}

// Marks the shorties, return types and parameters of marked protos. The longest list of parameters so far is not walked
// again where further protos share it.
fn mark_by_protos(
    protos: &[ProtoEntry],
    parameters: &Parameters<'_>,
    marks: &[bool],
    strings: &mut [bool],
    types: &mut [bool],
)
    requires marks { length marks.now ≡ length protos.now }
    requires within { All
        (IsEntryWithin (length strings.old) (length types.old) parameters.now) protos.now }
    ensures strings { strings.new
        ≡ mark_all strings.old (map (λ p. p.shorty) (kept marks.now protos.now)) }
    ensures types { types.new
        ≡ mark_all types.old (protos_types parameters.now protos.now marks.now) }
{
    let mut longest = Span { start: 0, end: 0 };
    for (i, proto) in protos.iter().enumerate() {
        if marks[i] {
            strings[proto.shorty] = true;
            types[proto.return_type] = true;
            if !longest.is(proto.parameters) {
                let numbers = parameters.part(proto.parameters);
                for k in 0..numbers.len() {
                    types[numbers.at(k)] = true;
                }
                longest = longest.longer(proto.parameters);
            }
        }
    }
}

// Marks the texts of marked types.
fn mark_by_types(types: &[usize], marks: &[bool], strings: &mut [bool])
    requires marks { length marks.now ≡ length types.now }
    requires within { All (λ n. n < length strings.old) types.now }
    ensures { strings.new ≡ mark_all strings.old (kept marks.now types.now) }
{
    for (i, text) in types.iter().enumerate() {
        if marks[i] {
            strings[*text] = true;
        }
    }
}
