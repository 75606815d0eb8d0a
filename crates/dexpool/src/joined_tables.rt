//! Numberings joined, one kind of symbol after the other: the rows of each part are renumbered by the images of the
//! kinds below them, in which they rise still, and then joined.

ghost use Rattle.std.specs.Prelude.{◌≡◌, ℕ, ◌+◌, ◌<◌, length, map, All, IfOk, OnOk, Some};
ghost use Rattle.dexrows.specs.Join.{AreSorted};
ghost use Rattle.dexpool.specs.Numberings.{IsNumbering, union_of, PartsMapTo};
ghost use Rattle.dexpool.specs.Orderly.{KeepOrder};
ghost use Rattle.dexpool.specs.internal.Renumbering.{HasSpans, numbers_in};
ghost use Rattle.dexpool.specs.internal.SharedLists.{AreTablesJoined};
ghost use Rattle.dexpool.specs.internal.Joining.{JoinsRows, AreTextsOf, AreTypesOf, AreProtosOf, AreFieldsOf, AreMethodsOf, MovesTextsOf, MovesTypesOf, total_maps, HaveSameParts, HavePart, SameFrom, AreRemapsOf};
ghost use Rattle.std.specs.List.{AllZip};
ghost use Rattle.dexpool.specs.Laws.{MapsAll};

use crate::numbering::{Numbering, Tables};
use crate::remap::{Images, Remap};
use crate::renumbering::{
    Protos, descriptors, proto_rows, renumbered_protos, renumbered_rows, renumbered_types,
    sorted_law, stored, stored_together,
};
use dexids::Parameters;
use dexrows::{FieldRow, Joined, LowerPlaces, MethodRow, ProtoRow, Row, TypeRow, join};
use dexstr::{KeyedText, Text};
use std::alloc::{AllocError, Global};
use std::mem;

impl<'a> Numbering<'a> {
    /// Joins numberings: the symbols of all parts, and for each part where its numbers lead, which is
    /// somewhere for each of them. Of k parts with n symbols in all it compares some n times log k rows, and
    /// sorts nothing.
    ///
    /// Error: the memory for the tables and the maps was refused, or the parts have 2^32 symbols of a kind or more.
    ///
    /// Source: this project's rule; the orders are those of "string_id_item", "type_id_item", "proto_id_item",
    /// "field_id_item" and "method_id_item".
    pub fn join(
        alloc: Global,
        parts: &[&Numbering<'a>],
    ) -> Result<(Numbering<'a>, Vec<Remap>), AllocError>
        ensures union { IfOk result (λ joined.
            joined.0 ≡ union_of (map (λ part. part.now) parts.now)) }
        ensures maps { IfOk result (λ joined. PartsMapTo parts.now joined.0 joined.1.items) }
        ensures whole { IfOk result (λ joined.
            AllZip MapsAll (map (λ part. part.now) parts.now) joined.1.items) }
    {
        let strings = join_strings(alloc, parts)?;
        let types = join_types(alloc, parts, &strings)?;
        let lower = LowerJoined {
            alloc,
            parts,
            strings: &strings,
            types: &types,
        };
        let protos = lower.join_protos()?;
        let fields = lower.join_fields()?;
        let methods = lower.join_methods(&protos)?;
        let images = JoinedImages {
            strings: strings.images,
            types: types.images,
            protos: protos.images,
            fields: fields.images,
            methods: methods.images,
        };
        let remaps = images.remaps(alloc)?;
        let tables = Tables {
            strings: strings.rows,
            types: types.rows,
            protos: protos.table.rows,
            parameters: Parameters::own(protos.table.parameters),
            fields: fields.rows,
            methods: methods.rows,
        };
        Ok((Numbering { tables }, remaps))
    }
}

/// The parts of a join, and their texts and types, which are joined first.
#[derive(Clone, Copy)]
struct LowerJoined<'j, 'n, 'a> {
    alloc: Global,
    parts: &'j [&'n Numbering<'a>],
    strings: &'j Joined<Text<'a>>,
    types: &'j Joined<usize>,
}

/// The protos of all parts.
#[derive(Drop)]
struct JoinedProtos {
    table: Protos,
    images: Vec<Vec<u32>>,
}

/// For each part the images of its numbers, by kind.
#[derive(Drop)]
struct JoinedImages {
    strings: Vec<Vec<u32>>,
    types: Vec<Vec<u32>>,
    protos: Vec<Vec<u32>>,
    fields: Vec<Vec<u32>>,
    methods: Vec<Vec<u32>>,
}

// The texts of all parts.
fn join_strings<'a>(alloc: Global, parts: &[&Numbering<'a>]) -> Result<Joined<Text<'a>>, AllocError>
    ensures numberings { IfOk result (λ _. All IsNumbering (map (λ part. part.now) parts.now)) }
    ensures texts { IfOk result (AreTextsOf parts.now) }
{
    let mut rows = Vec::with_capacity(alloc, parts.len())?;
    for part in parts {
        rows.push(keyed_texts(alloc, &part.tables().strings)?)?;
    }
    let joined = join_rows(alloc, &rows)?;
    Ok(Joined {
        rows: plain_texts(alloc, &joined.rows)?,
        images: joined.images,
    })
}

// The texts with their keys.
fn keyed_texts<'t, 'a>(
    alloc: Global,
    texts: &'t [Text<'a>],
) -> Result<Vec<KeyedText<'t, 'a>>, AllocError>
    ensures { IfOk result (λ keyed. keyed.items ≡ texts.now) }
{
    texts.iter().map(|text| KeyedText::of(text)).collect(alloc)
}

// The texts without their keys.
fn plain_texts<'a>(alloc: Global, keyed: &[KeyedText<'_, 'a>]) -> Result<Vec<Text<'a>>, AllocError>
    ensures { IfOk result (λ texts. texts.items ≡ keyed.now) }
{
    keyed.iter().map(|text| text.text()).collect(alloc)
}

// The types of all parts, by the joined texts.
fn join_types<'a>(
    alloc: Global,
    parts: &[&Numbering<'a>],
    strings: &Joined<Text<'a>>,
) -> Result<Joined<usize>, AllocError>
    requires numberings { All IsNumbering (map (λ part. part.now) parts.now) }
    requires strings { AreTextsOf parts.now strings.now }
    ensures { IfOk result (AreTypesOf parts.now strings.now) }
{
    sorted_law::<TypeRow>();
    let mut rows = Vec::with_capacity(alloc, parts.len())?;
    for (i, part) in parts.iter().enumerate() {
        rows.push(renumbered_types(alloc, &part.tables().types, &strings.images[i])?)?;
    }
    let joined = join_rows(alloc, &rows)?;
    Ok(Joined {
        rows: descriptors(alloc, &joined.rows)?,
        images: joined.images,
    })
}

impl LowerJoined<'_, '_, '_> {
    // Where the texts and types of a part are now, and these are where its protos are.
    fn places<'p>(&'p self, part: usize, protos: &'p [u32]) -> LowerPlaces<'p>
        requires part { part < length self.now.parts.now }
        requires strings { AreTextsOf self.now.parts.now self.now.strings.now }
        requires types { AreTypesOf self.now.parts.now self.now.strings.now self.now.types.now }
        ensures strings { MovesTextsOf self.now.parts.now self.now.strings.now part
            result.strings.now }
        ensures types { MovesTypesOf
            self.now.parts.now self.now.strings.now self.now.types.now part result.types.now }
        ensures protos { result.protos.now ≡ protos.now }
    {
        LowerPlaces {
            strings: &self.strings.images[part],
            types: &self.types.images[part],
            protos,
        }
    }

    // The protos of all parts, by the joined texts and types.
    fn join_protos(&self) -> Result<JoinedProtos, AllocError>
        requires numberings { All IsNumbering (map (λ part. part.now) self.now.parts.now) }
        requires strings { AreTextsOf self.now.parts.now self.now.strings.now }
        requires types { AreTypesOf self.now.parts.now self.now.strings.now self.now.types.now }
        ensures { IfOk result
            (AreProtosOf self.now.parts.now self.now.strings.now self.now.types.now) }
    {
        sorted_law::<ProtoRow<'_>>();
        let mut tables = Vec::with_capacity(self.alloc, self.parts.len())?;
        for (i, part) in self.parts.iter().enumerate() {
            let part = part.tables();
            let protos = Vec::from_slice(self.alloc, &part.protos)?;
            tables.push(renumbered_protos(protos, &part.parameters, self.places(i, &[]))?)?;
        }
        let mut rows = Vec::with_capacity(self.alloc, tables.len())?;
        for table in &tables {
            rows.push(proto_rows(self.alloc, table)?)?;
        }
        let joined = join_rows(self.alloc, &rows)?;
        Ok(JoinedProtos {
            table: self.stored_protos(&tables, &joined)?,
            images: joined.images,
        })
    }

    // The joined rows of tables as a table. Where its rows name more parameters than the tables have, they share them.
    fn stored_protos(
        &self,
        tables: &[Protos],
        joined: &Joined<ProtoRow<'_>>,
    ) -> Result<Protos, AllocError>
        requires spans { All HasSpans tables.now }
        requires joined { AreTablesJoined tables.now joined.now }
        ensures spans { IfOk result HasSpans }
        ensures rows { IfOk result (λ table. numbers_in table ≡ joined.now.rows.items) }
    {
        let kept = tables.iter().fold(0, |count: usize, table| {
            count.saturating_add(table.parameters.len())
        });
        let named = joined.rows.iter().fold(0, |count: usize, row| {
            count.saturating_add(row.parameters().len())
        });
        if named > kept {
            return stored_together(self.alloc, tables, joined);
        }
        stored(self.alloc, &joined.rows)
    }

    // The fields of all parts, by the joined texts and types.
    fn join_fields(&self) -> Result<Joined<FieldRow>, AllocError>
        requires numberings { All IsNumbering (map (λ part. part.now) self.now.parts.now) }
        requires strings { AreTextsOf self.now.parts.now self.now.strings.now }
        requires types { AreTypesOf self.now.parts.now self.now.strings.now self.now.types.now }
        ensures { IfOk result
            (AreFieldsOf self.now.parts.now self.now.strings.now self.now.types.now) }
    {
        sorted_law::<FieldRow>();
        let mut rows = Vec::with_capacity(self.alloc, self.parts.len())?;
        for (i, part) in self.parts.iter().enumerate() {
            let fields = Vec::from_slice(self.alloc, &part.tables().fields)?;
            rows.push(renumbered_rows(fields, self.places(i, &[])))?;
        }
        join_rows(self.alloc, &rows)
    }

    // The methods of all parts, by the joined texts, types and protos.
    fn join_methods<'p>(&'p self, protos: &'p JoinedProtos) -> Result<Joined<MethodRow>, AllocError>
        requires numberings { All IsNumbering (map (λ part. part.now) self.now.parts.now) }
        requires strings { AreTextsOf self.now.parts.now self.now.strings.now }
        requires types { AreTypesOf self.now.parts.now self.now.strings.now self.now.types.now }
        requires protos { AreProtosOf
            self.now.parts.now self.now.strings.now self.now.types.now protos.now }
        ensures { IfOk result
            (AreMethodsOf self.now.parts.now self.now.strings.now self.now.types.now protos.now) }
    {
        sorted_law::<MethodRow>();
        let mut rows = Vec::with_capacity(self.alloc, self.parts.len())?;
        for (i, part) in self.parts.iter().enumerate() {
            let methods = Vec::from_slice(self.alloc, &part.tables().methods)?;
            rows.push(renumbered_rows(methods, self.places(i, &protos.images[i])))?;
        }
        join_rows(self.alloc, &rows)
    }
}

// The rows of each part, which are sorted, joined.
fn join_rows<R: Row>(alloc: Global, parts: &[Vec<R>]) -> Result<Joined<R>, AllocError>
    requires { All (λ part. AreSorted R.key_of part.items) parts.now }
    ensures { IfOk result (JoinsRows R.key_of parts.now) }
{
    let mut slices = Vec::with_capacity(alloc, parts.len())?;
    for part in parts {
        slices.push(part.as_slice())?;
    }
    join(alloc, &slices)
}

impl JoinedImages {
    // For each part the map of its images.
    fn remaps(mut self, alloc: Global) -> Result<Vec<Remap>, AllocError>
        requires counts { HaveSameParts self }
        requires keep { (part : ℕ) → part < length self.strings.items
            → KeepOrder (total_maps part self) }
        ensures { IfOk result (AreRemapsOf self) }
    {
        let mut remaps = Vec::with_capacity(alloc, self.strings.len())?;
        for part in 0..self.strings.len() {
            remaps.push(self.remap(alloc, part)?)?;
        }
        Ok(remaps)
    }

    // The map of a part's images, which are moved into it.
    fn remap(&mut self, alloc: Global, part: usize) -> Result<Remap, AllocError>
        requires within { HavePart part self.old }
        requires keep { KeepOrder (total_maps part self.old) }
        ensures maps { IfOk result (λ remap. remap ≡ total_maps part self.old) }
        ensures others { OnOk result (SameFrom (part + 1) self.old self.new) }
    {
        Ok(Remap {
            strings: moved(alloc, &mut self.strings[part])?,
            types: moved(alloc, &mut self.types[part])?,
            protos: moved(alloc, &mut self.protos[part])?,
            fields: moved(alloc, &mut self.fields[part])?,
            methods: moved(alloc, &mut self.methods[part])?,
        })
    }
}

// The map to these images, one for each number, which are moved into it.
fn moved(alloc: Global, images: &mut Vec<u32>) -> Result<Images, AllocError>
    ensures { IfOk result (λ map_of. map_of ≡ map Some images.old.items) }
{
    Images::of_all(mem::replace(images, Vec::new(alloc)))
}
