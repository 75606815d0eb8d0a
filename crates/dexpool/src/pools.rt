//! The five pools of a file.

ghost use Rattle.std.specs.Prelude.{◌≡◌, ◌<◌, length, slice_index_or, OnOk, IfOk, IfErr};
ghost use Rattle.dexspec.specs.Accepted.{HoldBelow};
ghost use Rattle.dexspec.specs.Symbols.{Proto, Field, Method};
ghost use Rattle.dexpool.specs.Pools.{ArePools, count_of};
ghost use Rattle.dexpool.specs.Numberings.{IsAt, IsNumbered, IsOfKind, DenotesProto, DenotesField, DenotesMethod};
ghost use Rattle.dexpool.specs.Owned.{symbol_of};
ghost use Rattle.dexids.specs.Faults.{IsFault};

use crate::numbering::{Numbering, Tables};
use crate::symbols::{Symbol, SymbolKind};
use dexhead::Frame;
use dexids::{FileTables, ReadFault, read_tables};
use dexrows::{FieldRow, MethodRow, ProtoRow};
use dexstr::{Name, Text};
use std::alloc::{AllocError, Global};
use std::marker::Model;

/// The five pools of a file. Contracts see them as five lists of symbols, in the order of the rows.
///
/// Texts borrow the file's bytes, and rows are numbers of rows.
#[derive(Drop)]
pub struct Pools<'a> {
    numbering: Numbering<'a>,
}

impl<'a> Model for Pools<'a> {
    ghost use Rattle.dexspec.specs.Mentions.{Mentions};

    ghost Value = { Mentions };

    ghost view = { λ p. p.numbering };
}

impl<'a> Pools<'a> {
    /// Reads the five pools, and checks conditions 11 to 15 in their order, each at its rows from 0 on.
    ///
    /// Error: `Refused` with the first condition that fails, at its least row; `Memory` where an allocation failed.
    /// Nothing is kept then.
    ///
    /// Source: "string_id_item", "type_id_item", "proto_id_item", "field_id_item", "method_id_item" and
    /// "type_list".
    pub fn read(alloc: Global, frame: &Frame<'a>) -> Result<Pools<'a>, ReadFault>
        ensures accepted { OnOk result (HoldBelow 16 frame.now) }
        ensures rows { IfOk result (ArePools frame.now) }
        ensures refused { IfErr result (IsFault frame.now) }
    {
        let FileTables {
            strings,
            types,
            protos,
            parameters,
            fields,
            methods,
        } = read_tables(alloc, frame)?;
        Ok(Pools {
            numbering: Numbering {
                tables: Tables {
                    strings,
                    types,
                    protos,
                    parameters,
                    fields,
                    methods,
                },
            },
        })
    }

    /// The symbols, each with the number of its row.
    pub fn numbering(&self) -> &Numbering<'a>
        ensures { result.now ≡ self.now }
    {
        &self.numbering
    }

    /// The symbols, each with the number of its row, moved out of the pools.
    pub fn into_numbering(self) -> Numbering<'a>
        ensures { result ≡ self.entry }
    {
        self.numbering
    }

    /// The number of rows of a pool.
    pub fn len(&self, kind: SymbolKind) -> usize
        ensures { result ≡ count_of kind self.now }
    {
        self.numbering.count(kind)
    }

    /// The text of a row.
    ///
    /// Condition: `i` is below the number of texts. Source: "string_id_item".
    pub fn string(&self, i: u32) -> &Text<'a>
        requires { i < length self.now.texts }
        ensures { IsAt self.now.texts i result.now }
    {
        self.numbering.string(i as usize)
    }

    /// The type of a row, by its descriptor.
    ///
    /// Condition: `i` is below the number of types. Source: "type_id_item".
    pub fn typ(&self, i: u32) -> &Text<'a>
        requires { i < length self.now.types }
        ensures { IsAt self.now.types i result.now }
    {
        self.numbering.typ(i as usize)
    }

    /// The numbers of the parts of a row's proto.
    ///
    /// Condition: `i` is below the number of protos. Source: "proto_id_item".
    pub fn proto(&self, i: u32) -> ProtoRow<'_>
        requires { i < length self.now.protos }
        ensures { (d : Proto) → DenotesProto self.now result (slice_index_or self.now.protos i d) }
    {
        self.numbering.proto(i as usize)
    }

    /// The numbers of the parts of a row's field.
    ///
    /// Condition: `i` is below the number of fields. Source: "field_id_item".
    pub fn field(&self, i: u32) -> &FieldRow
        requires { i < length self.now.fields }
        ensures { (d : Field)
            → DenotesField self.now result.now (slice_index_or self.now.fields i d) }
    {
        self.numbering.field(i as usize)
    }

    /// The numbers of the parts of a row's method.
    ///
    /// Condition: `i` is below the number of methods. Source: "method_id_item".
    pub fn method(&self, i: u32) -> &MethodRow
        requires { i < length self.now.methods }
        ensures { (d : Method)
            → DenotesMethod self.now result.now (slice_index_or self.now.methods i d) }
    {
        self.numbering.method(i as usize)
    }

    /// The symbol of a row, with texts of its own.
    ///
    /// Condition: `i` is below the number of rows of the pool.
    ///
    /// Source: "string_id_item", "type_id_item", "proto_id_item", "field_id_item" and "method_id_item".
    pub fn symbol(&self, alloc: Global, kind: SymbolKind, i: u32) -> Result<Symbol, AllocError>
        requires { i < count_of kind self.now }
        ensures symbol { IfOk result (λ symbol. IsNumbered self.now i (symbol_of symbol)) }
        ensures kind { IfOk result (λ symbol. IsOfKind kind (symbol_of symbol)) }
    {
        let tables = self.numbering.tables();
        let i = i as usize;
        Ok(match kind {
            SymbolKind::Text => Symbol::Text(Name::of(alloc, &tables.strings[i])?),
            SymbolKind::Typ => Symbol::Typ(tables.type_name(alloc, i)?),
            SymbolKind::Proto => Symbol::Proto(tables.proto(alloc, &tables.protos[i])?),
            SymbolKind::Field => Symbol::Field(tables.field(alloc, &tables.fields[i])?),
            SymbolKind::Method => Symbol::Method(tables.method(alloc, &tables.methods[i])?),
        })
    }
}
