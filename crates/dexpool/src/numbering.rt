//! Numberings: symbols, each with the number of its place in the order of its kind. A numbering has five tables, each
//! sorted, whose rows are numbers of rows below them.

ghost use Rattle.std.specs.Prelude.{◌≡◌, ◌<◌, ◌≤◌, ◌^◌, ◌-◌, ℕ, List, length, slice_index_or, min, IfOk, []};
ghost use Rattle.dexspec.specs.Weight.{mentions_weight};
ghost use Rattle.dexspec.specs.Symbols.{Proto, Field, Method};
ghost use Rattle.dexpool.specs.Pools.{count_of};
ghost use Rattle.dexpool.specs.Numberings.{IsAt, IsNumbering, DenotesProto, DenotesField, DenotesMethod};

use crate::pools::Pools;
use crate::symbols::SymbolKind;
use dexids::{Parameters, ProtoEntry, Span};
use dexrows::{FieldRow, MethodRow, ProtoRow};
use dexstr::Text;
use std::alloc::{AllocError, Global};
use std::marker::Model;

/// The five tables. A type is the number of its text.
#[derive(Drop)]
pub struct Tables<'a> {
    pub(crate) strings: Vec<Text<'a>>,
    pub(crate) types: Vec<usize>,
    pub(crate) protos: Vec<ProtoEntry>,
    // The types of all parameters.
    pub(crate) parameters: Parameters<'a>,
    pub(crate) fields: Vec<FieldRow>,
    pub(crate) methods: Vec<MethodRow>,
}

/// Five sets of symbols: texts, types, protos, fields and methods. What a symbol names is there too. Each symbol
/// has a number, its place in the order of its kind, from 0 on. Contracts see five lists of symbols.
///
/// Texts borrow the bytes that they were read from.
///
/// Source: "string_id_item", "type_id_item", "proto_id_item", "field_id_item" and "method_id_item".
pub struct Numbering<'a> {
    pub(crate) tables: Tables<'a>,
}

// One call drops a numbering.
impl Drop for Numbering<'_> {
    fn drop(self) {
        let Numbering { tables: _ } = self;
    }
}

impl<'a> Model for Numbering<'a> {
    ghost use Rattle.dexspec.specs.Mentions.{Mentions};
    ghost use Rattle.dexpool.specs.Stored.{symbols_in, AreTables};

    ghost Value = { Mentions };

    ghost view = { λ n. symbols_in n.tables };

    ghost invariant = { λ n. AreTables n.tables };
}

impl<'a> Numbering<'a> {
    ghost use Rattle.dexpool.specs.Stored.{symbols_in, AreTables};

    /// The tables.
    pub(crate) fn tables(&self) -> &Tables<'a>
        ensures tables { AreTables result.now }
        ensures symbols { symbols_in result.now ≡ self.now }
    {
        &self.tables
    }

    /// The tables, moved out of the numbering.
    pub(crate) fn into_tables(self) -> Tables<'a>
        ensures tables { AreTables result }
        ensures symbols { symbols_in result ≡ self.entry }
    {
        let Numbering { tables } = self;
        tables
    }

    /// A numbering of no symbol.
    pub fn empty(alloc: Global) -> Numbering<'a>
        ensures { result
            ≡ record { texts = []; types = []; protos = []; fields = []; methods = [] } }
    {
        Numbering {
            tables: Tables {
                strings: Vec::new(alloc),
                types: Vec::new(alloc),
                protos: Vec::new(alloc),
                parameters: Parameters::own(Vec::new(alloc)),
                fields: Vec::new(alloc),
                methods: Vec::new(alloc),
            },
        }
    }

    /// The symbols of a file's pools: the number of each is its row.
    pub fn of(pools: &Pools<'a>) -> Result<Numbering<'a>, AllocError>
        ensures { IfOk result (λ numbering. numbering ≡ pools.now) }
    {
        pools.numbering().copy()
    }

    /// Returns a copy of the numbering, with tables of its own.
    pub fn copy(&self) -> Result<Numbering<'a>, AllocError>
        ensures { IfOk result (λ numbering. numbering ≡ self.now) }
    {
        let tables = &self.tables;
        let alloc = *tables.strings.allocator();
        Ok(Numbering {
            tables: Tables {
                strings: tables
                    .strings
                    .iter()
                    .map(|text| text.clone())
                    .collect(alloc)?,
                types: Vec::from_slice(alloc, &tables.types)?,
                protos: Vec::from_slice(alloc, &tables.protos)?,
                parameters: tables.parameters.copy()?,
                fields: Vec::from_slice(alloc, &tables.fields)?,
                methods: Vec::from_slice(alloc, &tables.methods)?,
            },
        })
    }

    /// Does nothing: its clause states what holds of every numbering.
    #[tactic(auto, using(crate::proofs::TablesAreAt::are_numbering))]
    pub fn is_numbering(&self)
        ensures { IsNumbering self.now }
    {
        let _tables = &self.tables;
    }

    /// The number of symbols of a kind.
    pub fn count(&self, kind: SymbolKind) -> usize
        ensures { result ≡ count_of kind self.now }
    {
        match kind {
            SymbolKind::Text => self.tables.strings.len(),
            SymbolKind::Typ => self.tables.types.len(),
            SymbolKind::Proto => self.tables.protos.len(),
            SymbolKind::Field => self.tables.fields.len(),
            SymbolKind::Method => self.tables.methods.len(),
        }
    }

    /// The text of a number.
    ///
    /// Condition: `i` is below the number of texts. Source: "string_id_item".
    pub fn string(&self, i: usize) -> &Text<'a>
        requires { i < length self.now.texts }
        ensures { IsAt self.now.texts i result.now }
    {
        &self.tables.strings[i]
    }

    /// The type of a number, by its descriptor.
    ///
    /// Condition: `i` is below the number of types. Source: "type_id_item".
    pub fn typ(&self, i: usize) -> &Text<'a>
        requires { i < length self.now.types }
        ensures { IsAt self.now.types i result.now }
    {
        &self.tables.strings[self.tables.types[i]]
    }

    /// The number of the text that is the descriptor of a type.
    ///
    /// Condition: `i` is below the number of types. Source: "type_id_item".
    pub fn descriptor(&self, i: usize) -> usize
        requires { i < length self.now.types }
        ensures { (d : List ℕ) → IsAt self.now.texts result (slice_index_or self.now.types i d) }
    {
        self.tables.types[i]
    }

    /// The numbers of the parts of a proto.
    ///
    /// Condition: `i` is below the number of protos. Source: "proto_id_item".
    pub fn proto(&self, i: usize) -> ProtoRow<'_>
        requires { i < length self.now.protos }
        ensures { (d : Proto) → DenotesProto self.now result (slice_index_or self.now.protos i d) }
    {
        let entry = self.tables.protos[i];
        let parameters = self.tables.parameters.part(entry.parameters);
        ProtoRow::of(entry.shorty, entry.return_type, parameters)
    }

    // Where the parameters of a proto are in the table of all parameters.
    pub(crate) fn parameters_span(&self, i: usize) -> Span
        requires { i < length self.now.protos }
    {
        self.tables.protos[i].parameters
    }

    // Proto `found`, if it is before proto `i` and its parameters are at the same place, and else proto `i`.
    pub(crate) fn first_or_same(&self, found: usize, i: usize) -> usize
        requires { i < length self.now.protos }
        ensures before { result ≤ i }
        ensures equal { (d : Proto) → (slice_index_or self.now.protos result d).parameters
            ≡ (slice_index_or self.now.protos i d).parameters }
    {
        if found < i {
            let parameters = self.tables.protos[found].parameters;
            if parameters.is(self.tables.protos[i].parameters) {
                return found;
            }
        }
        i
    }

    /// The numbers of the parts of a field.
    ///
    /// Condition: `i` is below the number of fields. Source: "field_id_item".
    pub fn field(&self, i: usize) -> &FieldRow
        requires { i < length self.now.fields }
        ensures { (d : Field)
            → DenotesField self.now result.now (slice_index_or self.now.fields i d) }
    {
        &self.tables.fields[i]
    }

    /// The numbers of the parts of a method.
    ///
    /// Condition: `i` is below the number of methods. Source: "method_id_item".
    pub fn method(&self, i: usize) -> &MethodRow
        requires { i < length self.now.methods }
        ensures { (d : Method)
            → DenotesMethod self.now result.now (slice_index_or self.now.methods i d) }
    {
        &self.tables.methods[i]
    }

    /// Returns the weight of the symbols together, in bytes that their rows and items have at most in a canonical file
    /// (this project's rule), or 2^64 - 1 where that is more.
    pub fn weight(&self) -> u64
        ensures { result ≡ min (2 ^ 64 - 1) (mentions_weight self.now) }
    {
        let tables = &self.tables;
        let types = 4u64.saturating_mul(tables.types.len() as u64);
        let fields = 8u64.saturating_mul(tables.fields.len() as u64);
        let methods = 8u64.saturating_mul(tables.methods.len() as u64);
        let mut weight = types.saturating_add(fields).saturating_add(methods);
        // Each text has a string_id and a string_data_item, and each proto a proto_id and a type_list.
        for text in &tables.strings {
            weight = weight.saturating_add(10 + 3 * text.len() as u64);
        }
        for proto in &tables.protos {
            let parameters = (proto.parameters.len() as u64).saturating_mul(2);
            weight = weight.saturating_add(20).saturating_add(parameters);
        }
        weight
    }
}
