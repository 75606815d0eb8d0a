//! Symbols: what the rows of the five pools name.

ghost use Rattle.std.specs.Prelude.{◌≡◌, ◌<◌, map, length, All, IfOk};
ghost use Rattle.dexspec.specs.Symbols as symbols;
ghost use Rattle.dexpool.specs.Stored.{IsProtoEntry, IsFieldRow, IsMethodRow, AreTables, stored_type, stored_proto, stored_field, stored_method};

use crate::numbering::Tables;
use dexids::ProtoEntry;
use dexrows::{FieldRow, MethodRow, TypeNumbers};
use dexstr::Name;
use std::alloc::{AllocError, Global};
use std::marker::Model;

/// A pool, by what its rows name.
///
/// Source: "string_id_item", "type_id_item", "proto_id_item", "field_id_item" and "method_id_item".
#[derive(Clone, Copy, Debug, PartialEq, Eq)]
pub enum SymbolKind {
    /// The texts, in "string_ids".
    Text,
    /// The types, in "type_ids".
    Typ,
    /// The protos, in "proto_ids".
    Proto,
    /// The fields, in "field_ids".
    Field,
    /// The methods, in "method_ids".
    Method,
}

/// What a row of one of the pools names, by texts of its own.
///
/// Source: "string_id_item", "type_id_item", "proto_id_item", "field_id_item" and "method_id_item".
#[derive(Drop)]
pub enum Symbol {
    /// A text.
    Text(Name),
    /// A type, by its descriptor.
    Typ(Name),
    /// The types of a method.
    Proto(ProtoSymbol),
    /// A field of a class.
    Field(FieldSymbol),
    /// A method of a class or an array.
    Method(MethodSymbol),
}

/// A proto: the types of what a method returns and of its parameters. Its shorty follows from them.
///
/// Source: "proto_id_item".
#[derive(Drop)]
pub struct ProtoSymbol {
    /// The descriptor of the type that the method returns.
    pub return_type: Name,
    /// The descriptors of the types of its parameters, in order.
    pub parameters: Vec<Name>,
}

/// A field, by its class, its name and its type.
///
/// Source: "field_id_item".
#[derive(Drop)]
pub struct FieldSymbol {
    /// The descriptor of the class that the field belongs to.
    pub class: Name,
    /// Its name.
    pub name: Name,
    /// The descriptor of its own type.
    pub typ: Name,
}

/// A method, by its class, its name and its proto.
///
/// Source: "method_id_item".
#[derive(Drop)]
pub struct MethodSymbol {
    /// The descriptor of the class or array that the method belongs to.
    pub class: Name,
    /// Its name.
    pub name: Name,
    /// The types that it returns and takes.
    pub proto: ProtoSymbol,
}

impl Model for ProtoSymbol {
    ghost Value = { symbols.Proto };

    ghost view = { λ p. record { return_type = p.return_type; parameters = p.parameters.items } };
}

impl Model for FieldSymbol {
    ghost Value = { symbols.Field };

    ghost view = { λ f. record { class = f.class; name = f.name; type = f.typ } };
}

impl Model for MethodSymbol {
    ghost Value = { symbols.Method };

    ghost view = { λ m. record { class = m.class; name = m.name; proto = m.proto } };
}

impl Tables<'_> {
    /// Returns the name of a type.
    pub(crate) fn type_name(&self, alloc: Global, typ: usize) -> Result<Name, AllocError>
        requires tables { AreTables self.now }
        requires row { typ < length self.now.types.items }
        ensures { IfOk result (λ name. name ≡ stored_type self.now typ) }
    {
        Name::of(alloc, &self.strings[self.types[typ]])
    }

    // Returns the names of types.
    fn type_names(&self, alloc: Global, types: &TypeNumbers<'_>) -> Result<Vec<Name>, AllocError>
        requires tables { AreTables self.now }
        requires rows { All (λ typ. typ < length self.now.types.items) types.now }
        ensures { IfOk result (λ names. names.items ≡ map (stored_type self.now) types.now) }
    {
        let mut names = Vec::with_capacity(alloc, types.len())?;
        for i in 0..types.len() {
            names.push(self.type_name(alloc, types.at(i))?)?;
        }
        Ok(names)
    }

    /// The proto of a row.
    pub(crate) fn proto(&self, alloc: Global, row: &ProtoEntry) -> Result<ProtoSymbol, AllocError>
        requires tables { AreTables self.now }
        requires row { IsProtoEntry self.now row.now }
        ensures { IfOk result (λ symbol. symbol ≡ stored_proto self.now row.now) }
    {
        Ok(ProtoSymbol {
            return_type: self.type_name(alloc, row.return_type)?,
            parameters: self.type_names(alloc, &self.parameters.part(row.parameters))?,
        })
    }

    /// The field of a row.
    pub(crate) fn field(&self, alloc: Global, row: &FieldRow) -> Result<FieldSymbol, AllocError>
        requires tables { AreTables self.now }
        requires row { IsFieldRow self.now row.now }
        ensures { IfOk result (λ symbol. symbol ≡ stored_field self.now row.now) }
    {
        Ok(FieldSymbol {
            class: self.type_name(alloc, row.class as usize)?,
            name: Name::of(alloc, &self.strings[row.name as usize])?,
            typ: self.type_name(alloc, row.typ as usize)?,
        })
    }

    /// The method of a row.
    pub(crate) fn method(&self, alloc: Global, row: &MethodRow) -> Result<MethodSymbol, AllocError>
        requires tables { AreTables self.now }
        requires row { IsMethodRow self.now row.now }
        ensures { IfOk result (λ symbol. symbol ≡ stored_method self.now row.now) }
    {
        Ok(MethodSymbol {
            class: self.type_name(alloc, row.class as usize)?,
            name: Name::of(alloc, &self.strings[row.name as usize])?,
            proto: self.proto(alloc, &self.protos[row.proto as usize])?,
        })
    }
}

impl Symbol {
    ghost use Rattle.dexpool.specs.Owned.{symbol_of};

    /// Returns a copy of the symbol, with texts of its own.
    pub fn copy(&self) -> Result<Self, AllocError>
        ensures { IfOk result (λ copy. symbol_of copy ≡ symbol_of self.now) }
    {
        Ok(match self {
            Symbol::Text(text) => Symbol::Text(text.copy()?),
            Symbol::Typ(descriptor) => Symbol::Typ(descriptor.copy()?),
            Symbol::Proto(proto) => Symbol::Proto(proto.copy()?),
            Symbol::Field(field) => Symbol::Field(field.copy()?),
            Symbol::Method(method) => Symbol::Method(method.copy()?),
        })
    }
}

impl ProtoSymbol {
    /// Returns a copy of the proto, with texts of its own.
    pub fn copy(&self) -> Result<Self, AllocError>
        ensures { IfOk result (λ copy. copy ≡ self.now) }
    {
        let alloc = *self.parameters.allocator();
        let mut parameters = Vec::with_capacity(alloc, self.parameters.len())?;
        for name in &self.parameters {
            parameters.push(name.copy()?)?;
        }
        Ok(ProtoSymbol {
            return_type: self.return_type.copy()?,
            parameters,
        })
    }
}

impl FieldSymbol {
    /// Returns a copy of the field, with texts of its own.
    pub fn copy(&self) -> Result<Self, AllocError>
        ensures { IfOk result (λ copy. copy ≡ self.now) }
    {
        Ok(FieldSymbol {
            class: self.class.copy()?,
            name: self.name.copy()?,
            typ: self.typ.copy()?,
        })
    }
}

impl MethodSymbol {
    /// Returns a copy of the method, with texts of its own.
    pub fn copy(&self) -> Result<Self, AllocError>
        ensures { IfOk result (λ copy. copy ≡ self.now) }
    {
        Ok(MethodSymbol {
            class: self.class.copy()?,
            name: self.name.copy()?,
            proto: self.proto.copy()?,
        })
    }
}
