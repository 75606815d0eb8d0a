//! The tables of a file.

ghost use Rattle.std.specs.Prelude.{◌≡◌, map};
ghost use Rattle.dexspec.specs.Placing.{Ordered};
ghost use Rattle.dexhead.specs.Written.{entry_meant, rows_meant};
ghost use Rattle.dexspec.specs.Sections as sections;
ghost use Rattle.dexhead.specs.Sections.{section_meant};
ghost use Rattle.dexhead.specs.Tables.{meant};
ghost use Rattle.dexlayout.specs.Laid.{AreWritable, ordered_of};
ghost use Rattle.dexlayout.specs.internal.Parts.{AreTables, rows_from, table_parts};
ghost use Rattle.dexlayout.specs.internal.Placing.{table_rows};

use dexclass::Class;
use dexhead::{MapEntry, Rows, Section, Table};
use dexpool::{Numbering, SymbolKind};

/// The length of the header, in bytes.
const HEADER_SIZE: u32 = 112;

/// How many rows each table has and where they begin, and where the last ends.
#[derive(Clone, Copy)]
pub(crate) struct Tables {
    pub(crate) string_ids: Rows,
    pub(crate) type_ids: Rows,
    pub(crate) proto_ids: Rows,
    pub(crate) field_ids: Rows,
    pub(crate) method_ids: Rows,
    pub(crate) class_defs: Rows,
    pub(crate) end: u32,
}

// A table of `size` rows, and where it begins if it is not empty.
fn rows_from(size: u32, from: u32) -> Rows
    ensures { rows_meant result ≡ rows_from size from }
{
    let off = if size == 0 { 0 } else { from };
    Rows { size, off }
}

/// The entry of a part of the file in its map.
pub(crate) fn entry(section: Section, size: u32, off: u32) -> MapEntry
    ensures { entry_meant result ≡ (section_meant section, size, off) }
{
    MapEntry { section, size, off }
}

// The entry of a table.
fn table_entry(table: Table, rows: Rows) -> MapEntry
    ensures { entry_meant result ≡ (sections.TableOf (meant table), rows.size, rows.off) }
{
    entry(Section::TableOf(table), rows.size, rows.off)
}

impl Tables {
    /// The tables of the file of classes.
    #[tactic(auto, using(crate::proofs::OwnFile::rows_few))]
    pub(crate) fn of(numbering: &Numbering<'_>, classes: &[Class<'_>]) -> Tables
        requires { AreWritable numbering.now classes.now }
        ensures { AreTables (ordered_of numbering.now classes.now) result }
    {
        let texts = numbering.count(SymbolKind::Text) as u32;
        let types = numbering.count(SymbolKind::Typ) as u32;
        let protos = numbering.count(SymbolKind::Proto) as u32;
        let fields = numbering.count(SymbolKind::Field) as u32;
        let methods = numbering.count(SymbolKind::Method) as u32;
        let class_defs = classes.len() as u32;
        let types_off = HEADER_SIZE + 4 * texts;
        let protos_off = types_off + 4 * types;
        let fields_off = protos_off + 12 * protos;
        let methods_off = fields_off + 8 * fields;
        let class_defs_off = methods_off + 8 * methods;
        Tables {
            string_ids: rows_from(texts, HEADER_SIZE),
            type_ids: rows_from(types, types_off),
            proto_ids: rows_from(protos, protos_off),
            field_ids: rows_from(fields, fields_off),
            method_ids: rows_from(methods, methods_off),
            class_defs: rows_from(class_defs, class_defs_off),
            end: class_defs_off + 32 * class_defs,
        }
    }

    /// The tables in the order of the header.
    pub(crate) fn rows(&self) -> [Rows; 6]
        ensures { (K : Ordered) → AreTables K self.now → map rows_meant result ≡ table_rows K }
    {
        [
            self.string_ids,
            self.type_ids,
            self.proto_ids,
            self.field_ids,
            self.method_ids,
            self.class_defs,
        ]
    }

    /// The tables as parts of the map.
    pub(crate) fn entries(&self) -> [MapEntry; 6]
        ensures { (K : Ordered) → AreTables K self.now → map entry_meant result ≡ table_parts K }
    {
        [
            table_entry(Table::StringIds, self.string_ids),
            table_entry(Table::TypeIds, self.type_ids),
            table_entry(Table::ProtoIds, self.proto_ids),
            table_entry(Table::FieldIds, self.field_ids),
            table_entry(Table::MethodIds, self.method_ids),
            table_entry(Table::ClassDefs, self.class_defs),
        ]
    }
}
