//! The five tables of a file, read one after the other.

ghost use Rattle.std.specs.Prelude.{◌≡◌, OnOk, IfOk, IfErr};
ghost use Rattle.dexspec.specs.Accepted.{HoldBelow, IsFrame};
ghost use Rattle.dexids.specs.Reading.{AreNames, file_numbers};
ghost use Rattle.dexids.specs.FileTables.{AreFileTables};
ghost use Rattle.dexids.specs.internal.FileRows.{AreFileProtos, AreFileFields, AreFileMethods};
ghost use Rattle.dexids.specs.Faults.{IsFault};

use crate::faults::ReadFault;
use crate::lists::Parameters;
use crate::members::MethodReader;
use crate::names::Names;
use crate::protos::read_protos;
use crate::reading::read_table;
use crate::rows::ProtoEntry;
use crate::types::TypeReader;
use dexhead::Frame;
use dexrows::{FieldRow, MethodRow};
use dexstr::{Text, TextReader};
use std::alloc::Global;

/// The five tables of a file: what its rows have, by row. A type is the number of its text.
///
/// Texts and parameters stay in the file's bytes.
///
/// Source: "string_id_item", "type_id_item", "proto_id_item", "field_id_item" and "method_id_item".
#[derive(Drop)]
pub struct FileTables<'a> {
    /// The texts.
    pub strings: Vec<Text<'a>>,
    /// The types.
    pub types: Vec<usize>,
    /// The protos.
    pub protos: Vec<ProtoEntry>,
    /// The types of all parameters.
    pub parameters: Parameters<'a>,
    /// The fields.
    pub fields: Vec<FieldRow>,
    /// The methods.
    pub methods: Vec<MethodRow>,
}

/// Reads the five tables, and checks conditions 11 to 15 in their order, each at its rows from 0 on.
///
/// Error: `Refused` with the first condition that fails, at its least row; `Memory` where an allocation failed.
/// Nothing is kept then.
///
/// Source: "string_id_item", "type_id_item", "proto_id_item", "field_id_item", "method_id_item" and "type_list".
pub fn read_tables<'a>(alloc: Global, frame: &Frame<'a>) -> Result<FileTables<'a>, ReadFault>
    ensures accepted { OnOk result (HoldBelow 16 frame.now) }
    ensures rows { IfOk result (AreFileTables frame.now) }
    ensures refused { IfErr result (IsFault frame.now) }
{
    checked(frame);
    let strings = read_table(alloc, frame, &mut TextReader::new(alloc, frame.bytes()))?;
    let reader = TypeReader {
        frame,
        strings: &strings,
    };
    let types = read_table(alloc, &reader, &mut ())?;
    let names = Names {
        frame,
        strings: &strings,
        types: &types,
    };
    let parameters = Parameters::of_file(frame.bytes());
    let (protos, fields, methods) = read_rows(alloc, &names, &parameters)?;
    Ok(FileTables {
        strings,
        types,
        protos,
        parameters,
        fields,
        methods,
    })
}

// The protos, fields and methods of a file whose texts and types are read.
fn read_rows<'a>(
    alloc: Global,
    names: &Names<'_, 'a>,
    parameters: &Parameters<'a>,
) -> Result<(Vec<ProtoEntry>, Vec<FieldRow>, Vec<MethodRow>), ReadFault>
    requires names { AreNames names.now.frame.now names.now.strings.now names.now.types.now }
    requires file { parameters.now ≡ file_numbers names.now.frame.now }
    requires before { HoldBelow 13 names.now.frame.now }
    ensures protos { IfOk result (λ rows. AreFileProtos names.now rows.0.items) }
    ensures fields { IfOk result (λ rows. AreFileFields names.now rows.1.items) }
    ensures methods { IfOk result (λ rows.
        AreFileMethods names.now rows.0.items rows.2.items) }
    ensures below { OnOk result (HoldBelow 16 names.now.frame.now) }
    ensures err { IfErr result (IsFault names.now.frame.now) }
{
    let protos = read_protos(alloc, names, parameters)?;
    let mut known_names = vec![in alloc; false; names.strings.len()]?;
    let fields = read_table(alloc, names, &mut known_names)?;
    let reader = MethodReader {
        names,
        protos: &protos,
    };
    let methods = read_table(alloc, &reader, &mut known_names)?;
    Ok((protos, fields, methods))
}

// A frame meets the conditions before those of the pools.
fn checked(frame: &Frame<'_>)
    ensures { IsFrame frame.now }
{
    let _bytes = frame.bytes();
}
