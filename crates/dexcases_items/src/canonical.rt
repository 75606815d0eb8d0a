//! Items whose file has just the bytes that they are put as. A word and `FILE OFFSET BYTES` asks for the item of that
//! kind at the offset, and its number of bytes. `FILE COUNT BYTES` asks for every item that the class rows of a
//! canonical file refer to, their number and their number of bytes: code, debug programs, sets and their annotations,
//! arrays of values, class data and directories.

ghost use Rattle.std.specs.Prelude.{◌<◌};
ghost use Rattle.dexpool.specs.Pools.{ArePools};
ghost use Rattle.dexspec.specs.Header.{ClassDefs, table_size};

use crate::checks::check_bytes;
use crate::dex_file::DexFile;
use crate::item::Item;
use crate::item_kind::ItemKind;
use crate::line::Line;
use crate::offsets::{
    DirectoryOffs, directory_offs, list_offs, method_code_offs, number_after, number_at,
};
use crate::puts::Put;
use dexcases::{CaseFault, Outcome};
use dexhead::Table;
use dexmembers::{DirectoryOffsets, Fields, Members, Methods};
use std::alloc::{AllocError, Global};

// The number and the bytes of the items that their file has as they are put, and the first fault of another item.
#[derive(Drop)]
struct Count {
    items: u32,
    bytes: usize,
    fault: Option<CaseFault>,
}

impl Count {
    // Counts an item, given the number of its bytes, or keeps its fault.
    fn add(&mut self, put: Result<usize, CaseFault>) {
        if self.fault.is_some() {
            return;
        }
        match put {
            Ok(bytes) => {
                self.items = self.items.saturating_add(1);
                self.bytes = self.bytes.saturating_add(bytes);
            }
            Err(fault) => self.fault = Some(fault),
        }
    }

    // Returns the number of items and of their bytes.
    //
    // Error: the first fault.
    fn finish(self) -> Result<(u32, usize), CaseFault> {
        let Count {
            items,
            bytes,
            fault,
        } = self;
        match fault {
            Some(fault) => Err(fault),
            None => Ok((items, bytes)),
        }
    }
}

/// Runs a line that asks for one item.
pub fn run_item(alloc: Global, file: &DexFile<'_>, line: Line<'_>) -> Result<Outcome, CaseFault>
    requires { ArePools file.now.frame file.now.pools }
{
    let debug_off = match line.word {
        "value" | "statics" | "debug" => 0,
        "code" => number_after(file.frame.bytes(), line.place, 8),
        _ => return Err(CaseFault::Form),
    };
    let put = Put::of_word(line.word, debug_off)?;
    let bytes = encodes(alloc, file, put, line.place, line.place)?;
    Ok(Outcome::of(format!(in alloc; "{bytes}")?, line.rest))
}

/// Runs a line that asks for every item.
pub fn run(alloc: Global, file: &DexFile<'_>, line: Line<'_>) -> Result<Outcome, CaseFault>
    requires { ArePools file.now.frame file.now.pools }
{
    let (items, bytes) = count_classes(alloc, file)?;
    if items != line.place {
        return Ok(Outcome::Failed(format!(in alloc; "{items} items")?));
    }
    Ok(Outcome::of(format!(in alloc; "{bytes}")?, line.rest))
}

// Returns the number of the items that the class rows refer to, and of their bytes. The line fails unless the file has
// each item as it is put.
fn count_classes(alloc: Global, file: &DexFile<'_>) -> Result<(u32, usize), CaseFault>
    requires { ArePools file.now.frame file.now.pools }
{
    let mut count = Count {
        items: 0,
        bytes: 0,
        fault: None,
    };
    for row in 0..file.frame.size(Table::ClassDefs) {
        count_class(alloc, file, row, &mut count)?;
    }
    count.finish()
}

// Puts the item at `off`, and returns its number of bytes. The line fails unless the file has these bytes at `at`.
fn encodes(
    alloc: Global,
    file: &DexFile<'_>,
    put: Put,
    off: u32,
    at: u32,
) -> Result<usize, CaseFault>
    requires { ArePools file.now.frame file.now.pools }
{
    let bytes = put.bytes_at(alloc, file, off)?;
    check_bytes(alloc, file.frame.bytes(), at, &bytes)
}

// Counts the items that a class row refers to.
fn count_class(
    alloc: Global,
    file: &DexFile<'_>,
    row: u32,
    count: &mut Count,
) -> Result<(), CaseFault>
    requires pools { ArePools file.now.frame file.now.pools }
    requires row { row < table_size file.now.frame ClassDefs }
{
    let item = Item::at(alloc, file, ItemKind::Members, row)?;
    match &item {
        Item::Members(members) => {
            let row = file.frame.row(Table::ClassDefs, row);
            Ok(count_row(alloc, file, row, members, count)?)
        }
        _ => Err(CaseFault::Form),
    }
}

// Counts the items of a class, given the bytes of its row and what it declares: its directory, its class data with the
// code, and its static values.
fn count_row(
    alloc: Global,
    file: &DexFile<'_>,
    row: &[u8],
    members: &Members<'_>,
    count: &mut Count,
) -> Result<(), AllocError>
    requires { ArePools file.now.frame file.now.pools }
{
    count_directory(alloc, file, number_at(row, 20), members, count)?;
    let data_off = number_at(row, 24);
    if data_off != 0 {
        let code_offs = method_code_offs(alloc, file.frame.bytes(), data_off)?;
        count.add(class_data_encoded(alloc, file, data_off, members, &code_offs));
        count_items(alloc, file, ItemKind::Code, &code_offs, count);
    }
    count_item(alloc, file, ItemKind::Statics, number_at(row, 28), count);
    Ok(())
}

// Counts the item at an offset, if there is one, and also the debug program of code and the annotations of a set.
fn count_item(alloc: Global, file: &DexFile<'_>, kind: ItemKind, off: u32, count: &mut Count)
    requires { ArePools file.now.frame file.now.pools }
{
    if off == 0 {
        return;
    }
    let bytes = file.frame.bytes();
    match kind {
        ItemKind::Code => {
            let debug_off = number_after(bytes, off, 8);
            count.add(encodes(alloc, file, Put::Code(debug_off), off, off));
            if debug_off != 0 {
                count.add(encodes(alloc, file, Put::Debug, debug_off, debug_off));
            }
        }
        ItemKind::Set => {
            let first = number_after(bytes, off, 4);
            count.add(encodes(alloc, file, Put::Set(first), off, off));
            count.add(encodes(alloc, file, Put::Annotations, off, first));
        }
        _ => count.add(encodes(alloc, file, Put::Statics, off, off)),
    }
}

// Counts the items of a kind at these offsets.
fn count_items(alloc: Global, file: &DexFile<'_>, kind: ItemKind, offs: &[u32], count: &mut Count)
    requires { ArePools file.now.frame file.now.pools }
{
    for off in offs {
        count_item(alloc, file, kind, *off, count);
    }
}

// Puts class data, and returns its number of bytes. The line fails unless the file has these bytes at the offset.
fn class_data_encoded(
    alloc: Global,
    file: &DexFile<'_>,
    off: u32,
    members: &Members<'_>,
    code_offs: &[u32],
) -> Result<usize, CaseFault> {
    members.are_few();
    if code_offs.len() != members.direct_methods().len() + members.virtual_methods().len() {
        return Err(CaseFault::Form);
    }
    let mut out = Vec::new(alloc);
    members.put_class_data(code_offs, &mut out)?;
    check_bytes(alloc, file.frame.bytes(), off, &out)
}

// Counts a directory, if there is one, and its sets.
fn count_directory(
    alloc: Global,
    file: &DexFile<'_>,
    off: u32,
    members: &Members<'_>,
    count: &mut Count,
) -> Result<(), AllocError>
    requires { ArePools file.now.frame file.now.pools }
{
    if off == 0 {
        return Ok(());
    }
    let offs = member_offs(alloc, file.frame.bytes(), off, members)?;
    count.add(directory_encoded(alloc, file, off, members, &offs));
    count_sets(alloc, file, &offs, count)
}

// Returns the offsets in the directory at an offset, for these members.
fn member_offs(
    alloc: Global,
    bytes: &[u8],
    off: u32,
    members: &Members<'_>,
) -> Result<DirectoryOffs, AllocError> {
    let fields = field_numbers(alloc, members)?;
    let methods = method_numbers(alloc, members)?;
    directory_offs(alloc, bytes, off, &fields, &methods)
}

fn push_fields(fields: &Fields<'_>, numbers: &mut Vec<u32>) -> Result<(), AllocError> {
    for i in 0..fields.len() {
        numbers.push(fields.get(i).number())?;
    }
    Ok(())
}

fn push_methods(methods: &Methods<'_, '_>, numbers: &mut Vec<u32>) -> Result<(), AllocError> {
    for i in 0..methods.len() {
        numbers.push(methods.get(i).number())?;
    }
    Ok(())
}

// Returns the number of each field, static fields first.
fn field_numbers(alloc: Global, members: &Members<'_>) -> Result<Vec<u32>, AllocError> {
    let mut numbers = Vec::new(alloc);
    push_fields(&members.static_fields(), &mut numbers)?;
    push_fields(&members.instance_fields(), &mut numbers)?;
    Ok(numbers)
}

// Returns the number of each method, direct methods first.
fn method_numbers(alloc: Global, members: &Members<'_>) -> Result<Vec<u32>, AllocError> {
    let mut numbers = Vec::new(alloc);
    push_methods(&members.direct_methods(), &mut numbers)?;
    push_methods(&members.virtual_methods(), &mut numbers)?;
    Ok(numbers)
}

// Puts a directory, and returns its number of bytes. The line fails unless the file has these bytes at the offset.
fn directory_encoded(
    alloc: Global,
    file: &DexFile<'_>,
    off: u32,
    members: &Members<'_>,
    offs: &DirectoryOffs,
) -> Result<usize, CaseFault> {
    let mut out = Vec::new(alloc);
    put_counted(members, offs, &mut out)?;
    check_bytes(alloc, file.frame.bytes(), off, &out)
}

// Appends the directory of members. The line fails unless there is an offset for each member.
fn put_counted(
    members: &Members<'_>,
    offs: &DirectoryOffs,
    out: &mut Vec<u8>,
) -> Result<(), CaseFault> {
    members.are_few();
    let fields = members.static_fields().len() + members.instance_fields().len();
    let methods = members.direct_methods().len() + members.virtual_methods().len();
    if offs.fields.len() != fields {
        return Err(CaseFault::Form);
    }
    if offs.methods.len() != methods {
        return Err(CaseFault::Form);
    }
    if offs.parameters.len() != methods {
        return Err(CaseFault::Form);
    }
    let offs = DirectoryOffsets {
        own: offs.own,
        fields: &offs.fields,
        methods: &offs.methods,
        parameters: &offs.parameters,
    };
    members.put_directory(&offs, out)?;
    Ok(())
}

// Counts the sets of a directory. Lists of sets are not counted, but their sets are.
fn count_sets(
    alloc: Global,
    file: &DexFile<'_>,
    offs: &DirectoryOffs,
    count: &mut Count,
) -> Result<(), AllocError>
    requires { ArePools file.now.frame file.now.pools }
{
    count_item(alloc, file, ItemKind::Set, offs.own, count);
    count_items(alloc, file, ItemKind::Set, &offs.fields, count);
    count_items(alloc, file, ItemKind::Set, &offs.methods, count);
    for list in &offs.parameters {
        if *list != 0 {
            let sets = list_offs(alloc, file.frame.bytes(), *list)?;
            count_items(alloc, file, ItemKind::Set, &sets, count);
        }
    }
    Ok(())
}
