//! Items of files, whose symbols are numbers of a numbering.

ghost use Rattle.std.specs.Prelude.{◌≡◌, IfOk, All, MatchOption};
ghost use Rattle.dexpool.specs.Pools.{ArePools};
ghost use Rattle.dexpool.specs.Numberings.{AreMarksOf};
ghost use Rattle.dexpool.specs.Orderly.{MapsDown};
ghost use Rattle.dexpool.specs.Uses.{AreMarkedToo, IsMappedUse};
ghost use Rattle.dexcode.specs.Renumbering.{item_uses as code_uses};
ghost use Rattle.dexcases_items.specs.Items.{IsKnownItem, item_uses};

use crate::dex_file::DexFile;
use crate::item_kind::ItemKind;
use dexcases::CaseFault;
use dexcode::{
    Code, Debug, code_cut_law, code_meaning_law, code_uses_law, debug_meaning_law, debug_uses_law,
    read_code, read_debug, renumber as renumber_code,
};
use dexhead::Table;
use dexmembers::{ClassDef, Members, read_members};
use dexpool::{ItemFault, Marks, Numbering, Remap};
use dexval::{
    AnnotationSet, Directory, Value, copied_values, mark_values, marks_law, parameter_sets_weight,
    read_directory, read_set, read_statics, read_value, renumber, renumber_set, renumber_values,
    same_values_mapped, statics_weight, values_fit,
};
use std::alloc::{AllocError, Global};

/// An item of a file.
#[derive(Drop)]
pub enum Item<'a> {
    /// A value, and its number of bytes.
    Value(Value, u32),
    /// The initial values of static fields.
    Statics(Vec<Value>),
    /// A set of annotations.
    Set(AnnotationSet),
    /// A directory of annotations.
    Directory(Directory),
    /// A debug program.
    Debug(Debug<'a>),
    /// A code item.
    Code(Code<'a>),
    /// What a class row declares: its members, annotations and static values.
    Members(Members<'a>),
}

impl<'a> Item<'a> {
    /// Reads the item of a kind at a place, which is an offset, or the number of a class row.
    ///
    /// Error: `Refused(0)` if there is no such row, or what it declares weighs more than 2^32 - 1.
    pub fn read(
        alloc: Global,
        file: &DexFile<'a>,
        kind: ItemKind,
        place: u32,
    ) -> Result<Item<'a>, ItemFault>
        requires { ArePools file.now.frame file.now.pools }
        ensures { IfOk result (IsKnownItem file.now.pools) }
    {
        debug_meaning_law();
        code_meaning_law();
        match kind {
            ItemKind::Value => match read_value(alloc, &file.frame, &file.pools, place) {
                Ok((value, size)) => Ok(Item::Value(value, size)),
                Err(fault) => Err(fault),
            },
            ItemKind::Statics => match read_statics(alloc, &file.frame, &file.pools, place) {
                Ok(values) => Ok(Item::Statics(values)),
                Err(fault) => Err(fault),
            },
            ItemKind::Set => match read_set(alloc, &file.frame, &file.pools, place) {
                Ok(set) => Ok(Item::Set(set)),
                Err(fault) => Err(fault),
            },
            ItemKind::Directory => match read_directory(alloc, &file.frame, &file.pools, place) {
                Ok(directory) => Ok(Item::Directory(directory)),
                Err(fault) => Err(fault),
            },
            ItemKind::Debug => match read_debug(alloc, &file.frame, &file.pools, place) {
                Ok(debug) => Ok(Item::Debug(debug)),
                Err(fault) => Err(fault),
            },
            ItemKind::Code => match read_code(alloc, &file.frame, &file.pools, place) {
                Ok(code) => Ok(Item::Code(code)),
                Err(fault) => Err(fault),
            },
            ItemKind::Members => match members_at(alloc, file, place, u32::MAX) {
                Ok(Some(members)) => Ok(Item::Members(members)),
                Ok(None) => Err(ItemFault::Refused(0)),
                Err(fault) => Err(fault),
            },
        }
    }

    /// Reads the item of a kind at a place. A line fails if there is no such item.
    pub fn at(
        alloc: Global,
        file: &DexFile<'a>,
        kind: ItemKind,
        place: u32,
    ) -> Result<Item<'a>, CaseFault>
        requires { ArePools file.now.frame file.now.pools }
        ensures { IfOk result (IsKnownItem file.now.pools) }
    {
        match Item::read(alloc, file, kind, place) {
            Ok(item) => Ok(item),
            Err(ItemFault::Memory) => Err(CaseFault::Memory),
            Err(ItemFault::Refused(_)) => Err(CaseFault::failed(alloc, "no item")),
        }
    }

    /// Returns the weight.
    pub fn weight(&self) -> u64 {
        match self {
            Item::Value(value, _) => value.weight(),
            Item::Statics(values) => statics_weight(values),
            Item::Set(set) => set.weight(),
            Item::Directory(directory) => sets_weight(directory),
            Item::Debug(debug) => debug.weight(),
            Item::Code(code) => code.weight(),
            Item::Members(members) => members.weight(),
        }
    }

    /// Returns a copy; `None` for a directory, which no call copies.
    pub fn copy(&self) -> Result<Option<Item<'a>>, AllocError>
        ensures { IfOk result (λ copy.
            MatchOption copy (Unit {0}) (λ copy. item_uses copy ≡ item_uses self.now)) }
    {
        match self {
            Item::Value(value, size) => Ok(Some(Item::Value(value.copy()?, *size))),
            Item::Statics(values) => Ok(Some(Item::Statics(copied_values(values)?))),
            Item::Set(set) => Ok(Some(Item::Set(set.copy()?))),
            Item::Directory(_) => Ok(None),
            Item::Debug(debug) => Ok(Some(Item::Debug(debug.copy()?))),
            Item::Code(code) => Ok(Some(Item::Code(code.copy()?))),
            Item::Members(members) => Ok(Some(Item::Members(members.copy()?))),
        }
    }

    /// Drops the debug program of code.
    pub fn drop_debug(&mut self) {
        if let Item::Code(code) = self {
            code.drop_debug();
        }
    }

    /// Marks the symbols that occur in a value, in values, in a set, in a debug program or in code.
    pub fn mark(&self, numbering: &Numbering<'_>, marks: &mut Marks)
        requires known { IsKnownItem numbering.now self.now }
        requires marks { AreMarksOf numbering.now marks.old }
        ensures { AreMarkedToo (item_uses self.now) marks.old marks.new }
    {
        marks_law();
        debug_meaning_law();
        debug_uses_law();
        code_meaning_law();
        code_uses_law();
        match self {
            Item::Value(value, _) => value.mark(marks),
            Item::Statics(values) => mark_values(values, marks),
            Item::Set(set) => set.mark(marks),
            Item::Debug(debug) => debug.mark(marks),
            Item::Code(code) => code.mark(marks),
            Item::Directory(_) | Item::Members(_) => {}
        }
    }

    /// Maps the numbers in a value, in values, in a set or in code if all of them have images, and returns whether they
    /// have. The numbers of a debug program are mapped with those of its code.
    pub fn apply_remap(&mut self, remap: &Remap) -> bool
        requires down { MapsDown remap.now }
        requires remapped { All (IsMappedUse remap.now) (item_uses self.old) }
    {
        match self {
            Item::Value(value, _) => {
                if !value.fits(remap) {
                    return false;
                }
                renumber(value, remap);
                true
            }
            Item::Statics(values) => {
                if !values_fit(values, remap) {
                    return false;
                }
                renumber_values(values, remap);
                true
            }
            Item::Set(set) => {
                if !set.fits(remap) {
                    return false;
                }
                renumber_set(set, remap);
                true
            }
            Item::Code(code) => is_code_remapped(code, remap),
            _ => false,
        }
    }

    /// Returns whether two items are the same after each is mapped by its own map. Directories are not compared.
    pub fn same_mapped(&self, mine: &Remap, other: &Item<'_>, theirs: &Remap) -> bool {
        match (self, other) {
            (Item::Value(value, _), Item::Value(other, _)) => {
                value.same_mapped(mine, other, theirs)
            }
            (Item::Statics(values), Item::Statics(others)) => {
                same_values_mapped(values, mine, others, theirs)
            }
            (Item::Set(set), Item::Set(other)) => set.same_mapped(mine, other, theirs),
            (Item::Debug(debug), Item::Debug(other)) => debug.same_mapped(mine, other, theirs),
            (Item::Code(code), Item::Code(other)) => code.same_mapped(mine, other, theirs),
            (Item::Members(members), Item::Members(other)) => {
                members.same_mapped(mine, other, theirs)
            }
            _ => false,
        }
    }
}

/// Returns what a class row declares; `None` if there is no such row. What it declares may weigh `most`.
pub fn members_at<'a>(
    alloc: Global,
    file: &DexFile<'a>,
    row: u32,
    most: u32,
) -> Result<Option<Members<'a>>, ItemFault> {
    if row >= file.frame.size(Table::ClassDefs) {
        return Ok(None);
    }
    let row = ClassDef::at(&file.frame, row);
    let (members, _) = read_members(alloc, &file.frame, &file.pools, &row, most)?;
    Ok(Some(members))
}

// Returns the weight of the sets and of the lists of sets of a directory.
fn sets_weight(directory: &Directory) -> u64 {
    let mut weight = directory.own.weight();
    for (_, set) in &directory.fields {
        weight = weight.saturating_add(set.weight());
    }
    for (_, set) in &directory.methods {
        weight = weight.saturating_add(set.weight());
    }
    for (_, sets) in &directory.parameters {
        weight = weight.saturating_add(parameter_sets_weight(sets));
    }
    weight
}

// Maps the numbers in code if those of instructions then fit their operands, and returns whether they do.
fn is_code_remapped(code: &mut Code<'_>, remap: &Remap) -> bool
    requires down { MapsDown remap.now }
    requires remapped { All (IsMappedUse remap.now) (code_uses code.old) }
{
    if !code.pieces().fits(remap) {
        return false;
    }
    code.numbers_fit();
    code_cut_law();
    renumber_code(code, remap);
    true
}
