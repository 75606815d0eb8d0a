//! Items that are checked and not kept: a word for the kind, and `FILE OFFSET ok NUMBERS`, or
//! `FILE OFFSET refused NUMBER | NUMBER ..`, of which any is right. The numbers are, of a
//!
//! - `value`: its bytes and its weight;
//! - `statics`: the values, the bytes and the weight;
//! - `set`: the annotations and the weight;
//! - `directory`: the fields, the methods and the methods with parameters that it names, and the weight;
//! - `debug` program: the weight;
//! - `pieces`: the registers, those of arguments and of calls, the units and the indices;
//! - `code`: the weight with its debug program;
//! - `members` of a class row: the weight.

ghost use Rattle.dexpool.specs.Pools.{ArePools};

use crate::dex_file::DexFile;
use crate::line::Line;
use crate::reads::refused;
use dexcases::{CaseFault, Outcome, Printed};
use dexcode::{check_code, check_debug};
use dexhead::Table;
use dexinsn::{Scratch, check_pieces};
use dexmembers::{Checks, ClassDef, check_members};
use dexpool::ItemFault;
use dexval::{CheckedSets, check_directory, check_set, check_statics, check_value};
use std::alloc::Global;

/// Runs a line.
pub fn run(alloc: Global, file: &DexFile<'_>, line: Line<'_>) -> Result<Outcome, CaseFault>
    requires { ArePools file.now.frame file.now.pools }
{
    let mut text = Printed::new(alloc);
    text.add("ok");
    let checked = match line.word {
        "value" => print_value(file, line.place, &mut text),
        "statics" => print_statics(file, line.place, &mut text),
        "set" => print_set(file, line.place, &mut text),
        "directory" => print_directory(alloc, file, line.place, &mut text),
        "debug" => print_debug(file, line.place, &mut text),
        "pieces" => print_pieces(alloc, file, line.place, &mut text),
        "code" => print_code(alloc, file, line.place, &mut text),
        "members" => print_members(alloc, file, line.place, &mut text),
        _ => return Err(CaseFault::Form),
    };
    match checked {
        Ok(()) => Ok(Outcome::of(text.finish()?, line.rest)),
        Err(ItemFault::Refused(number)) => refused(alloc, number, line.rest),
        Err(ItemFault::Memory) => Err(CaseFault::Memory),
    }
}

// Prints numbers, each after a blank.
fn print_numbers(numbers: &[u64], out: &mut Printed) {
    for number in numbers {
        out.add(" ");
        out.add_shown(number);
    }
}

// Checks the value at an offset, and prints its numbers.
fn print_value(file: &DexFile<'_>, off: u32, out: &mut Printed) -> Result<(), ItemFault> {
    let shape = check_value(&file.frame, &file.pools, off)?;
    print_numbers(&[u64::from(shape.size), shape.weight], out);
    Ok(())
}

// Checks the array of static values at an offset, and prints its numbers.
fn print_statics(file: &DexFile<'_>, off: u32, out: &mut Printed) -> Result<(), ItemFault> {
    let shape = check_statics(&file.frame, &file.pools, off)?;
    let (count, size) = (u64::from(shape.count), u64::from(shape.size));
    print_numbers(&[count, size, shape.weight], out);
    Ok(())
}

// Checks the set at an offset, and prints its numbers.
fn print_set(file: &DexFile<'_>, off: u32, out: &mut Printed) -> Result<(), ItemFault> {
    let shape = check_set(&file.frame, &file.pools, off)?;
    print_numbers(&[u64::from(shape.count), shape.weight], out);
    Ok(())
}

// Checks the directory at an offset twice, and prints its numbers. The second check uses what the first kept of its
// sets.
fn print_directory(
    alloc: Global,
    file: &DexFile<'_>,
    off: u32,
    out: &mut Printed,
) -> Result<(), ItemFault> {
    let mut sets = CheckedSets::none(alloc);
    check_directory(&file.frame, &file.pools, off, &mut sets)?;
    let shape = check_directory(&file.frame, &file.pools, off, &mut sets)?;
    let (fields, methods) = (
        u64::from(shape.counts.fields),
        u64::from(shape.counts.methods),
    );
    let parameters = u64::from(shape.counts.parameters);
    print_numbers(&[fields, methods, parameters, shape.weight], out);
    Ok(())
}

// Checks the debug program at an offset, and prints its weight.
fn print_debug(file: &DexFile<'_>, off: u32, out: &mut Printed) -> Result<(), ItemFault> {
    let shape = check_debug(&file.frame, &file.pools, off)?;
    print_numbers(&[shape.weight], out);
    Ok(())
}

// Checks the pieces of the code at an offset, and prints their numbers.
fn print_pieces(
    alloc: Global,
    file: &DexFile<'_>,
    off: u32,
    out: &mut Printed,
) -> Result<(), ItemFault> {
    let shape = check_pieces(&file.frame, &file.pools, off, &mut Scratch::new(alloc))?;
    let (registers, ins) = (u64::from(shape.registers()), u64::from(shape.ins()));
    let (outs, units) = (u64::from(shape.outs()), u64::from(shape.units()));
    print_numbers(&[registers, ins, outs, units, shape.indices() as u64], out);
    Ok(())
}

// Checks the code at an offset, and prints its weight.
fn print_code(
    alloc: Global,
    file: &DexFile<'_>,
    off: u32,
    out: &mut Printed,
) -> Result<(), ItemFault> {
    let mut scratch = Scratch::new(alloc);
    let shape = check_code(alloc, &file.frame, &file.pools, off, &mut scratch)?;
    print_numbers(&[shape.weight], out);
    Ok(())
}

// Checks what a class row declares twice, and prints its weight, and a second weight if the check that uses what the
// first kept finds another.
//
// Error: `Refused(0)` if there is no such row.
fn print_members(
    alloc: Global,
    file: &DexFile<'_>,
    row: u32,
    out: &mut Printed,
) -> Result<(), ItemFault>
    requires { ArePools file.now.frame file.now.pools }
{
    if row >= file.frame.size(Table::ClassDefs) {
        return Err(ItemFault::Refused(0));
    }
    let row = ClassDef::at(&file.frame, row);
    let mut checks = Checks::none(alloc);
    let weight = check_members(alloc, &file.frame, &file.pools, &row, &mut checks)?;
    let again = check_members(alloc, &file.frame, &file.pools, &row, &mut checks)?;
    print_numbers(&[weight], out);
    if again != weight {
        print_numbers(&[again], out);
    }
    Ok(())
}
