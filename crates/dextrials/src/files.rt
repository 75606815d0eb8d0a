//! Files and their programs.

use crate::fault::Fault;
use dexclass::{Program, read};
use dexhead::Refusal;
use dexpool::ReadFault;
use std::alloc::Global;
use std::fs;
use std::rt::Files;

/// Reads the file of this name.
///
/// Error: `File` if it cannot be read.
pub fn stored_file<R: Files + AllocGlobal>(rt: &R, name: &str) -> Result<Vec<u8>, Fault> {
    match fs::read(rt, name) {
        Ok(file) => Ok(file),
        Err(error) => Err(Fault::File {
            name: String::from_str(rt.alloc(), name)?,
            error,
        }),
    }
}

/// Reads the files of these names.
///
/// Error: `File` with the first file that cannot be read.
pub fn stored_files<R: Files + AllocGlobal>(rt: &R, names: &[&str]) -> Result<Vec<Vec<u8>>, Fault> {
    let mut files = Vec::with_capacity(rt.alloc(), names.len())?;
    for name in names {
        files.push(stored_file(rt, *name)?)?;
    }
    Ok(files)
}

/// Reads the program of a file.
///
/// Error: `Refused` if the file is refused.
pub fn program<'a>(alloc: Global, name: &str, file: &'a [u8]) -> Result<Program<'a>, Fault> {
    match read(alloc, file) {
        Ok(program) => Ok(program),
        Err(ReadFault::Refused(Refusal { number, place })) => Err(Fault::Refused {
            name: String::from_str(alloc, name)?,
            number,
            place,
        }),
        Err(ReadFault::Memory) => Err(Fault::Memory),
    }
}

/// Reads the programs of the files of these names.
///
/// Error: `Refused` with the first file that is refused.
pub fn programs<'a>(
    alloc: Global,
    names: &[&str],
    files: &'a [Vec<u8>],
) -> Result<Vec<Program<'a>>, Fault> {
    let mut programs = Vec::with_capacity(alloc, files.len())?;
    for (name, file) in names.iter().zip(files) {
        programs.push(program(alloc, *name, file)?)?;
    }
    Ok(programs)
}
