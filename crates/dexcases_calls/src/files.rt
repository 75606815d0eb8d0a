//! Reads files of a folder by their names.

use dexcases::{CaseFault, Folder};
use std::rt::Files;

/// Reads the files of these names, which are separated by blanks; `-` denotes no files.
pub fn files_of<R: Files + AllocGlobal>(
    folder: Folder<'_, R>,
    names: &str,
) -> Result<Vec<Vec<u8>>, CaseFault> {
    let mut files = Vec::new(folder.alloc());
    for name in names.split(' ') {
        if name != "-" {
            files.push(folder.read(name)?)?;
        }
    }
    Ok(files)
}
