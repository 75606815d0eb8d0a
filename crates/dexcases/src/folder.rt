//! Folders of cases.

use crate::fault::CaseFault;
use std::alloc::{AllocError, Global};
use std::fs;
use std::path::Path;
use std::rt::Files;

/// A folder that has files of cases, and the host that reads them.
pub struct Folder<'a, R> {
    pub(crate) rt: &'a R,
    pub(crate) path: Path<'a>,
}

impl<R> Clone for Folder<'_, R> {
    fn clone(&self) -> Result<Self, AllocError> {
        Ok(*self)
    }
}

impl<R> Copy for Folder<'_, R> {}

impl<R: Files + AllocGlobal> Folder<'_, R> {
    /// Returns the allocator of the host.
    pub fn alloc(self) -> Global {
        self.rt.alloc()
    }

    /// Reads a file of the folder. A line whose file cannot be read fails.
    pub fn read(self, name: &str) -> Result<Vec<u8>, CaseFault> {
        let path = self.path.join(self.rt.alloc(), name)?;
        match fs::read(self.rt, path.as_path()) {
            Ok(bytes) => Ok(bytes),
            Err(_) => Err(unreadable(self.rt.alloc(), name)),
        }
    }
}

// Returns the fault of a line whose file cannot be read.
fn unreadable(alloc: Global, name: &str) -> CaseFault {
    match format!(in alloc; "{name}: cannot be read") {
        Ok(reason) => CaseFault::Failed(reason),
        Err(_) => CaseFault::Memory,
    }
}
