//! A file that appears under its name whole, or not at all.

ghost use Rattle.std.specs.Prelude.{◌≡◌, OnOk, OnErr, IfOk, None, string_bytes};
ghost use Rattle.std.specs.Io.{WritesAtMost};
ghost use Rattle.std.specs.Io.KnownBytes.{WriteAppends};
ghost use Rattle.dexcmd.specs.Atomic.{atomic_path, temporary_name, IsUnmade, IsUnplaced, IsPlacedFile, IsMadeAs, IsMade, IsNamed, IsPutInto};

use std::alloc::{AllocError, Global};
use std::fs::{OpenFile, OpenOptions};
use std::io::{ErrorKind, Write};
use std::rt::Files;
use std::{fs, io, mem};

// What the temporary name has after the name of the file and before its number.
const SUFFIX: &str = ".dexkit-";

// How many temporary names are tried.
const TRIES: u32 = 65_536;

// How many bytes a temporary name has at most beside the name of the file.
const MOST_ADDED: usize = 13;

#[derive(Drop)]
enum AtomicStage<F> {
    Unmade,
    Made(F),
    Placed,
    Failed,
}

/// A file that is written under a temporary name beside its path, and moved to its path when all of it is written.
pub struct AtomicFile<'a, R: Files> {
    rt: &'a R,
    path: &'a str,
    temporary: String,
    stage: AtomicStage<R::File>,
}

impl<'a, R: Files> AtomicFile<'a, R> {
    /// The file at a path, which is left as it is so far.
    ///
    /// Error: allocation failed.
    pub fn new(alloc: Global, rt: &'a R, path: &'a str) -> Result<Self, AllocError>
        ensures path { IfOk result (λ file. atomic_path file ≡ path.now) }
        ensures unmade { IfOk result IsUnmade }
    {
        let room = path.len().saturating_add(MOST_ADDED);
        Ok(AtomicFile {
            rt,
            path,
            temporary: String::with_capacity(alloc, room)?,
            stage: AtomicStage::Unmade,
        })
    }

    // Sets the temporary name to that of a number.
    fn name(&mut self, number: u32) -> Result<(), AllocError>
        ensures named { OnOk result (IsNamed self.new) }
        ensures path { self.new.path ≡ self.old.path }
        ensures stage { self.new.stage ≡ self.old.stage }
    {
        let path = self.path;
        self.temporary.clear();
        write!(&mut self.temporary, "{path}{SUFFIX}{number}")
    }

    // Makes a file under a temporary name that nothing has.
    fn make(&mut self) -> io::Result<R::File>
        ensures named { OnOk result (IsNamed self.new) }
        ensures path { self.new.path ≡ self.old.path }
        ensures stage { self.new.stage ≡ self.old.stage }
    {
        if let Ok(found) = fs::metadata(self.rt, self.path) {
            if !found.is_file() {
                return Err(io::Error::new(ErrorKind::InvalidInput, "Not a regular file"));
            }
        }
        for number in 0..TRIES {
            self.name(number)?;
            let mut options = OpenOptions::new();
            options.write(true).create_new(true);
            match options.open(self.rt, self.temporary.as_str()) {
                Err(error) if error.kind() == ErrorKind::AlreadyExists => {}
                made => return made,
            }
        }
        Err(io::Error::new(ErrorKind::AlreadyExists, "All temporary names exist"))
    }

    // Makes the file if it is not made.
    fn open(&mut self) -> io::Result<()>
        ensures path { self.new.path ≡ self.old.path }
        ensures made { OnOk result (IsUnmade self.old → IsMade self.new) }
        ensures failed { OnErr result (self.new.stage ≡ self.old.stage) }
        ensures left { (IsUnmade self.old → ⊥) → self.new ≡ self.old }
    {
        if let AtomicStage::Unmade = &self.stage {
            let file = self.make()?;
            self.stage = AtomicStage::Made(file);
        }
        Ok(())
    }

    // Lets all of the file reach the disk, closes it, and moves it to its path. The kit has no call that says how
    // closing ended; what was synced is on the disk whatever that says.
    fn settle(&self, file: R::File) -> io::Result<()> {
        file.sync_all()?;
        drop(file);
        fs::rename(self.rt, self.temporary.as_str(), self.path)
    }

    /// Moves what was written to the path of the file, in one step, once all of it is on the disk. A file to which
    /// nothing was written is empty.
    ///
    /// Error: exactly where it is not moved. Then the path is as it was, and the file under the temporary name is
    /// removed.
    pub fn place(&mut self) -> io::Result<()>
        ensures path { atomic_path self.new ≡ atomic_path self.old }
        ensures placed { OnOk result (IsPlacedFile self.new) }
        ensures failed { OnErr result (IsUnplaced self.old → IsUnplaced self.new) }
    {
        self.open()?;
        match mem::replace(&mut self.stage, AtomicStage::Failed) {
            AtomicStage::Made(file) => {
                let settled = self.settle(file);
                if settled.is_ok() {
                    self.stage = AtomicStage::Placed;
                } else {
                    let _ = fs::remove_file(self.rt, self.temporary.as_str());
                }
                settled
            }
            other => {
                self.stage = other;
                Err(ErrorKind::InvalidInput.into())
            }
        }
    }
}

impl<'a, R: Files> Drop for AtomicFile<'a, R> {
    fn drop(self) {
        let AtomicFile {
            rt,
            path: _,
            temporary,
            stage,
        } = self;
        if let AtomicStage::Made(file) = stage {
            drop(file);
            let _ = fs::remove_file(rt, temporary.as_str());
        }
    }
}

impl<'a, R: Files> Write for AtomicFile<'a, R> {
    fn write(&mut self, buf: &[u8]) -> io::Result<usize>
        ensures bound { WritesAtMost result buf.now }
        ensures bytes { WriteAppends None None result buf.now }
        ensures path { atomic_path self.new ≡ atomic_path self.old }
        ensures made { OnOk result (IsUnmade self.old → IsMade self.new) }
        ensures unplaced { IsUnplaced self.old → IsUnplaced self.new }
        ensures to { (file : R.File) → IsMadeAs file self.old
            → IsPutInto R.File.Write.contents file self.old self.new result buf.now }
    {
        self.open()?;
        match &mut self.stage {
            AtomicStage::Made(file) => file.write(buf),
            _ => Ok(0),
        }
    }

    fn flush(&mut self) -> io::Result<()> {
        match &mut self.stage {
            AtomicStage::Made(file) => file.flush(),
            _ => Ok(()),
        }
    }
}
