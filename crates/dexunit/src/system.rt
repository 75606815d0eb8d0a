//! A system in memory: files by their paths, standard input and standard output.

ghost use Rattle.std.specs.Prelude.{◌≤◌, length, IfOk, IsErr};

use crate::files::{cut_a, letter_a, letter_b, letters_a_and_b, source_of_a, unused_beside_a};
use std::alloc::{Allocator, Global};
use std::cell::{Cell, RefCell};
use std::fmt::Display;
use std::fs::{Metadata, OpenFile, OpenOptions};
use std::io;
use std::io::{BufRead, Cursor, Empty, ErrorKind, Input, Lines, Read, Seek, SeekFrom, Write};
use std::rt::Files;

/// The only path at which a file can be made.
const OUT: &str = "o";

/// A temporary name of that file which a file has already.
const TAKEN: &str = "o.dexkit-0";

/// The next temporary name of it, under which a file can be made.
const TEMPORARY: &str = "o.dexkit-1";

/// The name of standard input.
const STANDARD: &str = "-";

/// How many bytes a call moves at most.
const MOST: usize = 3;

/// What was done to the files of a system.
#[derive(Drop)]
pub(crate) struct Log {
    /// How often a file was opened for reading.
    pub(crate) opened: Cell<usize>,
    /// How often a file was made or emptied.
    pub(crate) made: Cell<usize>,
    /// How often the file under the temporary name was moved to its own.
    pub(crate) moved: Cell<usize>,
    /// How many bytes of standard input were read.
    read: Cell<usize>,
    /// The bytes that were written to files or to standard output.
    pub(crate) written: RefCell<Vec<u8>>,
}

impl Log {
    pub(crate) fn new(alloc: Global) -> Self {
        Log {
            opened: Cell::new(0),
            made: Cell::new(0),
            moved: Cell::new(0),
            read: Cell::new(0),
            written: RefCell::new(Vec::new(alloc)),
        }
    }

    // Writes at most as many bytes as a call moves.
    fn write(&self, bytes: &[u8]) -> io::Result<usize>
        ensures { IfOk result (λ n. n ≤ length bytes.now) }
    {
        let n = bytes.len().min(MOST);
        let Ok(mut written) = self.written.try_borrow_mut() else {
            return unsupported();
        };
        written.extend_from_slice(&bytes[..n])?;
        Ok(n)
    }
}

/// Returns the file at a path, or standard input, if there is one.
pub(crate) fn file(alloc: Global, path: &str) -> Option<Vec<u8>> {
    match path {
        "a" => letter_a(alloc),
        "b" => letter_b(alloc),
        "both" => letters_a_and_b(alloc),
        "cut" => cut_a(alloc),
        "source" => source_of_a(alloc),
        "unused" | OUT | STANDARD => unused_beside_a(alloc),
        "list" => Vec::from_slice(alloc, b"a\n@list\n").ok(),
        "empty" => Some(Vec::new(alloc)),
        _ => None,
    }
}

/// A system in memory.
#[derive(Clone, Copy)]
pub(crate) struct System<'a> {
    pub(crate) alloc: Global,
    pub(crate) log: &'a Log,
}

/// An open file.
#[derive(Drop)]
pub(crate) struct MemoryFile<'a> {
    log: &'a Log,
    bytes: Cursor<Vec<u8>>,
}

impl<'a> MemoryFile<'a> {
    fn new(log: &'a Log, bytes: Vec<u8>) -> Self {
        MemoryFile {
            log,
            bytes: Cursor::new(bytes),
        }
    }
}

fn unsupported<T>() -> io::Result<T>
    ensures { IsErr result }
{
    Err(ErrorKind::Unsupported.into())
}

fn count(calls: &Cell<usize>) {
    calls.set(calls.get().saturating_add(1));
}

impl<'a> Read for MemoryFile<'a> {
    fn read(&mut self, buf: &mut [u8]) -> io::Result<usize> {
        let n = buf.len().min(MOST);
        self.bytes.read(&mut buf[..n])
    }
}

impl<'a> Write for MemoryFile<'a> {
    fn write(&mut self, bytes: &[u8]) -> io::Result<usize> {
        self.log.write(bytes)
    }

    fn flush(&mut self) -> io::Result<()> {
        Ok(())
    }
}

impl<'a> Seek for MemoryFile<'a> {
    fn seek(&mut self, _to: SeekFrom) -> io::Result<u64> {
        unsupported()
    }
}

impl<'a> OpenFile for MemoryFile<'a> {
    fn metadata(&self) -> io::Result<Metadata> {
        unsupported()
    }

    fn set_len(&self, _size: u64) -> io::Result<()> {
        unsupported()
    }

    fn sync_all(&self) -> io::Result<()> {
        Ok(())
    }

    fn sync_data(&self) -> io::Result<()> {
        unsupported()
    }
}

impl<'a> Files for System<'a> {
    type File = MemoryFile<'a>;

    type Dir = Empty;

    fn open_file(&self, how: &OpenOptions, path: &str) -> io::Result<MemoryFile<'a>> {
        let (alloc, log) = (self.alloc, self.log);
        if how.asks_create() && how.asks_truncate() && path == OUT {
            count(&log.made);
            return Ok(MemoryFile::new(log, Vec::new(alloc)));
        }
        if how.asks_create_new() && path == TAKEN {
            return Err(ErrorKind::AlreadyExists.into());
        }
        if how.asks_create_new() && path == TEMPORARY {
            count(&log.made);
            return Ok(MemoryFile::new(log, Vec::new(alloc)));
        }
        count(&log.opened);
        if how.asks_write() {
            return Err(ErrorKind::PermissionDenied.into());
        }
        match file(alloc, path) {
            Some(bytes) => Ok(MemoryFile::new(log, bytes)),
            None => Err(ErrorKind::NotFound.into()),
        }
    }

    fn open_dir(&self, _path: &str) -> io::Result<Empty> {
        unsupported()
    }

    fn metadata(&self, _path: &str) -> io::Result<Metadata> {
        unsupported()
    }

    fn symlink_metadata(&self, _path: &str) -> io::Result<Metadata> {
        unsupported()
    }

    fn copy(&self, _from: &str, _to: &str) -> io::Result<u64> {
        unsupported()
    }

    fn rename(&self, from: &str, to: &str) -> io::Result<()> {
        if from == TEMPORARY && to == OUT {
            count(&self.log.moved);
            return Ok(());
        }
        unsupported()
    }

    fn remove_file(&self, _path: &str) -> io::Result<()> {
        unsupported()
    }

    fn create_dir(&self, _path: &str) -> io::Result<()> {
        unsupported()
    }

    fn remove_dir(&self, _path: &str) -> io::Result<()> {
        unsupported()
    }

    fn remove_dir_all<B: Allocator>(&self, _alloc: B, _path: &str) -> io::Result<()> {
        unsupported()
    }
}

impl<'a> Print for System<'a> {
    fn print<D: Display + Drop>(&self, _value: D) -> io::Result<()> {
        unsupported()
    }

    fn println<D: Display + Drop>(&self, _value: D) -> io::Result<()> {
        unsupported()
    }

    fn write_all(&self, _bytes: &[u8]) -> io::Result<()> {
        unsupported()
    }

    fn write_some(&self, bytes: &[u8]) -> io::Result<usize> {
        self.log.write(bytes)
    }
}

impl<'a> Input for System<'a> {
    type Reader = Cursor<Vec<u8>>;

    fn read_line<A: Allocator + Clone>(&self, _buf: &mut String<A>) -> io::Result<usize> {
        unsupported()
    }

    fn lines<A: Allocator>(&self, alloc: A) -> Lines<Cursor<Vec<u8>>, A> {
        self.reader().lines(alloc)
    }

    // A reader has the next byte, and leaves nothing when it is dropped after a call.
    fn reader(&self) -> Cursor<Vec<u8>> {
        let at = self.log.read.get();
        count(&self.log.read);
        let mut next = Vec::new(self.alloc);
        if let Some(bytes) = file(self.alloc, STANDARD) {
            if let Some(byte) = bytes.get(at) {
                let _ = next.push(*byte);
            }
        }
        Cursor::new(next)
    }
}
