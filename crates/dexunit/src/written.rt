//! Canonical files as a writer gets them, and their lengths.

use crate::files::{letter_a, unused_beside_a};
use dexcanon::{Layout, to_bytes, write_to};
use dexclass::{Program, read};
use dexhead::Device;
use std::alloc::Global;
use std::io;
use std::io::Write;

// A writer that keeps the bytes, and counts the calls.
#[derive(Drop)]
struct Record {
    bytes: Vec<u8>,
    calls: usize,
}

impl Write for Record {
    fn write(&mut self, bytes: &[u8]) -> io::Result<usize> {
        self.calls = self.calls.saturating_add(1);
        self.bytes.extend_from_slice(bytes)?;
        Ok(bytes.len())
    }

    fn flush(&mut self) -> io::Result<()> {
        Ok(())
    }
}

// Writes the canonical file of a file to such a writer.
fn written(alloc: Global, file: &[u8]) -> Option<Record> {
    let program = read(alloc, file).ok()?;
    let mut out = Device::new(Record {
        bytes: Vec::new(alloc),
        calls: 0,
    });
    write_to(alloc, &program, &mut out).ok()?;
    Some(out.into_inner())
}

// Returns whether the right bytes are written in one slice, as for every file below 64 KiB.
fn is_one_slice(alloc: Global) -> Option<bool> {
    let right = letter_a(alloc)?;
    let record = written(alloc, &unused_beside_a(alloc)?)?;
    Some(record.calls == 1 && record.bytes.as_slice() == right.as_slice())
}

#[test]
fn a_short_file_is_one_slice(rt: HostRuntime) {
    assert!(rt; is_one_slice(rt.alloc()) == Some(true));
}

// Returns the length of the file without classes, as laid out and as written.
fn empty_lengths(alloc: Global) -> Option<(u32, usize)> {
    let program = Program::empty(alloc);
    let layout = Layout::of(alloc, &program).ok()?;
    let bytes = to_bytes(alloc, &program).ok()?;
    Some((layout.len(), bytes.len()))
}

#[test]
fn the_file_of_no_classes_has_140_bytes(rt: HostRuntime) {
    assert_eq!(rt; empty_lengths(rt.alloc()), Some((140, 140)));
}
