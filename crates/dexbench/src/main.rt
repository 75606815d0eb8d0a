//! Times the steps that every file goes through, over a file that the command line names: SHA-1, Adler-32, opening the
//! frame, reading the texts, comparing neighbouring texts, reading the pools and joining numberings. Of several files
//! it times reading, merging in one join and writing, beside the sums of the merged file. It is not a test: no time is
//! too long.
//!
//! The status is 0 if the files were timed, 1 if one of several files is refused or they cannot be merged, 2 if no file
//! is named, 3 if a file cannot be read or has more than 2^30 bytes, and 4 if the clock fails, the output cannot be
//! written or allocation failed.
#![tactic(auto)]

mod fault;
mod merges;
mod numberings;
mod pace;
mod texts;

use dexcanon::to_bytes;
use dexclass::Program;
use dexhead::{Frame, Refusal, adler};
use dexpool::{Numbering, Pools};
use dexstr::Text;
use fault::BenchFault;
use merges::{bytes_of, merge_all, merged, programs, read_files, sums, write};
use numberings::{dealt, join, read_pools, symbols, symbols_of};
use pace::report_pace;
use sha1::Sha1;
use std::alloc::{AllocError, Global};
use std::io::Read;
use std::process::ExitCode;
use std::rt::{Env, Files};
use std::time::CpuClock;
use std::{env, fs, io};
use texts::{read_all, read_each, rising};

/// The most bytes that are read: a longer file is not a DEX file, and some devices never end.
const MOST: u64 = 1 << 30;

// Returns the first four bytes of the SHA-1 as a number.
fn digest(bytes: &[u8]) -> u64 {
    let [first, second, third, fourth, ..] = Sha1::digest(bytes);
    u64::from(u32::from_be_bytes([first, second, third, fourth]))
}

// Opens the file, and returns the offset of its data, or the place of the refusal.
fn open(bytes: &[u8]) -> u64 {
    match Frame::open(bytes) {
        Ok(frame) => u64::from(frame.data_off()),
        Err(refusal) => u64::from(refusal.place),
    }
}

fn time_sums(rt: &(impl CpuClock + Print), bytes: &[u8]) -> io::Result<()> {
    report_pace(rt, "SHA-1", bytes.len(), "MB/s", || digest(bytes))?;
    report_pace(rt, "Adler-32", bytes.len(), "MB/s", || {
        u64::from(adler(bytes))
    })
}

// Times how these texts, whose items have `len` bytes together, are read and compared.
fn time_all_texts(
    rt: &(impl CpuClock + Print),
    frame: &Frame<'_>,
    texts: &[Text<'_>],
    len: usize,
) -> io::Result<()> {
    report_pace(rt, "reading texts", len, "MB/s", || read_each(frame))?;
    report_pace(rt, "comparing neighbours", len, "MB/s", || rising(texts))
}

fn time_texts(
    rt: &(impl CpuClock + Print),
    alloc: Global,
    frame: &Frame<'_>,
) -> Result<(), BenchFault> {
    match read_all(alloc, frame)? {
        Ok((texts, len)) => Ok(time_all_texts(rt, frame, &texts, len)?),
        Err(row) => Ok(println!(rt; "texts: row {row} of the string table has none")?),
    }
}

// Distributes the symbols of a numbering among `parts` numberings, and times their join.
fn time_join(
    rt: &(impl CpuClock + Print),
    alloc: Global,
    name: &str,
    numbering: &Numbering<'_>,
    parts: usize,
) -> Result<(), BenchFault> {
    let parts = dealt(alloc, numbering, parts)?;
    let lent: Vec<&Numbering<'_>> = parts.iter().collect(alloc)?;
    let things = symbols_of(&lent);
    Ok(report_pace(rt, name, things, "million symbols/s", || {
        join(alloc, &lent)
    })?)
}

// Times how the pools of this numbering are read, and how numberings with parts of its symbols are joined.
fn time_numbering(
    rt: &(impl CpuClock + Print),
    alloc: Global,
    frame: &Frame<'_>,
    numbering: &Numbering<'_>,
) -> Result<(), BenchFault> {
    let things = symbols(numbering);
    report_pace(rt, "reading pools", things, "million symbols/s", || {
        read_pools(alloc, frame)
    })?;
    time_join(rt, alloc, "joining 2 numberings", numbering, 2)?;
    time_join(rt, alloc, "joining 16 numberings", numbering, 16)?;
    time_join(rt, alloc, "joining 256 numberings", numbering, 256)
}

fn time_pools(
    rt: &(impl CpuClock + Print),
    alloc: Global,
    frame: &Frame<'_>,
) -> Result<(), BenchFault> {
    match Pools::read(alloc, frame) {
        Ok(pools) => time_numbering(rt, alloc, frame, pools.numbering()),
        Err(_) => Ok(println!(rt; "pools: refused")?),
    }
}

fn time_frame(
    rt: &(impl CpuClock + Print),
    alloc: Global,
    bytes: &[u8],
    frame: &Frame<'_>,
) -> Result<(), BenchFault> {
    report_pace(rt, "Frame::open", bytes.len(), "MB/s", || open(bytes))?;
    time_texts(rt, alloc, frame)?;
    time_pools(rt, alloc, frame)
}

fn time_file(rt: &(impl CpuClock + Print), alloc: Global, bytes: &[u8]) -> Result<(), BenchFault> {
    time_sums(rt, bytes)?;
    match Frame::open(bytes) {
        Ok(frame) => time_frame(rt, alloc, bytes, &frame),
        Err(Refusal { number, place }) => {
            println!(rt; "Frame::open: refused by condition {number} at {place}")?;
            Ok(())
        }
    }
}

// Times how files are read, how their programs are merged, and how the merged file is written.
fn time_merged(
    rt: &(impl CpuClock + Print),
    alloc: Global,
    files: &[Vec<u8>],
    parts: &[&Program<'_>],
    program: &Program<'_>,
    file: &[u8],
) -> io::Result<()> {
    let (all, len) = (bytes_of(files), file.len());
    report_pace(rt, "reading the files", all, "MB/s", || {
        read_files(alloc, files)
    })?;
    report_pace(rt, "merging the files", all, "MB/s", || {
        merge_all(alloc, parts)
    })?;
    report_pace(rt, "writing the merged file", len, "MB/s", || {
        write(alloc, program)
    })?;
    report_pace(rt, "SHA-1 and Adler-32 of it", len, "MB/s", || sums(file))
}

// Merges the programs of the files in one join, and times the steps.
fn time_programs(
    rt: &(impl CpuClock + Print),
    alloc: Global,
    files: &[Vec<u8>],
    parts: &[&Program<'_>],
) -> Result<(), BenchFault> {
    let program = merged(alloc, parts)?;
    let file = to_bytes(alloc, &program)?;
    Ok(time_merged(rt, alloc, files, parts, &program, &file)?)
}

// Reads and merges the files in one join, and times the steps.
fn time_merge(
    rt: &(impl CpuClock + Print),
    alloc: Global,
    files: &[Vec<u8>],
) -> Result<(), BenchFault> {
    let programs = programs(alloc, files)?;
    let parts: Vec<&Program<'_>> = programs.iter().collect(alloc)?;
    time_programs(rt, alloc, files, &parts)
}

// Reads a whole file of at most 2^30 bytes.
fn read_file<R: Files + Alloc<A = Global>>(rt: &R, name: &str) -> Result<Vec<u8>, BenchFault> {
    let file = fs::open(rt, name).map_err(BenchFault::File)?;
    let mut bytes = Vec::new(rt.alloc());
    file.take(MOST + 1)
        .read_to_end(&mut bytes)
        .map_err(BenchFault::File)?;
    if bytes.len() as u64 > MOST {
        return Err(BenchFault::Long);
    }
    Ok(bytes)
}

// Reads the files that the arguments name. The first argument is the program's name.
fn named_files<R: Files + Alloc<A = Global>>(
    rt: &R,
    words: &[String],
) -> Result<Vec<Vec<u8>>, BenchFault> {
    let mut files = Vec::new(rt.alloc());
    for name in words.iter().skip(1) {
        files
            .push(read_file(rt, name.as_str())?)
            .map_err(AllocError::from)?;
    }
    Ok(files)
}

fn run<R: Files + Print + Env + CpuClock + Alloc<A = Global>>(rt: &R) -> Result<(), BenchFault> {
    let words: Vec<String> = env::args(rt)?.collect(rt.alloc())?;
    let files = named_files(rt, &words)?;
    match files.as_slice() {
        [] => Err(BenchFault::Words),
        [file] => time_file(rt, rt.alloc(), file),
        files => time_merge(rt, rt.alloc(), files),
    }
}

fn main(rt: HostRuntime) -> ExitCode {
    match run(&rt) {
        Ok(()) => ExitCode::SUCCESS,
        Err(fault) => {
            let _ = eprintln!(rt; "dexbench: {fault}");
            ExitCode::from(fault.status())
        }
    }
}
