//! Items put again: a word for the item, and `FILE OFFSET HEX`, the bytes that are put for the item at the offset, with
//! the numbers of the file's own pools. The words are `value`, `statics`, `debug`, `annotations` (the annotations of
//! the set, one after the other), `code` (`FILE OFFSET DEBUG_OFF HEX`), `set` (`FILE OFFSET FIRST HEX`, with the
//! annotations from FIRST on) and `members` (`FILE ROW HEX`, the initial values of the static fields of a class row).

ghost use Rattle.dexpool.specs.Pools.{ArePools};

use crate::dex_file::DexFile;
use crate::item::Item;
use crate::item_kind::ItemKind;
use crate::line::Line;
use dexcases::{CaseFault, Outcome, first_word, number};
use dexcode::{Code, put_code, put_debug};
use dexpool::Numbering;
use dexval::{AnnotationSet, counts_law, put_annotation, put_set, put_statics, put_value};
use std::alloc::{AllocError, Global};

/// How an item is put.
#[derive(Clone, Copy)]
pub enum Put {
    /// A value.
    Value,
    /// The values of an array.
    Statics,
    /// A debug program.
    Debug,
    /// The annotations of a set.
    Annotations,
    /// Code whose debug program is at this offset.
    Code(u32),
    /// A set whose annotations are at this offset, one after the other.
    Set(u32),
    /// The initial values of the static fields of a class row.
    StaticValues,
}

impl Put {
    // Parses how the item of a line is put, and the right bytes.
    fn of<'l>(line: Line<'l>) -> Result<(Put, &'l str), CaseFault> {
        let (operand, right) = match line.word {
            "code" | "set" => first_word(line.rest)?,
            _ => ("0", line.rest),
        };
        let operand = number(operand)?.parse()?;
        Ok((Put::of_word(line.word, operand)?, right))
    }

    /// Returns how the item that a word names is put, with the offset of its debug program or of its first annotation.
    pub fn of_word(word: &str, off: u32) -> Result<Put, CaseFault> {
        match word {
            "value" => Ok(Put::Value),
            "statics" => Ok(Put::Statics),
            "debug" => Ok(Put::Debug),
            "annotations" => Ok(Put::Annotations),
            "code" => Ok(Put::Code(off)),
            "set" => Ok(Put::Set(off)),
            "members" => Ok(Put::StaticValues),
            _ => Err(CaseFault::Form),
        }
    }

    // Returns the kind of the item that is read.
    fn kind(self) -> ItemKind {
        match self {
            Put::Value => ItemKind::Value,
            Put::Statics => ItemKind::Statics,
            Put::Debug => ItemKind::Debug,
            Put::Code(_) => ItemKind::Code,
            Put::Annotations | Put::Set(_) => ItemKind::Set,
            Put::StaticValues => ItemKind::Members,
        }
    }

    /// Reads the item at an offset, and returns the bytes that it is put as. A line fails if there is no such item, or
    /// it may not be put.
    pub fn bytes_at(self, alloc: Global, file: &DexFile<'_>, off: u32) -> Result<Vec<u8>, CaseFault>
        requires { ArePools file.now.frame file.now.pools }
    {
        let item = Item::at(alloc, file, self.kind(), off)?;
        self.bytes_of(alloc, &item, file.pools.numbering())
    }

    // Returns the bytes that an item is put as. A line fails if the item may not be put.
    fn bytes_of(
        self,
        alloc: Global,
        item: &Item<'_>,
        numbering: &Numbering<'_>,
    ) -> Result<Vec<u8>, CaseFault> {
        let mut out = Vec::new(alloc);
        match self.append(item, numbering, &mut out) {
            Ok(true) => Ok(out),
            Ok(false) => Err(CaseFault::failed(alloc, "nothing is put")),
            Err(_) => Err(CaseFault::Memory),
        }
    }

    // Appends an item if it may be put, and returns whether it may.
    fn append(
        self,
        item: &Item<'_>,
        numbering: &Numbering<'_>,
        out: &mut Vec<u8>,
    ) -> Result<bool, AllocError> {
        match item {
            Item::Value(value, _) => put_value(value, numbering, out)?,
            Item::Statics(values) => put_statics(values, numbering, out)?,
            Item::Debug(debug) => put_debug(debug, numbering, out)?,
            Item::Set(set) => match self {
                Put::Set(first) => return append_light_set(set, first, numbering, out),
                _ => append_annotations(set, numbering, out)?,
            },
            Item::Code(code) => match self {
                Put::Code(debug_off) => return append_code(code, debug_off, numbering, out),
                _ => return Ok(false),
            },
            Item::Members(members) => members.put_static_values(numbering, out)?,
            Item::Directory(_) => return Ok(false),
        }
        Ok(true)
    }
}

/// Runs a line.
pub fn run(alloc: Global, file: &DexFile<'_>, line: Line<'_>) -> Result<Outcome, CaseFault>
    requires { ArePools file.now.frame file.now.pools }
{
    let (put, right) = Put::of(line)?;
    let bytes = put.bytes_at(alloc, file, line.place)?;
    Ok(Outcome::of(word_of(alloc, &bytes)?, right))
}

// Returns bytes in hexadecimal, or `-` if there are none.
fn word_of(alloc: Global, bytes: &[u8]) -> Result<String, AllocError> {
    if bytes.is_empty() {
        return String::from_str(alloc, "-");
    }
    hex::encode(alloc, bytes)
}

fn append_annotations(
    set: &AnnotationSet,
    numbering: &Numbering<'_>,
    out: &mut Vec<u8>,
) -> Result<(), AllocError> {
    for annotation in set.annotations() {
        put_annotation(annotation, numbering, out)?;
    }
    Ok(())
}

// Appends code if the numbers of its types have at most 16 bits, and returns whether they have.
fn append_code(
    code: &Code<'_>,
    debug_off: u32,
    numbering: &Numbering<'_>,
    out: &mut Vec<u8>,
) -> Result<bool, AllocError> {
    if !code.types_fit() {
        return Ok(false);
    }
    put_code(code, debug_off, numbering, out)?;
    Ok(true)
}

// Appends a set if `first` plus its weight is below 2^32, and returns whether it is.
fn append_light_set(
    set: &AnnotationSet,
    first: u32,
    numbering: &Numbering<'_>,
    out: &mut Vec<u8>,
) -> Result<bool, AllocError> {
    counts_law();
    if set.weight() >= 0x1_0000_0000 - u64::from(first) {
        return Ok(false);
    }
    put_set(set, first, out, numbering)?;
    Ok(true)
}
