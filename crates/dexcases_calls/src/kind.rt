//! The kinds of lines.

use crate::calls::run_call;
use crate::index::run_case;
use dexcases::{CaseFault, Cases, Folder, Outcome};
use std::fmt;
use std::rt::Files;

/// What a line asks for.
#[derive(Clone, Copy, PartialEq, Eq, PartialOrd, Ord)]
pub enum Kind {
    /// Numbers read.
    Leb,
    /// Numbers put.
    Puts,
    /// Texts read.
    Text,
    /// The kind of a type descriptor, and whether a text is a name of a member.
    Names,
    /// Code split into pieces.
    Split,
    /// The format, the pool of the index and the mnemonic of an opcode.
    Opcodes,
    /// The positions of a debug program.
    Debug,
    /// The checksum and the digest of bytes.
    Sums,
    /// Access flags as text.
    Flags,
    /// The symbol of a row of a pool.
    Symbol,
    /// A class of a file.
    Class,
    /// Joined pools of files.
    Join,
    /// A file that is accepted or refused.
    Check,
    /// The status of a check, and the line that is written for a file.
    CheckRun,
    /// A file that is refused at each length to which it is cut.
    Cuts,
    /// The weight of a file's classes.
    Weight,
    /// The canonical file.
    Normalise,
    /// The slices in which the canonical file is written.
    Slices,
    /// The listing of a file.
    Dump,
    /// The canonical file without debug programs and source texts.
    Strip,
    /// Files merged by a plan under caps.
    Merge,
    /// Files merged in many orders and groupings under caps.
    Regroup,
    /// Files merged by a plan under caps, and then stripped.
    MergeStrip,
    /// The counts of the union of files.
    Measure,
    /// What is written of the counts of a union.
    CountRun,
    /// The digests that are written for the classes of a file.
    DigestRun,
    /// The digests that are written for the classes of a file without debug programs and source texts.
    DigestStrip,
    /// The file with its sums set right.
    RepairRun,
    /// A line that must fail.
    Wrong,
    /// A kind that this program does not know.
    Unknown,
}

// The kinds of lines of files of calls, each with the name of the file, without `.txt`.
const CALLS: [(&str, Kind); 9] = [
    ("leb", Kind::Leb),
    ("puts", Kind::Puts),
    ("text", Kind::Text),
    ("names", Kind::Names),
    ("split", Kind::Split),
    ("opcodes", Kind::Opcodes),
    ("debug", Kind::Debug),
    ("sums", Kind::Sums),
    ("flags", Kind::Flags),
];

// The kinds of lines of an index, each with the first word of the line.
const CASES: [(&str, Kind); 20] = [
    ("symbol", Kind::Symbol),
    ("class", Kind::Class),
    ("join", Kind::Join),
    ("check", Kind::Check),
    ("checkrun", Kind::CheckRun),
    ("cuts", Kind::Cuts),
    ("weight", Kind::Weight),
    ("normalise", Kind::Normalise),
    ("slices", Kind::Slices),
    ("dump", Kind::Dump),
    ("strip", Kind::Strip),
    ("merge", Kind::Merge),
    ("regroup", Kind::Regroup),
    ("mergestrip", Kind::MergeStrip),
    ("measure", Kind::Measure),
    ("countrun", Kind::CountRun),
    ("digestrun", Kind::DigestRun),
    ("digeststrip", Kind::DigestStrip),
    ("repairrun", Kind::RepairRun),
    ("wrong", Kind::Wrong),
];

// Returns the kind with this name in a list.
fn kind_of(list: &[(&str, Kind)], name: &str) -> Option<Kind> {
    for (listed, kind) in list {
        if *listed == name {
            return Some(*kind);
        }
    }
    None
}

// Returns the name of the kind in a list.
fn name_of(list: &[(&'static str, Kind)], kind: Kind) -> Option<&'static str> {
    for (name, listed) in list {
        if *listed == kind {
            return Some(*name);
        }
    }
    None
}

impl Cases for Kind {
    const PROGRAM: &'static str = "dexcases_calls";

    const WORDS: &'static str = "dexcases_calls FILE.. (calls/NAME.txt or FOLDER/index.txt)";

    fn of_calls(file_name: &str) -> Option<Kind> {
        kind_of(&CALLS, file_name.strip_suffix(".txt")?)
    }

    fn of_case(word: &str) -> Kind {
        kind_of(&CASES, word).unwrap_or(Kind::Unknown)
    }

    fn run<R: Files + AllocGlobal>(
        self,
        folder: Folder<'_, R>,
        case: &str,
    ) -> Result<Outcome, CaseFault> {
        match name_of(&CALLS, self) {
            Some(_) => run_call(folder.alloc(), self, case),
            None => run_case(folder, self, case),
        }
    }
}

impl fmt::Display for Kind {
    fn fmt<W: fmt::Write>(&self, f: &mut fmt::Formatter<W>) -> fmt::Result {
        match name_of(&CALLS, *self) {
            Some(name) => f.write_str(name),
            None => f.write_str(name_of(&CASES, *self).unwrap_or("unknown")),
        }
    }
}
