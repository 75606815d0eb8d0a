//! The kinds of lines.

ghost use Rattle.dexpool.specs.Pools.{ArePools};

use crate::dex_file::DexFile;
use crate::item_kind::ItemKind;
use crate::line::Line;
use crate::{canonical, checked_lines, puts, reads, sameness, texts, units, weights};
use dexcases::{CaseFault, Cases, Folder, Outcome};
use std::alloc::Global;
use std::fmt;
use std::rt::Files;

/// What a line asks for.
#[derive(Clone, Copy, PartialEq, Eq, PartialOrd, Ord)]
pub enum Kind {
    /// An item read.
    Read(ItemKind),
    /// An item checked.
    Checked,
    /// An item put.
    Put,
    /// The weight of an item.
    Weight,
    /// The units of code.
    Units,
    /// The symbols of an item.
    Marks,
    /// Two items compared.
    Same,
    /// The positions of a debug program.
    Positions,
    /// An item whose file has the bytes that it is put as.
    AsEncoded,
    /// Every item of a canonical file.
    Canonical,
    /// A kind that this program does not know.
    Unknown,
}

impl Kind {
    // Returns whether a word for the kind of item precedes the file's name in a line.
    fn names_an_item(self) -> bool {
        matches!(
            self,
            Kind::Checked | Kind::Put | Kind::Weight | Kind::Marks | Kind::Same | Kind::AsEncoded
        )
    }

    // Runs a line, given the bytes of its file.
    fn run_over(self, alloc: Global, bytes: &[u8], line: Line<'_>) -> Result<Outcome, CaseFault> {
        let file = DexFile::open(alloc, bytes)?;
        self.run_in(alloc, &file, line)
    }

    // Runs a line, given its file.
    fn run_in(self, alloc: Global, file: &DexFile<'_>, line: Line<'_>) -> Result<Outcome, CaseFault>
        requires { ArePools file.now.frame file.now.pools }
    {
        match self {
            Kind::Read(kind) => reads::run(alloc, file, kind, line),
            Kind::Checked => checked_lines::run(alloc, file, line),
            Kind::Weight => weights::run(alloc, file, line),
            Kind::Units => units::run(alloc, file, line),
            Kind::Same => sameness::run(alloc, file, line),
            Kind::AsEncoded => canonical::run_item(alloc, file, line),
            Kind::Canonical => canonical::run(alloc, file, line),
            Kind::Put => puts::run(alloc, file, line),
            Kind::Marks | Kind::Positions => texts::run(alloc, file, self, line),
            Kind::Unknown => Err(CaseFault::Form),
        }
    }
}

impl Cases for Kind {
    const PROGRAM: &'static str = "dexcases_items";

    const WORDS: &'static str =
        "dexcases_items FILE.. (value.txt statics.txt set.txt directory.txt debug_info.txt code.txt classdata.txt item_puts.txt checks.txt weights.txt units.txt index.txt)";

    fn of_calls(file_name: &str) -> Option<Kind> {
        match file_name {
            "value.txt" => Some(Kind::Read(ItemKind::Value)),
            "statics.txt" => Some(Kind::Read(ItemKind::Statics)),
            "set.txt" => Some(Kind::Read(ItemKind::Set)),
            "directory.txt" => Some(Kind::Read(ItemKind::Directory)),
            "debug_info.txt" => Some(Kind::Read(ItemKind::Debug)),
            "code.txt" => Some(Kind::Read(ItemKind::Code)),
            "classdata.txt" => Some(Kind::Read(ItemKind::Members)),
            "item_puts.txt" => Some(Kind::Put),
            "checks.txt" => Some(Kind::Checked),
            "weights.txt" => Some(Kind::Weight),
            "units.txt" => Some(Kind::Units),
            _ => None,
        }
    }

    fn of_case(word: &str) -> Kind {
        match word {
            "put" => Kind::Put,
            "weight" => Kind::Weight,
            "marks" => Kind::Marks,
            "same" => Kind::Same,
            "positions" => Kind::Positions,
            "stands" => Kind::AsEncoded,
            "canonical" => Kind::Canonical,
            _ => match ItemKind::of_word(word) {
                Some(item) => Kind::Read(item),
                None => Kind::Unknown,
            },
        }
    }

    fn run<R: Files + AllocGlobal>(
        self,
        folder: Folder<'_, R>,
        case: &str,
    ) -> Result<Outcome, CaseFault> {
        let line = Line::of(case, self.names_an_item())?;
        let bytes = folder.read(line.file)?;
        self.run_over(folder.alloc(), &bytes, line)
    }
}

impl fmt::Display for Kind {
    fn fmt<W: fmt::Write>(&self, f: &mut fmt::Formatter<W>) -> fmt::Result {
        f.write_str(match self {
            Kind::Read(ItemKind::Value) => "values",
            Kind::Read(ItemKind::Statics) => "arrays of values",
            Kind::Read(ItemKind::Set) => "sets",
            Kind::Read(ItemKind::Directory) => "directories",
            Kind::Read(ItemKind::Debug) => "debug programs",
            Kind::Read(ItemKind::Code) => "code items",
            Kind::Read(ItemKind::Members) => "class rows",
            Kind::Checked => "items checked",
            Kind::Put => "items put",
            Kind::Weight => "weights",
            Kind::Units => "units",
            Kind::Marks => "marks",
            Kind::Same => "items compared",
            Kind::Positions => "positions",
            Kind::AsEncoded => "items put as they are",
            Kind::Canonical => "canonical files",
            Kind::Unknown => "unknown",
        })
    }
}
