//! The kinds of lines: `bytes FILE COUNT`, the number of bytes of a file.

use dexcases::{CaseFault, Cases, Folder, Outcome, first_word, number};
use std::fmt;
use std::rt::Files;

/// What a line asks for.
#[derive(Clone, Copy, PartialEq, Eq, PartialOrd, Ord)]
pub enum Kind {
    /// The number of bytes of a file.
    Bytes,
    /// A kind that this program does not know.
    Unknown,
}

impl Cases for Kind {
    const PROGRAM: &'static str = "dexcases_failing";

    const WORDS: &'static str = "dexcases_failing FILE.. (bytes.txt or FOLDER/index.txt)";

    fn of_calls(file_name: &str) -> Option<Kind> {
        match file_name {
            "bytes.txt" => Some(Kind::Bytes),
            _ => None,
        }
    }

    fn of_case(word: &str) -> Kind {
        match word {
            "bytes" => Kind::Bytes,
            _ => Kind::Unknown,
        }
    }

    fn run<R: Files + AllocGlobal>(
        self,
        folder: Folder<'_, R>,
        case: &str,
    ) -> Result<Outcome, CaseFault> {
        match self {
            Kind::Bytes => {
                let (name, right) = first_word(case)?;
                let right = number(right)?;
                let bytes = folder.read(name)?;
                let count = bytes.len();
                Ok(Outcome::of(format!(in folder.alloc(); "{count}")?, right))
            }
            Kind::Unknown => Err(CaseFault::Form),
        }
    }
}

impl fmt::Display for Kind {
    fn fmt<W: fmt::Write>(&self, f: &mut fmt::Formatter<W>) -> fmt::Result {
        f.write_str(match self {
            Kind::Bytes => "bytes",
            Kind::Unknown => "unknown",
        })
    }
}
