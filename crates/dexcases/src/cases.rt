//! The kinds of lines.

use crate::fault::CaseFault;
use crate::folder::Folder;
use crate::outcome::Outcome;
use std::fmt;
use std::rt::Files;

/// The kinds of lines that a program runs. Lines are counted under the text that their kind prints as.
pub trait Cases: Copy + Ord + fmt::Display {
    /// The name of the program.
    const PROGRAM: &'static str;

    /// The usage line of the program.
    const WORDS: &'static str;

    /// Returns the kind of all lines of a file of calls, by the file's name; `None` if no file of calls has that name.
    fn of_calls(file_name: &str) -> Option<Self>;

    /// Returns the kind of a line of an index, by its first word.
    fn of_case(word: &str) -> Self;

    /// Runs a line of a file in this folder. `case` is the whole line of a file of calls; of a line of an index it is
    /// the text after the first word.
    fn run<R: Files + AllocGlobal>(
        self,
        folder: Folder<'_, R>,
        case: &str,
    ) -> Result<Outcome, CaseFault>;
}
