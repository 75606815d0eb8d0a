//! The common part of the programs that run files of right answers.
//!
//! The arguments are the names of such files. Each line of a file asks for calls and says what they must return; a line
//! that begins with `#` is a comment. A program implements [`Cases`], which says what its lines ask for. [`run`] reads
//! the files, prints each line that failed with its file, its number and what was returned, counts the lines by kind,
//! and returns the status. A file that cannot be read, or that has no case, counts as a failure, and so does a line that
//! its file has twice.
#![tactic(auto)]

pub use cases::Cases;
pub use fault::CaseFault;
pub use folder::Folder;
pub use outcome::Outcome;
pub use printing::Printed;
pub use program::run;
pub use tally::Tally;
pub use words::{FIRST_OF_CLASSES, first_word, number};

mod cases;
mod fault;
mod file;
mod folder;
mod outcome;
mod printing;
mod program;
mod tally;
mod words;
