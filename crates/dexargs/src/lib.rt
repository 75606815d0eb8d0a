//! The arguments of the program `dexkit`: the job that they ask for, lists of arguments, and the texts of its help.
//!
//! Public contracts use the definitions of `specs/Lists`, `specs/Verbosity` and `specs/Words`.
#![tactic(auto)]

mod commands;
mod help;
mod lists;
mod remedies;
mod verbosity;
mod words;

pub use lists::{Ending, ListFault, arguments_in, ending_of, is_separator, list_name};
pub use remedies::{MEANINGS, REMEDIES};
pub use verbosity::is_verbose;
pub use words::{Job, Placing, read_words};
