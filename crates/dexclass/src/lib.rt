//! Class definitions of a file, and programs: sets of class definitions.
//!
//! Of the definitions that its contracts use, read `specs/Programs` (what a program is), `specs/Numbered` (a class with
//! numbers for symbols, and the definition that it denotes) and `specs/Checking` first.
//!
//! Source: the Android page "Dalvik Executable format", under the headings "class_def_item" and "type_list".
#![tactic(auto)]

mod arranging;
mod checked_lists;
mod checking;
mod class_calls;
mod class_checks;
mod class_types;
mod classes;
mod equal_lists;
mod interface_classes;
mod interface_lists;
mod laws;
mod list_parts;
mod marking;
mod ordering;
mod parts;
mod programs;
mod reading;
mod renumbering;
mod shared_renumbering;
mod stripping;
mod trimming;

pub use checking::{check, check_frame};
pub use classes::Class;
pub use dexflags::{ClassFlags, FieldFlags, MethodFlags};
pub use equal_lists::{KnownLists, first_equal};
pub use laws::{renumbering_law, same_law, uses_law};
pub use parts::{Part, Parts};
pub use programs::Program;
pub use reading::read;
pub use renumbering::renumber;
pub use shared_renumbering::Renumbering;
pub use stripping::{into_stripped, strip};
