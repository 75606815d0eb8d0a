//! The layout of the canonical file of a program: the offset of each item, and the length of the file.
//!
//! Of the definitions that its contracts use, read `specs/Places` (what a layout has) and `specs/Laid` (when it is that
//! of the canonical file) first.
//!
//! Source: the Android page "Dalvik Executable format", "Overall file layout". This project's rules are the order of
//! the items in each section, and that equal type lists, debug programs and annotation sets are written once.
#![tactic(auto)]

mod bodies;
mod codes;
mod data;
mod directories;
mod input;
mod item_number;
mod items;
mod keys;
mod layout;
mod list_sharing;
mod map_entries;
mod offsets;
mod runs;
mod sets;
mod sharing;
mod tables;
mod type_lists;
mod use_numbers;
mod values;

pub use codes::Codes;
pub use items::{Items, SharedItems, SharedOffsets, encode_numbers};
pub use layout::Layout;
pub use offsets::Offsets;
pub use sets::Sets;
