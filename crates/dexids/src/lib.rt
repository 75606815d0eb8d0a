//! The five tables of ids that a file has, read row by row: of texts, types, protos, fields and methods, each sorted, with
//! rows that name rows of the tables before it.
//!
//! Of the definitions that its contracts use, read `specs/Reading` (what a row has), `specs/Tables` (what its numbers
//! denote) and `specs/Faults` (why tables are refused) first.
//!
//! Source: the Android page "Dalvik Executable format", under the headings "string_id_item",
//! "type_id_item", "proto_id_item", "field_id_item", "method_id_item" and "type_list".
#![tactic(auto)]

mod faults;
mod kinds;
mod lists;
mod members;
mod names;
mod protos;
mod reading;
mod rows;
mod shorties;
mod strings;
mod tables;
mod types;

pub use faults::ReadFault;
pub use lists::{Parameters, type_list_len};
pub use rows::{ProtoEntry, Span};
pub use tables::{FileTables, read_tables};
