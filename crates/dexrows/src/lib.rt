//! Sorted tables of rows, whose keys are numbers of rows of lower tables, and a join of many.
//!
//! Of the definitions that its contracts use, read `specs/Join` (what the joined rows are) and `specs/Numbers` first.
//!
//! Source: the Android page "Dalvik Executable format", under the headings "string_id_item",
//! "type_id_item", "proto_id_item", "field_id_item" and "method_id_item".
#![tactic(auto)]

mod fields;
mod joining;
mod lower;
mod merging;
mod methods;
mod places;
mod protos;
mod rows;
mod sort_order;
mod texts;
mod type_numbers;
mod types;

pub use fields::FieldRow;
pub use joining::{Joined, join};
pub use lower::LowerPlaces;
pub use methods::MethodRow;
pub use protos::ProtoRow;
pub use rows::Row;
pub use sort_order::is_sorted;
pub use type_numbers::TypeNumbers;
pub use types::TypeRow;
