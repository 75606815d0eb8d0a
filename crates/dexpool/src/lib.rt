//! The five pools of a file: texts, types, protos, fields and methods, each in a sorted table whose rows
//! name rows of the tables before it.
//!
//! Of the definitions that its contracts use, read `specs/Numberings` (five sets of symbols, and maps between them),
//! `specs/Faults` (why pools are refused) and `specs/Uses` (the symbols that occur in an item, and marks on them)
//! first.
//!
//! Source: the Android page "Dalvik Executable format", under the headings "string_id_item",
//! "type_id_item", "proto_id_item", "field_id_item", "method_id_item" and "type_list".
#![tactic(auto)]

mod closing;
mod faults;
mod joined_tables;
mod kept_tables;
mod known_parameters;
mod laws;
mod marks;
mod numbering;
mod pools;
mod ranks;
mod remap;
mod renumbering;
mod sharing;
mod symbols;
mod visiting;

pub use dexids::{ReadFault, type_list_len};
pub use dexrows::{FieldRow, MethodRow, ProtoRow, Row, TypeNumbers, TypeRow};
pub use faults::ItemFault;
pub use known_parameters::KnownParameters;
pub use laws::{marked_law, mentions_law, number_law, union_law, within_law};
pub use marks::Marks;
pub use numbering::Numbering;
pub use pools::Pools;
pub use remap::Remap;
pub use sharing::{RemappedItems, Share, SharedItem, SharedPool};
pub use symbols::{FieldSymbol, MethodSymbol, ProtoSymbol, Symbol, SymbolKind};
pub use visiting::{Fits, Renumber, Symbols, Visitor, all_fit, mark, renumber_all, visit_all};
