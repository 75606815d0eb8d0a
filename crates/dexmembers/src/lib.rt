//! What classes declare: fields and methods, their code and annotations, and the values that static fields begin with.
//!
//! Of the definitions that its contracts use, read `specs/Numbered` (what a class declares, with numbers for symbols,
//! and what it denotes), `specs/Reading` (when it is refused) and `specs/Spelled` (its bytes) first.
//!
//! Source: the Android page "Dalvik Executable format", under the headings "class_data_item", "encoded_field format",
//! "encoded_method format" and "annotations_directory_item".
#![tactic(auto)]

mod attaching;
mod checking;
mod class_data;
mod class_data_put;
mod class_def;
mod code_list;
mod codes;
mod directory_put;
mod encoded_lists;
mod encodings;
mod field_views;
mod held_codes;
mod kept;
mod laws;
mod marking;
mod members;
mod method_list;
mod method_views;
mod naming;
mod places;
mod reading;
mod remapped_members;
mod row_reader;
mod same;
mod shared_codes;
mod shared_debugs;
mod shared_members;
mod short_strings;
mod static_values;
mod weighing;

pub use checking::{Checks, check_members};
pub use class_def::ClassDef;
pub use directory_put::DirectoryOffsets;
pub use field_views::{Field, Fields};
pub use laws::{
    members_bytes_law, members_cut_law, members_joined_law, members_remapped_law, members_same_law,
    members_stripped_law, members_uses_law,
};
pub use members::Members;
pub use method_views::{Method, Methods, ParameterSets};
pub use reading::{read_members, read_shared_members};
pub use remapped_members::RemappedMembers;
pub use shared_members::SharedMembers;
pub use weighing::members_weight_law;
