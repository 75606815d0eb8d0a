//! Encoded values and annotations: the initial values of static fields, and the annotations of classes, members and
//! parameters.
//!
//! Of the definitions that its contracts use, read `specs/Numbered` (values and sets with numbers for symbols, and what
//! they denote), `specs/Reading` (when an item is refused) and `specs/Spelled` (its bytes) first.
//!
//! Source: the Android page "Dalvik Executable format", under the headings "encoded_value encoding",
//! "encoded_array format", "encoded_annotation format", "annotation_item", "annotation_set_item",
//! "annotation_set_ref_list" and "annotations_directory_item".
#![tactic(auto)]

pub use annotation::{Annotation, Visibility};
pub use checked_statics::{CheckedStatics, checked_statics_at};
pub use copying::copied_values;
pub use directory::{Directory, MemberCounts, SharedDirectory};
pub use directory_checking::{CheckedSets, DirectoryShape, check_directory};
pub use directory_reading::{
    member_counts, read_directory, read_shared_directory_with, read_shared_directory_within,
};
pub use equality::set_equality_law;
pub use laws::{
    counts_law, images_law, marks_law, narrow_law, places_law, renumber_law, same_law, uses_law,
};
pub use put::{annotation_size, put_annotation, put_set, put_statics, put_value, ref_list_size};
pub use remapped_items::{KnownImages, RemappedItems};
pub use renumbering::{remapped, renumber, renumber_set, renumber_values};
pub use same::{eq_ends, same_values_mapped};
pub use set::AnnotationSet;
pub use set_checking::{SetShape, check_set};
pub use set_reading::read_set;
pub use set_table::SetTable;
pub use shared_items::{SharedItems, item_key, shared_statics_at, source_of};
pub use value::{Element, EncodedAnnotation, Value};
pub use value_checking::{StaticsShape, ValueShape, check_statics, check_value};
pub use value_reading::{read_statics, read_value};
pub use visiting::{mark_values, values_fit, visit_values};
pub use weighed_values::WeighedValues;
pub use weight::{parameter_sets_weight, statics_weight};

mod annotation;
mod checked_statics;
mod copying;
mod directory;
mod directory_cache;
mod directory_checking;
mod directory_member;
mod directory_reading;
mod encoding;
mod equality;
mod few_symbols;
mod kept_set;
mod laws;
mod put;
mod remapped_items;
mod renumbered_copies;
mod renumbering;
mod same;
mod scalars;
mod set;
mod set_checking;
mod set_reading;
mod set_table;
mod shared_items;
mod sized_numbers;
mod type_codes;
mod value;
mod value_checking;
mod value_reading;
mod visiting;
mod weighed_set;
mod weighed_values;
mod weight;
mod widths;
