//! The depths of classes below their defined superclasses and interfaces, and the order of the classes of a file: by
//! depth, then by name. Classes and names are numbers here.
//!
//! Of the definitions that its contracts use, read `specs/Depths`, `specs/Places` (the order by depth, then by name)
//! and `specs/Definitions` (what both say of class definitions) first.
//!
//! Source: the Android page "Dalvik Executable format", under the heading "class_defs": a class comes after its
//! superclass and interfaces. The order by depth, then by name, is this project's rule.
#![tactic(auto)]

mod depths;
mod laws;
mod list_depths;
mod order;
mod parents;

pub use depths::{depths_with_firsts, first_without_depth};
pub use laws::{
    classes_of_definitions, depths_of_classes, depths_of_definitions, order_of_definitions,
};
pub use order::class_order;
pub use parents::{HasParents, InterfaceClass, class_of_type, classes_by_type};
