//! Items as text, with the symbols that their numbers denote.

mod code;
mod debug;
mod members;
mod symbols;
mod values;

use crate::item::Item;
use code::print_code;
use debug::print_debug;
use dexcases::Printed;
use dexpool::Numbering;
use members::print_members;
use values::{print_directory, print_set, print_value, print_values};

/// Prints an item of a numbering, as the files of right answers have it.
pub fn print_item(item: &Item<'_>, numbering: &Numbering<'_>, out: &mut Printed) {
    match item {
        Item::Value(value, size) => {
            out.add_shown(size);
            out.add(" ");
            print_value(value, numbering, out);
        }
        Item::Statics(values) => print_values(values, numbering, out),
        Item::Set(set) => print_set(set, numbering, out),
        Item::Directory(directory) => print_directory(directory, numbering, out),
        Item::Debug(debug) => print_debug(debug, numbering, out),
        Item::Code(code) => print_code(code, numbering, out),
        Item::Members(members) => print_members(members, numbering, out),
    }
}
