//! The rows of class definitions.

ghost use Rattle.std.specs.Prelude.{◌<◌};
ghost use Rattle.dexspec.specs.Header.{ClassDefs, table_size};
ghost use Rattle.dexmembers.specs.ClassDefs.{IsClassDef};

use dexhead::{Frame, Table, u32_at};

/// A row of class_defs: its fields, in their order.
///
/// Source: "class_def_item".
#[derive(Clone, Copy)]
pub struct ClassDef {
    pub class_idx: u32,
    pub access_flags: u32,
    pub superclass_idx: u32,
    pub interfaces_off: u32,
    pub source_file_idx: u32,
    pub annotations_off: u32,
    pub class_data_off: u32,
    pub static_values_off: u32,
}

impl ClassDef {
    /// Row `row` of class_defs.
    ///
    /// Condition: the row is one of the file's.
    ///
    /// Source: "class_def_item".
    pub fn at(frame: &Frame<'_>, row: u32) -> ClassDef
        requires { row < table_size frame.now ClassDefs }
        ensures { IsClassDef frame.now row result }
    {
        let fields = frame.row(Table::ClassDefs, row);
        ClassDef {
            class_idx: u32_at(fields, 0),
            access_flags: u32_at(fields, 4),
            superclass_idx: u32_at(fields, 8),
            interfaces_off: u32_at(fields, 12),
            source_file_idx: u32_at(fields, 16),
            annotations_off: u32_at(fields, 20),
            class_data_off: u32_at(fields, 24),
            static_values_off: u32_at(fields, 28),
        }
    }
}
