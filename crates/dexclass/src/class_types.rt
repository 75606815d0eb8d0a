//! Which types are classes, and which of them a file defines.

ghost use Rattle.std.specs.Prelude.{◌↔◌, IsTrue, IfOk};
ghost use Rattle.dexspec.specs.Names.{IsClass, IsDescriptor};
ghost use Rattle.dexspec.specs.Header.{ClassDefs, TypeIds, table_size};
ghost use Rattle.dexclass.specs.internal.Rows.{AreDefinedMarks};
ghost use Rattle.dexclass.specs.internal.Checked.{MarksClass};

use dexhead::{Frame, Table, u32_at};
use dexstr::Text;
use std::alloc::{AllocError, Global};

// What the descriptor of a class starts with, and no other descriptor.
const CLASS_START: u16 = b'L' as u16;

/// Returns whether the descriptor is that of a class.
pub(crate) fn is_class(descriptor: &Text<'_>) -> bool
    requires { IsDescriptor descriptor.now }
    ensures { IsTrue result ↔ IsClass descriptor.now }
{
    let Some(first) = descriptor.units().next() else {
        return false;
    };
    first == CLASS_START
}

/// A mark for each type of a file, none of them set: no class row is checked yet.
pub(crate) fn no_marks(alloc: Global, frame: &Frame<'_>) -> Result<Vec<bool>, AllocError>
    ensures { IfOk result (λ marks. AreDefinedMarks frame.now 0 marks.items) }
{
    vec![in alloc; false; frame.size(Table::TypeIds) as usize]
}

/// Marks the type of a class row, if there is such a type.
pub(crate) fn mark(index: u32, marks: &mut Vec<bool>)
    ensures { MarksClass index marks.old.items marks.new.items }
{
    let class = index as usize;
    if class < marks.len() {
        marks[class] = true;
    }
}

/// For each type of a file whether a class row is of it.
pub(crate) fn defined(alloc: Global, frame: &Frame<'_>) -> Result<Vec<bool>, AllocError>
    ensures { IfOk result (λ marks.
        AreDefinedMarks frame.now (table_size frame.now ClassDefs) marks.items) }
{
    let mut marks = no_marks(alloc, frame)?;
    for r in 0..frame.size(Table::ClassDefs) {
        // Of the fields of a row, only this one is decoded.
        let class_idx = u32_at(frame.row(Table::ClassDefs, r), 0);
        mark(class_idx, &mut marks);
    }
    Ok(marks)
}
