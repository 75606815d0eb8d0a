//! The pool of types.

ghost use Rattle.std.specs.Prelude.{◌≡◌, ◌<◌, MatchOption};
ghost use Rattle.dexspec.specs.Header.{TypeIds, table_size};
ghost use Rattle.dexspec.specs.Rows.{HasType, row_at};
ghost use Rattle.dexspec.specs.Bytes.{uint_at};
ghost use Rattle.dexids.specs.Reading.{AreTexts, TypeRowAt};
ghost use Rattle.dexids.specs.Tables.{type_cmp};

use crate::reading::TableReader;
use dexhead::{Condition, Frame, Table, u32_at};
use dexstr::{Text, descriptor_kind};
use std::alloc::AllocError;
use std::cmp::Ordering;

/// Reads the types of a file whose texts are read, each as the row of its text. The condition fails at a row whose index
/// is out of range, whose text is no type descriptor, or whose index is not greater than that of the row before it.
///
/// Source: "type_id_item" and "TypeDescriptor".
#[derive(Clone, Copy)]
pub(crate) struct TypeReader<'p, 'a> {
    pub(crate) frame: &'p Frame<'a>,
    pub(crate) strings: &'p [Text<'a>],
}

impl TableReader for TypeReader<'_, '_> {
    ghost use Rattle.dexspec.specs.Conditions as conditions;

    type Row = usize;

    type Memory = ();

    ghost condition = { conditions.Types };

    ghost file = { λ reader. reader.frame.now };

    ghost can_read = { λ reader. AreTexts reader.frame.now reader.strings.now };

    ghost remembers = { λ reader memory. Unit {0} };

    ghost is_row = { λ reader. TypeRowAt reader.strings.now };

    ghost row_cmp = { λ reader. type_cmp };

    fn rows(&self) -> (Condition, u32) {
        (Condition::Types, self.frame.size(Table::TypeIds))
    }

    fn row_at(&self, _memory: &mut (), i: u32) -> Result<Option<usize>, AllocError> {
        Ok(type_at(self.frame, self.strings, i))
    }

    fn compare(&self, left: &usize, right: &usize) -> Ordering {
        left.cmp(right)
    }

    fn law(&self) {}
}

// The index of the text of a row, if it is a type.
#[tactic(auto, using(crate::proofs::Steps::type_encoded))]
fn type_at(frame: &Frame<'_>, strings: &[Text<'_>], i: u32) -> Option<usize>
    requires strings { AreTexts frame.now strings.now }
    requires row { i < table_size frame.now TypeIds }
    ensures { MatchOption result (HasType frame.now i → ⊥) (TypeRowAt strings.now frame.now i) }
{
    let index = type_index(frame, i);
    descriptor_kind(strings.get(index)?)?;
    Some(index)
}

// The index in a row.
#[tactic(auto, using(crate::proofs::Bytes::uint_at_row))]
fn type_index(frame: &Frame<'_>, i: u32) -> usize
    requires { i < table_size frame.now TypeIds }
    ensures { result ≡ uint_at frame.now (row_at frame.now TypeIds i) }
{
    u32_at(frame.row(Table::TypeIds, i), 0) as usize
}
