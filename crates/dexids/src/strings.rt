//! The pool of texts.

ghost use Rattle.std.specs.Prelude.{◌≡◌};
ghost use Rattle.dexspec.specs.Header.{StringIds};
ghost use Rattle.dexspec.specs.Texts.{text_cmp};
ghost use Rattle.dexspec.specs.Rows.{StringRow};

use crate::reading::TableReader;
use dexhead::{Condition, Frame, Table, u32_at};
use dexstr::{Text, TextReader};
use std::alloc::AllocError;
use std::cmp::Ordering;

/// Reads the texts. The condition fails at a row whose item is not in the data or is no text, or whose text does not
/// come after that of the row before it.
///
/// Source: "string_id_item" and "string_data_item".
impl<'a> TableReader for Frame<'a> {
    ghost use Rattle.dexspec.specs.Conditions as conditions;

    type Row = Text<'a>;

    type Memory = TextReader<'a>;

    ghost condition = { conditions.Strings };

    ghost file = { λ frame. frame };

    ghost can_read = { λ frame. Unit {0} };

    ghost remembers = { λ frame texts. texts ≡ frame };

    ghost is_row = { λ frame. StringRow };

    ghost row_cmp = { λ frame. text_cmp };

    fn rows(&self) -> (Condition, u32) {
        (Condition::Strings, self.size(Table::StringIds))
    }

    fn row_at(&self, texts: &mut TextReader<'a>, i: u32) -> Result<Option<Text<'a>>, AllocError> {
        let at = u32_at(self.row(Table::StringIds, i), 0);
        if at < self.data_off() {
            return Ok(None);
        }
        if self.bytes().len() < at as usize {
            return Ok(None);
        }
        texts.read(at as usize)
    }

    fn compare(&self, left: &Text<'a>, right: &Text<'a>) -> Ordering {
        left.cmp(right)
    }

    fn law(&self) {}
}
