//! The rows of one of the five tables of a file, read one after the other.

ghost use Rattle.std.specs.Prelude.{◌≡◌, ℕ, ◌+◌, ◌<◌, true, List, length, slice_index_or, MatchOption, IfOk, IfErr, OnOk};
ghost use Rattle.std.specs.declared.cmp.Ordering.{Ordering};
ghost use Rattle.dexspec.specs.Accepted.{number, rows_checked, Holds, HoldBelow};
ghost use Rattle.dexhead.specs.Conditions.{condition_meant};
ghost use Rattle.dexids.specs.Reading.{ReadTo, is_above_last};
ghost use Rattle.dexids.specs.internal.ReadRows.{AreAllRows, IsNextRow, IsOfPools, DecidesNext};
ghost use Rattle.dexids.specs.Faults.{IsFault};

use crate::faults::{ReadFault, refused};
use dexhead::Condition;
use std::alloc::{AllocError, Global};
use std::cmp::Ordering;

/// A reader of the rows of one table.
pub(crate) trait TableReader {
    ghost use Rattle.dexspec.specs.Conditions.{Condition};

    /// What is kept of a row.
    type Row: Drop;

    /// What the reader remembers from row to row.
    type Memory;

    // the condition that is checked of each row
    ghost condition: { Condition };

    // the bytes of the file
    ghost file: { Self → List ℕ };

    // what the reader has to have
    ghost can_read: { Self → Type 0 };

    // whether the memory is of this file
    ghost remembers: { Self → Self.Memory → Type 0 };

    // row i of the file is this one
    ghost is_row: { Self → List ℕ → ℕ → Self.Row → Type 0 };

    // the order of the rows
    ghost row_cmp: { Self → Self.Row → Self.Row → Ordering };

    /// The condition that is checked of each row, and the number of rows.
    fn rows(&self) -> (Condition, u32)
        ensures condition { condition_meant result.0 ≡ condition }
        ensures count { result.1 ≡ rows_checked condition (file self.now) };

    /// Reads a row, without its order. Returns `None` where it does not meet the condition.
    fn row_at(&self, memory: &mut Self::Memory, i: u32) -> Result<Option<Self::Row>, AllocError>
        requires reader { can_read self.now }
        requires memory { remembers self.now memory.old }
        requires row { i < rows_checked condition (file self.now) }
        ensures memory { IfOk result (λ _. remembers self.now memory.new) }
        ensures row { IfOk result (λ found.
            MatchOption found (Holds condition (file self.now) i → ⊥)
            (is_row self.now (file self.now) i)) };

    /// The order of two rows of the file.
    fn compare(&self, left: &Self::Row, right: &Self::Row) -> Ordering
        requires reader { can_read self.now }
        requires left { (k : ℕ) × is_row self.now (file self.now) k left.now }
        requires right { (k : ℕ) × is_row self.now (file self.now) k right.now }
        ensures { result ≡ row_cmp self.now left.now right.now };

    // A row meets the condition where it is greater than the row before it, and the condition is one of the pools.
    fn law(&self)
        ensures next { DecidesNext condition (is_row self.now) (row_cmp self.now) (file self.now) }
        ensures condition { (b : List ℕ) (i : ℕ) → IsOfPools condition b i };
}

// Returns whether the row is greater than the last one, if there is one.
#[tactic(auto, using(crate::proofs::Steps::above_is))]
fn is_above<R: TableReader>(reader: &R, rows: &[R::Row], row: &R::Row) -> bool
    requires reader { R.can_read reader.now }
    requires rows { (k : ℕ) (d : R.Row) → k < length rows.now
        → R.is_row reader.now (R.file reader.now) k (slice_index_or rows.now k d) }
    requires row { (k : ℕ) × R.is_row reader.now (R.file reader.now) k row.now }
    ensures { result ≡ is_above_last (R.row_cmp reader.now) row.now rows.now }
{
    match rows.last() {
        Some(last) => reader.compare(last, row).is_lt(),
        None => true,
    }
}

// Returns row i, if it meets the condition after the rows before it.
fn next_row<R: TableReader>(
    reader: &R,
    memory: &mut R::Memory,
    rows: &[R::Row],
    i: u32,
) -> Result<Option<R::Row>, AllocError>
    requires reader { R.can_read reader.now }
    requires memory { R.remembers reader.now memory.old }
    requires rows { ReadTo (R.is_row reader.now) (Holds R.condition) (R.file reader.now) rows.now
        i }
    requires row { i < rows_checked R.condition (R.file reader.now) }
    ensures memory { IfOk result (λ _. R.remembers reader.now memory.new) }
    ensures row { IfOk result (λ found.
        MatchOption found (Holds R.condition (R.file reader.now) i → ⊥)
        (IsNextRow R.condition (R.is_row reader.now) (R.file reader.now) i)) }
{
    reader.law();
    match reader.row_at(memory, i)? {
        Some(row) if is_above(reader, rows, &row) => Ok(Some(row)),
        _ => Ok(None),
    }
}

/// Reads all rows of a table, of a file that meets the conditions before this one.
///
/// Error: `Refused` with the condition, at the least row that does not meet it; `Memory` where an allocation failed.
pub(crate) fn read_table<R: TableReader>(
    alloc: Global,
    reader: &R,
    memory: &mut R::Memory,
) -> Result<Vec<R::Row>, ReadFault>
    requires reader { R.can_read reader.now }
    requires memory { R.remembers reader.now memory.old }
    requires before { HoldBelow (number R.condition) (R.file reader.now) }
    ensures ok { IfOk result
        (λ rows. AreAllRows R.condition (R.is_row reader.now) (R.file reader.now) rows.items) }
    ensures below { OnOk result (HoldBelow (number R.condition + 1) (R.file reader.now)) }
    ensures memory { OnOk result (R.remembers reader.now memory.new) }
    ensures err { IfErr result (IsFault (R.file reader.now)) }
{
    reader.law();
    let (condition, count) = reader.rows();
    let mut rows = Vec::with_capacity(alloc, count as usize)?;
    for i in 0..count {
        match next_row(reader, memory, &rows, i)? {
            Some(row) => rows.push(row)?,
            None => return Err(refused(condition, i)),
        }
    }
    Ok(rows)
}
