//! Whether a table is sorted.

ghost use Rattle.std.specs.Prelude.{◌↔◌, IsTrue};
ghost use Rattle.dexrows.specs.Join.{AreSorted};

use crate::rows::Row;

/// Returns whether each row has a greater key than the row before it.
pub fn is_sorted<R: Row>(rows: &[R]) -> bool
    ensures { IsTrue result ↔ AreSorted R.key_of rows.now }
{
    for i in 1..rows.len() {
        let order = rows[i - 1].compare(&rows[i]);
        if !order.is_lt() {
            return false;
        }
    }
    true
}
