//! What a row of a sorted table is.

ghost use Rattle.std.specs.Prelude.{◌≡◌, List, ℕ};
ghost use Rattle.dexspec.specs.Rows.{key_cmp};
ghost use Rattle.dexrows.specs.Numbers.{Among, Lower, RiseAmong, lower_of, among_of};

use crate::lower::LowerPlaces;
use std::cmp::Ordering;

/// A row of a sorted table. Rows are ordered by their keys, which are lists of numbers: the units of a text,
/// or numbers of rows of lower tables. Keys compare number by number, a prefix before a longer key.
///
/// Source: the headings "string_id_item", "type_id_item", "proto_id_item", "field_id_item" and
/// "method_id_item" of the Android page "Dalvik Executable format".
pub trait Row: Drop {
    ghost use Rattle.dexrows.specs.declared.lower.LowerPlaces.{LowerPlaces};

    /// What a row is ordered by.
    type Key;

    /// What a renumbered row borrows: the numbers of a proto's parameters, and nothing for the others.
    type List;

    // The numbers of a key.
    ghost numbers_of: { Self.Key → List ℕ };

    // The numbers that a row is ordered by.
    ghost key_of: { Self → List ℕ };

    // Whether each number of a lower table in the row's key is among these.
    ghost numbers_in: { Among → Self → Type 0 };

    // The row with its numbers of lower tables replaced.
    ghost mapped: { Lower → Self → Self };

    // Whether these are what the row with its numbers replaced borrows, and its other numbers have places.
    ghost can_move: { LowerPlaces → Self → Self.List → Type 0 };

    /// What the row is ordered by.
    fn key(&self) -> Self::Key
        ensures { numbers_of result ≡ key_of self.now };

    /// The order of the two rows' keys.
    fn compare(&self, other: &Self) -> Ordering
        ensures { result ≡ key_cmp (key_of self.now) (key_of other.now) };

    /// The same row.
    fn copied(&self) -> Self
        ensures { result ≡ self.now };

    /// The row with the numbers that its rows of lower tables have now.
    ///
    /// Condition: each number of the row has a place, and `list` has the new numbers of a proto's parameters.
    fn renumbered(&self, lower: LowerPlaces<'_>, list: Self::List) -> Self
        requires within { numbers_in (among_of lower) self.now }
        requires list { can_move lower self.now list }
        ensures { result ≡ mapped (lower_of lower.entry) self.now };

    // Where the numbers of lower tables are replaced in their order, the rows keep theirs.
    ghost keeps_order: { (among : Among) (lower : Lower) → RiseAmong among lower → (x y : Self) → numbers_in among x → numbers_in among y → key_cmp (key_of (mapped lower x)) (key_of (mapped lower y)) ≡ key_cmp (key_of x) (key_of y) };
}
