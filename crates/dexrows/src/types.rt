//! Rows of types.

ghost use Rattle.std.specs.Prelude.{◌≡◌, ◌∷◌, [], true, refl};
ghost use Rattle.dexrows.specs.KeyOrders.{both_same, same_number};

use crate::lower::LowerPlaces;
use crate::rows::Row;
use std::cmp::Ordering;

/// A row of types.
///
/// Source: the heading "type_id_item" of the Android page "Dalvik Executable format".
#[derive(Clone, Copy, Debug, PartialEq, Eq)]
pub struct TypeRow {
    /// The number of the text that is the type's descriptor.
    pub descriptor: usize,
}

/// A row of types is ordered by its descriptor.
impl Row for TypeRow {
    type Key = usize;

    type List = ();

    ghost numbers_of = { λ descriptor. descriptor ∷ [] };

    ghost key_of = { λ row. row.descriptor ∷ [] };

    ghost numbers_in = { λ among row. among.strings row.descriptor ≡ true };

    ghost mapped = { λ lower row. record { descriptor = lower.strings row.descriptor } };

    ghost can_move = { λ lower row list. Unit {0} };

    ghost keeps_order = { λ among lower rise x y in_x in_y. both_same _ _ _ _ (same_number among.strings lower.strings rise.strings x.descriptor y.descriptor in_x in_y) refl };

    fn key(&self) -> usize {
        self.descriptor
    }

    fn compare(&self, other: &Self) -> Ordering {
        self.descriptor.cmp(&other.descriptor)
    }

    fn copied(&self) -> Self {
        *self
    }

    fn renumbered(&self, lower: LowerPlaces<'_>, _list: ()) -> Self {
        TypeRow {
            descriptor: lower.strings[self.descriptor] as usize,
        }
    }
}
