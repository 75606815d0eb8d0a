//! Rows of methods.

ghost use Rattle.std.specs.Prelude.{◌≡◌, ◌∷◌, [], true, refl};
ghost use Rattle.dexrows.specs.KeyOrders.{both_same, same_number};

use crate::lower::LowerPlaces;
use crate::rows::Row;
use std::cmp::Ordering;

/// A row of methods.
///
/// Source: the heading "method_id_item" of the Android page "Dalvik Executable format".
#[derive(Clone, Copy, Debug, PartialEq, Eq)]
pub struct MethodRow {
    /// The number of the type that the method belongs to.
    pub class: u32,
    /// The number of the text that is its name.
    pub name: u32,
    /// The number of its proto.
    pub proto: u32,
}

/// A row of methods is ordered by its class, then by its name, then by its proto.
impl Row for MethodRow {
    type Key = [u32; 3];

    type List = ();

    ghost numbers_of = { λ numbers. numbers };

    ghost key_of = { λ row. row.class ∷ row.name ∷ row.proto ∷ [] };

    ghost numbers_in = { λ among row. (among.types row.class ≡ true) × (among.strings row.name ≡ true) × (among.protos row.proto ≡ true) };

    ghost mapped = { λ lower row. record { class = lower.types row.class; name = lower.strings row.name; proto = lower.protos row.proto } };

    ghost can_move = { λ lower row list. Unit {0} };

    ghost keeps_order = { λ among lower rise x y in_x in_y. both_same _ _ _ _ (same_number among.types lower.types rise.types x.class y.class in_x.0 in_y.0) (both_same _ _ _ _ (same_number among.strings lower.strings rise.strings x.name y.name in_x.1 in_y.1) (both_same _ _ _ _ (same_number among.protos lower.protos rise.protos x.proto y.proto in_x.2 in_y.2) refl)) };

    fn key(&self) -> [u32; 3] {
        [self.class, self.name, self.proto]
    }

    fn compare(&self, other: &Self) -> Ordering {
        self.key().cmp(&other.key())
    }

    fn copied(&self) -> Self {
        *self
    }

    fn renumbered(&self, lower: LowerPlaces<'_>, _list: ()) -> Self {
        MethodRow {
            class: lower.types[self.class as usize],
            name: lower.strings[self.name as usize],
            proto: lower.protos[self.proto as usize],
        }
    }
}
