//! Rows of protos.

ghost use Rattle.std.specs.Prelude.{◌≡◌, ◌∷◌, [], true, All, map, length, slice_index, nat_lt};
ghost use Rattle.dexrows.specs.KeyOrders.{both_same, same_number, same_numbers};

use crate::lower::LowerPlaces;
use crate::rows::Row;
use crate::type_numbers::TypeNumbers;
use std::cmp::Ordering;
use std::marker::Model;

/// A row of protos, whose parameters are borrowed.
///
/// Source: the heading "proto_id_item" of the Android page "Dalvik Executable format".
#[derive(Drop)]
pub struct ProtoRow<'p> {
    shorty: usize,
    return_type: usize,
    parameters: TypeNumbers<'p>,
}

impl<'p> Model for ProtoRow<'p> {
    ghost use Rattle.dexrows.specs.Numbers.{ProtoNumbers};

    ghost Value = { ProtoNumbers };

    ghost view = { λ row. record { shorty = row.shorty; return_type = row.return_type; parameters = row.parameters } };
}

impl<'p> ProtoRow<'p> {
    /// The row with these numbers: the text of the shorty, the type that is returned, and the types of the
    /// parameters.
    pub fn new(shorty: usize, return_type: usize, parameters: &'p [usize]) -> ProtoRow<'p>
        ensures { result
            ≡ record { shorty = shorty; return_type = return_type; parameters = parameters.now } }
    {
        ProtoRow::of(shorty, return_type, TypeNumbers::words(parameters))
    }

    /// The row with these numbers, whose parameters may occur in a file.
    pub fn of(shorty: usize, return_type: usize, parameters: TypeNumbers<'p>) -> ProtoRow<'p>
        ensures { result
            ≡ record { shorty = shorty; return_type = return_type; parameters = parameters.entry } }
    {
        ProtoRow {
            shorty,
            return_type,
            parameters,
        }
    }

    /// The text of the shorty.
    pub fn shorty(&self) -> usize
        ensures { result ≡ self.now.shorty }
    {
        self.shorty
    }

    /// The type that is returned.
    pub fn return_type(&self) -> usize
        ensures { result ≡ self.now.return_type }
    {
        self.return_type
    }

    /// The types of the parameters, in their order.
    pub fn parameters(&self) -> TypeNumbers<'p>
        ensures { result ≡ self.now.parameters }
    {
        self.parameters.clone()
    }
}

/// A row of protos is ordered by its return type, and then by its parameters. Its shorty follows from these.
impl<'p> Row for ProtoRow<'p> {
    type Key = (usize, TypeNumbers<'p>);

    type List = &'p [usize];

    ghost numbers_of = { λ key. key.0 ∷ key.1 };

    ghost key_of = { λ row. row.return_type ∷ row.parameters };

    ghost numbers_in = { λ among row. (among.types row.return_type ≡ true) × All (λ number. among.types number ≡ true) row.parameters };

    ghost mapped = { λ lower row. record { shorty = lower.strings row.shorty; return_type = lower.types row.return_type; parameters = map lower.types row.parameters } };

    ghost can_move = { λ lower row list. (nat_lt row.shorty (length lower.strings.now) ≡ true) × (list.now ≡ map (slice_index lower.types.now) row.parameters) };

    ghost keeps_order = { λ among lower rise x y in_x in_y. both_same _ _ _ _ (same_number among.types lower.types rise.types x.return_type y.return_type in_x.0 in_y.0) (same_numbers among.types lower.types rise.types x.parameters y.parameters in_x.1 in_y.1) };

    fn key(&self) -> (usize, TypeNumbers<'p>) {
        (self.return_type, self.parameters.clone())
    }

    fn compare(&self, other: &Self) -> Ordering {
        match self.return_type.cmp(&other.return_type) {
            Ordering::Equal => self.parameters.compare(&other.parameters),
            order => order,
        }
    }

    fn copied(&self) -> Self {
        ProtoRow {
            shorty: self.shorty,
            return_type: self.return_type,
            parameters: self.parameters.clone(),
        }
    }

    fn renumbered(&self, lower: LowerPlaces<'_>, list: &'p [usize]) -> Self {
        ProtoRow {
            shorty: lower.strings[self.shorty] as usize,
            return_type: lower.types[self.return_type] as usize,
            parameters: TypeNumbers::words(list),
        }
    }
}
