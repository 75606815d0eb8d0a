//! Rows of the five pools: the bytes determine the symbol of a row.
ghost use Rattle.std.specs.Prelude.{ℕ, List};
ghost use Rattle.dexspec.specs.Rows.{StringRow, TypeRow, TypeListAt, ProtoRow, FieldRow, MethodRow};
ghost use Rattle.dexlaws.specs.Items.{IsOne, HasOneSymbolEach};

/// A row of a pool denotes at most one text, type, proto, field or method.
pub fn row_is_determined()
    ensures text { IsOne StringRow }
    ensures descriptor { IsOne TypeRow }
    ensures proto { IsOne ProtoRow }
    ensures field { IsOne FieldRow }
    ensures method { IsOne MethodRow }
{}

/// There is at most one list of types at an offset.
pub fn type_list_is_determined()
    ensures { IsOne TypeListAt }
{}

/// A row of a given pool denotes at most one symbol.
pub fn symbol_row_is_determined()
    ensures { (b : List ℕ) (i : ℕ) → HasOneSymbolEach b i }
{}
