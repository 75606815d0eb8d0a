//! Rows of the five pools: they are in the order of their symbols, and each symbol of a definition has a row.
ghost use Rattle.std.specs.Prelude.{ℕ, List};
ghost use Rattle.dexspec.specs.Texts.{text_cmp};
ghost use Rattle.dexspec.specs.Symbols.{proto_cmp, field_cmp, method_cmp};
ghost use Rattle.dexspec.specs.Rows.{StringRow, TypeRow, ProtoRow, FieldRow, MethodRow};
ghost use Rattle.dexspec.specs.Accepted.{HoldBelow};
ghost use Rattle.dexlaws.specs.Denotes.{RowsInOrder, SymbolsAreInRows};

/// If the first sixteen conditions hold, the rows of each pool are in order.
pub fn rows_are_in_order()
    ensures texts { (b : List ℕ) → HoldBelow 17 b → RowsInOrder text_cmp (StringRow b) }
    ensures types { (b : List ℕ) → HoldBelow 17 b → RowsInOrder text_cmp (TypeRow b) }
    ensures protos { (b : List ℕ) → HoldBelow 17 b → RowsInOrder proto_cmp (ProtoRow b) }
    ensures fields { (b : List ℕ) → HoldBelow 17 b → RowsInOrder field_cmp (FieldRow b) }
    ensures methods { (b : List ℕ) → HoldBelow 17 b → RowsInOrder method_cmp (MethodRow b) }
{}

/// If the first sixteen conditions and the condition on members hold, each symbol of a class row's definition has a
/// row.
pub fn symbols_have_rows()
    ensures { (b : List ℕ) (r : ℕ) → SymbolsAreInRows b r }
{}
