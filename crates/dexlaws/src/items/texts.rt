//! Texts at an offset: the bytes there determine the text and the size of its item.
ghost use Rattle.std.specs.Prelude.{ℕ, ◌^◌, ◌<◌, length};
ghost use Rattle.dexspec.specs.Texts.{Text, AreUnits, IsStringData, StringDataAt, string_data};
ghost use Rattle.dexlaws.specs.Items.{IsDetermined};

/// There is at most one text at an offset, in one size.
pub fn string_data_is_determined()
    ensures { IsDetermined StringDataAt }
{}

/// The bytes that are written for a text of fewer than 2 ^ 32 units are an item of it.
pub fn shortest_string_data()
    ensures { (s : Text) → AreUnits s → length s < 2 ^ 32 → IsStringData (string_data s) s }
{}
