//! Texts as rows.

ghost use Rattle.std.specs.Prelude.{refl};

use crate::lower::LowerPlaces;
use crate::rows::Row;
use dexstr::{KeyedText, Text};
use std::cmp::Ordering;

/// A text is ordered by its units.
///
/// Source: the heading "string_id_item" of the Android page "Dalvik Executable format".
impl<'a> Row for Text<'a> {
    type Key = Text<'a>;

    type List = ();

    ghost numbers_of = { λ text. text };

    ghost key_of = { λ text. text };

    ghost numbers_in = { λ among text. Unit {0} };

    ghost mapped = { λ lower text. text };

    ghost can_move = { λ lower text list. Unit {0} };

    ghost keeps_order = { λ among lower rise x y in_x in_y. refl };

    fn key(&self) -> Text<'a> {
        self.clone()
    }

    fn compare(&self, other: &Self) -> Ordering {
        self.cmp(other)
    }

    fn copied(&self) -> Self {
        self.clone()
    }

    fn renumbered(&self, lower: LowerPlaces<'_>, _list: ()) -> Self {
        self.clone()
    }
}

/// A text with its key is ordered by its units too.
///
/// Source: the heading "string_id_item" of the Android page "Dalvik Executable format".
impl<'t, 'a> Row for KeyedText<'t, 'a> {
    type Key = Text<'a>;

    type List = ();

    ghost numbers_of = { λ text. text };

    ghost key_of = { λ text. text };

    ghost numbers_in = { λ among text. Unit {0} };

    ghost mapped = { λ lower text. text };

    ghost can_move = { λ lower text list. Unit {0} };

    ghost keeps_order = { λ among lower rise x y in_x in_y. refl };

    fn key(&self) -> Text<'a> {
        self.text()
    }

    fn compare(&self, other: &Self) -> Ordering {
        KeyedText::compare(self, other)
    }

    fn copied(&self) -> Self {
        self.clone()
    }

    fn renumbered(&self, lower: LowerPlaces<'_>, _list: ()) -> Self {
        self.clone()
    }
}
