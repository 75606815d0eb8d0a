ghost use Rattle.std.specs.Prelude.{◌≡◌, IfOk};

use crate::texts::Text;
use std::alloc::{AllocError, Global};
use std::marker::Model;

/// A text that owns its bytes.
///
/// Source: the heading "MUTF-8 (Modified UTF-8) encoding" of the Android page "Dalvik Executable format".
#[derive(Drop)]
pub struct Name {
    bytes: Vec<u8>,
    count: u32,
}

impl Model for Name {
    ghost use Rattle.std.specs.Prelude.{ℕ, List};
    ghost use Rattle.dexstr.specs.Units.{units_of, SpellsUnits};

    ghost Value = { List ℕ };

    ghost view = { λ name. units_of name.bytes.items };

    ghost invariant = { λ name. SpellsUnits name.bytes.items name.count };
}

impl Name {
    /// A copy of the text.
    pub fn of(alloc: Global, text: &Text) -> Result<Name, AllocError>
        ensures { IfOk result (λ name. name ≡ text.now) }
    {
        Ok(Name {
            bytes: Vec::from_slice(alloc, text.bytes())?,
            count: text.len() as u32,
        })
    }

    /// A copy of the name.
    pub fn copy(&self) -> Result<Self, AllocError>
        ensures { IfOk result (λ name. name ≡ self.now) }
    {
        Ok(Name {
            bytes: self.bytes.clone()?,
            count: self.count,
        })
    }

    /// The name as a text, which borrows it.
    pub fn text(&self) -> Text<'_>
        ensures { result ≡ self.now }
    {
        Text::of_spelling(self.bytes.as_slice(), self.count)
    }
}
