ghost use Rattle.std.specs.Prelude.{◌≡◌};
ghost use Rattle.dexspec.specs.Texts.{text_cmp};
ghost use Rattle.dexstr.specs.internal.Keys.{IsKeyOf};

use crate::texts::Text;
use std::cmp::Ordering;
use std::marker::Model;

/// A text with a key of its first eight bytes. Texts whose keys differ come in the order of these, so that most texts
/// compare without a look at their bytes.
#[derive(Drop)]
pub struct KeyedText<'t, 'a> {
    text: &'t Text<'a>,
    key: u64,
}

impl<'t, 'a> Model for KeyedText<'t, 'a> {
    ghost use Rattle.std.specs.Prelude.{ℕ, List};
    ghost use Rattle.dexstr.specs.internal.Keys.{IsKeyed};

    ghost Value = { List ℕ };

    ghost view = { λ keyed. keyed.text.now };

    ghost invariant = { λ keyed. IsKeyed keyed.key keyed.text.now };
}

impl<'t, 'a> KeyedText<'t, 'a> {
    /// The text with its key.
    pub fn of(text: &'t Text<'a>) -> KeyedText<'t, 'a>
        ensures { result ≡ text.now }
    {
        KeyedText {
            text,
            key: prefix_key(text.bytes()),
        }
    }

    /// The text without its key.
    pub fn text(&self) -> Text<'a>
        ensures { result ≡ self.now }
    {
        self.text.clone()
    }

    /// The same text with its key.
    pub fn clone(&self) -> KeyedText<'t, 'a>
        ensures { result ≡ self.now }
    {
        KeyedText {
            text: self.text,
            key: self.key,
        }
    }

    /// How the two texts compare.
    #[inline]
    pub fn compare(&self, other: &KeyedText<'_, '_>) -> Ordering
        ensures { result ≡ text_cmp self.now other.now }
    {
        if self.key == other.key {
            self.text.cmp(other.text)
        } else {
            self.key.cmp(&other.key)
        }
    }
}

/// The first eight bytes as a number, the first byte the most significant. Bytes after the end count as 0, and so do
/// those from 0xc0 on, which begins unit 0 alone: it comes first.
fn prefix_key(bytes: &[u8]) -> u64
    ensures { IsKeyOf result bytes.now }
{
    let first = &bytes[..bytes.len().min(8)];
    let mut key = 0;
    for i in (0..first.len()).rev() {
        key = if first[i] == 0xc0 {
            0
        } else {
            (u64::from(first[i]) << 56) + (key >> 8)
        };
    }
    key
}
