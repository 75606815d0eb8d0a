ghost use Rattle.std.specs.Prelude.{◌≡◌, ◌+◌, ◌*◌, ◌≤◌, ⊤, length, IsOk, vec_len, vec_capacity};
ghost use Rattle.dexspec.specs.Texts.{IsStringData, string_data};
ghost use Rattle.dexspec.specs.internal.Writing.{Puts};

use crate::texts::Text;
use dexio::{Encode, Output, put_with_len};
use dexleb::len_u;
use std::alloc::AllocError;

/// A text is encoded as its string_data_item: the number of units in its shortest spelling, the units and a zero byte.
///
/// Source: the heading "string_data_item" of the Android page "Dalvik Executable format".
impl Encode for Text<'_> {
    ghost formed = { λ _. ⊤ };

    ghost bytes = { string_data };

    fn encode<O: Output>(&self, out: &mut O) {
        let spelled = self.bytes();
        out.uleb(self.len() as u32);
        out.bytes(spelled);
        out.byte(0);
    }
}

impl Text<'_> {
    /// How many bytes [`put_text`] appends for the text.
    pub fn item_len(&self) -> usize
        ensures len { result ≡ length (string_data self.now) }
        ensures bound { result ≤ 6 + 3 * length self.now }
        ensures encodes_text { IsStringData (string_data self.now) self.now }
    {
        len_u(self.len() as u32) + self.bytes().len() + 1
    }
}

/// Appends the text's string_data_item: the number of units in its shortest spelling, the units and a zero
/// byte, [`item_len`](Text::item_len) bytes, at most six bytes and three for each unit.
///
/// It fails only if allocation fails, and never if the spare room is at least six bytes and three for each unit. After
/// a failure the items are unchanged.
///
/// Source: the heading "string_data_item" of the Android page "Dalvik Executable format".
pub fn put_text(text: &Text, out: &mut Vec<u8>) -> Result<(), AllocError>
    ensures puts { Puts (string_data text.now) out.old out.new result }
    ensures encodes_text { IsStringData (string_data text.now) text.now }
    ensures bound { length (string_data text.now) ≤ 6 + 3 * length text.now }
    ensures room_for_all { vec_len out.old + (6 + 3 * length text.now) ≤ vec_capacity out.old
        → IsOk result }
{
    put_with_len(text, text.item_len(), out)
}
