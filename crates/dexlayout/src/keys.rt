//! Keys of shared items: encoded items that are equal where their bytes are, and type lists that are equal where their
//! numbers are.

ghost use Rattle.dexspec.specs.Rows.{key_cmp};
ghost use Rattle.std.specs.Prelude.{◌≡◌, ◌∷◌, [], ◌^◌, ◌<◌, All, length};
ghost use Rattle.std.specs.Cmp.{partial_equiv_from_equiv};
ghost use Rattle.std.specs.Hash as fed;
ghost use Rattle.dexlayout.specs.ItemKeys.{same_bytes, same_bytes_equiv, same_bytes_agree};
ghost use Rattle.dexlayout.specs.internal.Encoding.{list_bytes};
ghost use Rattle.dexlayout.specs.ListKeys.{same_numbers, same_numbers_equiv, same_numbers_agree};

use dexhead::{Encode, Output};
use dexrows::TypeNumbers;
use std::hash::{Hash, Hasher};
use std::marker::Model;

/// The bytes of an item, which a hasher is given in one call.
#[derive(Drop)]
pub(crate) struct ItemKey {
    pub(crate) bytes: Vec<u8>,
}

impl Model for ItemKey {
    ghost use Rattle.std.specs.Prelude.{ℕ, List};

    ghost Value = { List ℕ };

    ghost view = { λ k. k.bytes.items };
}

impl PartialEq for ItemKey {
    ghost eq = { same_bytes };

    ghost laws = { partial_equiv_from_equiv same_bytes_equiv };

    fn eq(&self, other: &ItemKey) -> bool {
        self.bytes == other.bytes
    }
}

impl Eq for ItemKey {
    ghost laws = { same_bytes_equiv };
}

impl Hash for ItemKey {
    ghost hash_input = { λ bytes. bytes ∷ [] };

    ghost respects_eq = { same_bytes_agree };

    fn hash<H: Hasher>(&self, state: &mut H) {
        state.write(&self.bytes);
    }
}

/// A type list by the numbers of its types, which is equal to another where these are.
#[derive(Drop)]
pub(crate) struct ListKey<'p> {
    pub(crate) list: TypeNumbers<'p>,
}

impl<'p> Model for ListKey<'p> {
    ghost use Rattle.std.specs.Prelude.{ℕ, List};

    ghost Value = { List ℕ };

    ghost view = { λ k. k.list };
}

impl PartialEq for ListKey<'_> {
    ghost eq = { same_numbers };

    ghost laws = { partial_equiv_from_equiv same_numbers_equiv };

    fn eq(&self, other: &ListKey<'_>) -> bool {
        self.list.compare(&other.list).is_eq()
    }
}

impl Eq for ListKey<'_> {
    ghost laws = { same_numbers_equiv };
}

impl Hash for ListKey<'_> {
    ghost hash_input = { fed.slice fed.usize };

    ghost respects_eq = { same_numbers_agree };

    fn hash<H: Hasher>(&self, state: &mut H) {
        let count = self.list.len();
        count.hash(state);
        for i in 0..count {
            self.list.at(i).hash(state);
        }
    }
}

/// Encoded as a type_list.
impl Encode for ListKey<'_> {
    ghost formed = { λ k. (length k < 2 ^ 31) × All (λ i. i < 65536) k };

    ghost bytes = { list_bytes };

    fn encode<O: Output>(&self, out: &mut O) {
        let count = self.list.len();
        out.u32(count as u32);
        for i in 0..count {
            out.u16(self.list.at(i) as u16);
        }
    }
}
