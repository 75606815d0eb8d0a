//! The lengths and the weights of code items.

ghost use Rattle.std.specs.Prelude.{◌≡◌, ◌+◌, ◌*◌, ◌^◌, ◌<◌, ℕ, length};
ghost use Rattle.dexcode.specs.CodePut.{handler_count, numbered_code_bytes, unit_count, IsCodeLen, numbered_code_weight, numbered_tries_weight};
ghost use Rattle.dexcode.specs.Meaning.{ForDenoted};
ghost use Rattle.dexspec.specs.Weight.{code_weight};

use crate::borrowed_code::BorrowedCode;
use crate::code::Code;
use crate::code_laws::{code_bytes_law, code_weight_law};
use crate::code_put::encode_list;
use crate::handlers::{Handler, handlers_weight};
use crate::tries::Tries;
use dexhead::Count;
use dexinsn::Pieces;

// The number of catches, 0 or less where there is an address for all else.
pub(crate) fn handler_count(handler: &Handler) -> i32
    requires { length handler.now.catches < 2 ^ 16 }
    ensures { result ≡ handler_count handler.now }
{
    let count = handler.catches().len() as i32;
    match handler.catch_all_addr() {
        Some(_) => -count,
        None => count,
    }
}

// Returns the number of units of the pieces.
pub(crate) fn unit_count(pieces: &Pieces<'_>) -> u32
    ensures { result ≡ unit_count pieces.now }
{
    pieces.units()
}

impl BorrowedCode<'_, '_> {
    /// The number of bytes of the [`CodeItem`](crate::CodeItem), wherever the debug program is.
    ///
    /// Source: "code_item".
    pub fn item_len(&self) -> usize
        ensures numbered { (debug_off : ℕ)
            → result ≡ length (numbered_code_bytes debug_off self.now) }
        ensures symbolic { IsCodeLen self.now result }
    {
        code_bytes_law();
        let units = unit_count(self.pieces);
        let front = 16 + 2 * units as usize;
        let (items, handlers) = self.tries.parts();
        if items.is_empty() {
            return front;
        }
        let mut list = Count { len: 0 };
        encode_list(handlers, &mut list);
        // The units are padded with 2 bytes if their number is odd.
        front + 2 * (units % 2) as usize + 8 * items.len() + list.len
    }
}

// Returns the weight of the tries.
pub(crate) fn tries_weight(tries: &Tries<'_>) -> u64
    ensures weight { result ≡ numbered_tries_weight tries.now }
    ensures few { result < 0x10_0000 }
{
    let (items, handlers) = tries.parts();
    if items.is_empty() {
        return 0;
    }
    8 * items.len() as u64 + handlers_weight(handlers).unwrap()
}

impl BorrowedCode<'_, '_> {
    /// As [`Code::weight`].
    pub fn weight(&self) -> u64
        ensures numbered { result ≡ numbered_code_weight self.now }
        ensures symbolic { ForDenoted self.now (λ m x. result ≡ code_weight x) }
    {
        code_weight_law();
        24 + 2 * u64::from(unit_count(self.pieces)) + tries_weight(&self.tries)
    }
}

impl<'a> Code<'a> {
    /// The number of bytes that [`put_code`](crate::put_code) appends, wherever the debug program is.
    ///
    /// Source: "code_item".
    pub fn item_len(&self) -> usize
        ensures numbered { (debug_off : ℕ)
            → result ≡ length (numbered_code_bytes debug_off self.now) }
        ensures symbolic { IsCodeLen self.now result }
    {
        self.as_borrowed().item_len()
    }

    /// Returns the weight without the debug program: at least 3 more than the bytes that [`put_code`](crate::put_code)
    /// appends. It is 24, 2 for each unit and, where there are tries, 8 for each of them, 5, and 10 for each handler
    /// that they name and 8 for each of its catches.
    pub fn weight(&self) -> u64
        ensures numbered { result ≡ numbered_code_weight self.now }
        ensures symbolic { ForDenoted self.now (λ m x. result ≡ code_weight x) }
    {
        self.as_borrowed().weight()
    }
}
