//! Code items written.

ghost use Rattle.std.specs.Prelude.{◌↔◌, ◌^◌, ◌<◌, ◌≤◌, IsTrue, All, ⊤, length, option_to_list};
ghost use Rattle.std.specs.List.{flat_map};
ghost use Rattle.dexspec.specs.Code.{most_handlers};
ghost use Rattle.dexspec.specs.Numbers.{uleb128};
ghost use Rattle.dexspec.specs.internal.Writing.{Puts};
ghost use Rattle.dexcode.specs.CodePut.{HasShortTypes, AreShort, ArePlaces, gap_bytes, handler_count, numbered_catch_bytes, numbered_handler_bytes, numbered_head_bytes, numbered_item_bytes, numbered_code_bytes, numbered_list_bytes, numbered_tries_bytes, placed_try_bytes, unit_count, DenotedWeighsMore, IsOkWithRoomForDenoted, PutsDenotedCode};
ghost use Rattle.dexcode.specs.Numbered.{handlers_of, handlers_weight};

use crate::borrowed_code::BorrowedCode;
use crate::code::Code;
use crate::code_laws::{code_bytes_law, code_weight_law};
use crate::code_len::{handler_count, unit_count};
use crate::handlers::{Catch, Handler};
use crate::tries::{Tries, Try};
use dexhead::{Encode, Output, encode_all, encoded_len, put_with_len};
use dexinsn::Pieces;
use dexleb::len_u;
use dexpool::Numbering;
use std::alloc::AllocError;

// Most code has no more handlers than these.
const FEW_PLACES: usize = 16;

// More handlers than these weigh more than they may.
const MOST_PLACES: usize = 6_553;

// Sets the offset of each handler in bytes from the start of their list.
fn place_handlers(handlers: &[Handler], places: &mut [u16])
    requires short { AreShort handlers.now }
    requires enough { length handlers.now ≤ length places.old }
    ensures { ArePlaces handlers.now places.new }
{
    let mut place = len_u(handlers.len() as u32);
    for (i, handler) in handlers.iter().enumerate() {
        places[i] = place as u16;
        place += encoded_len(handler);
    }
}

impl Encode for Catch {
    ghost formed = { λ c. ⊤ };

    ghost bytes = { numbered_catch_bytes };

    fn encode<O: Output>(&self, out: &mut O) {
        out.uleb(self.typ);
        out.uleb(self.addr);
    }
}

// Writes the catch-all address, if there is one.
fn encode_catch_all<O: Output>(catch_all_addr: Option<u32>, out: &mut O)
    ensures { O.gives (flat_map uleb128 (option_to_list catch_all_addr)) out.old out.new }
{
    if let Some(addr) = catch_all_addr {
        out.uleb(addr);
    }
}

impl Encode for Handler {
    ghost formed = { λ h. length h.catches < 2 ^ 16 };

    ghost bytes = { numbered_handler_bytes };

    fn encode<O: Output>(&self, out: &mut O) {
        out.sleb(handler_count(self));
        encode_all(self.catches(), out);
        encode_catch_all(self.catch_all_addr(), out);
    }
}

// Writes the list of handlers.
pub(crate) fn encode_list<O: Output>(handlers: &[Handler], out: &mut O)
    requires { handlers_weight handlers.now ≤ most_handlers }
    ensures { O.gives (numbered_list_bytes handlers.now) out.old out.new }
{
    out.uleb(handlers.len() as u32);
    encode_all(handlers, out);
}

// Writes a try whose handler begins at one of the places.
fn encode_try<O: Output>(item: &Try, places: &[u16], out: &mut O)
    requires { item.now.handler < length places.now }
    ensures { O.gives (placed_try_bytes places.now item.now) out.old out.new }
{
    out.u32(item.start_addr);
    out.u16(item.insn_count);
    out.u16(places[item.handler]);
}

// Writes tries whose handlers begin at the places.
fn encode_items<O: Output>(tries: &[Try], places: &[u16], out: &mut O)
    requires { All (λ t. t.handler < length places.now) tries.now }
    ensures { O.gives (flat_map (placed_try_bytes places.now) tries.now) out.old out.new }
{
    for item in tries {
        encode_try(item, places, out);
    }
}

// Writes a zero where the number of units is odd.
fn encode_gap<O: Output>(units: u32, out: &mut O)
    ensures { O.gives (gap_bytes units) out.old out.new }
{
    if units % 2 == 1 {
        out.u16(0);
    }
}

// Writes the padding after `units` units, the tries and the handlers, which begin at the places.
fn encode_tries<O: Output>(units: u32, tries: &Tries<'_>, places: &[u16], out: &mut O)
    requires { ArePlaces (handlers_of tries.now) places.now }
    ensures { O.gives (numbered_tries_bytes units tries.now) out.old out.new }
{
    let (items, handlers) = tries.parts();
    if items.is_empty() {
        return;
    }
    encode_gap(units, out);
    encode_items(items, places, out);
    encode_list(handlers, out);
}

// Writes the numbers before the units.
fn encode_head<O: Output>(pieces: &Pieces<'_>, tries: u16, debug_off: u32, out: &mut O)
    ensures { O.gives
        (numbered_head_bytes debug_off tries pieces.now (unit_count pieces.now)) out.old out.new }
{
    out.u16(pieces.registers());
    out.u16(pieces.ins());
    out.u16(pieces.outs());
    out.u16(tries);
    out.u32(debug_off);
    out.u32(unit_count(pieces));
}

// Writes a code item. The offsets of its handlers are set in `places`, which has one for each.
fn encode_placed<O: Output>(
    pieces: &Pieces<'_>,
    tries: &Tries<'_>,
    places: &mut [u16],
    debug_off: u32,
    out: &mut O,
)
    requires short { All HasShortTypes (handlers_of tries.now) }
    requires enough { length (handlers_of tries.now) ≤ length places.old }
    ensures { O.gives (numbered_item_bytes debug_off pieces.now tries.now) out.old out.new }
{
    let (items, handlers) = tries.parts();
    place_handlers(handlers, places);
    encode_head(pieces, items.len() as u16, debug_off, out);
    pieces.encode(out);
    encode_tries(unit_count(pieces), tries, places, out);
}

// Writes a code item.
fn encode_item<O: Output>(pieces: &Pieces<'_>, tries: &Tries<'_>, debug_off: u32, out: &mut O)
    requires { All HasShortTypes (handlers_of tries.now) }
    ensures { O.gives (numbered_item_bytes debug_off pieces.now tries.now) out.old out.new }
{
    let (_, handlers) = tries.parts();
    if handlers.len() <= FEW_PLACES {
        return encode_placed(pieces, tries, &mut [0; FEW_PLACES], debug_off, out);
    }
    encode_placed(pieces, tries, &mut [0; MOST_PLACES], debug_off, out);
}

// Returns whether the number of each type that a handler catches has 16 bits.
fn has_short_types(handler: &Handler) -> bool
    ensures { IsTrue result ↔ HasShortTypes handler.now }
{
    handler.catches().iter().all(|catch| catch.typ < 0x1_0000)
}

impl<'a> Code<'a> {
    /// Returns whether the number of each type that a handler catches is below 2^16, as [`put_code`](crate::put_code)
    /// asks.
    ///
    /// Source: "encoded_type_addr_pair", the field `type_idx`.
    pub fn types_fit(&self) -> bool
        ensures { IsTrue result ↔ All HasShortTypes (handlers_of self.now.tries) }
    {
        self.tries()
            .handlers()
            .iter()
            .all(|handler| has_short_types(handler))
    }
}

/// Code with the offset of its debug program, to be encoded as a code_item: registers, units with the numbers of their
/// symbols, tries, and the list of the handlers that they name, each once and in order of first use. Every number is in
/// its shortest encoding. [`code_bytes_law`] says of which code it is the code_item.
///
/// Condition of the encoding: the number of each type that a handler catches is below 2^16, as every number of a
/// numbering of 65,536 types or fewer is.
///
/// Source: "code_item".
#[derive(Drop)]
pub struct CodeItem<'i, 'a> {
    /// The code.
    pub code: BorrowedCode<'i, 'a>,
    /// The offset of its debug program in bytes, or 0 for none.
    pub debug_off: u32,
}

impl Encode for CodeItem<'_, '_> {
    ghost formed = { λ i. All HasShortTypes (handlers_of i.code.tries) };

    ghost bytes = { λ i. numbered_code_bytes i.debug_off i.code };

    fn encode<O: Output>(&self, out: &mut O) {
        encode_item(self.code.pieces(), &self.code.tries(), self.debug_off, out);
    }
}

/// Appends the code_item, whose debug program is at an offset in bytes, or is none at 0: registers, units with the
/// numbers of their symbols, tries, and the list of the handlers that they name, each once and in order of first use.
/// Every number is in its shortest encoding. It is the code_item of the symbolic code that `code` denotes in the
/// numbering, each index the rank of its symbol.
///
/// Condition: the number of each type that a handler catches is below 2^16, as every number of a numbering of 65,536
/// types or fewer is.
///
/// Error: the allocation failed; the vector is then as it was. It does not fail where the spare room is at least the
/// length of the code_item ([`Code::item_len`]), or the weight of the code ([`Code::weight`]) less the 3 bytes of an
/// alignment.
///
/// Source: "code_item".
pub fn put_code(
    code: &Code<'_>,
    debug_off: u32,
    numbering: &Numbering<'_>,
    out: &mut Vec<u8>,
) -> Result<(), AllocError>
    requires { All HasShortTypes (handlers_of code.now.tries) }
    ensures bytes { Puts (numbered_code_bytes debug_off code.now) out.old out.new result }
    ensures symbolic { PutsDenotedCode numbering.now debug_off code.now out.old out.new result }
    ensures bound { DenotedWeighsMore numbering.now debug_off code.now }
    ensures room { IsOkWithRoomForDenoted numbering.now code.now out.old result }
{
    numbering.is_numbering();
    code_bytes_law();
    code_weight_law();
    let len = code.item_len();
    let code = code.as_borrowed();
    put_with_len(&CodeItem { code, debug_off }, len, out)
}
