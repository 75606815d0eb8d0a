//! The code of methods: its offsets, and its bytes where these are few.

ghost use Rattle.std.specs.Prelude.{◌≡◌, ◌+◌, ◌^◌, ◌≤◌, ◌++◌, All, IfOk, IfSome, MatchOption, None, OnOk, Some, length};
ghost use Rattle.dexspec.specs.Bytes.{padding};
ghost use Rattle.dexcode.specs.CodePut.{HasShortTypes, numbered_code_bytes};
ghost use Rattle.dexcode.specs.Numbered.{handlers_of};
ghost use Rattle.dexlayout.specs.internal.Codes.{HasShortCode, code_item};
ghost use Rattle.dexlayout.specs.internal.Encoding.{encode_use, no_items_from};
ghost use Rattle.dexlayout.specs.internal.Kept.{AreKept, IsKeptOrNot, KeepsUse};
ghost use Rattle.dexlayout.specs.internal.Placing.{CanPlaceCodes, PlacedCodes, GivesCodes};

use crate::input::{Input, method_at};
use crate::offsets::{Offsets, padding, round_up};
use dexclass::Class;
use dexcode::{CodeItem, code_bytes_law, code_types_law};
use dexhead::{Encode, Output};
use dexmembers::Method;
use std::alloc::{AllocError, Global};
use std::marker::Model;

// The most bytes of code that a layout keeps, with the zeros that align it: more than most files have. Methods may
// share the bytes of their code in the file that was read, and each has code of its own in the canonical one: of 60,000
// methods that share 12 KB it would be 720 MB. More code than this is measured by the layout, and encoded where it is
// written.
const MOST_KEPT: usize = 0x80_0000;

/// The code of methods: its offsets, and its bytes, with the zeros that align it, unless these are too many to be kept.
#[derive(Drop)]
pub struct Codes {
    pub(crate) bytes: Option<Vec<u8>>,
    pub(crate) places: Offsets,
}

impl Model for Codes {
    ghost use Rattle.std.specs.Prelude.{◌≤◌, ◌^◌, IfSome, length};
    ghost use Rattle.std.specs.Option.{option_map};
    ghost use Rattle.dexlayout.specs.Places.{KeptItems};

    ghost Value = { KeptItems };

    ghost view = { λ c. record { bytes = option_map (λ b. b.items) c.bytes; places = c.places } };

    ghost invariant = { λ c. IfSome c.bytes (λ b. length b.items ≤ 2 ^ 23) };
}

impl Codes {
    /// The code of all methods, one item after the other, with zeros before those that are aligned; or `None` where it
    /// is not kept. At most 2^23 bytes are.
    pub fn bytes(&self) -> Option<&[u8]>
        ensures kept { MatchOption result (self.now.bytes ≡ None) (λ bytes.
            self.now.bytes ≡ Some bytes.now) }
        ensures few { IfSome result (λ bytes. length bytes.now ≤ 2 ^ 23) }
    {
        self.bytes.as_deref()
    }

    /// The offsets of the code: one for each method, or 0 where it has none.
    pub fn places(&self) -> &Offsets
        ensures { result.now ≡ self.now.places }
    {
        &self.places
    }

    // No code yet, and memory for the offsets of `uses` methods; the first code will be at `from` or after it.
    fn starting_at(alloc: Global, from: u32, uses: usize) -> Result<Codes, AllocError>
        ensures { IfOk result (AreKept (no_items_from from)) }
    {
        Ok(Codes {
            bytes: Some(Vec::new(alloc)),
            places: Offsets::starting_at(alloc, from, uses)?,
        })
    }

    // Adds a method that has no code.
    fn pass(&mut self) -> Result<(), AllocError>
        ensures { KeepsUse result self.old self.new None }
    {
        self.places.pass()
    }

    // Drops the bytes if with `more` of them they would be too many.
    fn limit(&mut self, more: usize)
        ensures places { self.new.places ≡ self.old.places }
        ensures bytes { IsKeptOrNot self.old.bytes self.new.bytes }
        ensures few { IfSome self.new.bytes (λ bytes. length bytes + more ≤ 2 ^ 23) }
    {
        if let Some(bytes) = &self.bytes {
            if MOST_KEPT - bytes.len() < more {
                self.bytes = None;
            }
        }
    }

    // Adds the code of a method, aligned to 4 bytes: encoded, or only measured where the bytes are not kept.
    fn put(&mut self, item: &CodeItem<'_, '_>) -> Result<(), AllocError>
        requires short { All HasShortTypes (handlers_of item.now.code.tries) }
        requires fits { (encode_use 4 (no_items_from self.old.places.end)
            (Some (numbered_code_bytes item.now.debug_off item.now.code))).places.end ≤ 2 ^ 30 }
        ensures { KeepsUse result self.old self.new
            (Some (numbered_code_bytes item.now.debug_off item.now.code)) }
    {
        code_bytes_law();
        let most = item.code.weight() as usize;
        let at = self.places.end();
        self.limit(most.saturating_add(padding(at).len()));
        self.places.align();
        let len = match &mut self.bytes {
            Some(bytes) => append(item, most, at, bytes)?,
            None => item.code.item_len(),
        };
        self.places.put_next(len)
    }
}

// Appends a code item of at most `most` bytes after the zeros that align it at an offset. Returns its length.
fn append(
    item: &CodeItem<'_, '_>,
    most: usize,
    at: u32,
    bytes: &mut Vec<u8>,
) -> Result<usize, AllocError>
    requires short { All HasShortTypes (handlers_of item.now.code.tries) }
    requires most { length (numbered_code_bytes item.now.debug_off item.now.code) ≤ most }
    ensures len { IfOk result (λ len.
        len ≡ length (numbered_code_bytes item.now.debug_off item.now.code)) }
    ensures bytes { OnOk result (bytes.new.items ≡ bytes.old.items ++ (padding 4 at
        ++ numbered_code_bytes item.now.debug_off item.now.code)) }
    ensures few { length bytes.new.items ≤ length bytes.old.items + (most + length (padding 4 at)) }
{
    bytes.extend_from_slice(padding(at))?;
    let before = bytes.len();
    bytes.reserve(most)?;
    item.encode(bytes);
    Ok(bytes.len() - before)
}

/// The code of each method of each class, the direct ones first, and its offsets. It is after the debug programs, whose
/// offsets it contains.
///
/// Source: "code_item".
pub(crate) fn place_codes(input: &Input<'_, '_>, debugs: &Offsets) -> Result<Codes, AllocError>
    requires { CanPlaceCodes input.now.classes.now debugs.now }
    ensures { IfOk result (PlacedCodes input.now.classes.now debugs.now) }
{
    code_bytes_law();
    code_types_law();
    let mut rest = debugs.offsets();
    let mut codes = Codes::starting_at(input.alloc, debugs.end(), rest.len())?;
    for class in input.classes {
        let members = class.members();
        members.are_few();
        let count = members.method_count();
        for i in 0..count {
            put_method(&method_at(members, i), rest[i], &mut codes)?;
        }
        rest = rest.split_at(count).1;
    }
    Ok(codes)
}

// Adds a method, with its code if it has some.
fn put_method(method: &Method<'_, '_>, debug_off: u32, codes: &mut Codes) -> Result<(), AllocError>
    requires short { HasShortCode method.now }
    requires fits { (encode_use 4 (no_items_from codes.old.places.end)
        (code_item method.now debug_off)).places.end ≤ 2 ^ 30 }
    ensures { KeepsUse result codes.old codes.new (code_item method.now debug_off) }
{
    match method.code() {
        Some(code) => codes.put(&CodeItem { code, debug_off }),
        None => codes.pass(),
    }
}

/// Writes the code of each method of each class, the direct ones first, with the zeros that align it, after debug
/// programs at these offsets.
///
/// Source: "code_item".
pub(crate) fn encode_codes<O: Output>(classes: &[Class<'_>], debugs: &Offsets, out: &mut O)
    requires { CanPlaceCodes classes.now debugs.now }
    ensures { GivesCodes O.gives classes.now debugs.now out.old out.new }
{
    code_bytes_law();
    code_types_law();
    let mut rest = debugs.offsets();
    let mut at = debugs.end();
    for class in classes {
        let members = class.members();
        members.are_few();
        let count = members.method_count();
        for i in 0..count {
            at = encode_method(&method_at(members, i), rest[i], at, out);
        }
        rest = rest.split_at(count).1;
    }
}

// Writes the code of a method, if it has some, after the zeros that align it at an offset. Returns where it ends.
fn encode_method<O: Output>(method: &Method<'_, '_>, debug_off: u32, at: u32, out: &mut O) -> u32
    requires short { HasShortCode method.now }
    requires fits { (encode_use 4 (no_items_from at) (code_item method.now debug_off)).places.end
        ≤ 2 ^ 30 }
    ensures end { result
        ≡ (encode_use 4 (no_items_from at) (code_item method.now debug_off)).places.end }
    ensures given { O.gives (encode_use 4 (no_items_from at) (code_item method.now debug_off)).bytes
        out.old out.new }
{
    let Some(code) = method.code() else {
        return at;
    };
    out.bytes(padding(at));
    let item = CodeItem { code, debug_off };
    item.encode(out);
    round_up(at) + item.code.item_len() as u32
}
