//! The bodies of methods: debug programs, code that names them, and class data, which name the code.

ghost use Rattle.std.specs.Prelude.{IfOk, MatchOption, None, OnOk, Some, [], length, ◌+◌, ◌^◌, ◌∷◌, ◌≡◌, ◌≤◌};
ghost use Rattle.dexspec.specs.Placing.{end};
ghost use Rattle.dexspec.specs.Canonical.{string_section};
ghost use Rattle.dexspec.specs.Mentions.{Mentions};
ghost use Rattle.dexmembers.specs.Numbered.{methods_of};
ghost use Rattle.dexmembers.specs.SharedDebugs.{debug_of, AreSameBefore};
ghost use Rattle.dexlayout.specs.Laid.{AreDebugs, AreWritable, ordered_of};
ghost use Rattle.dexlayout.specs.ItemKeys.{same_bytes};
ghost use Rattle.dexlayout.specs.internal.Adding.{AreOfUses};
ghost use Rattle.dexlayout.specs.internal.Encoding.{class_data_item, encode_use, has_no_members};
ghost use Rattle.dexlayout.specs.internal.Encodings.{AddsEncodings, all_debug_encodings, debug_encoding, debug_encodings};
ghost use Rattle.dexlayout.specs.internal.Placing.{CanPlaceClassData, PlacedClassData, PlacedFrom, encoded_debugs};
ghost use Rattle.dexlayout.specs.internal.Parts.{AreBodies};

use crate::codes::{Codes, place_codes};
use crate::input::{Input, method_at};
use crate::items::{Items, SharedItems};
use crate::keys::ItemKey;
use crate::offsets::Offsets;
use crate::sharing::{Shared, Sharing};
use dexclass::Class;
use dexcode::{Debug, put_debug};
use dexmembers::{Members, Method, Methods};
use dexpool::Numbering;
use std::alloc::{AllocError, Global};

/// The offsets of code items, of their debug programs and of class data.
#[derive(Drop)]
pub(crate) struct Bodies {
    pub(crate) debugs: SharedItems,
    pub(crate) codes: Codes,
    pub(crate) class_data: Items,
}

// Most debug programs have fewer bytes than this.
const FIRST_ROOM: usize = 4096;

// The debug programs that methods share, by their encodings, and room in which the next one is encoded.
#[derive(Drop)]
struct Encodings<'p, 'a> {
    numbering: &'p Numbering<'a>,
    sharing: Sharing<ItemKey>,
    room: Vec<u8>,
}

// The debug program of a method, if it has one.
fn debug_of<'p, 'a>(method: &Method<'p, 'a>) -> Option<&'p Debug<'a>>
    ensures { MatchOption result (debug_of method.now ≡ None) (λ debug.
        debug_of method.now ≡ Some debug.now) }
{
    method.code()?.debug()
}

impl Encodings<'_, '_> {
    // Adds the debug program of a method, if it has one. Programs are equal just where their encodings are, so only one
    // of them is held.
    fn add_method(&mut self, method: &Method<'_, '_>) -> Result<(), AllocError>
        ensures added { AddsEncodings result self.old self.new
            (debug_encoding method.now ∷ []) }
        ensures more { OnOk result (length self.new.sharing.numbers.items
            ≡ length self.old.sharing.numbers.items + 1) }
    {
        let Some(debug) = debug_of(method) else {
            return self.sharing.add(None);
        };
        self.room.clear();
        // With room for its weight it is not measured before it is encoded.
        self.room.reserve(debug.weight() as usize)?;
        put_debug(debug, self.numbering, &mut self.room)?;
        let bytes = Vec::from_slice(*self.room.allocator(), &self.room)?;
        self.sharing.add(Some(ItemKey { bytes }))
    }

    // Adds the debug programs of methods.
    fn add_methods(&mut self, methods: &Methods<'_, '_>) -> Result<(), AllocError>
        ensures { AddsEncodings result self.old self.new (debug_encodings methods.now) }
    {
        match methods.shared_debugs(*self.room.allocator())? {
            Some(places) => self.add_shared(methods, &places),
            None => self.add_each(methods),
        }
    }

    // Adds the debug programs of methods, none of which is known to be that of another.
    fn add_each(&mut self, methods: &Methods<'_, '_>) -> Result<(), AllocError>
        ensures { AddsEncodings result self.old self.new (debug_encodings methods.now) }
    {
        for i in 0..methods.len() {
            self.add_method(&methods.get(i))?;
        }
        Ok(())
    }

    // Adds the debug programs of methods, each of which is that of the method at a place, its own or one before it. Each
    // is encoded where the place is its own.
    fn add_shared(&mut self, methods: &Methods<'_, '_>, places: &[usize]) -> Result<(), AllocError>
        requires { AreSameBefore debug_of methods.now places.now }
        ensures { AddsEncodings result self.old self.new (debug_encodings methods.now) }
    {
        let before = self.sharing.len();
        for (i, place) in places.iter().enumerate() {
            if *place < i {
                self.sharing.add_again(before + *place)?;
            } else {
                self.add_method(&methods.get(i))?;
            }
        }
        Ok(())
    }

    // Adds the debug programs of the methods of a class.
    fn add_members(&mut self, members: &Members<'_>) -> Result<(), AllocError>
        ensures { AddsEncodings result self.old self.new
            (debug_encodings (methods_of members.now)) }
    {
        self.add_methods(&members.direct_methods())?;
        self.add_methods(&members.virtual_methods())
    }
}

// The encodings that methods share.
fn share_encodings(input: &Input<'_, '_>) -> Result<Shared<ItemKey>, AllocError>
    ensures { IfOk result (AreOfUses same_bytes (all_debug_encodings input.now.classes.now)) }
{
    let mut encodings = Encodings {
        numbering: input.numbering,
        sharing: Sharing::for_uses(input.alloc, input.classes.len())?,
        room: Vec::with_capacity(input.alloc, FIRST_ROOM)?,
    };
    let classes = input.classes;
    for i in 0..classes.len() {
        encodings.add_members(classes[i].members())?;
    }
    encodings.sharing.finish(input.alloc)
}

// The encodings that are written, from an offset on.
fn put_written(alloc: Global, written: &[ItemKey], from: u32) -> Result<Items, AllocError>
    requires { (encoded_debugs from written.now).places.end ≤ 2 ^ 30 }
    ensures { IfOk result (λ items. items ≡ encoded_debugs from written.now) }
{
    let mut items = Items::starting_at(alloc, from, written.len())?;
    for key in written {
        let before = items.bytes.len();
        items.bytes.extend_from_slice(&key.bytes)?;
        items.end_item(before)?;
    }
    Ok(items)
}

/// The debug programs, encoded, and their offsets: for each method of each class, the direct ones first. They are after
/// the texts.
///
/// Source: "debug_info_item".
fn place_debugs(input: &Input<'_, '_>, from: u32) -> Result<SharedItems, AllocError>
    requires { (m : Mentions) × AreWritable m input.now.classes.now
        × (from ≡ end (string_section (ordered_of m input.now.classes.now))) }
    ensures { IfOk result (PlacedFrom string_section AreDebugs input.now.classes.now from) }
{
    let Shared { written, numbers } = share_encodings(input)?;
    let items = put_written(input.alloc, &written, from)?;
    SharedItems::of(input.alloc, items, &numbers)
}

/// The class data of the classes, encoded, and their offsets: one for each class. They are after the code, whose
/// offsets they contain.
///
/// Source: "class_data_item".
fn place_class_data(input: &Input<'_, '_>, codes: &Offsets) -> Result<Items, AllocError>
    requires { CanPlaceClassData input.now.classes.now codes.now }
    ensures { IfOk result (PlacedClassData input.now.classes.now codes.now) }
{
    let mut rest = codes.offsets();
    let mut items = Items::starting_at(input.alloc, codes.end(), input.classes.len())?;
    for class in input.classes {
        let (offs, others) = rest.split_at(class.members().method_count());
        put_item(class, offs, &mut items)?;
        rest = others;
    }
    Ok(items)
}

// Encodes the data of one class after the others.
fn put_item(class: &Class<'_>, code_offs: &[u32], items: &mut Items) -> Result<(), AllocError>
    requires offsets { length code_offs.now ≡ length (methods_of class.now.members) }
    requires fits { (encode_use 1 items.old (class_data_item class.now code_offs.now)).places.end
        ≤ 2 ^ 30 }
    ensures { OnOk result (items.new
        ≡ encode_use 1 items.old (class_data_item class.now code_offs.now)) }
{
    let members = class.members();
    if has_no_members(members) {
        return items.pass();
    }
    let before = items.bytes.len();
    members.put_class_data(code_offs, &mut items.bytes)?;
    items.end_item(before)
}

// Returns whether a class declares neither fields nor methods.
fn has_no_members(members: &Members<'_>) -> bool
    ensures { result ≡ has_no_members members.now }
{
    members.field_count() == 0 && members.method_count() == 0
}

/// Lays out the sections from the debug programs to the class data, after the string data.
pub(crate) fn place_bodies(input: &Input<'_, '_>, from: u32) -> Result<Bodies, AllocError>
    requires { (m : Mentions) × AreWritable m input.now.classes.now
        × (from ≡ end (string_section (ordered_of m input.now.classes.now))) }
    ensures { IfOk result (PlacedFrom string_section AreBodies input.now.classes.now from) }
{
    let debugs = place_debugs(input, from)?;
    let codes = place_codes(input, debugs.places())?;
    let class_data = place_class_data(input, codes.places())?;
    Ok(Bodies {
        debugs,
        codes,
        class_data,
    })
}
