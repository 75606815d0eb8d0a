//! Type lists: those of the parameters of protos, and of the interfaces of classes.

ghost use Rattle.std.specs.Prelude.{◌≡◌, ◌^◌, ◌<◌, ◌≤◌, ◌+◌, ◌++◌, All, IfOk, OnOk, Some, [], length};
ghost use Rattle.dexspec.specs.Bytes as bytes;
ghost use Rattle.dexspec.specs.Canonical.{data_start, type_list_section};
ghost use Rattle.dexspec.specs.Placing.{section_bytes, uses_offsets};
ghost use Rattle.dexlayout.specs.Laid.{AreTypeLists, AreWritable, ordered_of};
ghost use Rattle.dexlayout.specs.internal.SharedUses.{AreTypes, SharesLists};
ghost use Rattle.dexlayout.specs.internal.Adding.{AddsUses, AddsListAt, AddsParameters, list_uses, AreKnownClasses, interfaces_uses};
ghost use Rattle.dexlayout.specs.internal.Encoding.{encode_use, list_bytes, without_bytes};
ghost use Rattle.dexlayout.specs.internal.Placing.{HaveTypeLists, encoded_lists};

use crate::input::Input;
use crate::items::SharedOffsets;
use crate::keys::ListKey;
use crate::offsets::{Offsets, padding, round_up};
use crate::sharing::{Shared, Sharing};
use dexclass::{Class, first_equal};
use dexhead::{Encode, Output};
use dexpool::{KnownParameters, Numbering, SymbolKind};
use dexrows::TypeNumbers;
use std::alloc::{AllocError, Global};

impl<'p> Sharing<ListKey<'p>> {
    // Adds a use of a type list, which has no item where the list is empty.
    fn add_list(&mut self, list: TypeNumbers<'p>) -> Result<(), AllocError>
        ensures added { AddsUses SharesLists result self.old self.new AreTypes
            list_uses list.entry }
        ensures more { OnOk result
            (length self.new.numbers.items ≡ length self.old.numbers.items + 1) }
    {
        if list.len() == 0 {
            return self.add(None);
        }
        self.add(Some(ListKey { list }))
    }

    // Adds a use of a list. If there is a use at a place already, it has that list, which is not looked up again.
    fn add_list_at(&mut self, place: usize, list: TypeNumbers<'p>) -> Result<(), AllocError>
        ensures added { AddsListAt place result self.old self.new list.entry }
        ensures more { OnOk result
            (length self.new.numbers.items ≡ length self.old.numbers.items + 1) }
    {
        if place < self.len() {
            return self.add_again(place);
        }
        self.add_list(list)
    }

    // Adds the uses of the parameters of protos. Where protos share a long list, only the first of them is looked up by it.
    fn add_parameters(&mut self, numbering: &'p Numbering<'_>) -> Result<(), AllocError>
        ensures { AddsParameters numbering.now result self.old self.new }
    {
        let mut known = KnownParameters::none(*self.numbers.allocator());
        let before = self.len();
        for i in 0..numbering.count(SymbolKind::Proto) {
            let first = known.first(numbering, i)?;
            self.add_list_at(before + first, numbering.proto(i).parameters())?;
        }
        Ok(())
    }

    // Adds the uses of the interfaces of classes. Where classes share a long list, only the first of them is looked up
    // by it.
    fn add_interfaces(&mut self, classes: &'p [Class<'_>]) -> Result<(), AllocError>
        ensures { AddsUses SharesLists result self.old self.new AreKnownClasses interfaces_uses
            classes.now }
    {
        let firsts = first_equal(*self.numbers.allocator(), classes)?;
        let before = self.len();
        for i in 0..classes.len() {
            self.add_list_at(before + firsts[i], classes[i].interfaces())?;
        }
        Ok(())
    }
}

// The type lists that protos and classes share.
fn share_type_lists<'p>(input: &Input<'p, '_>) -> Result<Shared<ListKey<'p>>, AllocError>
    requires { AreWritable input.now.numbering.now input.now.classes.now }
    ensures shared { IfOk result (HaveTypeLists input.now.numbering.now input.now.classes.now) }
    ensures known { IfOk result
        (λ shared. All (AreTypes input.now.numbering.now) shared.written.items) }
{
    let protos = input.numbering.count(SymbolKind::Proto);
    let mut sharing = Sharing::for_uses(input.alloc, protos + input.classes.len())?;
    sharing.add_parameters(input.numbering)?;
    sharing.add_interfaces(input.classes)?;
    sharing.finish(input.alloc)
}

// The offsets of the type lists that are written, from an offset on.
fn place_written(alloc: Global, lists: &[ListKey<'_>], from: u32) -> Result<Offsets, AllocError>
    requires { (encoded_lists from lists.now).places.end ≤ 2 ^ 30 }
    ensures { IfOk result (λ places. places ≡ (encoded_lists from lists.now).places) }
{
    let mut places = Offsets::starting_at(alloc, from, lists.len())?;
    for key in lists {
        put_list(key, &mut places)?;
    }
    Ok(places)
}

// Adds the offset of a list, aligned to 4 bytes.
fn put_list(key: &ListKey<'_>, places: &mut Offsets) -> Result<(), AllocError>
    requires { (encode_use 4 (without_bytes places.old) (Some (list_bytes key.now))).places.end
        ≤ 2 ^ 30 }
    ensures { OnOk result (places.new
        ≡ (encode_use 4 (without_bytes places.old) (Some (list_bytes key.now))).places) }
{
    places.align();
    places.put_next(4 + 2 * key.list.len())
}

/// The offsets of the type lists: for each proto, and then for each class. They are after the tables.
///
/// Source: "type_list".
pub(crate) fn place_type_lists(
    input: &Input<'_, '_>,
    from: u32,
) -> Result<SharedOffsets, AllocError>
    requires classes { AreWritable input.now.numbering.now input.now.classes.now }
    requires from { from ≡ data_start (ordered_of input.now.numbering.now input.now.classes.now) }
    ensures { IfOk result (AreTypeLists input.now.numbering.now input.now.classes.now) }
{
    let Shared { written, numbers } = share_type_lists(input)?;
    let places = place_written(input.alloc, &written, from)?;
    SharedOffsets::of(input.alloc, &places, &numbers)
}

/// Writes the type lists, from an offset on: those of protos, and then those of classes, each at its first use. Each use
/// has one of `offsets`.
///
/// Source: "type_list".
pub(crate) fn encode_type_lists<O: Output>(
    numbering: &Numbering<'_>,
    classes: &[Class<'_>],
    offsets: &[u32],
    from: u32,
    out: &mut O,
)
    requires classes { AreWritable numbering.now classes.now }
    requires offsets { offsets.now
        ≡ uses_offsets (type_list_section (ordered_of numbering.now classes.now)) }
    requires from { from ≡ data_start (ordered_of numbering.now classes.now) }
    ensures { O.gives (section_bytes (type_list_section (ordered_of numbering.now classes.now)))
        out.old out.new }
{
    let mut at = from;
    let protos = numbering.count(SymbolKind::Proto);
    for i in 0..protos {
        at = encode_list(numbering.proto(i).parameters(), offsets[i], at, out);
    }
    for i in 0..classes.len() {
        at = encode_list(classes[i].interfaces(), offsets[protos + i], at, out);
    }
}

// Writes a list after the zeros that align it at an offset, and returns where it ends; or nothing, if its own offset is
// before that one, as it is where the list is empty, or written before.
fn encode_list<O: Output>(list: TypeNumbers<'_>, offset: u32, at: u32, out: &mut O) -> u32
    requires few { All (λ i. i < 65536) list }
    requires fits { at ≤ offset → bytes.round_up 4 at + length (list_bytes list) ≤ 2 ^ 30 }
    ensures skipped { offset < at → (result ≡ at) × O.gives [] out.old out.new }
    ensures written { at ≤ offset → (result ≡ bytes.round_up 4 at + length (list_bytes list.entry))
        × O.gives (bytes.padding 4 at ++ list_bytes list.entry) out.old out.new }
{
    if offset < at {
        return at;
    }
    let end = round_up(at) + 4 + 2 * list.len() as u32;
    out.bytes(padding(at));
    ListKey { list }.encode(out);
    end
}
