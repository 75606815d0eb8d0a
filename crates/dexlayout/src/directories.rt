//! Annotations directories, and the lists of the sets of parameters that they name.

ghost use Rattle.std.specs.Prelude.{◌≡◌, ◌^◌, ◌≤◌, IfOk, OnOk, drop, length, take};
ghost use Rattle.std.specs.List.{flat_map};
ghost use Rattle.dexspec.specs.Bytes.{uint};
ghost use Rattle.dexlayout.specs.internal.Encoding.{encode_use, no_items_from};
ghost use Rattle.dexlayout.specs.internal.OffsetLists.{list_item};
ghost use Rattle.dexlayout.specs.internal.Placing.{CanPlaceRefLists, CanPutList, PlacedRefLists, PutsList, GivesRefLists, CanPlaceDirectories, PlacedDirectories};
ghost use Rattle.dexmembers.specs.Numbered.{fields_of, methods_of};
ghost use Rattle.dexlayout.specs.internal.Directories.{directory_with};

use crate::input::method_at;
use crate::items::Items;
use crate::offsets::{Offsets, padding, round_up};
use crate::runs::RunsLeft;
use crate::sets::Sets;
use dexclass::Class;
use dexhead::Output;
use dexmembers::{DirectoryOffsets, Members};
use dexpool::number_law;
use std::alloc::{AllocError, Global};

// Adds a list of `count` sets, aligned to 4 bytes, unless it is empty.
fn put_list(count: usize, places: &mut Offsets) -> Result<(), AllocError>
    requires { CanPutList count places.old }
    ensures { PutsList result count places.old places.new }
{
    if count == 0 {
        return places.pass();
    }
    places.align();
    places.put_next(4 + 4 * count)
}

/// The offsets of the lists of the sets of the parameters of methods: one for each method. They are after the sets.
/// Memory for the offsets of all methods is allocated at once.
///
/// Source: "annotation_set_ref_list".
pub(crate) fn place_ref_lists(
    alloc: Global,
    classes: &[Class<'_>],
    sets: &Sets,
) -> Result<Offsets, AllocError>
    requires { CanPlaceRefLists classes.now sets.now }
    ensures { IfOk result (PlacedRefLists classes.now sets.now) }
{
    let from = sets.written().places().end();
    let mut places = Offsets::starting_at(alloc, from, sets.methods().len())?;
    for class in classes {
        let members = class.members();
        for i in 0..members.method_count() {
            let parameters = method_at(members, i).parameter_annotations();
            put_list(parameters.len(), &mut places)?;
        }
    }
    Ok(places)
}

/// Writes the lists of the sets of the parameters of methods, which are after the sets.
///
/// Source: "annotation_set_ref_list".
pub(crate) fn encode_ref_lists<O: Output>(classes: &[Class<'_>], sets: &Sets, out: &mut O)
    requires { CanPlaceRefLists classes.now sets.now }
    ensures { GivesRefLists O.gives classes.now sets.now out.old out.new }
{
    let mut at = sets.written().places().end();
    let mut rest = sets.parameters();
    for class in classes {
        let members = class.members();
        for i in 0..members.method_count() {
            let parameters = method_at(members, i).parameter_annotations();
            at = encode_list(parameters.len(), &mut rest, at, out);
        }
    }
}

// Writes the list of the next `count` offsets, unless it is empty, after the zeros that align it at an offset. Returns
// where it ends.
fn encode_list<O: Output>(count: usize, offs: &mut RunsLeft<'_>, at: u32, out: &mut O) -> u32
    requires enough { count ≤ length offs.old }
    requires fits { (encode_use 4 (no_items_from at) (list_item (take count offs.old))).places.end
        ≤ 2 ^ 30 }
    ensures end { result
        ≡ (encode_use 4 (no_items_from at) (list_item (take count offs.old))).places.end }
    ensures given { O.gives
        (encode_use 4 (no_items_from at) (list_item (take count offs.old))).bytes
        out.old out.new }
    ensures others { offs.new ≡ drop count offs.old }
{
    if count == 0 {
        return at;
    }
    out.bytes(padding(at));
    out.u32(count as u32);
    encode_next(count, offs, out);
    round_up(at) + 4 + 4 * count as u32
}

// Writes the next `count` offsets.
fn encode_next<O: Output>(count: usize, offs: &mut RunsLeft<'_>, out: &mut O)
    requires { count ≤ length offs.old }
    ensures given { O.gives (flat_map uint (take count offs.old)) out.old out.new }
    ensures others { offs.new ≡ drop count offs.old }
{
    for _ in 0..count {
        out.u32(offs.next());
    }
}

// The number of bytes of a directory without entries.
const EMPTY_DIRECTORY: usize = 16;

// Encodes the directory of a class after the others, unless all offsets are 0.
fn encode_directory(
    members: &Members<'_>,
    offs: &DirectoryOffsets<'_>,
    items: &mut Items,
) -> Result<(), AllocError>
    requires fields { length offs.now.fields.now ≡ length (fields_of members.now) }
    requires methods { length offs.now.methods.now ≡ length (methods_of members.now) }
    requires parameters { length offs.now.parameters.now ≡ length (methods_of members.now) }
    requires fits { (encode_use 4 items.old (directory_with members.now offs.now)).places.end
        ≤ 2 ^ 30 }
    ensures { OnOk result (items.new
        ≡ encode_use 4 items.old (directory_with members.now offs.now)) }
{
    let len = members.directory_len(offs);
    if offs.own == 0 && len == EMPTY_DIRECTORY {
        return items.pass();
    }
    items.align()?;
    let before = items.bytes.len();
    members.put_directory(offs, &mut items.bytes)?;
    items.end_item(before)
}

/// The annotations directories of the classes, encoded, and their offsets: one for each class. They are after the lists
/// of sets of parameters.
///
/// Source: "annotations_directory_item".
pub(crate) fn place_directories(
    alloc: Global,
    classes: &[Class<'_>],
    sets: &Sets,
    ref_lists: &Offsets,
) -> Result<Items, AllocError>
    requires { CanPlaceDirectories classes.now sets.now ref_lists.now }
    ensures { IfOk result (PlacedDirectories classes.now sets.now ref_lists.now) }
{
    number_law();
    let own = sets.own();
    let mut fields = sets.fields();
    let mut methods = sets.methods();
    let mut lists = ref_lists.offsets();
    let from = ref_lists.end();
    let mut items = Items::starting_at(alloc, from, classes.len())?;
    for i in 0..classes.len() {
        let members = classes[i].members();
        let count = members.method_count();
        let (field_offs, fields_left) = fields.split_at(members.field_count());
        let (method_offs, methods_left) = methods.split_at(count);
        let (list_offs, lists_left) = lists.split_at(count);
        let offs = DirectoryOffsets {
            own: own[i],
            fields: field_offs,
            methods: method_offs,
            parameters: list_offs,
        };
        encode_directory(members, &offs, &mut items)?;
        fields = fields_left;
        methods = methods_left;
        lists = lists_left;
    }
    Ok(items)
}
