//! Annotations directories written.

ghost use Rattle.std.specs.Prelude.{⊤, ◌≡◌, ℕ, ◌*◌, List, Some, IsOk, map, slice_index, ◌+◌, ◌^◌, ◌<◌, ◌≤◌, length, slice_index_or};
ghost use Rattle.dexspec.specs.Texts.{Text};
ghost use Rattle.dexspec.specs.Classes.{Body};
ghost use Rattle.dexspec.specs.Mentions.{Mentions};
ghost use Rattle.dexspec.specs.Placing.{SetOffsets, directory_bytes};
ghost use Rattle.dexspec.specs.internal.Writing.{Puts};
ghost use Rattle.dexpool.specs.Numberings.{AreRising};
ghost use Rattle.dexmembers.specs.Numbered.{fields_of, methods_of, members_in, members_of, AreKnownMembers, AreOrdered, AreOfClass};
ghost use Rattle.dexmembers.specs.DirectoryPut.{pair_bytes, count_placed, numbered_directory_bytes, both_bytes_by, field_pairs_bytes, method_pairs_bytes, HasDirectoryRoom, IsDirectoryLen};
ghost use Rattle.dexmembers.specs.FormedDirectory.{IsFormedDirectory};

use crate::class_data_put::append;
use crate::laws::members_bytes_law;
use crate::members::{DeclaredField, Members};
use crate::method_list::DeclaredMethod;
use dexhead::{Encode, Output};
use std::alloc::AllocError;

// Greater than the number of each member.
const NONE_LEFT: u64 = 0x1_0000_0000;

// Writes an index and an offset, unless the offset is 0.
fn encode_pair<O: Output>(index: u32, offset: u32, out: &mut O)
    ensures { O.gives (pair_bytes (index, offset)) out.old out.new }
{
    if offset != 0 {
        out.u32(index);
        out.u32(offset);
    }
}

// Returns the number of offsets that are not 0.
fn placed(offsets: &[u32]) -> usize
    ensures is { result ≡ count_placed offsets.now }
    ensures few { result ≤ length offsets.now }
{
    offsets.iter().filter(|offset| **offset != 0).count()
}

// A member of a class, which has a number.
trait HasNumber {
    ghost number_of: { Self → ℕ };

    // The number of the member.
    fn number(&self) -> u32
        ensures { result ≡ number_of self.now };
}

impl HasNumber for DeclaredField {
    ghost number_of = { λ f. f.number };

    fn number(&self) -> u32 {
        self.number
    }
}

impl HasNumber for DeclaredMethod {
    ghost number_of = { λ x. x.number };

    fn number(&self) -> u32 {
        self.number
    }
}

// Returns the number of the member at a place, or `NONE_LEFT` after the last.
fn next_number<T: HasNumber>(members: &[T], place: usize) -> u64
    ensures number { result ≡ slice_index_or (map T.number_of members.now) place 0x100000000 }
    ensures there { place < length members.now → result < 2 ^ 32 }
    ensures end { length members.now ≤ place → result ≡ 0x100000000 }
{
    match members.get(place) {
        Some(member) => u64::from(member.number()),
        None => NONE_LEFT,
    }
}

// Writes the pairs of two lists of members by index.
fn encode_pairs<T: HasNumber, O: Output>(first: &[T], second: &[T], offsets: &[u32], out: &mut O)
    requires { length offsets.now ≡ length first.now + length second.now }
    ensures { O.gives (both_bytes_by T.number_of first.now second.now offsets.now) out.old out.new }
{
    let (first_offsets, second_offsets) = offsets.split_at(first.len());
    let mut i = 0;
    let mut j = 0;
    'merging: while i + j < offsets.len() {
        let one = next_number(first, i);
        let other = next_number(second, j);
        if one < other {
            encode_pair(one as u32, first_offsets[i], out);
            i += 1;
        } else {
            encode_pair(other as u32, second_offsets[j], out);
            j += 1;
        }
    }
}

/// The offsets in an annotations directory, in bytes from the start of the file: those of the sets of a class and of
/// its members, and of the lists of the sets of parameters. 0 denotes none.
///
/// Source: "annotations_directory_item".
#[derive(Clone, Copy)]
pub struct DirectoryOffsets<'o> {
    /// The offset of the class's own set.
    pub own: u32,
    /// For each field the offset of its set, the static ones first.
    pub fields: &'o [u32],
    /// For each method the offset of its set, the direct ones first.
    pub methods: &'o [u32],
    /// For each method the offset of the list of the sets of its parameters, the direct ones first.
    pub parameters: &'o [u32],
}

impl Members<'_> {
    // Writes pairs of the methods.
    fn encode_method_pairs<O: Output>(&self, offsets: &[u32], out: &mut O)
        requires { length offsets.now ≡ length (methods_of self.now) }
        ensures { O.gives (method_pairs_bytes self.now offsets.now) out.old out.new }
    {
        let own = &self.contents;
        let (direct, virtuals) = (&own.direct_methods, &own.virtual_methods);
        encode_pairs(direct.declared(), virtuals.declared(), offsets, out);
    }
}

// The members of a class, to be encoded as an annotations_directory_item.
#[derive(Drop)]
struct DirectoryItem<'i, 'a> {
    members: &'i Members<'a>,
    offs: DirectoryOffsets<'i>,
}

impl Encode for DirectoryItem<'_, '_> {
    ghost formed = { IsFormedDirectory };

    ghost bytes = { λ d. numbered_directory_bytes d.members.now d.offs.own d.offs.fields.now d.offs.methods.now d.offs.parameters.now };

    fn encode<O: Output>(&self, out: &mut O) {
        let (members, offs) = (self.members, self.offs);
        members.are_few();
        out.u32(offs.own);
        out.u32(placed(offs.fields) as u32);
        out.u32(placed(offs.methods) as u32);
        out.u32(placed(offs.parameters) as u32);
        let own = &members.contents;
        encode_pairs(&own.static_fields, &own.instance_fields, offs.fields, out);
        members.encode_method_pairs(offs.methods, out);
        members.encode_method_pairs(offs.parameters, out);
    }
}

impl Members<'_> {
    /// Returns the number of bytes that [`put_directory`](Members::put_directory) appends, for the same offsets.
    /// [`members_bytes_law`](crate::members_bytes_law) says of which symbols they are the bytes.
    ///
    /// Condition: there is an offset for each field and each method.
    ///
    /// Source: "annotations_directory_item".
    pub fn directory_len(&self, offs: &DirectoryOffsets<'_>) -> usize
        requires fields { length offs.now.fields.now ≡ length (fields_of self.now) }
        requires methods { length offs.now.methods.now ≡ length (methods_of self.now) }
        requires parameters { length offs.now.parameters.now ≡ length (methods_of self.now) }
        ensures { IsDirectoryLen self.now offs.now.fields.now offs.now.methods.now
            offs.now.parameters.now result }
    {
        self.are_few();
        16 + 8 * (placed(offs.fields) + placed(offs.methods) + placed(offs.parameters))
    }

    /// Appends the annotations_directory_item: the offset of the class's own set, the counts of annotated fields, of
    /// annotated methods and of methods with annotated parameters, and then the number and the offset of each of these,
    /// by number, each in four bytes. An offset of 0 leaves the member out.
    ///
    /// A class with no offset but 0 has no item in the canonical file: the caller leaves it out.
    ///
    /// Error: the allocation failed; the vector is then as it was. It does not fail where the spare room is at least 16
    /// bytes and eight for each member that is put. Condition: there is an offset for each field and each method.
    /// Nothing else is allocated.
    ///
    /// Source: "annotations_directory_item", "field_annotation format", "method_annotation format" and
    /// "parameter_annotation format".
    pub fn put_directory(
        &self,
        offs: &DirectoryOffsets<'_>,
        out: &mut Vec<u8>,
    ) -> Result<(), AllocError>
        requires fields { length offs.now.fields.now ≡ length (fields_of self.now) }
        requires methods { length offs.now.methods.now ≡ length (methods_of self.now) }
        requires parameters { length offs.now.parameters.now ≡ length (methods_of self.now) }
        ensures bytes { Puts (numbered_directory_bytes self.now offs.now.own offs.now.fields.now
            offs.now.methods.now offs.now.parameters.now) out.old out.new result }
        ensures symbolic { (m : Mentions) (name : Text) (c : Body) (sets : SetOffsets)
            (item : List ℕ) → AreRising m → AreKnownMembers m self.now → AreOrdered self.now
            → AreOfClass m name self.now → members_of c ≡ members_in m self.now
            → sets.own ≡ offs.now.own → sets.fields ≡ offs.now.fields.now
            → map (λ os. slice_index os 0) sets.methods ≡ offs.now.methods.now
            → directory_bytes m (name, c) sets offs.now.parameters.now ≡ Some item
            → Puts item out.old out.new result }
        ensures room { HasDirectoryRoom offs.now.fields.now offs.now.methods.now
            offs.now.parameters.now out.old → IsOk result }
    {
        members_bytes_law();
        self.are_few();
        let most = 16 + 8 * (self.field_count() + 2 * self.method_count());
        let item = DirectoryItem {
            members: self,
            offs: *offs,
        };
        append(&item, most, out)
    }
}
