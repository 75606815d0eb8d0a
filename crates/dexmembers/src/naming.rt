//! Whether the members that a directory names are declared.

ghost use Rattle.std.specs.Prelude.{◌≤◌, ◌+◌, ◌*◌, ◌++◌, ◌^◌, ◌<◌, IsTrue, length, map};
ghost use Rattle.std.specs.List.{Contains};
ghost use Rattle.dexmembers.specs.internal.Naming.{NamesOnly, FindsInBoth, FindsEach, FindsNumber, both_indices, NamesRead, FindsNamed};

use crate::class_data::{ClassData, EncodedField, EncodedMethod};
use crate::encodings::Encoded;
use dexhead::{Frame, u32_at};
use dexval::member_counts;

// Returns whether a member of the list has this index.
fn has_member<T: Encoded>(members: &[T], index: u32) -> bool
    ensures listed { IsTrue result → Contains (map T.index_of members.now) index }
    ensures missing { FindsNumber (map T.index_of members.now) index result }
{
    members
        .binary_search_by_key(&index, |member| member.index())
        .is_ok()
}

// Returns whether a member of one of two lists has this index.
fn declares_member<T: Encoded>(first: &[T], second: &[T], index: u32) -> bool
    ensures listed { IsTrue result
        → Contains (map T.index_of first.now ++ map T.index_of second.now) index }
    ensures missing { FindsInBoth (map T.index_of first.now)
        (map T.index_of second.now) index result }
{
    has_member(first, index) || has_member(second, index)
}

// Returns whether each of `count` pairs at an offset names a member of one of two lists of class data.
//
// Condition: the pairs are in the file. Source: "field_annotation format", "method_annotation format" and
/// "parameter_annotation format".
fn names_members<T: Encoded>(
    frame: &Frame<'_>,
    at: usize,
    count: u32,
    first: &[T],
    second: &[T],
) -> bool
    requires within { at + 8 * count ≤ length frame.now }
    requires fits { at < 2 ^ 40 }
    ensures listed { IsTrue result
        → NamesOnly frame.now at count (both_indices T.index_of first.now second.now) }
    ensures missing { FindsEach (map T.index_of first.now)
        (map T.index_of second.now) frame.now at count result }
{
    let bytes = frame.bytes();
    for i in 0..count {
        let index = u32_at(bytes, at + 8 * i as usize);
        if !declares_member(first, second, index) {
            return false;
        }
    }
    true
}

/// Returns whether the directory at an offset names declared members alone.
pub(crate) fn names_declared(frame: &Frame<'_>, off: u32, declared: &ClassData) -> bool
    ensures listed { IsTrue result → NamesRead frame.now off declared.now }
    ensures missing { FindsNamed frame.now off declared.now result }
{
    let Some(counts) = member_counts(frame, off) else {
        return false;
    };
    let at = off as usize + 16;
    let (first, second) = (&declared.static_fields, &declared.instance_fields);
    if !names_members::<EncodedField>(frame, at, counts.fields, first, second) {
        return false;
    }
    let at = at + 8 * counts.fields as usize;
    let (first, second) = (&declared.direct_methods, &declared.virtual_methods);
    if !names_members::<EncodedMethod>(frame, at, counts.methods, first, second) {
        return false;
    }
    let at = at + 8 * counts.methods as usize;
    names_members::<EncodedMethod>(frame, at, counts.parameters, first, second)
}
