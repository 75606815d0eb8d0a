//! Lists of encoded members.

ghost use Rattle.std.specs.Prelude.{◌≡◌, ◌↔◌, ◌≤◌, [], length, map, vec_capacity, IsTrue, IfOk, IfErr};
ghost use Rattle.dexspec.specs.ClassData.{ShareNone};
ghost use Rattle.dexmembers.specs.Numbered.{NumbersRise};
ghost use Rattle.dexmembers.specs.internal.EncodedMembers.{ReadsList, ReadsLists, RefusesList, RefusesLists};

use crate::encodings::Encoded;
use dexhead::Condition;
use dexpool::{ItemFault, Pools};
use std::alloc::{AllocError, Global};
use std::cmp::Ordering;

// The most members for which room is allocated before they are read.
const MOST_AT_ONCE: usize = 4096;

/// An empty vector with room for `count` members, or for 4,096 where they are more, since they are still to be read: a
/// false count asks for little.
pub(crate) fn with_room<T>(alloc: Global, count: usize) -> Result<Vec<T>, AllocError>
    ensures items { IfOk result (λ members. members.items ≡ []) }
    ensures most { IfOk result (λ members. vec_capacity members ≤ 4096) }
{
    Vec::with_capacity(alloc, count.min(MOST_AT_ONCE))
}

// Returns whether no index is in both lists. One pass over both.
fn are_apart<T: Encoded>(left: &[T], right: &[T]) -> bool
    requires left_rise { NumbersRise (map T.index_of left.now) }
    requires right_rise { NumbersRise (map T.index_of right.now) }
    ensures { IsTrue result ↔ ShareNone (map T.index_of left.now) (map T.index_of right.now) }
{
    let mut i = 0;
    let mut j = 0;
    while i < left.len() && j < right.len() {
        match left[i].index().cmp(&right[j].index()) {
            Ordering::Less => i += 1,
            Ordering::Equal => return false,
            Ordering::Greater => j += 1,
        }
    }
    true
}

/// Reads the class data of a class, by its number among the types of the pools, from the bytes of a file. It has the
/// allocator for what is read.
#[derive(Clone, Copy)]
pub(crate) struct ClassReader<'s, 'a> {
    pub(crate) alloc: Global,
    pub(crate) pools: &'s Pools<'a>,
    pub(crate) class: u32,
    pub(crate) bytes: &'s [u8],
}

impl ClassReader<'_, '_> {
    // Reads `count` members at an offset into an empty vector, whose room does not depend on what a count says. Returns
    // them with the number of bytes that encode them.
    fn read_list<T: Encoded>(
        &self,
        at: usize,
        count: u32,
        mut members: Vec<T>,
    ) -> Result<(Vec<T>, usize), ItemFault>
        requires within { at ≤ length self.now.bytes.now }
        requires empty { members.items ≡ [] }
        requires room { vec_capacity members ≤ 4096 }
        ensures list { IfOk result (ReadsList T.encodes T.index_of self.now at count) }
        ensures fault { IfErr result (RefusesList T.encodes T.index_of self.now at count) }
    {
        T::law();
        let mut size = 0;
        let mut last = None;
        for _ in 0..count {
            let (member, len) = match T::read(self, at + size, last) {
                Some(read) => read,
                None => return Err(ItemFault::Refused(Condition::Members as u8)),
            };
            members.push(member)?;
            last = Some(member.index());
            size += len;
        }
        Ok((members, size))
    }

    /// Reads two lists at an offset, of `count` and `other_count` members, which have no index in common. Returns them
    /// with the number of bytes that encode them.
    ///
    /// Error: `Refused(17)` where there are no such lists; `Memory` where an allocation failed.
    pub(crate) fn read_lists<T: Encoded>(
        &self,
        at: usize,
        count: u32,
        other_count: u32,
    ) -> Result<(Vec<T>, Vec<T>, usize), ItemFault>
        requires { at ≤ length self.now.bytes.now }
        ensures lists { IfOk result
            (ReadsLists T.encodes T.index_of self.now at count other_count) }
        ensures fault { IfErr result
            (RefusesLists T.encodes T.index_of self.now at count other_count) }
    {
        T::law();
        let (members, size) = self.read_list(at, count, with_room(self.alloc, count as usize)?)?;
        let (others, others_size) = self.read_list(
            at + size,
            other_count,
            with_room(self.alloc, other_count as usize)?,
        )?;
        if !are_apart::<T>(&members, &others) {
            return Err(ItemFault::Refused(Condition::Members as u8));
        }
        Ok((members, others, size + others_size))
    }
}
