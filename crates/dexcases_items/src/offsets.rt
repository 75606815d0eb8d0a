//! The offsets of the items of an accepted file, from its bytes alone. A number that the bytes do not encode is 0.

use dexhead::u32_at;
use dexleb::read_u;
use std::alloc::{AllocError, Global};
use std::collections::BTreeMap;

/// The offsets in an annotations_directory_item: that of the class's own set, and for each member of the class, in
/// order, that of its set or of the list of its parameters' sets. 0 denotes none.
#[derive(Drop)]
pub struct DirectoryOffs {
    pub own: u32,
    pub fields: Vec<u32>,
    pub methods: Vec<u32>,
    pub parameters: Vec<u32>,
}

/// Returns the number that the four bytes at `at` encode.
pub fn number_at(bytes: &[u8], at: usize) -> u32 {
    if at >= bytes.len() || bytes.len() - at < 4 {
        return 0;
    }
    u32_at(bytes, at)
}

/// Returns the number that four bytes encode, at a distance after an offset.
pub fn number_after(bytes: &[u8], off: u32, distance: usize) -> u32 {
    number_at(bytes, (off as usize).saturating_add(distance))
}

// Consecutive numbers in uleb128.
#[derive(Drop)]
struct Ulebs<'b> {
    bytes: &'b [u8],
    at: usize,
}

impl Ulebs<'_> {
    // Returns the next number.
    fn next(&mut self) -> u32 {
        if self.at >= self.bytes.len() {
            return 0;
        }
        match read_u(self.bytes, self.at) {
            Ok((number, used)) => {
                self.at = self.at.saturating_add(used);
                number
            }
            Err(_) => 0,
        }
    }

    // Returns the sum of the next two numbers.
    fn sum(&mut self) -> u64 {
        u64::from(self.next()) + u64::from(self.next())
    }
}

/// Returns the offset of the code of each method in the class_data_item at an offset, direct methods first. 0 denotes
/// none.
pub fn method_code_offs(alloc: Global, bytes: &[u8], off: u32) -> Result<Vec<u32>, AllocError> {
    let mut numbers = Ulebs {
        bytes,
        at: off as usize,
    };
    let fields = numbers.sum();
    let methods = numbers.sum();
    for _ in 0..fields {
        numbers.sum();
    }
    let mut offs = Vec::new(alloc);
    for _ in 0..methods {
        numbers.sum();
        offs.push(numbers.next())?;
    }
    Ok(offs)
}

// Returns `count` pairs of a number and an offset, from `at` on.
fn pairs_at(
    alloc: Global,
    bytes: &[u8],
    at: usize,
    count: u32,
) -> Result<BTreeMap<u32, u32>, AllocError> {
    let mut pairs = BTreeMap::new(alloc);
    let mut at = at;
    for _ in 0..count {
        let number = number_at(bytes, at);
        pairs.insert(number, number_at(bytes, at.saturating_add(4)))?;
        at = at.saturating_add(8);
    }
    Ok(pairs)
}

// Returns the offset of each number; 0 if the pairs have none.
fn offs_of(
    alloc: Global,
    numbers: &[u32],
    pairs: &BTreeMap<u32, u32>,
) -> Result<Vec<u32>, AllocError> {
    let mut offs = Vec::with_capacity(alloc, numbers.len())?;
    for number in numbers {
        offs.push(match pairs.get(number) {
            Some(off) => *off,
            None => 0,
        })?;
    }
    Ok(offs)
}

// Returns the offset of each number in `count` pairs from `at` on; 0 if the pairs have none.
fn member_offs(
    alloc: Global,
    bytes: &[u8],
    at: usize,
    count: u32,
    numbers: &[u32],
) -> Result<Vec<u32>, AllocError> {
    let pairs = pairs_at(alloc, bytes, at, count)?;
    offs_of(alloc, numbers, &pairs)
}

/// Returns the offsets in the annotations_directory_item at an offset, for fields and methods of these numbers.
pub fn directory_offs(
    alloc: Global,
    bytes: &[u8],
    off: u32,
    fields: &[u32],
    methods: &[u32],
) -> Result<DirectoryOffs, AllocError> {
    let field_count = number_after(bytes, off, 4);
    let method_count = number_after(bytes, off, 8);
    let parameter_count = number_after(bytes, off, 12);
    let at = (off as usize).saturating_add(16);
    let field_offs = member_offs(alloc, bytes, at, field_count, fields)?;
    let at = at.saturating_add((field_count as usize).saturating_mul(8));
    let method_offs = member_offs(alloc, bytes, at, method_count, methods)?;
    let at = at.saturating_add((method_count as usize).saturating_mul(8));
    let parameter_offs = member_offs(alloc, bytes, at, parameter_count, methods)?;
    Ok(DirectoryOffs {
        own: number_after(bytes, off, 0),
        fields: field_offs,
        methods: method_offs,
        parameters: parameter_offs,
    })
}

/// Returns the offsets in the list of sets at an offset. 0 denotes none.
pub fn list_offs(alloc: Global, bytes: &[u8], off: u32) -> Result<Vec<u32>, AllocError> {
    let count = number_after(bytes, off, 0);
    let mut offs = Vec::new(alloc);
    let mut at = (off as usize).saturating_add(4);
    for _ in 0..count {
        offs.push(number_at(bytes, at))?;
        at = at.saturating_add(4);
    }
    Ok(offs)
}
