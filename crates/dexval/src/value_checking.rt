//! Checks values in place in a file. Nothing is kept, and no memory is allocated.

ghost use Rattle.std.specs.Prelude.{◌≡◌, IfOk, IfErr, ◌≢◌, ◌+◌, ◌*◌, ◌^◌, ◌<◌, ◌≤◌, IfSome, length, slice_index};
ghost use Rattle.dexpool.specs.Pools.{ArePools};
ghost use Rattle.dexpool.specs.declared.faults.ItemFault.TheVariants.{Refused};
ghost use Rattle.dexval.specs.Reading.{IsValueFault, IsStaticsFault};
ghost use Rattle.dexval.specs.Results.{HasValueShape, HasStaticsShape};
ghost use Rattle.dexval.specs.internal.Found.{MeasuresEncodedValue, MeasuresStatics, FindsUleb128, MeasuresValue, MeasuresArray, MeasuresElement, MeasuresElements, MeasuresAnnotation};
ghost use Rattle.dexval.specs.Nesting.{HasPools};

use crate::scalars::scalar_at;
use crate::type_codes::{ANNOTATION, ARRAY};
use crate::value_reading::MOST_DEPTH;
use dexhead::{Condition, Frame};
use dexleb::read_u;
use dexpool::{ItemFault, Pools, SymbolKind};

/// The size of an item in the file, and its weight.
#[derive(Clone, Copy)]
pub(crate) struct Measure {
    pub(crate) size: usize,
    pub(crate) weight: u64,
}

/// The unsigned number at an offset, and its size.
#[inline(always)]
pub(crate) fn number_at(bytes: &[u8], at: usize) -> Option<(u32, usize)>
    requires { at ≤ length bytes.now }
    ensures found { FindsUleb128 bytes.now at result }
    ensures some { IfSome result (λ read. 1 ≤ read.1) }
    ensures within { IfSome result (λ read. at + read.1 ≤ length bytes.now) }
{
    read_u(bytes, at).ok()
}

/// Checks nested values in the bytes of a file, whose indices refer to its pools.
#[derive(Clone, Copy)]
pub(crate) struct ValueChecker<'a> {
    pub(crate) bytes: &'a [u8],
    pub(crate) pools: &'a Pools<'a>,
}

impl ValueChecker<'_> {
    /// The measure of the value at an offset, or `None` if there is none that nests at most `depth` deep.
    #[cycle(checking)]
    pub(crate) fn value_measure(&self, at: usize, depth: u32) -> Option<Measure>
        requires small { length self.now.bytes.now ≤ 2 ^ 30 }
        ensures checked { HasPools self.now.bytes.now self.now.pools.now
            → MeasuresValue self.now.bytes.now at self.now.pools.now depth result }
        ensures within { IfSome result (λ value. at + value.size ≤ length self.now.bytes.now) }
        ensures light { IfSome result (λ value. value.weight ≤ 9 * value.size) }
    {
        if at >= self.bytes.len() {
            return None;
        }
        match self.bytes[at] {
            ARRAY | ANNOTATION if depth == 0 => None,
            ARRAY => {
                let (_, values) = self.array_measure(at + 1, depth - 1)?;
                Some(Measure {
                    size: 1 + values.size,
                    weight: 6 + values.weight,
                })
            }
            ANNOTATION => {
                let (_, annotation) = self.annotation_measure(at + 1, depth - 1)?;
                Some(Measure {
                    size: 1 + annotation.size,
                    weight: annotation.weight,
                })
            }
            _ => {
                let (_, size) = scalar_at(self.bytes, self.pools, at)?;
                Some(Measure { size, weight: 9 })
            }
        }
    }

    /// The number of values of the encoded_array at an offset, and its measure, whose weight is that of the values alone.
    /// `None` if there is no array whose values nest at most `depth` deep.
    #[cycle(checking)]
    pub(crate) fn array_measure(&self, at: usize, depth: u32) -> Option<(u32, Measure)>
        requires at { at ≤ length self.now.bytes.now }
        requires small { length self.now.bytes.now ≤ 2 ^ 30 }
        ensures checked { HasPools self.now.bytes.now self.now.pools.now
            → MeasuresArray self.now.bytes.now at self.now.pools.now depth result }
        ensures within { IfSome result (λ array. at + array.1.size ≤ length self.now.bytes.now) }
        ensures light { IfSome result (λ array. array.1.weight ≤ 9 * array.1.size) }
    {
        let (count, head) = number_at(self.bytes, at)?;
        let mut size = 0;
        let mut weight = 0;
        for _i in 0..count {
            let value = self.value_measure(at + head + size, depth)?;
            size += value.size;
            weight += value.weight;
        }
        let size = head + size;
        Some((count, Measure { size, weight }))
    }

    // The number of the name of the element at an offset, and the element's measure, or `None` if there is no element whose
    // name has at least the number `least` and whose value nests at most `depth` deep.
    #[cycle(checking)]
    fn element_measure(&self, at: usize, depth: u32, least: u64) -> Option<(u32, Measure)>
        requires at { at ≤ length self.now.bytes.now }
        requires small { length self.now.bytes.now ≤ 2 ^ 30 }
        ensures checked { HasPools self.now.bytes.now self.now.pools.now
            → MeasuresElement self.now.bytes.now at self.now.pools.now depth least result }
        ensures name { IfSome result (λ element. element.0 < 2 ^ 32) }
        ensures within { IfSome result
            (λ element. at + element.1.size ≤ length self.now.bytes.now) }
        ensures light { IfSome result (λ element. element.1.weight ≤ 9 * element.1.size) }
    {
        let (name, head) = number_at(self.bytes, at)?;
        if u64::from(name) < least || name as usize >= self.pools.len(SymbolKind::Text) {
            return None;
        }
        let value = self.value_measure(at + head, depth)?;
        let size = head + value.size;
        let weight = 5 + value.weight;
        Some((name, Measure { size, weight }))
    }

    // The measure of `count` elements from an offset on, or `None` if there are no such elements whose names rise strictly
    // and whose values nest at most `depth` deep.
    #[cycle(checking)]
    fn elements_measure(&self, at: usize, depth: u32, count: u32) -> Option<Measure>
        requires at { at ≤ length self.now.bytes.now }
        requires small { length self.now.bytes.now ≤ 2 ^ 30 }
        ensures checked { HasPools self.now.bytes.now self.now.pools.now
            → MeasuresElements self.now.bytes.now at self.now.pools.now depth count result }
        ensures within { IfSome result
            (λ elements. at + elements.size ≤ length self.now.bytes.now) }
        ensures light { IfSome result (λ elements. elements.weight ≤ 9 * elements.size) }
    {
        let mut size = 0;
        let mut weight = 0;
        let mut least = 0;
        for _i in 0..count {
            let (name, element) = self.element_measure(at + size, depth, least)?;
            least = u64::from(name) + 1;
            size += element.size;
            weight += element.weight;
        }
        Some(Measure { size, weight })
    }

    /// The number of the type of the encoded_annotation at an offset, and the annotation's measure, or `None` if there is
    /// no annotation whose values nest at most `depth` deep.
    #[cycle(checking)]
    pub(crate) fn annotation_measure(&self, at: usize, depth: u32) -> Option<(u32, Measure)>
        requires at { at ≤ length self.now.bytes.now }
        requires small { length self.now.bytes.now ≤ 2 ^ 30 }
        ensures checked { HasPools self.now.bytes.now self.now.pools.now
            → MeasuresAnnotation self.now.bytes.now at self.now.pools.now depth result }
        ensures within { IfSome result
            (λ annotation. at + annotation.1.size ≤ length self.now.bytes.now) }
        ensures light { IfSome result (λ annotation. annotation.1.weight ≤ 9 * annotation.1.size) }
    {
        let (typ, first) = number_at(self.bytes, at)?;
        if typ as usize >= self.pools.len(SymbolKind::Typ) {
            return None;
        }
        let (count, second) = number_at(self.bytes, at + first)?;
        let elements = self.elements_measure(at + first + second, depth, count)?;
        let size = first + second + elements.size;
        let weight = 12 + elements.weight;
        Some((typ, Measure { size, weight }))
    }
}

/// The size and the weight of an encoded_value.
#[derive(Clone, Copy, Debug)]
pub struct ValueShape {
    /// The number of bytes in the file.
    pub size: u32,
    /// The weight of the value: its [`Value::weight`](crate::Value::weight).
    pub weight: u64,
}

/// The size and the weight of an encoded_array_item.
#[derive(Clone, Copy, Debug)]
pub struct StaticsShape {
    /// The number of values.
    pub count: u32,
    /// The number of bytes in the file.
    pub size: u32,
    /// The weight of the values: their [`statics_weight`](crate::statics_weight).
    pub weight: u64,
}

// The shape of the encoded_value at an offset, or `None` if there is none.
fn value_shape(frame: &Frame<'_>, pools: &Pools<'_>, off: u32) -> Option<ValueShape>
    ensures { ArePools frame.now pools.now → MeasuresEncodedValue frame.now off pools.now result }
{
    if off < frame.data_off() {
        return None;
    }
    pools.numbering().is_numbering();
    let bytes = frame.bytes();
    let value = ValueChecker { bytes, pools }.value_measure(off as usize, MOST_DEPTH)?;
    Some(ValueShape {
        size: value.size as u32,
        weight: value.weight,
    })
}

/// Checks the encoded_value at an offset. Its indices refer to the pools, which are those of the file. Nothing is kept,
/// and no memory is allocated.
///
/// Error: `Refused(21)` exactly if [`read_value`](crate::read_value) refuses the value.
///
/// Source: "encoded_value encoding", "encoded_array format" and "encoded_annotation format".
pub fn check_value(frame: &Frame<'_>, pools: &Pools<'_>, off: u32) -> Result<ValueShape, ItemFault>
    ensures value { ArePools frame.now pools.now
        → IfOk result (HasValueShape frame.now off pools.now) }
    ensures refused { ArePools frame.now pools.now → IfErr result (IsValueFault frame.now off) }
    ensures number { IfErr result (λ fault. fault ≡ Refused 21) }
{
    value_shape(frame, pools, off).ok_or(ItemFault::Refused(Condition::Values as u8))
}

// The shape of the encoded_array_item at an offset, or `None` if there is none.
fn statics_shape(frame: &Frame<'_>, pools: &Pools<'_>, off: u32) -> Option<StaticsShape>
    ensures { ArePools frame.now pools.now → MeasuresStatics frame.now off pools.now result }
{
    let bytes = frame.bytes();
    let at = off as usize;
    if off < frame.data_off() || at > bytes.len() {
        return None;
    }
    pools.numbering().is_numbering();
    let (count, values) = ValueChecker { bytes, pools }.array_measure(at, MOST_DEPTH)?;
    Some(StaticsShape {
        count,
        size: values.size as u32,
        weight: if count == 0 { 0 } else { 6 + values.weight },
    })
}

/// Checks the encoded_array_item at an offset: the initial values of the static fields of a class. Nothing is kept, and
/// no memory is allocated.
///
/// Error: `Refused(21)` exactly if [`read_statics`](crate::read_statics) refuses the values.
///
/// Source: "encoded_array_item".
pub fn check_statics(
    frame: &Frame<'_>,
    pools: &Pools<'_>,
    off: u32,
) -> Result<StaticsShape, ItemFault>
    ensures values { ArePools frame.now pools.now
        → IfOk result (HasStaticsShape frame.now off pools.now) }
    ensures refused { ArePools frame.now pools.now → IfErr result (IsStaticsFault frame.now off) }
    ensures number { IfErr result (λ fault. fault ≡ Refused 21) }
{
    statics_shape(frame, pools, off).ok_or(ItemFault::Refused(Condition::Values as u8))
}
