//! Reads values from a file.

ghost use Rattle.std.specs.Prelude.{IfOk, IfErr, ◌≡◌, ◌≢◌, ◌+◌, ◌-◌, ◌^◌, ◌<◌, ◌≤◌, length, slice_index, vec_capacity};
ghost use Rattle.dexpool.specs.Pools.{ArePools};
ghost use Rattle.dexval.specs.Reading.{IsValueFault, IsStaticsFault};
ghost use Rattle.dexval.specs.Results.{IsReadValue, AreReadStatics};
ghost use Rattle.dexspec.specs.Numbers.{Uleb128At};
ghost use Rattle.dexpool.specs.declared.faults.ItemFault.TheVariants.{Refused};
ghost use Rattle.dexval.specs.Code.{element_of};
ghost use Rattle.dexval.specs.Items.{Refuses};
ghost use Rattle.dexval.specs.Nesting.{HasPools, NoArrayAt, NoValuesAt, NoElementAt, NoElementsAt, NoAnnotationAt};
ghost use Rattle.dexval.specs.internal.Scalars.{NoValueAt};
ghost use Rattle.dexval.specs.internal.Room.{IsEmptyWithin};
ghost use Rattle.dexval.specs.internal.Found.{NoNumberAt, IsValueRead, IsArrayRead, AreValuesRead, IsElementRead, AreElementsRead, IsAnnotationRead};
ghost use Rattle.dexval.specs.internal.Tallies.{TalliesValue, TalliesValues, TalliesElement, TalliesElements, TalliesAnnotation};

use crate::scalars::{is_reference, scalar_at};
use crate::type_codes::{ANNOTATION, ARRAY};
use crate::value::{Element, EncodedAnnotation, Value};
use crate::value_checking::number_at;
use dexhead::{Condition, Frame};
use dexpool::{ItemFault, Pools, SymbolKind};
use std::alloc::{AllocError, Global};

// The maximum number of values for which capacity is reserved before they are read.
const MOST_AT_ONCE: usize = 4096;

/// An empty vector for `count` items that are still to be read from `left` bytes. Each item has at least one byte. So for
/// nested items a false count reserves little, and a true count reserves no more than needed.
pub(crate) fn with_room<T>(alloc: Global, count: u32, left: usize) -> Result<Vec<T>, AllocError>
    ensures count { IfOk result (λ items. vec_capacity items ≤ count) }
    ensures room { IfOk result (IsEmptyWithin left) }
{
    Vec::with_capacity(alloc, (count as usize).min(left).min(MOST_AT_ONCE))
}

/// What a reader adds up of the values that it reads.
#[derive(Clone, Copy)]
pub(crate) struct Tally {
    /// The number of bytes in the file.
    pub(crate) size: usize,
    /// The weight of the values, or 2^64 - 1 if they weigh more.
    pub(crate) weight: u64,
    /// `false` only if the values name no symbol.
    pub(crate) names_symbols: bool,
}

/// An item and its tally.
type Found<T> = Result<(T, Tally), ItemFault>;

/// Reads nested values from the bytes of a file, whose indices refer to its pools. Where an item is not there, the fault
/// is the refusal of the condition with this number.
#[derive(Clone, Copy)]
pub(crate) struct ValueReader<'r, 'p> {
    pub(crate) alloc: Global,
    pub(crate) bytes: &'r [u8],
    pub(crate) pools: &'r Pools<'p>,
    pub(crate) number: u8,
}

impl<'r, 'p> ValueReader<'r, 'p> {
    // The fault where an item is not there.
    fn refusal(&self) -> ItemFault
        ensures { result ≡ Refused self.now.number }
    {
        ItemFault::Refused(self.number)
    }

    // The unsigned number at an offset, and its size. Error: there is none.
    fn number_at(&self, at: usize) -> Result<(u32, usize), ItemFault>
        requires { at ≤ length self.now.bytes.now }
        ensures found { IfOk result (λ read. Uleb128At self.now.bytes.now at read.0 read.1) }
        ensures within { IfOk result (λ read. at + read.1 ≤ length self.now.bytes.now) }
        ensures refused { IfErr result
            (Refuses self.now.number (NoNumberAt self.now.bytes.now at)) }
    {
        number_at(self.bytes, at).ok_or(self.refusal())
    }

    /// The value at an offset, and its tally. Error: there is none that nests at most `depth` deep.
    // Inlined, so that a value that holds no other is read without a recursive call.
    #[cycle(reading)]
    #[inline(always)]
    pub(crate) fn value_at(&self, at: usize, depth: u32) -> Found<Value>
        ensures read { HasPools self.now.bytes.now self.now.pools.now
            → IfOk result (IsValueRead self.now.bytes.now at self.now.pools.now depth) }
        ensures refused { HasPools self.now.bytes.now self.now.pools.now → IfErr result
            (Refuses self.now.number (NoValueAt self.now.bytes.now at depth)) }
        ensures tallied { IfOk result TalliesValue }
        ensures within { IfOk result (λ read. at + read.1.size ≤ length self.now.bytes.now) }
    {
        if at >= self.bytes.len() {
            return Err(self.refusal());
        }
        match self.bytes[at] {
            ARRAY | ANNOTATION => self.nested_at(at, depth),
            first => {
                let Some((value, size)) = scalar_at(self.bytes, self.pools, at) else {
                    return Err(self.refusal());
                };
                let names_symbols = is_reference(first % 32);
                Ok((
                    value,
                    Tally {
                        size,
                        weight: 9,
                        names_symbols,
                    },
                ))
            }
        }
    }

    // The value at an offset that begins an array or an annotation, and its tally. Error: there is none that nests at
    // most `depth` deep.
    #[cycle(reading)]
    fn nested_at(&self, at: usize, depth: u32) -> Found<Value>
        requires within { at < length self.now.bytes.now }
        requires annotation { slice_index self.now.bytes.now at ≢ 0x1c
            → slice_index self.now.bytes.now at ≡ 0x1d }
        ensures read { HasPools self.now.bytes.now self.now.pools.now
            → IfOk result (IsValueRead self.now.bytes.now at self.now.pools.now depth) }
        ensures refused { HasPools self.now.bytes.now self.now.pools.now → IfErr result
            (Refuses self.now.number (NoValueAt self.now.bytes.now at depth)) }
        ensures tallied { IfOk result TalliesValue }
        ensures within { IfOk result (λ read. at + read.1.size ≤ length self.now.bytes.now) }
    {
        if depth == 0 {
            return Err(self.refusal());
        }
        if self.bytes[at] == ARRAY {
            let (values, tally) = self.array_at(at + 1, depth - 1)?;
            let tally = Tally {
                size: 1 + tally.size,
                weight: tally.weight.saturating_add(6),
                ..tally
            };
            return Ok((Value::Array(Box::new(self.alloc, values)?), tally));
        }
        let (annotation, tally) = self.annotation_at(at + 1, depth - 1)?;
        let annotation = Box::new(self.alloc, annotation)?;
        let tally = Tally {
            size: 1 + tally.size,
            ..tally
        };
        Ok((Value::Annotation(annotation), tally))
    }

    /// The values of the encoded_array at an offset, and its tally. Error: there is no array whose values nest at most
    /// `depth` deep.
    #[cycle(reading)]
    pub(crate) fn array_at(&self, at: usize, depth: u32) -> Found<Vec<Value>>
        requires { at ≤ length self.now.bytes.now }
        ensures read { HasPools self.now.bytes.now self.now.pools.now
            → IfOk result (IsArrayRead self.now.bytes.now at self.now.pools.now depth) }
        ensures refused { HasPools self.now.bytes.now self.now.pools.now → IfErr result
            (Refuses self.now.number (NoArrayAt self.now.bytes.now at depth)) }
        ensures tallied { IfOk result TalliesValues }
        ensures within { IfOk result (λ read. at + read.1.size ≤ length self.now.bytes.now) }
    {
        let (count, head) = self.number_at(at)?;
        let empty = with_room(self.alloc, count, self.bytes.len() - (at + head))?;
        let (values, tally) = self.values_at(at + head, depth, count, empty)?;
        let tally = Tally {
            size: head + tally.size,
            ..tally
        };
        Ok((values, tally))
    }

    // Reads `count` values from an offset on into an empty vector. Returns them and their tally. Error: there are no
    // such values that nest at most `depth` deep.
    #[cycle(reading)]
    fn values_at(
        &self,
        at: usize,
        depth: u32,
        count: u32,
        mut values: Vec<Value>,
    ) -> Found<Vec<Value>>
        requires within { at ≤ length self.now.bytes.now }
        requires room { IsEmptyWithin (length self.now.bytes.now - at) values }
        ensures read { HasPools self.now.bytes.now self.now.pools.now
            → IfOk result (AreValuesRead self.now.bytes.now at self.now.pools.now depth count) }
        ensures refused { HasPools self.now.bytes.now self.now.pools.now → IfErr result
            (Refuses self.now.number (NoValuesAt self.now.bytes.now at depth count)) }
        ensures tallied { IfOk result TalliesValues }
        ensures within { IfOk result (λ read. at + read.1.size ≤ length self.now.bytes.now) }
    {
        let mut size = 0;
        let mut weight: u64 = 0;
        let mut names_symbols = false;
        for _i in 0..count {
            let (value, tally) = self.value_at(at + size, depth)?;
            values.push(value)?;
            size += tally.size;
            weight = weight.saturating_add(tally.weight);
            names_symbols |= tally.names_symbols;
        }
        Ok((
            values,
            Tally {
                size,
                weight,
                names_symbols,
            },
        ))
    }

    // The element at an offset, and its tally. Error: there is no element whose name has at least the number `least`
    // and whose value nests at most `depth` deep.
    #[cycle(reading)]
    fn element_at(&self, at: usize, depth: u32, least: u64) -> Found<Element>
        requires { at ≤ length self.now.bytes.now }
        ensures read { HasPools self.now.bytes.now self.now.pools.now
            → IfOk result (IsElementRead self.now.bytes.now at self.now.pools.now depth least) }
        ensures refused { HasPools self.now.bytes.now self.now.pools.now → IfErr result
            (Refuses self.now.number (NoElementAt self.now.bytes.now at depth least)) }
        ensures name { IfOk result (λ read. (element_of read.0).0 < 2 ^ 32) }
        ensures tallied { IfOk result TalliesElement }
        ensures within { IfOk result (λ read. at + read.1.size ≤ length self.now.bytes.now) }
    {
        let (name, head) = self.number_at(at)?;
        if u64::from(name) < least || name as usize >= self.pools.len(SymbolKind::Text) {
            return Err(self.refusal());
        }
        let (value, tally) = self.value_at(at + head, depth)?;
        let tally = Tally {
            size: head + tally.size,
            weight: tally.weight.saturating_add(5),
            names_symbols: true,
        };
        Ok((Element { name, value }, tally))
    }

    // Reads `count` elements from an offset on into an empty vector. Returns them and their tally. Error: there are no
    // such elements whose names rise strictly and whose values nest at most `depth` deep.
    #[cycle(reading)]
    fn elements_at(
        &self,
        at: usize,
        depth: u32,
        count: u32,
        mut elements: Vec<Element>,
    ) -> Found<Vec<Element>>
        requires within { at ≤ length self.now.bytes.now }
        requires room { IsEmptyWithin (length self.now.bytes.now - at) elements }
        ensures read { HasPools self.now.bytes.now self.now.pools.now
            → IfOk result (AreElementsRead self.now.bytes.now at self.now.pools.now depth count) }
        ensures refused { HasPools self.now.bytes.now self.now.pools.now → IfErr result
            (Refuses self.now.number (NoElementsAt self.now.bytes.now at depth count)) }
        ensures tallied { IfOk result TalliesElements }
        ensures within { IfOk result (λ read. at + read.1.size ≤ length self.now.bytes.now) }
    {
        let mut size = 0;
        let mut weight: u64 = 0;
        let mut least = 0;
        for _i in 0..count {
            let (element, tally) = self.element_at(at + size, depth, least)?;
            least = u64::from(element.name) + 1;
            elements.push(element)?;
            size += tally.size;
            weight = weight.saturating_add(tally.weight);
        }
        let names_symbols = true;
        Ok((
            elements,
            Tally {
                size,
                weight,
                names_symbols,
            },
        ))
    }

    /// The encoded_annotation at an offset, and its tally. Error: there is none whose values nest at most `depth` deep.
    #[cycle(reading)]
    pub(crate) fn annotation_at(&self, at: usize, depth: u32) -> Found<EncodedAnnotation>
        requires { at ≤ length self.now.bytes.now }
        ensures read { HasPools self.now.bytes.now self.now.pools.now
            → IfOk result (IsAnnotationRead self.now.bytes.now at self.now.pools.now depth) }
        ensures refused { HasPools self.now.bytes.now self.now.pools.now → IfErr result
            (Refuses self.now.number (NoAnnotationAt self.now.bytes.now at depth)) }
        ensures tallied { IfOk result TalliesAnnotation }
        ensures within { IfOk result (λ read. at + read.1.size ≤ length self.now.bytes.now) }
    {
        let (typ, first) = self.number_at(at)?;
        if typ as usize >= self.pools.len(SymbolKind::Typ) {
            return Err(self.refusal());
        }
        let (count, second) = self.number_at(at + first)?;
        let start = at + first + second;
        let empty = with_room(self.alloc, count, self.bytes.len() - start)?;
        let (elements, tally) = self.elements_at(start, depth, count, empty)?;
        let tally = Tally {
            size: first + second + tally.size,
            weight: tally.weight.saturating_add(12),
            names_symbols: true,
        };
        Ok((EncodedAnnotation { typ, elements }, tally))
    }
}

/// The maximum depth of nested values.
pub(crate) const MOST_DEPTH: u32 = 32;

/// Reads the encoded_value at an offset. Its indices refer to the pools, which are those of the file. Returns the value
/// and its size in bytes. A number may have any width up to that of its type; arrays and annotations nest at most 32
/// deep.
///
/// Errors: `Refused(21)` exactly if no such value is at the offset, inside the data: an unknown type code, a number of
/// too many bytes, an index that is out of range of its pool, names of elements that do not rise, or values that nest
/// deeper; `Memory` if an allocation failed.
///
/// Source: "encoded_value encoding", "encoded_array format" and "encoded_annotation format".
pub fn read_value(
    alloc: Global,
    frame: &Frame<'_>,
    pools: &Pools<'_>,
    off: u32,
) -> Result<(Value, u32), ItemFault>
    ensures value { ArePools frame.now pools.now
        → IfOk result (IsReadValue frame.now off pools.now) }
    ensures refused { ArePools frame.now pools.now → IfErr result (IsValueFault frame.now off) }
{
    if off < frame.data_off() {
        return Err(ItemFault::Refused(Condition::Values as u8));
    }
    pools.numbering().is_numbering();
    let reader = ValueReader {
        alloc,
        bytes: frame.bytes(),
        pools,
        number: Condition::Values as u8,
    };
    let (value, tally) = reader.value_at(off as usize, MOST_DEPTH)?;
    Ok((value, tally.size as u32))
}

/// Reads the encoded_array_item at an offset, as [`read_statics`] does. Returns the values and their tally.
pub(crate) fn tallied_statics(
    alloc: Global,
    frame: &Frame<'_>,
    pools: &Pools<'_>,
    off: u32,
) -> Result<(Vec<Value>, Tally), ItemFault>
    ensures values { ArePools frame.now pools.now
        → IfOk result (λ read. AreReadStatics frame.now off pools.now read.0) }
    ensures tallied { IfOk result TalliesValues }
    ensures refused { ArePools frame.now pools.now → IfErr result (IsStaticsFault frame.now off) }
{
    let bytes = frame.bytes();
    let at = off as usize;
    if off < frame.data_off() || at > bytes.len() {
        return Err(ItemFault::Refused(Condition::Values as u8));
    }
    pools.numbering().is_numbering();
    let reader = ValueReader {
        alloc,
        bytes,
        pools,
        number: Condition::Values as u8,
    };
    reader.array_at(at, MOST_DEPTH)
}

/// Reads the encoded_array_item at an offset: the initial values of the static fields of a class.
///
/// Errors: as [`read_value`]; each of the values may nest 32 deep.
///
/// Source: "encoded_array_item".
pub fn read_statics(
    alloc: Global,
    frame: &Frame<'_>,
    pools: &Pools<'_>,
    off: u32,
) -> Result<Vec<Value>, ItemFault>
    ensures values { ArePools frame.now pools.now
        → IfOk result (AreReadStatics frame.now off pools.now) }
    ensures refused { ArePools frame.now pools.now → IfErr result (IsStaticsFault frame.now off) }
{
    let (values, _) = tallied_statics(alloc, frame, pools, off)?;
    Ok(values)
}
