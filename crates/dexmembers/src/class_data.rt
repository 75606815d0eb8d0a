//! Class data: the members that a class row declares, by their indices.

ghost use Rattle.std.specs.Prelude.{◌≤◌, ◌+◌, ◌∷◌, [], ℕ, length, IfOk, IfErr, IfSome, IfNone};
ghost use Rattle.dexspec.specs.Lists.{Sequence};
ghost use Rattle.dexspec.specs.Numbers.{Uleb128At};
ghost use Rattle.dexmembers.specs.internal.EncodedMembers.{AreCountsAt, ReadsDataAt, RefusesDataAt};
ghost use Rattle.dexmembers.specs.internal.ClassData.{ReadsData, RefusesData};

use crate::class_def::ClassDef;
use crate::encoded_lists::ClassReader;
use crate::encodings::number_at;
use dexhead::{Condition, Frame};
use dexpool::{ItemFault, Pools};
use std::alloc::Global;

/// A field of a list of class data: its index, and its access flags.
///
/// Source: "encoded_field format".
#[derive(Clone, Copy)]
pub(crate) struct EncodedField {
    pub(crate) index: u32,
    pub(crate) flags: u32,
}

/// A method of a list of class data: its index, its access flags, and the offset of its code, or 0.
///
/// Source: "encoded_method format".
#[derive(Clone, Copy)]
pub(crate) struct EncodedMethod {
    pub(crate) index: u32,
    pub(crate) flags: u32,
    pub(crate) code_off: u32,
}

/// The four lists of class data, each by index.
///
/// Source: "class_data_item".
#[derive(Drop)]
pub(crate) struct ClassData {
    pub(crate) static_fields: Vec<EncodedField>,
    pub(crate) instance_fields: Vec<EncodedField>,
    pub(crate) direct_methods: Vec<EncodedMethod>,
    pub(crate) virtual_methods: Vec<EncodedMethod>,
}

// How many static fields, instance fields, direct and virtual methods there are.
type Counts = (u32, u32, u32, u32);

// The four counts at a place, and how many bytes spell them.
fn read_counts(bytes: &[u8], at: usize) -> Option<(Counts, usize)>
    requires { at ≤ length bytes.now }
    ensures none { IfNone result ((c d e f n : ℕ)
        → Sequence Uleb128At bytes.now at (c ∷ d ∷ e ∷ f ∷ []) n → ⊥) }
    ensures some { IfSome result (λ x. AreCountsAt bytes.now at x.0 x.1) }
    ensures within { IfSome result (λ x. at + x.1 ≤ length bytes.now) }
{
    let (statics, first) = number_at(bytes, at)?;
    let (instances, second) = number_at(bytes, at + first)?;
    let (directs, third) = number_at(bytes, at + first + second)?;
    let (virtuals, fourth) = number_at(bytes, at + first + second + third)?;
    let counts = (statics, instances, directs, virtuals);
    Some((counts, first + second + third + fourth))
}

impl ClassReader<'_, '_> {
    // Reads the class data of the class at an offset.
    fn read_data(&self, at: usize) -> Result<ClassData, ItemFault>
        requires { at ≤ length self.now.bytes.now }
        ensures data { IfOk result (ReadsDataAt self.now at) }
        ensures fault { IfErr result (RefusesDataAt self.now at) }
    {
        let Some((counts, counts_size)) = read_counts(self.bytes, at) else {
            return Err(ItemFault::Refused(Condition::Members as u8));
        };
        let (statics, instances, directs, virtuals) = counts;
        let fields_at = at + counts_size;
        let (static_fields, instance_fields, fields_size) = self.read_lists::<EncodedField>(
            fields_at, statics, instances,
        )?;
        let methods_at = fields_at + fields_size;
        let (direct_methods, virtual_methods, _) = self.read_lists::<EncodedMethod>(
            methods_at, directs, virtuals,
        )?;
        Ok(ClassData {
            static_fields,
            instance_fields,
            direct_methods,
            virtual_methods,
        })
    }
}

/// Reads the members that a class row declares: those of its class_data_item, or none where its offset is 0.
///
/// What is said of the result is said of rows that meet condition 16. Error: `Refused(17)` exactly where the row's
/// class data is no such item in the data, an index of it is out of range, a member is not one of the class, or one is
/// in two lists; `Memory` where an allocation failed.
///
/// Source: "class_data_item", "encoded_field format", "encoded_method format".
pub(crate) fn read_class_data(
    alloc: Global,
    frame: &Frame<'_>,
    pools: &Pools<'_>,
    row: &ClassDef,
) -> Result<ClassData, ItemFault>
    ensures read { ReadsData frame.now pools.now row.now result }
    ensures refused { RefusesData frame.now pools.now row.now result }
{
    pools.numbering().is_numbering();
    let bytes = frame.bytes();
    let off = row.class_data_off;
    if off == 0 {
        return Ok(ClassData {
            static_fields: Vec::new(alloc),
            instance_fields: Vec::new(alloc),
            direct_methods: Vec::new(alloc),
            virtual_methods: Vec::new(alloc),
        });
    }
    if !frame.is_in_data(off, 1) {
        return Err(ItemFault::Refused(Condition::Members as u8));
    }
    let reader = ClassReader {
        alloc,
        pools,
        class: row.class_idx,
        bytes,
    };
    reader.read_data(off as usize)
}
