//! Writes values, annotations and sets of annotations.

ghost use Rattle.std.specs.Prelude.{◌<◌, ◌≤◌, length, IsOk, ◌≡◌, ℕ, ◌-◌, ◌^◌, List, min, ◌+◌, ◌*◌, All, map, vec_len, vec_capacity};
ghost use Rattle.dexspec.specs.Mentions.{Mentions};
ghost use Rattle.dexspec.specs.internal.Writing.{Puts};
ghost use Rattle.dexval.specs.Code.{value_of, annotation_of, values_of, set_of, set_from};
ghost use Rattle.dexval.specs.Spelled.{numbered_bytes, numbered_array_bytes, numbered_annotation_bytes, numbered_offsets, numbered_set_bytes};
ghost use Rattle.dexval.specs.Writing.{PutsValue, PutsStatics, PutsAnnotation, statics_length, annotation_length, weight_of_value, weight_of_statics, weight_of_annotation, HasRoom, HasRoomForStatics, IsAnnotationSize, PutsSet, HasRoomForSet};
ghost use Rattle.dexspec.specs.Spellings.{offsets_bytes};
ghost use Rattle.std.specs.List.{flat_map};
ghost use Rattle.dexspec.specs.Bytes.{uint};

use crate::encoding::ArrayItem;
use crate::{Annotation, AnnotationSet, Value};
use dexhead::{Output, encoded_len, put_encoded};
use dexpool::Numbering;
use std::alloc::AllocError;

/// Appends a value (an encoded_value) in its shortest encoding: each number and each index in the fewest bytes, and the
/// contents in their order.
///
/// On error the vector is unchanged. There is no error if the spare capacity is at least the weight of the value. An
/// array or an annotation of 2^32 members or more, which no file has, is put with the count 2^32 - 1, the greatest
/// count. A value that weighs less than 2^32 has none.
///
/// Source: "encoded_value encoding", "encoded_array format" and "encoded_annotation format".
#[tactic(auto, using(crate::proofs::Spelling::size_is, crate::proofs::Weights::weight_is))]
pub fn put_value(
    value: &Value,
    numbering: &Numbering<'_>,
    out: &mut Vec<u8>,
) -> Result<(), AllocError>
    ensures bytes { Puts (numbered_bytes (value_of value.now)) out.old out.new result }
    ensures symbolic { PutsValue numbering.now (value_of value.now) out.old out.new result }
    ensures bound { (m : Mentions)
        → length (numbered_bytes (value_of value.now)) ≤ weight_of_value m value.now }
    ensures room { (m : Mentions) → HasRoom out.old (weight_of_value m value.now) → IsOk result }
{
    numbering.is_numbering();
    put_encoded(value, out)
}

/// Appends the initial values of static fields (an encoded_array_item), each as [`put_value`] does.
///
/// On error the vector is unchanged. There is no error if the spare capacity is at least the weight of the values, and
/// there is a value. 2^32 values or more, and arrays and annotations of that many members among them, which no file
/// has, are put with the count 2^32 - 1, as [`put_value`] does.
///
/// Source: "encoded_array_item" and "encoded_array format".
pub fn put_statics(
    values: &[Value],
    numbering: &Numbering<'_>,
    out: &mut Vec<u8>,
) -> Result<(), AllocError>
    ensures bytes { Puts (numbered_array_bytes (values_of values.now)) out.old out.new result }
    ensures symbolic { PutsStatics numbering.now values.now out.old out.new result }
    ensures bound { (m : Mentions) → 0 < length values.now
        → statics_length values.now ≤ weight_of_statics m values.now }
    ensures room { (m : Mentions) → 0 < length values.now → HasRoomForStatics out.old m values.now
        → IsOk result }
{
    numbering.is_numbering();
    put_encoded(&ArrayItem(values), out)
}

/// Appends an annotation (an annotation_item): its visibility, its type, and its elements in their order, each value as
/// [`put_value`] does. The number of bytes is [`annotation_size`](crate::annotation_size).
///
/// On error the vector is unchanged. There is no error if the spare capacity is at least the weight of the annotation.
/// 2^32 elements or more, and arrays and annotations of that many members among them, which no file has, are put with
/// the count 2^32 - 1, as [`put_value`] does.
///
/// Source: "annotation_item" and "encoded_annotation format".
pub fn put_annotation(
    annotation: &Annotation,
    numbering: &Numbering<'_>,
    out: &mut Vec<u8>,
) -> Result<(), AllocError>
    ensures bytes { Puts
        (numbered_annotation_bytes (annotation_of annotation.now)) out.old out.new result }
    ensures symbolic { PutsAnnotation numbering.now
        (annotation_of annotation.now) out.old out.new result }
    ensures bound { (m : Mentions)
        → annotation_length annotation.now ≤ weight_of_annotation m annotation.now }
    ensures room { (m : Mentions) → HasRoom out.old (weight_of_annotation m annotation.now)
        → IsOk result }
{
    numbering.is_numbering();
    put_encoded(annotation, out)
}

/// The number of bytes that [`put_annotation`](crate::put_annotation) appends for the annotation, or 2^64 - 1 if they
/// are more. It is the size of the annotation that it denotes in a numbering.
///
/// Source: "annotation_item" and "encoded_annotation format".
pub fn annotation_size(annotation: &Annotation) -> u64
    ensures size { result
        ≡ min (2 ^ 64 - 1) (length (numbered_annotation_bytes (annotation_of annotation.now))) }
    ensures symbolic { IsAnnotationSize (annotation_of annotation.now) result }
{
    encoded_len(annotation) as u64
}

/// The size of an annotation_set_ref_list of these sets, wherever they are: four bytes, and four for each set.
///
/// Source: "annotation_set_ref_list".
pub fn ref_list_size(sets: &[AnnotationSet]) -> u64
    ensures { (offsets : List ℕ) → length offsets ≡ length sets.now
        → result ≡ length (offsets_bytes offsets) }
{
    4 + 4 * sets.len() as u64
}

// Writes the offset of each annotation: the first annotation is at `first`, and each other annotation is after the one
// before it.
fn encode_offsets<O: Output>(annotations: &[Annotation], first: u32, out: &mut O)
    requires { All (λ offset.
        offset < 2 ^ 32) (numbered_offsets first (map annotation_of annotations.now)) }
    ensures { O.gives
        (flat_map uint (numbered_offsets first (set_from annotations.now))) out.old out.new }
{
    let mut offset = u64::from(first);
    for annotation in annotations {
        out.u32(offset as u32);
        offset = offset.saturating_add(annotation_size(annotation));
    }
}

// Appends the count of annotations and the offset of each.
fn put_offsets(annotations: &[Annotation], first: u32, out: &mut Vec<u8>) -> Result<(), AllocError>
    requires { All (λ offset.
        offset < 2 ^ 32) (numbered_offsets first (map annotation_of annotations.now)) }
    ensures { Puts
        (numbered_set_bytes first (map annotation_of annotations.now)) out.old out.new result }
{
    out.reserve(4 + 4 * annotations.len())?;
    out.u32(annotations.len() as u32);
    encode_offsets(annotations, first, out);
    Ok(())
}

/// Appends the annotation_set_item of a set: the count of its annotations and the offset of each, in four bytes each.
/// The annotations are, by type, in sequence from offset `first` on, each as [`put_annotation`](crate::put_annotation)
/// appends it.
///
/// An empty set is put as a count of 0. The canonical file has no item for it, since an empty set and no set are the
/// same there: the caller leaves it out.
///
/// Condition: the offsets are below 2^32. On error the vector is unchanged. There is no error if the spare capacity is
/// at least four bytes and four for each annotation, or if the set has an annotation and the spare capacity is at least
/// its weight.
///
/// Source: "annotation_set_item" and "annotation_off_item".
pub fn put_set(
    set: &AnnotationSet,
    first: u32,
    out: &mut Vec<u8>,
    numbering: &Numbering<'_>,
) -> Result<(), AllocError>
    requires { All (λ offset. offset < 2 ^ 32) (numbered_offsets first (set_of set.now)) }
    ensures bytes { Puts (numbered_set_bytes first (set_of set.now)) out.old out.new result }
    ensures symbolic { PutsSet numbering.now first (set_of set.now) out.old out.new result }
    ensures bound { vec_len out.old + (4 + 4 * length (set_of set.now)) ≤ vec_capacity out.old
        → IsOk result }
    ensures most { length (numbered_set_bytes first (set_of set.now))
        ≤ 4 + 4 * length (set_of set.now) }
    ensures room { (m : Mentions) → 0 < length (set_of set.now) → HasRoomForSet out.old m set.now
        → IsOk result }
{
    numbering.is_numbering();
    put_offsets(set.annotations(), first, out)
}
