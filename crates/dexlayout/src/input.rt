//! What is laid out.

ghost use Rattle.std.specs.Prelude.{length, slice_index_or, ◌<◌, ◌≡◌};
ghost use Rattle.dexmembers.specs.Numbered.{methods_of};

use crate::use_numbers::UseNumbers;
use dexclass::Class;
use dexmembers::{Members, Method};
use dexpool::Numbering;
use dexval::AnnotationSet;
use std::alloc::Global;

/// The classes of a file over a numbering; and of the annotation sets that they share those that are written, and for
/// each use the number of its set.
#[derive(Clone, Copy)]
pub(crate) struct Input<'p, 'a> {
    pub(crate) alloc: Global,
    pub(crate) numbering: &'p Numbering<'a>,
    pub(crate) classes: &'p [Class<'a>],
    pub(crate) written: &'p [&'p AnnotationSet],
    pub(crate) numbers: &'p UseNumbers,
}

/// The method at a place of those that a class declares, the direct ones first.
///
/// Condition: it declares more methods than that.
pub(crate) fn method_at<'m, 'a>(members: &'m Members<'a>, place: usize) -> Method<'m, 'a>
    requires { place < length (methods_of members.now) }
    ensures { result ≡ slice_index_or (methods_of members.now) place result }
{
    let direct = members.direct_methods();
    if place < direct.len() {
        return direct.get(place);
    }
    members.virtual_methods().get(place - direct.len())
}
