//! Sets of annotations.

ghost use Rattle.std.specs.Prelude.{◌≡◌, ◌↔◌, IsTrue, [], map};
ghost use Rattle.dexval.specs.Code.{annotation_of, set_of};

use crate::annotation::Annotation;
use std::alloc::Global;

/// The annotations of a class, of a member or of a parameter, by type.
///
/// Source: "annotation_set_item".
#[derive(Clone, Debug, Drop)]
pub struct AnnotationSet {
    pub(crate) annotations: Vec<Annotation>,
}

impl AnnotationSet {
    /// A set without annotations.
    pub fn empty(alloc: Global) -> AnnotationSet
        ensures { set_of result ≡ [] }
    {
        AnnotationSet {
            annotations: Vec::new(alloc),
        }
    }

    /// Returns whether the set has no annotation.
    pub fn is_empty(&self) -> bool
        ensures { IsTrue result ↔ (set_of self.now ≡ []) }
    {
        self.annotations.is_empty()
    }

    /// The annotations, by type.
    pub fn annotations(&self) -> &[Annotation]
        ensures { map annotation_of result.now ≡ set_of self.now }
    {
        &self.annotations
    }
}
