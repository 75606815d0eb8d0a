//! Annotations, with numbers instead of symbols.

ghost use Rattle.std.specs.Prelude.{◌≡◌};
ghost use Rattle.dexval.specs.Code.{visibility_of};

use crate::value::EncodedAnnotation;

/// The visibility of an annotation.
///
/// Source: "annotation_item", "Visibility values".
#[derive(Clone, Copy, Debug, PartialEq, Eq, Hash)]
pub enum Visibility {
    /// Tools at build time (0).
    Build,
    /// The program at run time (1).
    Runtime,
    /// The underlying system (2).
    System,
}

/// An annotation and its visibility.
///
/// Source: "annotation_item".
#[derive(Clone, Debug, Drop, PartialEq, Eq, Hash)]
pub struct Annotation {
    pub visibility: Visibility,
    pub annotation: EncodedAnnotation,
}

impl Visibility {
    /// The number of the visibility.
    pub(crate) fn number(self) -> u8
        ensures { result ≡ visibility_of self }
    {
        self as u8
    }
}
