//! Encoded values at an offset: the bytes determine the value and its size.
ghost use Rattle.std.specs.Prelude.{ℕ, List, length};
ghost use Rattle.dexspec.specs.Values.{count_values, names_of, ValueAt, ValuesAt, ElementsAt, EncodedArrayAt, EncodedArrayItemAt};
ghost use Rattle.dexlaws.specs.Items.{IsDetermined, IsDeterminedByCount, IsAnnotationDetermined, EncodedValueInDataAt};

/// There is at most one encoded value at an offset, in one size.
pub fn value_is_determined()
    ensures { IsDetermined ValueAt }
{}

/// There is at most one encoded value at an offset of the data, and at most one encoded array, in one size.
pub fn value_in_data_is_determined()
    ensures value { IsDetermined EncodedValueInDataAt }
    ensures array { IsDetermined EncodedArrayItemAt }
{}

/// There is at most one run of a given number of values at an offset, in one size, and at most one run of a given
/// number of elements of an annotation.
pub fn members_are_determined()
    ensures values { IsDeterminedByCount count_values ValuesAt }
    ensures elements { IsDeterminedByCount (λ es. length (names_of es)) ElementsAt }
{}

/// There is at most one encoded array at an offset, in one size.
pub fn encoded_array_is_determined()
    ensures { IsDetermined EncodedArrayAt }
{}

/// There is at most one encoded annotation at an offset, of one type and in one size.
pub fn encoded_annotation_is_determined()
    ensures { (b : List ℕ) (o : ℕ) → IsAnnotationDetermined b o }
{}
