//! Classes: the bytes determine annotations, class data and class rows.
ghost use Rattle.std.specs.Prelude.{ℕ, List};
ghost use Rattle.dexspec.specs.Annotations.{AnnotationAt, SetAt, RefListAt, DirectoryAt};
ghost use Rattle.dexspec.specs.ClassData.{EncodedFieldsAt, EncodedMethodsAt, ClassDataAt};
ghost use Rattle.dexlaws.specs.Denotes.{AreMembersDetermined, HasOneDefinition};
ghost use Rattle.dexlaws.specs.Items.{IsOne};

/// There is at most one annotation, one set, one list of sets and one directory at an offset.
pub fn annotations_are_determined()
    ensures annotation { IsOne AnnotationAt }
    ensures set { IsOne SetAt }
    ensures ref_list { IsOne RefListAt }
    ensures directory { IsOne DirectoryAt }
{}

/// There is at most one run of `count` encoded fields or methods at an offset, in one size, and at most one class data
/// item.
pub fn class_data_is_determined()
    ensures fields { AreMembersDetermined EncodedFieldsAt }
    ensures methods { AreMembersDetermined EncodedMethodsAt }
    ensures whole { IsOne ClassDataAt }
{}

/// A class row of a list of bytes denotes at most one definition.
pub fn class_row_is_determined()
    ensures { (b : List ℕ) (r : ℕ) → HasOneDefinition b r }
{}
