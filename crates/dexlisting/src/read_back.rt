//! The full listing shows all that a class has. The function does nothing: its contract is the law, for the callers that
//! cite it.

ghost use Rattle.dexlisting.specs.Laws.{FullLinesAreReadBack, FullListingsAreReadBack, DifferentClassesHaveDifferentLines, DifferentFilesHaveDifferentListings};

/// Well-formed classes with the same lines are the same, and so are lists of them with the same lines. So different classes
/// of one name in accepted files have different lines, and accepted files that denote different collections have different full
/// listings.
pub fn full_listing_law()
    ensures classes { FullLinesAreReadBack }
    ensures lists { FullListingsAreReadBack }
    ensures different_classes { DifferentClassesHaveDifferentLines }
    ensures different_files { DifferentFilesHaveDifferentListings }
{}
