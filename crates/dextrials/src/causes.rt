//! Comparison of causes.

use dexmerge::MergeFault;
use dexruns::MergeCause;

/// Returns whether both causes are the same.
pub fn is_same(cause: &MergeFault, other: &MergeFault) -> bool {
    match (cause, other) {
        (MergeFault::Conflict(name), MergeFault::Conflict(other))
        | (MergeFault::Cycle(name), MergeFault::Cycle(other)) => name.text() == other.text(),
        (MergeFault::Cap(cap), MergeFault::Cap(other)) => cap == other,
        _ => false,
    }
}

/// Returns whether a run reported this cause.
pub fn is_reported(cause: &MergeFault, reported: &MergeCause) -> bool {
    match (cause, reported) {
        (MergeFault::Conflict(name), MergeCause::Conflict(reported))
        | (MergeFault::Cycle(name), MergeCause::Cycle(reported)) => name.text() == reported.text(),
        (MergeFault::Cap(cap), MergeCause::Cap(reported)) => cap == reported,
        _ => false,
    }
}
