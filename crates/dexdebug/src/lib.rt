//! Debug programs: read, written, compared, and under other numbers.
//!
//! Of the definitions that its contracts use, read `specs/Debug` and `specs/Meaning` (debug programs with numbers for
//! symbols, and what they denote) and `specs/DebugReading` (when one is refused) first.
//!
//! Source: the Android page "Dalvik Executable format", under the heading "debug_info_item".
#![tactic(auto)]

pub use checked_debugs::{CheckedDebugs, checked_debug_at};
pub use debug::Debug;
pub use debug_laws::{
    debug_bytes_law, debug_equality_law, debug_meaning_law, debug_remapped_law, debug_renumber_law,
    debug_unindexed_law, debug_uses_law, operation_equality_law,
};
pub use debug_operation::Operation;
pub use debug_positions::positions;
pub use debug_put::put_debug;
pub use debug_reading::{DebugShape, build_debug, check_debug, read_debug};
pub use operations::{NameIter, OperationIter};

mod checked_debugs;
mod debug;
mod debug_equality;
mod debug_laws;
mod debug_numbers;
mod debug_opcodes;
mod debug_operation;
mod debug_positions;
mod debug_put;
mod debug_reading;
mod debug_same;
mod indices;
mod operations;
mod sharing;
