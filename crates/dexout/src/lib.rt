//! Output to a device through a buffer, and what is printed: texts and numbers.
//!
//! Of the definitions that its contracts use, read `specs/Output` (what an output has after a write), `specs/Printed`
//! (texts and numbers as they are printed) and `specs/Written` first.
#![tactic(auto)]

mod faults;
mod numbers;
mod output;
mod texts;
mod writer;

pub use faults::StoreFault;
pub use numbers::{encode_count, encode_hexadecimal, encode_place};
pub use output::{Out, Target};
pub use texts::{UnitText, encode_quoted, encode_text, unit_text};
pub use writer::Writer;
