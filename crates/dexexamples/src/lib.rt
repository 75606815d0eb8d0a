//! Worked examples of the definitions, each proved by computation. The expected numbers and bytes come from other
//! sources: the Android page, Adler-32's own examples, and files laid out by hand.
#![tactic(auto)]

pub mod accepted;
pub mod classes;
pub mod code;
pub mod files;
pub mod good;
pub mod leb128;
pub mod texts;
pub mod values;
