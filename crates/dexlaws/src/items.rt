//! The bytes of a file determine its items, and equal items are written once.
pub mod debug;
pub mod leb128;
pub mod rows;
pub mod sharing;
pub mod texts;
pub mod values;
pub mod widths;
