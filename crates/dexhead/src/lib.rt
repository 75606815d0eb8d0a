//! The first things that are read of a file and the last that are written: the checksum and the
//! signature, the header and the map.
//!
//! Of the definitions that its contracts use, read `specs/Conditions` (which condition a refusal names),
//! and `specs/Written` (the bytes of a header and a map) first.
#![tactic(auto)]

mod condition;
mod frame;
mod head;
mod header;
pub mod laws;
mod map;
mod map_list;
mod refusal;
mod sections;
mod stream;
mod sums;
mod tables;
mod whole;

pub use condition::Condition;
pub use dexio::{
    Count, Device, DeviceFault, Encode, Output, Sink, Source, encode_all, encoded_len, put_encoded,
    put_u16, put_u32, put_with_len, u16_at, u32_at, write_whole,
};
pub use frame::Frame;
pub use head::{Head, Rows};
pub use map_list::{MapEntry, MapList};
pub use refusal::Refusal;
pub use sections::Section;
pub use stream::Adler;
pub use sums::set_sums;
pub use tables::Table;
pub use whole::adler;
