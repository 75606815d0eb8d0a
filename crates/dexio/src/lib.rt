//! Bytes that come and go: the devices that they come from and go to, the outputs that items are encoded to, and numbers
//! of 16 and 32 bits.
//!
//! Of the definitions that its contracts use, read `specs/OutputLaws` (bytes written one after the other) first; the
//! traits of the devices say in their contracts what a device does.
#![tactic(auto)]

mod device;
mod little_endian;
mod output;

pub use device::{Device, DeviceFault, Sink, Source, write_whole};
pub use little_endian::{put_u16, put_u32, u16_at, u32_at};
pub use output::{Count, Encode, Output, encode_all, encoded_len, put_encoded, put_with_len};
