//! LEB128: numbers as one to five bytes of seven bits each, the lowest group first, the top bit set in each byte but
//! the last. Three kinds are read and written: unsigned, signed, and unsigned plus one, where 0 encodes no number.
//!
//! A reader accepts encodings that are longer than needed if the exact value is in the range of its 32-bit type. A
//! writer appends the shortest encoding.
//!
//! Its contracts use the definitions of `specs/Leb`.
//!
//! Source: the heading "LEB128" of the Android page "Dalvik Executable format".
#![tactic(auto)]

pub use put::{len_s, len_u, put_p1, put_s, put_u};
pub use read::{LebFault, read_p1, read_s, read_u};

mod put;
mod read;

/// The maximum length of a number in bytes.
const MAX_LEN: usize = 5;
