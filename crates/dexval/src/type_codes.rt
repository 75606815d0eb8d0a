//! The type codes of values.
//!
//! Source: "encoded_value encoding", "Value formats".

pub(crate) const BYTE: u8 = 0x00;

pub(crate) const SHORT: u8 = 0x02;

pub(crate) const CHAR: u8 = 0x03;

pub(crate) const INT: u8 = 0x04;

pub(crate) const LONG: u8 = 0x06;

pub(crate) const FLOAT: u8 = 0x10;

pub(crate) const DOUBLE: u8 = 0x11;

pub(crate) const STRING: u8 = 0x17;

pub(crate) const TYPE: u8 = 0x18;

pub(crate) const FIELD: u8 = 0x19;

pub(crate) const METHOD: u8 = 0x1a;

pub(crate) const ENUM: u8 = 0x1b;

pub(crate) const ARRAY: u8 = 0x1c;

pub(crate) const ANNOTATION: u8 = 0x1d;

pub(crate) const NULL: u8 = 0x1e;

pub(crate) const BOOLEAN: u8 = 0x1f;
