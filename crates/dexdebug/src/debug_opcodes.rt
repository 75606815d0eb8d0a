//! The opcodes of debug programs, as the page names them.
//!
//! Source: "debug_info_item", "Byte code values".

pub(crate) const DBG_END_SEQUENCE: u8 = 0x00;

pub(crate) const DBG_ADVANCE_PC: u8 = 0x01;

pub(crate) const DBG_ADVANCE_LINE: u8 = 0x02;

pub(crate) const DBG_START_LOCAL: u8 = 0x03;

pub(crate) const DBG_START_LOCAL_EXTENDED: u8 = 0x04;

pub(crate) const DBG_END_LOCAL: u8 = 0x05;

pub(crate) const DBG_RESTART_LOCAL: u8 = 0x06;

pub(crate) const DBG_SET_PROLOGUE_END: u8 = 0x07;

pub(crate) const DBG_SET_EPILOGUE_BEGIN: u8 = 0x08;

pub(crate) const DBG_SET_FILE: u8 = 0x09;

/// The least special opcode.
pub(crate) const DBG_FIRST_SPECIAL: u8 = 0x0a;
