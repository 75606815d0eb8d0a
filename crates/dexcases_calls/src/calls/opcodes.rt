//! Opcodes: `OP FORMAT POOL MNEMONIC`, where POOL is the pool of the index, or `-` for none; or `OP -` if there is no
//! such instruction.

use dexcases::CaseFault;
use dexinsn::{Format, index_kind, mnemonic};
use dexpool::SymbolKind;
use std::alloc::{AllocError, Global};

/// Returns what is reported of an opcode in hexadecimal.
pub fn reported(alloc: Global, word: &str) -> Result<String, CaseFault> {
    let op = u8::from_str_radix(word, 16)?;
    let reported = match Format::of(op) {
        Some(format) => reported_of(alloc, format, op)?,
        None => String::from_str(alloc, mnemonic(op).unwrap_or("-"))?,
    };
    Ok(reported)
}

// Returns the format, the pool and the mnemonic of an instruction.
fn reported_of(alloc: Global, format: Format, op: u8) -> Result<String, AllocError> {
    let format = format!(in alloc; "{format:?}")?;
    let digits = format.as_str().strip_prefix("Format").unwrap_or("-");
    let pool = match index_kind(op) {
        Some(SymbolKind::Text) => "strings",
        Some(SymbolKind::Typ) => "types",
        Some(SymbolKind::Proto) => "protos",
        Some(SymbolKind::Field) => "fields",
        Some(SymbolKind::Method) => "methods",
        None => "-",
    };
    let name = mnemonic(op).unwrap_or("-");
    format!(in alloc; "{digits} {pool} {name}")
}
