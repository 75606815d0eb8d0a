//! Numbers put: `u NUMBER HEX`, `s NUMBER HEX` or `p1 NUMBER HEX`; a number of the last kind may be `none`.

ghost use Rattle.std.specs.Prelude.{◌<◌, ◌^◌, IfOk};
ghost use Rattle.dexspec.specs.Numbers.{plus_one};

use dexcases::{CaseFault, number};
use dexleb::{put_p1, put_s, put_u};
use std::alloc::Global;

/// Returns the bytes that a call puts for a number, in hexadecimal.
pub fn reported(alloc: Global, call: &str, word: &str) -> Result<String, CaseFault> {
    let mut bytes = Vec::new(alloc);
    match call {
        "u" => put_u(number(word)?.parse()?, &mut bytes)?,
        "s" => put_s(number(word)?.parse()?, &mut bytes)?,
        "p1" => put_p1(number_or_none(word)?, &mut bytes)?,
        _ => return Err(CaseFault::Form),
    }
    Ok(hex::encode(alloc, bytes.as_slice())?)
}

// Returns the number that a word denotes, which is below 2^32 - 1, or none.
fn number_or_none(word: &str) -> Result<Option<u32>, CaseFault>
    ensures { IfOk result (λ number. plus_one number < 2 ^ 32) }
{
    if word == "none" {
        return Ok(None);
    }
    match number(word)?.parse()? {
        u32::MAX => Err(CaseFault::Form),
        index => Ok(Some(index)),
    }
}
