//! Access flags as text: `class NUMBER TEXT`, `field NUMBER TEXT` or `method NUMBER TEXT`, with the number in
//! hexadecimal.

use dexcases::CaseFault;
use dexflags::{ClassFlags, FieldFlags, MethodFlags};
use std::alloc::Global;

/// Returns the text of the access flags of an item, whose number is in hexadecimal.
pub fn reported(alloc: Global, item: &str, number: &str) -> Result<String, CaseFault> {
    let bits = u32::from_str_radix(number, 16)?;
    let mut text = Vec::new(alloc);
    match item {
        "class" => ClassFlags::from_bits_retain(bits).put_flags(&mut text)?,
        "field" => FieldFlags::from_bits_retain(bits).put_flags(&mut text)?,
        "method" => MethodFlags::from_bits_retain(bits).put_flags(&mut text)?,
        _ => return Err(CaseFault::Form),
    }
    Ok(String::from_utf8_lossy(alloc, &text)?)
}
