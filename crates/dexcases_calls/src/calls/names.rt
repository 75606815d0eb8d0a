//! Texts as names: `UNITS None MEMBER`, or, if the text is a type descriptor, `UNITS KIND MEMBER LETTER`. KIND is the
//! kind of the type, MEMBER is 1 if the text is a name of a member and 0 otherwise, and LETTER is the type's letter in
//! a shorty. The text is read from the item that encodes the units, and is put as that item.

ghost use Rattle.std.specs.Prelude.{◌≡◌, ◌++◌, IfOk, OnOk};
ghost use Rattle.dexspec.specs.Texts.{form, string_data};

use dexcases::CaseFault;
use dexleb::put_u;
use dexstr::{Text, descriptor_kind, is_member_name, put_text, shorty_letter};
use std::alloc::{AllocError, Global};

/// Returns what is reported of a text of these units.
pub fn reported(alloc: Global, units: &[u16]) -> Result<String, CaseFault> {
    let item = item_of(alloc, units)?;
    reported_in(alloc, &item)
}

// Returns what is reported of the text of an item.
//
// Error: `Failed` if the item has no text, or the text is put as another item.
fn reported_in(alloc: Global, item: &[u8]) -> Result<String, CaseFault> {
    let Ok((text, _)) = Text::read(item, 0) else {
        return Err(CaseFault::failed(alloc, "no text"));
    };
    if !is_put_as(alloc, &text, item)? {
        return Err(CaseFault::failed(alloc, "another item"));
    }
    Ok(reported_of(alloc, &text)?)
}

// Returns whether a text is put as these bytes.
fn is_put_as(alloc: Global, text: &Text<'_>, item: &[u8]) -> Result<bool, AllocError> {
    let mut put = Vec::new(alloc);
    put_text(text, &mut put)?;
    Ok(put.as_slice() == item)
}

// Returns what a text may name.
fn reported_of(alloc: Global, text: &Text<'_>) -> Result<String, AllocError> {
    let member = u8::from(is_member_name(text));
    match descriptor_kind(text) {
        Some(kind) => {
            let letter = shorty_letter(kind, text);
            match u8::try_from(letter) {
                Ok(letter) => {
                    let letter = char::from(letter);
                    format!(in alloc; "{kind:?} {member} {letter}")
                }
                Err(_) => format!(in alloc; "{kind:?} {member} {letter:04x}"),
            }
        }
        None => format!(in alloc; "None {member}"),
    }
}

// Returns the string_data_item of a text of these units.
fn item_of(alloc: Global, units: &[u16]) -> Result<Vec<u8>, CaseFault>
    ensures { IfOk result (λ item. item.items ≡ string_data units.now) }
{
    let count = match u32::try_from(units.len()) {
        Ok(count) => count,
        Err(_) => return Err(CaseFault::Form),
    };
    let mut item = Vec::new(alloc);
    put_u(count, &mut item)?;
    for &unit in units {
        put_unit(unit, &mut item)?;
    }
    item.push(0)?;
    Ok(item)
}

// Appends the MUTF-8 encoding of a unit.
fn put_unit(unit: u16, out: &mut Vec<u8>) -> Result<(), AllocError>
    ensures { OnOk result (out.new.items ≡ out.old.items ++ form unit) }
{
    let low = (unit % 64) as u8;
    let middle = (unit / 64 % 64) as u8;
    let high = (unit / 4096) as u8;
    match unit {
        0x01..=0x7f => out.push(unit as u8)?,
        0 | 0x80..=0x7ff => out.extend_from_slice(&[0xc0 + middle, 0x80 + low])?,
        _ => out.extend_from_slice(&[0xe0 + high, 0x80 + middle, 0x80 + low])?,
    }
    Ok(())
}
