//! The texts of a file's string table.

ghost use Rattle.std.specs.Prelude.{ℕ, ◌<◌, IfOk};
ghost use Rattle.dexspec.specs.Header.{Table as SpecTable, table_size};
ghost use Rattle.dexspec.specs.Texts.{StringDataAt};

use dexhead::{Frame, Table, u32_at};
use dexstr::{Text, TextFault};
use std::alloc::{AllocError, Global};

/// Returns the text of a row, and the number of bytes of its item.
fn read_row<'a>(frame: &Frame<'a>, i: u32) -> Result<(Text<'a>, usize), TextFault>
    requires { i < table_size frame.now SpecTable.StringIds }
    ensures { IfOk result (λ x. (at : ℕ) × StringDataAt frame.now at x.0 x.1) }
{
    let row = frame.row(Table::StringIds, i);
    let off = u32_at(row, 0) as usize;
    let bytes = frame.bytes();
    if bytes.len() < off {
        return Err(TextFault::Short);
    }
    Text::read(bytes, off)
}

/// Returns the texts of all rows and the number of bytes of their items together, or the first row that has no text.
pub fn read_all<'a>(
    alloc: Global,
    frame: &Frame<'a>,
) -> Result<Result<(Vec<Text<'a>>, usize), u32>, AllocError> {
    let mut texts = Vec::new(alloc);
    let mut all = 0usize;
    for i in 0..frame.size(Table::StringIds) {
        match read_row(frame, i) {
            Ok((text, len)) => {
                texts.push(text)?;
                all = all.saturating_add(len);
            }
            Err(_) => return Ok(Err(i)),
        }
    }
    Ok(Ok((texts, all)))
}

/// Reads the text of each row once, and returns the number of bytes of the items.
pub fn read_each(frame: &Frame) -> u64 {
    let mut all = 0u64;
    for i in 0..frame.size(Table::StringIds) {
        if let Ok((_, len)) = read_row(frame, i) {
            all = all.wrapping_add(len as u64);
        }
    }
    all
}

/// Compares each text with the next, and counts where the next is greater.
pub fn rising(texts: &[Text]) -> u64 {
    let mut count = 0u64;
    for i in 1..texts.len() {
        if texts[i - 1].cmp(&texts[i]).is_lt() {
            count = count.wrapping_add(1);
        }
    }
    count
}
