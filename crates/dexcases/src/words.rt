//! Words of lines.

use crate::fault::CaseFault;

/// The first condition on classes. Of these any that fails may be reported, and of those before it the first that fails.
pub const FIRST_OF_CLASSES: u8 = 17;

/// Splits a line after its first word.
///
/// Error: `Form` if the line has one word.
pub fn first_word(line: &str) -> Result<(&str, &str), CaseFault> {
    line.split_once(' ').ok_or(CaseFault::Form)
}

/// Returns the digits of a number, with a minus sign before those of a negative one, as a line has them.
///
/// Error: `Form` if the number has a plus sign, or a zero before other digits. Whether the rest is a number is for its
/// caller to see.
pub fn number(word: &str) -> Result<&str, CaseFault> {
    let digits = word.strip_prefix('-').unwrap_or(word);
    if digits.starts_with('+') || digits.starts_with('0') && word.len() > 1 {
        return Err(CaseFault::Form);
    }
    Ok(word)
}
