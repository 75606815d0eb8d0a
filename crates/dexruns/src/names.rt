//! The names of files in lines.

ghost use Rattle.std.specs.Prelude.{◌≡◌, ◌++◌, All, false, IfOk, OnOk, MatchOption, string_bytes};
ghost use Rattle.dexruns.specs.Names.{is_control, escaped_name, name_in_form, IsFirstControl};

use crate::lines::{push_sign, push_signs};
use dexstr::escaped;
use std::alloc::{AllocError, Global};

/// How the name of a file is printed in a line.
///
/// Source: this project's rule.
#[derive(Clone, Copy, Debug, PartialEq, Eq)]
pub enum NameForm {
    /// With its control characters escaped, and then what follows in the line: so a name ends no line.
    Escaped,
    /// As it is, and then a zero byte in place of what follows.
    Null,
}

fn is_control(byte: u8) -> bool
    ensures { result ≡ is_control byte }
{
    byte < 0x20 || byte == 0x7f
}

// Returns the place of the first control character.
fn first_control(bytes: &[u8]) -> Option<usize>
    ensures { MatchOption result (escaped_name bytes.now ≡ bytes.now) (IsFirstControl bytes.now) }
{
    for i in 0..bytes.len() {
        if is_control(bytes[i]) {
            return Some(i);
        }
    }
    None
}

// Appends a name with its control characters escaped.
fn push_escaped(name: &str, text: &mut String) -> Result<(), AllocError>
    ensures { OnOk result (string_bytes text.new ≡ string_bytes text.old ++ escaped_name name.now) }
{
    let mut rest = name;
    while let Some(place) = first_control(rest.as_bytes()) {
        text.push_str(&rest[..place])?;
        push_signs(&escaped(u16::from(rest.as_bytes()[place])), text)?;
        rest = &rest[place + 1..];
    }
    text.push_str(rest)
}

/// Appends the name of a file and what follows it, as [`named`] returns them.
pub(crate) fn push_named(
    form: NameForm,
    name: &str,
    after: &str,
    text: &mut String,
) -> Result<(), AllocError>
    ensures { OnOk result (string_bytes text.new
        ≡ string_bytes text.old ++ name_in_form form name.now after.now) }
{
    match form {
        NameForm::Escaped => {
            push_escaped(name, text)?;
            text.push_str(after)
        }
        NameForm::Null => {
            text.push_str(name)?;
            push_sign(0, text)
        }
    }
}

/// Returns the name of a file as a line has it, and what follows it: with each control character below 0x20, and 0x7f,
/// as `\u` and its number in four hexadecimal digits, and then `after`; or as it is, and then a zero byte.
///
/// Error: an allocation failed.
///
/// Source: this project's rule.
#[tactic(auto, using(crate::proofs::NamesShown::plain_name))]
pub fn named(alloc: Global, form: NameForm, name: &str, after: &str) -> Result<String, AllocError>
    ensures named { IfOk result (λ text. string_bytes text ≡ name_in_form form name.now after.now) }
    ensures plain { All (λ byte. is_control byte ≡ false) (escaped_name name.now) }
{
    let mut text = String::new(alloc);
    push_named(form, name, after, &mut text)?;
    Ok(text)
}
