//! Lists of arguments: the argument `@FILE` is replaced by the lines of FILE. This is a rule of this project.

ghost use Rattle.std.specs.Prelude.{◌≡◌, ◌≤◌, map, length, string_bytes, IfOk, IfErr, OnOk, option_map};
ghost use Rattle.std.specs.Str.{IsUtf8};
ghost use Rattle.dexargs.specs.Lists.{list_arguments, named_list, is_separator, asks_for_null, ending_of, end_byte, line_number, IsListFault};
ghost use Rattle.dexargs.specs.declared.lists.Ending.TheVariants.{Line, Null};
ghost use Rattle.dexargs.specs.declared.lists.ListFault.TheVariants.{Memory};

use std::alloc::{AllocError, Global};
use std::str::from_utf8;

/// What ends each name in a list of arguments.
#[derive(Clone, Copy, Debug, PartialEq, Eq)]
pub enum Ending {
    /// A line feed, or a carriage return and a line feed.
    Line,
    /// A zero byte.
    Null,
}

/// Why the bytes of a list encode no arguments.
#[derive(Clone, Copy, Debug, PartialEq, Eq)]
pub enum ListFault {
    /// The bytes are not UTF-8, first so in the line of this number, from 1.
    NotUtf8(usize),
    /// Allocation failed.
    Memory,
}

impl From<AllocError> for ListFault {
    ghost from_gives = { λ _ e. e ≡ Memory };

    fn from(_error: AllocError) -> ListFault {
        ListFault::Memory
    }
}

/// Returns the name of the list that an argument names: the text after its `@`. Returns `None` if the argument does not
/// begin with `@` or ends after it; `./@name` is a file of that name.
pub fn list_name(argument: &str) -> Option<&str>
    ensures { option_map (λ name. name.now) result ≡ named_list argument.now }
{
    let name = argument.strip_prefix('@')?;
    if name.is_empty() {
        return None;
    }
    Some(name)
}

/// Returns whether an argument is `--`: those after it are names of files, and name no list.
pub fn is_separator(argument: &str) -> bool
    ensures { result ≡ is_separator argument.now }
{
    argument == "--"
}

// Returns whether an argument asks for names that end with a zero byte.
fn asks_for_null(argument: &str) -> bool
    ensures { result ≡ asks_for_null argument.now }
{
    argument == "-z" || argument == "--null"
}

/// Returns how names end in the lists of arguments: with a zero byte if `-z` or `--null` is one of them, before `--`.
pub fn ending_of(arguments: &[String]) -> Ending
    ensures { result ≡ ending_of (map string_bytes arguments.now) }
{
    for argument in arguments {
        let text = argument.as_str();
        if is_separator(text) {
            return Ending::Line;
        }
        if asks_for_null(text) {
            return Ending::Null;
        }
    }
    Ending::Line
}

fn end_byte(ending: Ending) -> u8
    ensures { result ≡ end_byte ending }
{
    match ending {
        Ending::Line => b'\n',
        Ending::Null => 0,
    }
}

// Returns the number of the line that a place is in, from 1.
fn line_number(ending: Ending, bytes: &[u8], place: usize) -> usize
    requires { place ≤ length bytes.now }
    ensures { result ≡ line_number ending bytes.now place }
{
    let end = end_byte(ending);
    let before = &bytes[..place];
    1 + before.iter().filter(|byte| **byte == end).count()
}

// Returns the lines of a text that are not empty, in order.
fn arguments_of_lines(alloc: Global, text: &str) -> Result<Vec<String>, AllocError>
    ensures { IfOk result (λ arguments. map string_bytes arguments.items
        ≡ list_arguments Line text.now) }
{
    let mut arguments = Vec::new(alloc);
    for line in text.lines() {
        if !line.is_empty() {
            arguments.push(String::from_str(alloc, line)?)?;
        }
    }
    Ok(arguments)
}

// Returns what is between the zero bytes of a text and is not empty, in order.
fn arguments_between_zeros(alloc: Global, text: &str) -> Result<Vec<String>, AllocError>
    ensures { IfOk result (λ arguments. map string_bytes arguments.items
        ≡ list_arguments Null text.now) }
{
    let mut arguments = Vec::new(alloc);
    for name in text.split('\0') {
        if !name.is_empty() {
            arguments.push(String::from_str(alloc, name)?)?;
        }
    }
    Ok(arguments)
}

/// Returns the arguments that the bytes of a list encode: its lines that are not empty, in order, unchanged. A line
/// ends at a line feed, or at a carriage return and a line feed; with `Null`, at a zero byte alone.
///
/// Error: `NotUtf8` if the bytes are not UTF-8, with the number of the first line that is not; `Memory` if allocation
/// failed.
pub fn arguments_in(alloc: Global, ending: Ending, bytes: &[u8]) -> Result<Vec<String>, ListFault>
    ensures listed { IfOk result (λ arguments. map string_bytes arguments.items
        ≡ list_arguments ending bytes.now) }
    ensures text { OnOk result (IsUtf8 bytes.now) }
    ensures refused { IfErr result (IsListFault ending bytes.now) }
{
    let text = match from_utf8(bytes) {
        Ok(text) => text,
        Err(fault) => {
            let line = line_number(ending, bytes, fault.valid_up_to());
            return Err(ListFault::NotUtf8(line));
        }
    };
    let arguments = match ending {
        Ending::Line => arguments_of_lines(alloc, text)?,
        Ending::Null => arguments_between_zeros(alloc, text)?,
    };
    Ok(arguments)
}
