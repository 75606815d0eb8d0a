//! Texts of what calls return.

use std::alloc::{AllocError, Global};
use std::fmt;

/// A text that is printed piece by piece. After a failed allocation nothing more is added, and
/// [`finish`](Printed::finish) returns the failure.
#[derive(Drop)]
pub struct Printed {
    text: String,
    is_lost: bool,
}

impl Printed {
    /// Returns an empty text.
    pub fn new(alloc: Global) -> Printed {
        Printed {
            text: String::new(alloc),
            is_lost: false,
        }
    }

    /// Adds a text.
    pub fn add(&mut self, text: &str) {
        if !self.is_lost {
            self.is_lost = self.text.push_str(text).is_err();
        }
    }

    /// Adds an item as its `Display` prints it.
    pub fn add_shown<T: fmt::Display>(&mut self, item: &T) {
        if !self.is_lost {
            self.is_lost = write!(self.text, "{item}").is_err();
        }
    }

    /// Adds a number in hexadecimal, with at least `digits` digits.
    pub fn add_hex(&mut self, number: u64, digits: usize) {
        if !self.is_lost {
            self.is_lost = write!(self.text, "{number:0digits$x}").is_err();
        }
    }

    /// Adds a unit of a text: 0x20 to 0x7e as a character, with `\` before `"` and `\`; any other unit as `\u` and four
    /// digits.
    pub fn add_unit(&mut self, unit: u16) {
        match u8::try_from(unit) {
            Ok(byte @ 0x20..=0x7e) => {
                if matches!(byte, b'"' | b'\\') {
                    self.add("\\");
                }
                self.add_shown(&char::from(byte));
            }
            _ => {
                self.add("\\u");
                self.add_hex(u64::from(unit), 4);
            }
        }
    }

    /// Adds the address and the line of each position of a debug program, `ADDRESS:LINE,ADDRESS:LINE,..`, or `-` if
    /// there are none.
    pub fn add_positions(&mut self, positions: &[(u64, i64)]) {
        if positions.is_empty() {
            self.add("-");
        }
        let mut mark = "";
        for (address, line) in positions {
            self.add(mark);
            self.add_shown(address);
            self.add(":");
            self.add_shown(line);
            mark = ",";
        }
    }

    /// Returns the whole text.
    ///
    /// Error: `AllocError` if an allocation failed in any of the calls before.
    pub fn finish(self) -> Result<String, AllocError> {
        let Printed { text, is_lost } = self;
        if is_lost {
            return Err(AllocError);
        }
        Ok(text)
    }
}
