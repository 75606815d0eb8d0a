//! A reader of the texts of a file.

ghost use Rattle.std.specs.Prelude.{◌≡◌, ℕ, List, ◌≤◌, length, drop, IfOk, IfErr, IfSome, IfNone};
ghost use Rattle.dexspec.specs.Numbers.{BeginsWith};
ghost use Rattle.dexspec.specs.Texts.{IsStringData, StringDataAt};
ghost use Rattle.dexstr.specs.Faults.{IsFault};
ghost use Rattle.dexstr.specs.Units.{AfterUnits};
ghost use Rattle.dexstr.specs.internal.Runs.{last_bytes};

use crate::reading::{TextFault, first_count, first_text};
use crate::runs::{Block, blocks_of, run_from};
use crate::texts::Text;
use crate::units::skip_units;
use std::alloc::{AllocError, Global};
use std::marker::Model;

/// Reads texts of a file, wherever they lie. Texts may lie one within another, so that together they have many times
/// the bytes of the file: once they have more than the file, where units end is found for the whole file at once, and a
/// further text takes no longer the longer it is.
#[derive(Drop)]
pub struct TextReader<'a> {
    bytes: &'a [u8],
    unread: usize,
    blocks: Vec<Block>,
}

impl<'a> Model for TextReader<'a> {
    ghost use Rattle.std.specs.Prelude.{ℕ, List};
    ghost use Rattle.dexstr.specs.internal.Runs.{AreBlocks};

    ghost Value = { List ℕ };

    ghost view = { λ reader. reader.bytes.now };

    ghost invariant = { λ reader. AreBlocks reader.bytes.now reader.blocks.items };
}

impl<'a> TextReader<'a> {
    ghost use Rattle.dexspec.specs.Texts.{StringDataAt};

    /// A reader of the texts of these bytes, which has read none.
    pub fn new(alloc: Global, bytes: &'a [u8]) -> TextReader<'a>
        ensures { result ≡ bytes.now }
    {
        TextReader {
            bytes,
            unread: bytes.len(),
            blocks: Vec::new(alloc),
        }
    }

    /// Reads the text whose string_data_item begins at byte `at`, as [`Text::read`] does; `None` exactly where that
    /// fails.
    ///
    /// Condition: `at` is at most the number of bytes. Error: an allocation failed, of some three quarters of the file's
    /// bytes.
    pub fn read(&mut self, at: usize) -> Result<Option<Text<'a>>, AllocError>
        requires { at ≤ length self.old }
        ensures bytes { self.new ≡ self.old }
        ensures found { IfOk result
            (λ found. IfSome found (λ s. (n : ℕ) × StringDataAt self.old at s n)) }
        ensures none { IfOk result
            (λ found. IfNone found ((s : List ℕ) (n : ℕ) → ¬ StringDataAt self.old at s n)) }
    {
        let Ok((text, len)) = self.item_at(at) else {
            return Ok(None);
        };
        if len <= self.unread {
            self.unread -= len;
        } else if self.blocks.is_empty() {
            self.blocks = blocks_of(*self.blocks.allocator(), self.bytes)?;
        }
        Ok(Some(text))
    }

    // The text whose item begins at a byte, and how many bytes that takes.
    fn item_at(&self, at: usize) -> Result<(Text<'a>, usize), TextFault>
        requires { at ≤ length self.now }
        ensures found { IfOk result (λ x. StringDataAt self.now at x.0 x.1) }
        ensures fault { IfErr result (λ e. IsFault e (drop at self.now)) }
    {
        let bytes = &self.bytes[at..];
        let (count, len) = first_count(bytes)?;
        let (units, rest) = self.units_after(bytes.len() - len);
        first_text(bytes, count, len, units, rest)
    }

    // How many units come first in the last `left` bytes, and the bytes after them.
    fn units_after(&self, left: usize) -> (usize, &'a [u8])
        requires { left ≤ length self.now }
        ensures { AfterUnits (last_bytes left self.now) result.0 result.1.now }
    {
        let bytes = self.bytes;
        if self.blocks.is_empty() {
            return skip_units(&bytes[bytes.len() - left..]);
        }
        let run = run_from(bytes, &self.blocks, left);
        (run.count, &bytes[bytes.len() - run.left..])
    }
}
