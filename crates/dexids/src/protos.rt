//! The pool of protos. A long list of parameters is checked once however many rows share it, and lists that overlap are
//! compared with letters that were looked up once.

ghost use Rattle.std.specs.Prelude.{◌≡◌, ◌<◌, OnOk, IfOk, IfErr, ◌↔◌, true, false, IsTrue};
ghost use Rattle.dexspec.specs.Accepted.{HoldBelow};
ghost use Rattle.dexspec.specs.Header.{ProtoIds, table_size};
ghost use Rattle.dexids.specs.Tables.{span_of, proto_cmp, text_of};
ghost use Rattle.dexids.specs.Reading.{AreNames, HasIndices, HasSpan, ProtoRowAt, file_numbers, IsPlaced};
ghost use Rattle.dexids.specs.internal.FileRows.{IsReader, AreFileProtos, AreFileLists, IsFileList};
ghost use Rattle.dexids.specs.Faults.{IsFault};
ghost use Rattle.dexstr.specs.Units.{IsAscii};
ghost use Rattle.dexids.specs.internal.CheckedLists.{IsSpelled, NotListedAs};

use crate::faults::ReadFault;
use crate::kinds::letter;
use crate::lists::{Parameters, place_at};
use crate::names::Names;
use crate::reading::{TableReader, read_table};
use crate::rows::{ProtoEntry, Span};
use crate::shorties::{are_letters, are_these, letters_of, spelling};
use dexhead::{Condition, Frame, Table, u32_at};
use dexrows::TypeNumbers;
use dexstr::Text;
use std::alloc::{AllocError, Global};
use std::cmp::Ordering;
use std::collections::HashMap;

// Lists that are not longer are checked again: it takes no longer than to look them up.
const SHORT: usize = 16;

/// A list that was checked: where it is, and a shorty that it goes with, by the number of its text and its first
/// letter, that of the type that is returned.
#[derive(Clone, Copy)]
pub(crate) struct CheckedList {
    pub(crate) span: Span,
    pub(crate) shorty: usize,
    pub(crate) letter: u16,
}

/// The lists of a file that were checked.
#[derive(Drop)]
pub(crate) struct CheckedLists {
    // The long ones, by offset.
    long: HashMap<u32, CheckedList>,
    // How many numbers these have together.
    count: usize,
    // The letter of each number of the file, once that is more than the file has: then lists overlap.
    letters: Option<Vec<u8>>,
}

/// Reads the rows of protos of a file whose texts and types are read.
#[derive(Clone, Copy)]
pub(crate) struct ProtoReader<'r, 'p, 'a> {
    pub(crate) alloc: Global,
    /// The texts and types.
    pub(crate) names: &'r Names<'p, 'a>,
    /// The letter of each type in shorties.
    pub(crate) letters: &'r [u8],
    /// All numbers of the file, of which each list of types is a part.
    pub(crate) file: &'r Parameters<'a>,
}

impl<'r, 'p, 'a> ProtoReader<'r, 'p, 'a> {
    // Returns whether the units are the letter of a list and then those of its types.
    fn spells(&self, lists: &CheckedLists, units: &[u8], list: CheckedList) -> bool
        requires reader { IsReader self.now }
        requires lists { AreFileLists self.now lists.now }
        requires span { HasSpan (file_numbers self.now.names.now.frame.now) list.span }
        ensures { IsTrue result ↔ IsSpelled self.now.letters.now units.now list.letter
            (span_of (file_numbers self.now.names.now.frame.now) list.span) }
    {
        let [first, rest @ ..] = units else {
            return false;
        };
        if u16::from(*first) != list.letter {
            return false;
        }
        match &lists.letters {
            Some(letters) => are_these(list.span.of(letters), rest),
            None => are_letters(self.letters, rest, &self.file.part(list.span)),
        }
    }

    // Returns whether types of values are listed at an offset, where there is a place for them, and their shorty is
    // the text of the number after the letter. A long list that passed this check is not checked again.
    fn has_shorty(&self, lists: &CheckedLists, off: u32, list: CheckedList, text: &Text<'_>) -> bool
        requires reader { IsReader self.now }
        requires lists { AreFileLists self.now lists.now }
        requires placed { IsPlaced self.now.names.now.frame.now off list.span }
        requires text { text.now ≡ text_of self.now.names.now.strings.now list.shorty }
        requires letter { IsAscii list.letter }
        ensures yes { result ≡ true → IsFileList self.now.names.now off list }
        ensures no { result ≡ false
            → NotListedAs self.now.names.now.frame.now off list.letter text.now }
    {
        if let Some(known) = lists.long.get(&off) {
            if known.shorty == list.shorty && known.letter == list.letter {
                return true;
            }
        }
        match text.ascii() {
            Some(units) => self.spells(lists, units, list),
            None => false,
        }
    }

    // Notes a list that was checked, if it is long.
    //
    // Error: the memory for it was refused.
    fn note(&self, lists: &mut CheckedLists, off: u32, list: CheckedList) -> Result<(), AllocError>
        requires reader { IsReader self.now }
        requires lists { AreFileLists self.now lists.old }
        requires checked { IsFileList self.now.names.now off list }
        ensures { OnOk result (AreFileLists self.now lists.new) }
    {
        let count = list.span.len();
        if count <= SHORT {
            return Ok(());
        }
        lists.long.insert(off, list)?;
        self.add(lists, count)
    }

    // Counts the numbers of a long list, and looks the letters up once they are more than the file has.
    fn add(&self, lists: &mut CheckedLists, count: usize) -> Result<(), AllocError>
        requires reader { IsReader self.now }
        requires lists { AreFileLists self.now lists.old }
        ensures { OnOk result (AreFileLists self.now lists.new) }
    {
        lists.count = lists.count.saturating_add(count);
        let bytes = self.names.frame.bytes();
        if lists.letters.is_none() && lists.count > bytes.len() {
            let numbers = TypeNumbers::shorts(bytes);
            lists.letters = Some(spelling(self.alloc, self.letters, &numbers)?);
        }
        Ok(())
    }
}

// The numbers in a row: of the shorty, of the return type, and the offset of the parameters.
fn indices_at(frame: &Frame<'_>, i: u32) -> (usize, usize, u32)
    requires { i < table_size frame.now ProtoIds }
    ensures { HasIndices frame.now i result.0 result.1 result.2 }
{
    let row = frame.row(Table::ProtoIds, i);
    (
        u32_at(row, 0) as usize,
        u32_at(row, 4) as usize,
        u32_at(row, 8),
    )
}

impl TableReader for ProtoReader<'_, '_, '_> {
    ghost use Rattle.dexspec.specs.Conditions as conditions;

    type Row = ProtoEntry;

    type Memory = CheckedLists;

    ghost condition = { conditions.Protos };

    ghost file = { λ reader. reader.names.now.frame.now };

    ghost can_read = { IsReader };

    ghost remembers = { AreFileLists };

    ghost is_row = { λ reader. ProtoRowAt reader.names.now.strings.now reader.names.now.types.now (file_numbers reader.names.now.frame.now) };

    ghost row_cmp = { λ reader. proto_cmp (file_numbers reader.names.now.frame.now) };

    fn rows(&self) -> (Condition, u32) {
        (Condition::Protos, self.names.frame.size(Table::ProtoIds))
    }

    // Of lists that rows share, `lists` has those that were checked.
    fn row_at(&self, lists: &mut CheckedLists, i: u32) -> Result<Option<ProtoEntry>, AllocError> {
        let names = self.names;
        let (shorty, return_type, off) = indices_at(names.frame, i);
        let Some(text) = names.text(shorty) else {
            return Ok(None);
        };
        let Some(typ) = names.typ(return_type) else {
            return Ok(None);
        };
        let Some(span) = place_at(names.frame, off) else {
            return Ok(None);
        };
        let list = CheckedList {
            span,
            shorty,
            letter: letter(typ),
        };
        if !self.has_shorty(lists, off, list, text) {
            return Ok(None);
        }
        self.note(lists, off, list)?;
        Ok(Some(ProtoEntry {
            shorty,
            return_type,
            parameters: span,
        }))
    }

    fn compare(&self, left: &ProtoEntry, right: &ProtoEntry) -> Ordering {
        match left.return_type.cmp(&right.return_type) {
            Ordering::Equal => self.file.compare(left.parameters, right.parameters),
            unequal => unequal,
        }
    }

    fn law(&self) {}
}

/// Reads the protos of a file whose texts and types are read; their parameters stay in the bytes. The condition fails at
/// a row with an index out of range, whose parameters are no list of types in the data or name void, whose shorty is not
/// that of its types, or which does not come after the row before it, by the return type and then by the parameters.
///
/// Source: "proto_id_item" and "type_list".
pub(crate) fn read_protos<'r, 'a>(
    alloc: Global,
    names: &'r Names<'_, 'a>,
    file: &'r Parameters<'a>,
) -> Result<Vec<ProtoEntry>, ReadFault>
    requires names { AreNames names.now.frame.now names.now.strings.now names.now.types.now }
    requires file { file.now ≡ file_numbers names.now.frame.now }
    requires before { HoldBelow 13 names.now.frame.now }
    ensures ok { IfOk result (λ protos. AreFileProtos names.now protos.items) }
    ensures below { OnOk result (HoldBelow 14 names.now.frame.now) }
    ensures err { IfErr result (IsFault names.now.frame.now) }
{
    let letters = letters_of(alloc, names)?;
    let reader = ProtoReader {
        alloc,
        names,
        letters: &letters,
        file,
    };
    let mut lists = CheckedLists {
        long: HashMap::new(alloc),
        count: 0,
        letters: None,
    };
    read_table(alloc, &reader, &mut lists)
}
