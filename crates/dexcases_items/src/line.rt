//! Splits lines into words.

use crate::item_kind::ItemKind;
use dexcases::{CaseFault, first_word, number};

/// A line: `FILE PLACE ..`, after a word for the item if the kind of the line does not name it.
#[derive(Clone, Copy)]
pub struct Line<'l> {
    /// The word for the item; empty if there is none.
    pub word: &'l str,
    /// The name of the file.
    pub file: &'l str,
    /// The place of the item; of a canonical file, the number of its items.
    pub place: u32,
    /// The text after the place.
    pub rest: &'l str,
}

impl<'l> Line<'l> {
    /// Splits a line into words. The first word is that for the item if `names_an_item`.
    pub fn of(words: &'l str, names_an_item: bool) -> Result<Line<'l>, CaseFault> {
        let (word, words) = if names_an_item {
            first_word(words)?
        } else {
            ("", words)
        };
        let (file, words) = first_word(words)?;
        let (place, rest) = words.split_once(' ').unwrap_or((words, ""));
        Ok(Line {
            word,
            file,
            place: number(place)?.parse()?,
            rest,
        })
    }

    /// Returns the kind of the item: a set for `annotations`, a directory for `lists`, code for `bare`, and a debug
    /// program if there is no word.
    pub fn item_kind(self) -> Result<ItemKind, CaseFault> {
        match self.word {
            "annotations" => Ok(ItemKind::Set),
            "lists" => Ok(ItemKind::Directory),
            "bare" => Ok(ItemKind::Code),
            "" => Ok(ItemKind::Debug),
            word => ItemKind::of_word(word).ok_or(CaseFault::Form),
        }
    }
}
