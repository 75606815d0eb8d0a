//! What the rows of protos, fields and methods name.

ghost use Rattle.std.specs.Prelude.{◌↔◌, IsTrue, MatchOption};
ghost use Rattle.dexspec.specs.Names.{IsMemberName};
ghost use Rattle.dexids.specs.Reading.{AreNames};
ghost use Rattle.dexids.specs.internal.FileRows.{NoFileText, IsFileText, NoFileType, IsFileType};

use dexhead::Frame;
use dexstr::{Text, is_member_name};

/// A file whose texts and types are read.
#[derive(Clone, Copy)]
pub(crate) struct Names<'p, 'a> {
    pub(crate) frame: &'p Frame<'a>,
    pub(crate) strings: &'p [Text<'a>],
    pub(crate) types: &'p [usize],
}

impl<'p, 'a> Names<'p, 'a> {
    /// The text of a row, if there is the row.
    pub(crate) fn text(&self, index: usize) -> Option<&'p Text<'a>>
        requires { AreNames self.now.frame.now self.now.strings.now self.now.types.now }
        ensures { MatchOption result (NoFileText self.now index) (λ t.
            IsFileText self.now index t.now) }
    {
        if self.strings.len() <= index {
            return None;
        }
        Some(&self.strings[index])
    }

    /// The type of a row, if there is the row.
    pub(crate) fn typ(&self, index: usize) -> Option<&'p Text<'a>>
        requires { AreNames self.now.frame.now self.now.strings.now self.now.types.now }
        ensures { MatchOption result (NoFileType self.now index) (λ t.
            IsFileType self.now index t.now) }
    {
        let text = self.types.get(index)?;
        Some(&self.strings[*text])
    }
}

/// Returns whether the text is the name of a member. `is_known` says of it whether it was found to be one before, and
/// then it is not gone over again, however many rows have that name.
pub(crate) fn is_known_name(name: &Text<'_>, is_known: &mut bool) -> bool
    requires { IsTrue is_known.old → IsMemberName name.now }
    ensures known { IsTrue is_known.new → IsMemberName name.now }
    ensures name { IsTrue result ↔ IsMemberName name.now }
{
    if !*is_known {
        *is_known = is_member_name(name);
    }
    *is_known
}
