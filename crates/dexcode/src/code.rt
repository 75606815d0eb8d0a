//! Code items.

ghost use Rattle.std.specs.Prelude.{◌≡◌, Some, None, MatchOption, IfOk};
ghost use Rattle.std.specs.Option.{option_map};
ghost use Rattle.dexcode.specs.Numbered.{with_debug};

use crate::borrowed_code::BorrowedCode;
use crate::extras::Extras;
use crate::tries::Tries;
use dexdebug::Debug;
use dexinsn::Pieces;
use std::alloc::AllocError;
use std::marker::Model;

/// A code_item: registers and pieces, whose units are borrowed from the file, tries with their handlers, and a debug
/// program. Its symbols are numbers, and contracts see them so.
///
/// Source: "code_item".
pub struct Code<'a> {
    /// The numbers of registers, and the instructions and payloads.
    pub(crate) pieces: Pieces<'a>,
    /// The tries, with the handlers that they name, and the debug program.
    pub(crate) extras: Extras<'a>,
}

// So that code is dropped by one call, in the crates above too.
impl Drop for Code<'_> {
    fn drop(self) {
        let Code {
            pieces: _,
            extras: _,
        } = self;
    }
}

impl<'a> Model for Code<'a> {
    ghost use Rattle.dexcode.specs.Numbered.{NumberedItem};
    ghost use Rattle.dexcode.specs.internal.Extras.{tries_of, debug_of};

    ghost Value = { NumberedItem };

    ghost view = { λ c. record { body = c.pieces; tries = tries_of c.extras; debug = debug_of c.extras } };
}

impl<'a> Code<'a> {
    /// The registers and the pieces.
    ///
    /// Source: "code_item", the fields `registers_size`, `ins_size`, `outs_size` and `insns`.
    pub fn pieces(&self) -> &Pieces<'a>
        ensures { result.now ≡ self.now.body }
    {
        &self.pieces
    }

    /// The tries, with the handlers that they name.
    ///
    /// Source: "code_item", the fields `tries` and `handlers`.
    pub fn tries(&self) -> Tries<'_>
        ensures { result ≡ self.now.tries }
    {
        match &self.extras {
            Extras::Tries(both) => both.tries.as_tries(),
            _ => Tries::none(),
        }
    }

    /// The debug program, if there is one.
    ///
    /// Source: "code_item", the field `debug_info_off`.
    pub fn debug(&self) -> Option<&Debug<'a>>
        ensures { MatchOption result (self.now.debug ≡ None) (λ debug.
            self.now.debug ≡ Some debug.now) }
    {
        match &self.extras {
            Extras::None => None,
            Extras::Debug(debug) => Some(debug),
            Extras::Tries(both) => both.debug.as_deref(),
        }
    }

    /// The code, borrowed with this debug program, or none, instead of its own.
    pub fn with_debug<'m>(&'m self, debug: Option<&'m Debug<'a>>) -> BorrowedCode<'m, 'a>
        ensures { result
            ≡ with_debug self.now (option_map (λ debug. debug.now) debug.entry) }
    {
        BorrowedCode {
            pieces: &self.pieces,
            tries: self.tries(),
            debug,
        }
    }

    /// The code, borrowed with its debug program.
    pub fn as_borrowed(&self) -> BorrowedCode<'_, 'a>
        ensures { result ≡ self.now }
    {
        self.with_debug(self.debug())
    }

    /// Removes the debug program.
    ///
    /// Source: "code_item", the field `debug_info_off`, where 0 encodes none.
    pub fn drop_debug(&mut self)
        ensures { self.new ≡ record { body = self.old.body; tries = self.old.tries; debug = None } }
    {
        match &mut self.extras {
            Extras::None => {}
            Extras::Debug(_) => self.extras = Extras::None,
            Extras::Tries(both) => both.debug = None,
        }
    }

    /// The same code, with lists of its own. Its units are borrowed as before.
    ///
    /// Error: the memory for the lists was refused.
    ///
    /// Source: "code_item".
    pub fn copy(&self) -> Result<Code<'a>, AllocError>
        ensures { IfOk result (λ copy. copy ≡ self.now) }
    {
        let pieces = self.pieces.copy()?;
        let extras = self.extras.clone()?;
        Ok(Code { pieces, extras })
    }
}
