//! Code whose parts are borrowed.

ghost use Rattle.std.specs.Prelude.{◌≡◌, Some, None, MatchOption};

use crate::tries::Tries;
use dexdebug::Debug;
use dexinsn::Pieces;
use std::marker::Model;

/// Code whose parts are borrowed: [`Code`](crate::Code) with its debug program, or with one that several code items
/// share. Contracts see it as they see [`Code`](crate::Code).
///
/// Source: "code_item".
#[derive(Drop)]
pub struct BorrowedCode<'m, 'a> {
    pub(crate) pieces: &'m Pieces<'a>,
    pub(crate) tries: Tries<'m>,
    pub(crate) debug: Option<&'m Debug<'a>>,
}

impl<'m, 'a> Model for BorrowedCode<'m, 'a> {
    ghost use Rattle.std.specs.Option.{option_map};
    ghost use Rattle.dexcode.specs.Numbered.{NumberedItem};

    ghost Value = { NumberedItem };

    ghost view = { λ c. record { body = c.pieces.now; tries = c.tries; debug = option_map (λ debug. debug.now) c.debug } };
}

impl<'m, 'a> BorrowedCode<'m, 'a> {
    /// The registers and the pieces.
    ///
    /// Source: "code_item", the fields `registers_size`, `ins_size`, `outs_size` and `insns`.
    pub fn pieces(&self) -> &'m Pieces<'a>
        ensures { result.now ≡ self.now.body }
    {
        self.pieces
    }

    /// The tries, with the handlers that they name.
    ///
    /// Source: "code_item", the fields `tries` and `handlers`.
    pub fn tries(&self) -> Tries<'m>
        ensures { result ≡ self.now.tries }
    {
        let (tries, handlers) = self.tries.parts();
        Tries { tries, handlers }
    }

    /// The debug program, if there is one.
    ///
    /// Source: "code_item", the field `debug_info_off`.
    pub fn debug(&self) -> Option<&'m Debug<'a>>
        ensures { MatchOption result (self.now.debug ≡ None) (λ debug.
            self.now.debug ≡ Some debug.now) }
    {
        self.debug
    }
}
