//! A debug program, with numbers for symbols.

ghost use Rattle.std.specs.Prelude.{◌≡◌, IfOk};

use crate::indices::Index;
use crate::operations::{NameIter, OperationIter};
use std::alloc::AllocError;
use std::marker::Model;

/// A debug_info_item: the line that it starts at, the names of parameters, and operations, whose bytes are borrowed from
/// the file. Its texts and types are numbers, and contracts see them so.
#[derive(Clone)]
pub struct Debug<'a> {
    /// The bytes of the file.
    pub(crate) bytes: &'a [u8],
    /// The texts that are the names of parameters, and then the symbols of operations, each in the order of its operands.
    pub(crate) indices: Vec<Index>,
    /// How many of them are names.
    pub(crate) names: u32,
    /// Where the first operation is.
    pub(crate) at: u32,
    /// How many operations there are, without `DBG_END_SEQUENCE`.
    pub(crate) count: u32,
    /// The initial value of the line register.
    pub(crate) line_start: u32,
    /// Its weight, which does not depend on the numbers.
    pub(crate) weight: u64,
}

// One call drops a debug program.
impl Drop for Debug<'_> {
    fn drop(self) {
        let Debug {
            bytes: _,
            indices: _,
            names: _,
            at: _,
            count: _,
            line_start: _,
            weight: _,
        } = self;
    }
}

impl<'a> Model for Debug<'a> {
    ghost use Rattle.std.specs.Prelude.{◌≡◌};
    ghost use Rattle.dexspec.specs.Weight.{debug_weight};
    ghost use Rattle.dexdebug.specs.Debug.{NumberedDebug, IsFormedDebug, unindexed};
    ghost use Rattle.dexdebug.specs.Operations.{IsStored, stored_debug};

    ghost Value = { NumberedDebug };

    ghost view = { λ d. stored_debug d.line_start d.names d.count d.bytes.now d.at d.indices.items };

    ghost invariant = { λ d. IsFormedDebug (stored_debug d.line_start d.names d.count d.bytes.now d.at d.indices.items) × IsStored d.names d.count d.bytes.now d.at d.indices.items × (d.weight ≡ debug_weight (unindexed (stored_debug d.line_start d.names d.count d.bytes.now d.at d.indices.items))) };
}

impl<'a> Debug<'a> {
    /// The line that the program starts at.
    ///
    /// Source: "debug_info_item", the field `line_start`.
    pub fn line_start(&self) -> u32
        ensures { result ≡ self.now.line_start }
    {
        self.line_start
    }

    /// The number of the text that is the name of each parameter, or `None` where it has no name.
    ///
    /// Source: "debug_info_item", the field `parameter_names`.
    pub fn parameter_names(&self) -> NameIter<'_>
        ensures { result ≡ self.now.parameter_names }
    {
        let (names, _) = self.indices.split_at(self.names as usize);
        NameIter { indices: names }
    }

    /// The operations, in order and without the end.
    ///
    /// Source: "debug_info_item", "State machine".
    pub fn operations(&self) -> OperationIter<'_>
        ensures { result ≡ self.now.operations }
    {
        let (_, indices) = self.indices.split_at(self.names as usize);
        OperationIter {
            bytes: self.bytes,
            at: self.at as usize,
            count: self.count,
            indices,
        }
    }

    /// Returns a copy of the debug program, with numbers of its own. The bytes of its operations are borrowed as before.
    ///
    /// Error: the memory for the numbers was refused.
    pub fn copy(&self) -> Result<Debug<'a>, AllocError>
        ensures { IfOk result (λ copy. copy ≡ self.now) }
    {
        self.clone()
    }
}
