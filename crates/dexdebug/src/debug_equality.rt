//! Debug programs that are the same are equal, and have equal hashes.

ghost use Rattle.std.specs.Prelude.{◌≡◌, ◌==◌};
ghost use Rattle.std.specs.Cmp.{partial_equiv_from_equiv};
ghost use Rattle.std.specs.Cmp.Lexicographic.{pointwise};
ghost use Rattle.std.specs.Option.{option_eq};
ghost use Rattle.dexdebug.specs.contracts.debug_operation.OperationEq.TheImpl.Laws as equal;
ghost use Rattle.dexdebug.specs.contracts.debug_operation.OperationHash.TheImpl.Laws as hashed;
ghost use Rattle.dexdebug.specs.DebugEquality.{same_debug, debug_input, debug_equiv, debugs_equal};

use crate::debug::Debug;
use crate::debug_laws::operation_equality_law;
use crate::debug_operation::Operation;
use crate::operations::{NameIter, OperationIter};
use std::hash::{Hash, Hasher};

// Returns whether names are equal, one for one.
pub(crate) fn equal_names(mine: NameIter<'_>, others: NameIter<'_>) -> bool
    ensures { result ≡ pointwise (option_eq ◌==◌) mine.entry others.entry }
{
    mine.eq(others)
}

// Returns whether operations are equal, one for one.
fn equal_operations(mine: OperationIter<'_>, others: OperationIter<'_>) -> bool
    ensures { result ≡ pointwise ⟦<Operation as PartialEq>⟧.eq mine.entry others.entry }
{
    operation_equality_law();
    mine.eq(others)
}

impl PartialEq for Debug<'_> {
    ghost eq = { same_debug ⟦<Operation as PartialEq>⟧.eq };

    ghost laws = { partial_equiv_from_equiv (debug_equiv equal.laws-law) };

    fn eq(&self, other: &Debug<'_>) -> bool {
        self.line_start == other.line_start
            && equal_names(self.parameter_names(), other.parameter_names())
            && equal_operations(self.operations(), other.operations())
    }
}

impl Eq for Debug<'_> {
    ghost laws = { debug_equiv equal.laws-law };
}

impl Hash for Debug<'_> {
    ghost hash_input = { debug_input ⟦<Operation as Hash>⟧.hash_input };

    ghost respects_eq = { debugs_equal ⟦<Operation as PartialEq>⟧.eq ⟦<Operation as Hash>⟧.hash_input hashed.respects_eq-law };

    fn hash<H: Hasher>(&self, state: &mut H) {
        self.line_start.hash(state);
        (self.names as usize).hash(state);
        for name in self.parameter_names() {
            name.hash(state);
        }
        (self.count as usize).hash(state);
        for operation in self.operations() {
            operation.hash(state);
        }
    }
}
