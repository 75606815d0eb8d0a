//! Comparison of debug programs.

ghost use Rattle.std.specs.Prelude.{◌≡◌, ◌↔◌, IsTrue, drop, map, take};
ghost use Rattle.dexpool.specs.declared.symbols.SymbolKind.TheVariants as kinds;
ghost use Rattle.dexdebug.specs.Debug.{image_or_none, renumbered_operation, renumbered_debug};
ghost use Rattle.dexdebug.specs.internal.Same.{SameRemapped, image_key};

use crate::debug::Debug;
use crate::debug_equality::equal_names;
use crate::debug_laws::{debug_equality_law, operation_equality_law};
use crate::debug_numbers::image;
use crate::debug_operation::Operation;
use crate::operations::{NameIter, OperationIter};
use dexpool::{Remap, SymbolKind};

// An operation without the numbers of symbols, and their images.
type ImageKey = (Operation, Option<usize>, Option<usize>, Option<usize>);

// What is compared of an operation: two operations are equal once remapped just where these are.
fn image_key(remap: &Remap, operation: Operation) -> ImageKey
    ensures { result ≡ image_key remap.now operation }
{
    (
        operation.with_numbers(None, None, None),
        image(remap, SymbolKind::Text, operation.name_idx()),
        image(remap, SymbolKind::Typ, operation.type_idx()),
        image(remap, SymbolKind::Text, operation.sig_idx()),
    )
}

// Returns whether two lists of names are equal once remapped.
fn eq_names(mine: &Remap, names: NameIter<'_>, theirs: &Remap, others: NameIter<'_>) -> bool
    ensures { IsTrue result ↔ (map (image_or_none mine.now kinds.Text) names.entry
        ≡ map (image_or_none theirs.now kinds.Text) others.entry) }
{
    names
        .map(|name| image(mine, SymbolKind::Text, name))
        .eq(others.map(|name| image(theirs, SymbolKind::Text, name)))
}

// Returns whether two lists of operations are equal, one for one, once remapped.
fn eq_operations(
    mine: &Remap,
    operations: OperationIter<'_>,
    theirs: &Remap,
    others: OperationIter<'_>,
) -> bool
    ensures { IsTrue result ↔ SameRemapped renumbered_operation mine.now theirs.now
        operations.entry others.entry }
{
    operation_equality_law();
    operations
        .map(|operation| image_key(mine, operation))
        .eq(others.map(|operation| image_key(theirs, operation)))
}

// The bytes from a place on, as many as asked for, or up to the end where there are fewer.
fn window(bytes: &[u8], at: u32, len: u64) -> &[u8]
    ensures { result.now ≡ take len (drop at bytes.now) }
{
    let rest = &bytes[(at as usize).min(bytes.len())..];
    &rest[..(len as usize).min(rest.len())]
}

impl Debug<'_> {
    /// Returns whether two debug programs are the same after each is mapped by its own map. A number without an image
    /// counts as none.
    pub fn same_mapped(&self, mine: &Remap, other: &Debug<'_>, theirs: &Remap) -> bool
        ensures { IsTrue result
            ↔ (renumbered_debug mine.now self.now ≡ renumbered_debug theirs.now other.now) }
    {
        self.line_start == other.line_start
            && eq_names(
                mine,
                self.parameter_names(),
                theirs,
                other.parameter_names(),
            )
            && eq_operations(mine, self.operations(), theirs, other.operations())
    }

    // Returns whether two debug programs have the same numbers and the same bytes, without decoding an operation. As
    // many bytes are compared as the program weighs: its operations have no more. Where it is false the programs may
    // still be the same: spelled otherwise, or before other bytes.
    fn has_same_bytes(&self, other: &Debug<'_>) -> bool
        ensures { IsTrue result → self.now ≡ other.now }
    {
        if self.line_start != other.line_start
            || self.names != other.names
            || self.count != other.count
        {
            return false;
        }
        let mine = window(self.bytes, self.at, self.weight);
        let others = window(other.bytes, other.at, self.weight);
        mine == others
            && equal_names(
                NameIter {
                    indices: &self.indices,
                },
                NameIter {
                    indices: &other.indices,
                },
            )
    }

    /// Returns whether two debug programs are the same.
    pub fn is_same(&self, other: &Debug<'_>) -> bool
        ensures { IsTrue result → self.now ≡ other.now }
    {
        if self.has_same_bytes(other) {
            return true;
        }
        debug_equality_law();
        *self == *other
    }
}
