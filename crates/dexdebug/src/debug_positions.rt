//! The positions that a debug program records.

ghost use Rattle.std.specs.Prelude.{◌≡◌, ◌^◌, ◌<◌, ◌≤◌, ◌≤ℤ◌, ◌+ℤ◌, pos, All, IfOk, length};
ghost use Rattle.dexdebug.specs.Positions as recorded;
ghost use Rattle.dexdebug.specs.Debug.{unindexed, unindexed_operation, IsSpecial, IsFormedOperation};
ghost use Rattle.dexdebug.specs.internal.Writing.{positions_of};

use crate::debug::Debug;
use crate::debug_operation::Operation;
use crate::operations::OperationIter;
use std::alloc::{AllocError, Global};

// Returns the amount that an operation adds to the address.
fn address_step(operation: &Operation) -> u64
    requires { IsSpecial operation.now }
    ensures step { result ≡ recorded.address_step (unindexed_operation operation.now) }
    ensures small { result < 2 ^ 32 }
{
    match operation {
        Operation::AdvancePc(addr_diff) => u64::from(*addr_diff),
        Operation::Special(opcode) => u64::from((*opcode - 10) / 15),
        _ => 0,
    }
}

// Returns the amount that an operation adds to the line.
fn line_step(operation: &Operation) -> i64
    requires { IsSpecial operation.now }
    ensures step { result ≡ recorded.line_step (unindexed_operation operation.now) }
    ensures low { pos 0 ≤ℤ (result +ℤ pos (2 ^ 31)) }
    ensures high { result ≤ℤ pos (2 ^ 31) }
{
    match operation {
        Operation::AdvanceLine(line_diff) => i64::from(*line_diff),
        Operation::Special(opcode) => i64::from((*opcode - 10) % 15) - 4,
        _ => 0,
    }
}

// Returns whether an operation records a position.
fn is_special(operation: &Operation) -> bool
    ensures { result ≡ recorded.is_special (unindexed_operation operation.now) }
{
    matches!(operation, Operation::Special(_))
}

// The positions of operations, from a line on.
fn positions_from(
    alloc: Global,
    line_start: u32,
    operations: OperationIter<'_>,
) -> Result<Vec<(u64, i64)>, AllocError>
    requires few { length operations < 2 ^ 30 }
    requires formed { All IsFormedOperation operations }
    ensures { IfOk result (λ found. found.items ≡ positions_of line_start operations.entry) }
{
    let mut found = Vec::new(alloc);
    let mut address = 0;
    let mut line = i64::from(line_start);
    for operation in operations {
        address += address_step(&operation);
        line += line_step(&operation);
        if is_special(&operation) {
            found.push((address, line))?;
        }
    }
    Ok(found)
}

/// The address and the line of each special operation, in order: the address in units from the start of the code.
/// An address is a sum of fewer than 2^30 numbers of 32 bits, and so is a line, so that both fit their types.
///
/// Source: "debug_info_item", "State machine" and "Special opcodes".
pub fn positions(alloc: Global, debug: &Debug<'_>) -> Result<Vec<(u64, i64)>, AllocError>
    ensures { IfOk result (λ found. found.items ≡ recorded.positions (unindexed debug.now)) }
{
    positions_from(alloc, debug.line_start, debug.operations())
}
