//! The names of parameters and the operations of a debug program, as they are stored.

ghost use Rattle.std.specs.Prelude.{◌≡◌, ◌≤◌, ◌+◌, ◌++◌, length, vec_capacity, vec_len};
ghost use Rattle.std.specs.Iterator.{YieldsFirst, item_count};
ghost use Rattle.dexdebug.specs.Debug.{IsFormedOperation};
ghost use Rattle.dexdebug.specs.DebugReading.{indices_of};
ghost use Rattle.dexdebug.specs.Operations.{number_in};

use crate::debug_opcodes::DBG_FIRST_SPECIAL;
use crate::debug_operation::Operation;
use crate::debug_reading::{DebugReader, EVERY};
use crate::indices::Index;
use dexpool::SymbolKind;
use std::marker::Model;

/// The numbers of the texts that are the names of parameters, or `None` where one has no name, those that are left, in
/// order. Contracts see a list of them.
#[derive(Drop)]
pub struct NameIter<'p> {
    pub(crate) indices: &'p [Index],
}

impl<'p> Model for NameIter<'p> {
    ghost use Rattle.std.specs.Prelude.{ℕ, List, Option};
    ghost use Rattle.dexdebug.specs.Operations.{numbers_in};

    ghost Value = { List (Option ℕ) };

    ghost view = { λ names. numbers_in names.indices.now };
}

impl<'p> Iterator for NameIter<'p> {
    type Item = Option<u32>;

    ghost next_gives = { YieldsFirst (λ names. names) };

    ghost remaining = { item_count (λ names. names) };

    fn next(&mut self) -> Option<Option<u32>> {
        let (index, left) = self.indices.split_first()?;
        self.indices = left;
        Some(index.number.get())
    }
}

/// The operations of a debug program that are left, in order. Contracts see a list of them.
#[derive(Drop)]
pub struct OperationIter<'p> {
    pub(crate) bytes: &'p [u8],
    /// Where the next one is.
    pub(crate) at: usize,
    /// How many are left.
    pub(crate) count: u32,
    /// The symbols of those that are left.
    pub(crate) indices: &'p [Index],
}

impl<'p> Model for OperationIter<'p> {
    ghost use Rattle.std.specs.Prelude.{List};
    ghost use Rattle.dexdebug.specs.declared.debug_operation.Operation.{Operation};
    ghost use Rattle.dexdebug.specs.Operations.{AreStored, operations_in};

    ghost Value = { List Operation };

    ghost view = { λ o. operations_in o.count o.bytes.now o.at o.indices.now };

    ghost invariant = { λ o. AreStored o.count o.bytes.now o.at o.indices.now };
}

// The number at one of the places for them, if there is one.
fn number_in(indices: &[Index], place: usize) -> Option<u32>
    ensures { result ≡ number_in indices.now place }
{
    indices.get(place)?.number.get()
}

impl<'p> Iterator for OperationIter<'p> {
    type Item = Operation;

    ghost next_gives = { YieldsFirst (λ ops. ops) };

    ghost remaining = { item_count (λ ops. ops) };

    fn next(&mut self) -> Option<Operation> {
        if self.count == 0 {
            return None;
        }
        let opcode = self.bytes[self.at];
        if opcode >= DBG_FIRST_SPECIAL {
            self.at += 1;
            self.count -= 1;
            return Some(Operation::Special(opcode));
        }
        let reader = DebugReader {
            bytes: self.bytes,
            counts: EVERY,
        };
        let (operation, len) = reader.operation_at(self.at + 1, opcode).unwrap();
        self.at += 1 + len;
        self.count -= 1;
        let places = operation.index_count();
        if places == 0 {
            return Some(operation);
        }
        let name_idx = number_in(self.indices, 0);
        let second = number_in(self.indices, 1);
        let third = number_in(self.indices, 2);
        let (_, left) = self.indices.split_at(places);
        self.indices = left;
        Some(operation.with_numbers(name_idx, second, third))
    }
}

// Appends numbers to those that are stored. There is room for them.
fn append_reserved(indices: &mut Vec<Index>, more: &[Index])
    requires { vec_len indices.old + length more.now ≤ vec_capacity indices.old }
    ensures kept { indices.new.items ≡ indices.old.items ++ more.now }
    ensures capacity { vec_capacity indices.new ≡ vec_capacity indices.old }
{
    for index in more {
        indices.push_reserved(*index);
    }
}

// Stores the numbers of the symbols of an operation. There is room for them.
pub(crate) fn keep_indices(indices: &mut Vec<Index>, operation: Operation)
    requires formed { IsFormedOperation operation }
    requires room { vec_len indices.old + length (indices_of operation) ≤ vec_capacity indices.old }
    ensures kept { indices.new.items ≡ indices.old.items ++ indices_of operation }
    ensures capacity { vec_capacity indices.new ≡ vec_capacity indices.old }
{
    let count = operation.index_count();
    if count == 0 {
        return;
    }
    let all = [
        Index::new(SymbolKind::Text, operation.name_idx()),
        Index::new(SymbolKind::Typ, operation.type_idx()),
        Index::new(SymbolKind::Text, operation.sig_idx()),
    ];
    append_reserved(indices, &all[..count]);
}
