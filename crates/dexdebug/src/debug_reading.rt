//! Debug programs read from a file.

ghost use Rattle.std.specs.Prelude.{◌≡◌, ◌↔◌, ℕ, ℤ, ◌+◌, ◌^◌, ◌<◌, ◌≤◌, Option, Some, IsTrue, IfOk, IfErr, IfSome, MatchOption, length, vec_capacity, vec_len};
ghost use Rattle.dexspec.specs.Numbers.{Uleb128At, Sleb128At};
ghost use Rattle.dexpool.specs.Pools.{ArePools};
ghost use Rattle.dexdebug.specs.declared.debug_operation.Operation.{Operation};
ghost use Rattle.dexdebug.specs.declared.debug_reading.Counts.{Counts};
ghost use Rattle.dexdebug.specs.DebugReading.{IsDebugAt, IsDebugFault, IndexAt, LocalAt, OperandsAt, NumberedDebugAt, EndNames, AreTallied, IsShape, HaveNames, KeepsNames, KeepsSymbols, IsShapeAt, counts_of, HasDebugOfShape};
ghost use Rattle.dexdebug.specs.internal.DebugReading.{HasNoDebugIn, IsOnlyLocal, NoNames, NoNumberedDebug, NoProgram};

use crate::debug::Debug;
use crate::debug_opcodes::{
    DBG_ADVANCE_LINE, DBG_ADVANCE_PC, DBG_END_LOCAL, DBG_END_SEQUENCE, DBG_RESTART_LOCAL,
    DBG_SET_EPILOGUE_BEGIN, DBG_SET_FILE, DBG_SET_PROLOGUE_END, DBG_START_LOCAL,
    DBG_START_LOCAL_EXTENDED,
};
use crate::debug_operation::Operation;
use crate::indices::Index;
use crate::operations::keep_indices;
use dexhead::{Condition, Frame};
use dexleb::{read_p1, read_s, read_u};
use dexpool::{ItemFault, Pools, SymbolKind};
use std::alloc::{AllocError, Global};

// How many texts and types there are.
#[derive(Clone, Copy)]
pub(crate) struct Counts {
    texts: usize,
    types: usize,
}

// As many as a file can have.
pub(crate) const EVERY: Counts = Counts {
    texts: u32::MAX as usize,
    types: u32::MAX as usize,
};

// How many operations there are, how many places for numbers of symbols they have, and what they weigh.
#[derive(Clone, Copy)]
struct Tally {
    operations: usize,
    indices: usize,
    weight: u64,
}

/// What there is in a debug_info_item.
#[derive(Clone, Copy)]
pub struct DebugShape {
    // The line that it starts at.
    line_start: u32,
    // Where the names begin, and how many there are.
    names_at: usize,
    names: u32,
    // Where the operations begin, and how many there are.
    operations_at: usize,
    tally: Tally,
    /// What the debug program weighs.
    pub weight: u64,
}

/// Reads parts of debug programs in the bytes of a file with these counts of texts and types.
#[derive(Clone, Copy)]
pub(crate) struct DebugReader<'b> {
    pub(crate) bytes: &'b [u8],
    pub(crate) counts: Counts,
}

// Returns whether the number, if there is one, is below a count.
#[inline(always)]
fn is_below(number: Option<u32>, count: usize) -> bool
    ensures { IsTrue result ↔ IfSome number (λ n. n < count) }
{
    number.is_none_or(|number| (number as usize) < count)
}

impl<'b> DebugReader<'b> {
    // The unsigned number at a place, and how many bytes it has.
    #[inline(always)]
    fn number_at(&self, at: usize) -> Option<(u32, usize)>
        requires { at ≤ length self.now.bytes.now }
        ensures found { IfSome result (λ read. Uleb128At self.now.bytes.now at read.0 read.1) }
        ensures within { IfSome result (λ read. at + read.1 ≤ length self.now.bytes.now) }
        ensures only { (v n : ℕ) → Uleb128At self.now.bytes.now at v n → result ≡ Some (v, n) }
    {
        read_u(self.bytes, at).ok()
    }

    // The signed number at a place, and how many bytes it has.
    #[inline(always)]
    fn lines_at(&self, at: usize) -> Option<(i32, usize)>
        requires { at ≤ length self.now.bytes.now }
        ensures found { IfSome result (λ read. Sleb128At self.now.bytes.now at read.0 read.1) }
        ensures within { IfSome result (λ read. at + read.1 ≤ length self.now.bytes.now) }
        ensures only { (v : ℤ) (n : ℕ) → Sleb128At self.now.bytes.now at v n
            → result ≡ Some (v, n) }
    {
        read_s(self.bytes, at).ok()
    }

    // The index below a count, or none, at a place, and how many bytes it has.
    #[inline(always)]
    fn index_at(&self, at: usize, count: usize) -> Option<(Option<u32>, usize)>
        requires { at ≤ length self.now.bytes.now }
        ensures found { IfSome result (λ read. IndexAt count self.now.bytes.now at read.0 read.1) }
        ensures within { IfSome result (λ read. at + read.1 ≤ length self.now.bytes.now) }
        ensures only { (i : Option ℕ) (n : ℕ) → IndexAt count self.now.bytes.now at i n
            → result ≡ Some (i, n) }
    {
        let (number, len) = read_p1(self.bytes, at).ok()?;
        is_below(number, count).then_some((number, len))
    }

    // The description of a local variable at an offset: its register, the numbers of its name and its type, and how many
    // bytes they have.
    #[inline(always)]
    fn local_at(&self, at: usize) -> Option<(u32, Option<u32>, Option<u32>, usize)>
        requires { at ≤ length self.now.bytes.now }
        ensures found { IfSome result (λ read.
            LocalAt self.now.counts self.now.bytes.now at read.0 read.1 read.2 read.3) }
        ensures within { IfSome result (λ read. at + read.3 ≤ length self.now.bytes.now) }
        ensures only { IsOnlyLocal self.now.counts self.now.bytes.now at result }
    {
        let (register_num, register_len) = self.number_at(at)?;
        let (name_idx, name_len) = self.index_at(at + register_len, self.counts.texts)?;
        let (type_idx, type_len) = self.index_at(at + register_len + name_len, self.counts.types)?;
        let len = register_len + name_len + type_len;
        Some((register_num, name_idx, type_idx, len))
    }

    // The operation of an opcode, whose operands are at a place, and how many bytes they have.
    #[inline(always)]
    pub(crate) fn operation_at(&self, at: usize, opcode: u8) -> Option<(Operation, usize)>
        requires within { at ≤ length self.now.bytes.now }
        requires some { 0 < opcode }
        ensures found { IfSome result
            (λ read. OperandsAt self.now.counts opcode self.now.bytes.now at read.0 read.1) }
        ensures within { IfSome result (λ read. at + read.1 ≤ length self.now.bytes.now) }
        ensures only { (op : Operation) (n : ℕ)
            → OperandsAt self.now.counts opcode self.now.bytes.now at op n
            → result ≡ Some (op, n) }
    {
        match opcode {
            DBG_ADVANCE_PC => {
                let (addr_diff, len) = self.number_at(at)?;
                Some((Operation::AdvancePc(addr_diff), len))
            }
            DBG_ADVANCE_LINE => {
                let (line_diff, len) = self.lines_at(at)?;
                Some((Operation::AdvanceLine(line_diff), len))
            }
            DBG_START_LOCAL => {
                let (register_num, name_idx, type_idx, len) = self.local_at(at)?;
                let operation = Operation::StartLocal {
                    register_num,
                    name_idx,
                    type_idx,
                };
                Some((operation, len))
            }
            DBG_START_LOCAL_EXTENDED => {
                let (register_num, name_idx, type_idx, local_len) = self.local_at(at)?;
                let (sig_idx, sig_len) = self.index_at(at + local_len, self.counts.texts)?;
                let operation = Operation::StartLocalExtended {
                    register_num,
                    name_idx,
                    type_idx,
                    sig_idx,
                };
                Some((operation, local_len + sig_len))
            }
            DBG_END_LOCAL => {
                let (register_num, len) = self.number_at(at)?;
                Some((Operation::EndLocal(register_num), len))
            }
            DBG_RESTART_LOCAL => {
                let (register_num, len) = self.number_at(at)?;
                Some((Operation::RestartLocal(register_num), len))
            }
            DBG_SET_PROLOGUE_END => Some((Operation::SetPrologueEnd, 0)),
            DBG_SET_EPILOGUE_BEGIN => Some((Operation::SetEpilogueBegin, 0)),
            DBG_SET_FILE => {
                let (name_idx, len) = self.index_at(at, self.counts.texts)?;
                Some((Operation::SetFile(name_idx), len))
            }
            _ => Some((Operation::Special(opcode), 0)),
        }
    }

    // The end of `count` names from an offset on, if they are there.
    fn names_end(&self, from: usize, count: u32) -> Option<usize>
        requires { from ≤ length self.now.bytes.now }
        ensures { MatchOption result (NoNames self.now.counts.texts self.now.bytes.now from count)
            (EndNames self.now.counts.texts self.now.bytes.now from count) }
    {
        let mut at = from;
        for _ in 0..count {
            let (_, len) = self.index_at(at, self.counts.texts)?;
            at += len;
        }
        Some(at)
    }

    // The number of operations from an offset on, up to the end, and their weight.
    fn check_operations(&self, from: usize) -> Option<Tally>
        requires within { from ≤ length self.now.bytes.now }
        requires following { 0 < from }
        requires small { length self.now.bytes.now ≤ 2 ^ 30 }
        ensures { MatchOption result (NoProgram self.now.counts self.now.bytes.now from)
            (AreTallied self.now.counts self.now.bytes.now from) }
    {
        let mut operations = 0;
        let mut indices = 0;
        let mut weight = 0;
        let mut at = from;
        while at < self.bytes.len() {
            let opcode = self.bytes[at];
            if opcode == DBG_END_SEQUENCE {
                return Some(Tally {
                    operations,
                    indices,
                    weight,
                });
            }
            let (operation, len) = self.operation_at(at + 1, opcode)?;
            operations += 1;
            indices += operation.index_count();
            weight += 1 + 5 * operation.operands();
            at += 1 + len;
        }
        None
    }

    // The shape of the debug_info_item at an offset, if one is there. Nothing is kept of it.
    fn check_numbered(&self, at: usize) -> Option<DebugShape>
        requires within { at ≤ length self.now.bytes.now }
        requires small { length self.now.bytes.now ≤ 2 ^ 30 }
        ensures { MatchOption result (NoNumberedDebug self.now.counts self.now.bytes.now at)
            (IsShape self.now.counts self.now.bytes.now at) }
    {
        let (line_start, start_len) = self.number_at(at)?;
        let (names, count_len) = self.number_at(at + start_len)?;
        let names_at = at + start_len + count_len;
        let operations_at = self.names_end(names_at, names)?;
        let tally = self.check_operations(operations_at)?;
        Some(DebugShape {
            line_start,
            names_at,
            names,
            operations_at,
            tally,
            weight: 11 + 5 * u64::from(names) + tally.weight,
        })
    }

    // Stores the names. There is room for them, and then for the symbols of the operations.
    fn keep_names(&self, indices: &mut Vec<Index>, shape: DebugShape)
        requires within { shape.names_at ≤ length self.now.bytes.now }
        requires are_encoded { HaveNames self.now.counts.texts self.now.bytes.now shape.names_at
            shape.names }
        requires room { vec_capacity indices.old
            ≡ vec_len indices.old + shape.names + shape.tally.indices }
        ensures kept { KeepsNames self.now.counts.texts self.now.bytes.now shape.names_at
            shape.names indices.old.items indices.new.items }
        ensures room { vec_capacity indices.new ≡ vec_len indices.new + shape.tally.indices }
    {
        let mut at = shape.names_at;
        for _ in 0..shape.names {
            let (name, len) = self.index_at(at, self.counts.texts).unwrap();
            indices.push_reserved(Index::new(SymbolKind::Text, name));
            at += len;
        }
    }

    // Stores the symbols of the operations. There is room for them, and for nothing else.
    fn keep_symbols(&self, indices: &mut Vec<Index>, shape: DebugShape)
        requires within { shape.operations_at ≤ length self.now.bytes.now }
        requires tallied { AreTallied self.now.counts self.now.bytes.now shape.operations_at
            shape.tally }
        requires room { vec_capacity indices.old ≡ vec_len indices.old + shape.tally.indices }
        ensures kept { KeepsSymbols self.now.counts self.now.bytes.now shape.operations_at
            shape.tally indices.old.items indices.new.items }
        ensures full { vec_capacity indices.new ≡ vec_len indices.new }
    {
        if shape.tally.indices == 0 {
            return;
        }
        let mut at = shape.operations_at;
        for _ in 0..shape.tally.operations {
            let (operation, len) = self.operation_at(at + 1, self.bytes[at]).unwrap();
            keep_indices(indices, operation);
            at += 1 + len;
        }
    }

    // The debug program at an offset, in exactly the memory that it takes.
    fn debug_at(&self, alloc: Global, at: usize, shape: DebugShape) -> Result<Debug<'b>, AllocError>
        requires within { at ≤ length self.now.bytes.now }
        requires small { length self.now.bytes.now ≤ 2 ^ 30 }
        requires shape { IsShape self.now.counts self.now.bytes.now at shape }
        ensures { IfOk result (NumberedDebugAt self.now.counts self.now.bytes.now at) }
    {
        let mut indices = Vec::with_capacity(alloc, shape.names as usize + shape.tally.indices)?;
        self.keep_names(&mut indices, shape);
        self.keep_symbols(&mut indices, shape);
        Ok(Debug {
            bytes: self.bytes,
            indices,
            names: shape.names,
            at: shape.operations_at as u32,
            count: shape.tally.operations as u32,
            line_start: shape.line_start,
            weight: shape.weight,
        })
    }
}

// How many texts and types the pools have.
fn counts_of(pools: &Pools<'_>) -> Counts
    ensures { result ≡ counts_of pools.now }
{
    let texts = pools.len(SymbolKind::Text);
    let types = pools.len(SymbolKind::Typ);
    Counts { texts, types }
}

// The shape of the debug_info_item at an offset, if one is there.
fn shape_at(frame: &Frame<'_>, pools: &Pools<'_>, off: u32) -> Option<DebugShape>
    ensures { MatchOption result (HasNoDebugIn frame.now off pools.now)
        (IsShapeAt frame.now off pools.now) }
{
    let bytes = frame.bytes();
    if off < frame.data_off() || bytes.len() < off as usize {
        return None;
    }
    let counts = counts_of(pools);
    DebugReader { bytes, counts }.check_numbered(off as usize)
}

/// Checks the debug_info_item at an offset, whose indices count in the pools: those of the file. Nothing is kept of it.
///
/// Error: `Refused(20)` exactly where no debug_info_item is there: where it is not in the data, or is cut off before
/// its end, where a number is not spelled as it has to be, or where an index is out of range of its pool.
#[tactic(auto, using(crate::proofs::DebugBridge::shaped))]
pub fn check_debug(frame: &Frame<'_>, pools: &Pools<'_>, off: u32) -> Result<DebugShape, ItemFault>
    ensures shape { IfOk result (IsShapeAt frame.now off pools.now) }
    ensures debug { ArePools frame.now pools.now
        → IfOk result (HasDebugOfShape frame.now off pools.now) }
    ensures refused { ArePools frame.now pools.now → IfErr result (IsDebugFault frame.now off) }
{
    match shape_at(frame, pools, off) {
        Some(shape) => Ok(shape),
        None => Err(ItemFault::Refused(Condition::Debug as u8)),
    }
}

/// The debug program at an offset, in exactly the memory that it takes.
///
/// Condition: its shape is that which [`check_debug`] returned.
#[tactic(auto, using(crate::proofs::DebugBridge::ok_named))]
pub fn build_debug<'a>(
    alloc: Global,
    frame: &Frame<'a>,
    pools: &Pools<'_>,
    off: u32,
    shape: DebugShape,
) -> Result<Debug<'a>, AllocError>
    requires { IsShapeAt frame.now off pools.now shape }
    ensures { ArePools frame.now pools.now → IfOk result (IsDebugAt frame.now off pools.now) }
{
    let bytes = frame.bytes();
    let counts = counts_of(pools);
    DebugReader { bytes, counts }.debug_at(alloc, off as usize, shape)
}

/// Reads the debug_info_item at an offset, whose indices count in the pools: those of the file.
///
/// Error: as of [`check_debug`]; `Memory` where an allocation failed.
pub fn read_debug<'a>(
    alloc: Global,
    frame: &Frame<'a>,
    pools: &Pools<'_>,
    off: u32,
) -> Result<Debug<'a>, ItemFault>
    ensures debug { ArePools frame.now pools.now → IfOk result (IsDebugAt frame.now off pools.now) }
    ensures refused { ArePools frame.now pools.now → IfErr result (IsDebugFault frame.now off) }
{
    let shape = check_debug(frame, pools, off)?;
    Ok(build_debug(alloc, frame, pools, off, shape)?)
}
