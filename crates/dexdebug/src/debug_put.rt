//! Debug programs written.

ghost use Rattle.std.specs.Prelude.{◌≡◌, ◌∷◌, ◌++◌, ◌+◌, ◌*◌, ◌^◌, ◌<◌, ◌≤◌, All, IsOk, length, vec_len, vec_capacity};
ghost use Rattle.std.specs.List.{flat_map};
ghost use Rattle.dexspec.specs.Numbers.{uleb128, sleb128, uleb128p1};
ghost use Rattle.dexspec.specs.Spellings.{debug_bytes};
ghost use Rattle.dexspec.specs.Weight.{debug_weight};
ghost use Rattle.dexspec.specs.internal.Writing.{Puts};
ghost use Rattle.dexdebug.specs.Debug.{FitsIndex, IsFormedOperation, unindexed, numbered_operation_bytes, numbered_debug_bytes};
ghost use Rattle.dexdebug.specs.Meaning.{ForDenotedDebug, PutsDenotedDebug};

use crate::debug::Debug;
use crate::debug_laws::debug_bytes_law;
use crate::debug_opcodes::{
    DBG_ADVANCE_LINE, DBG_ADVANCE_PC, DBG_END_LOCAL, DBG_END_SEQUENCE, DBG_RESTART_LOCAL,
    DBG_SET_EPILOGUE_BEGIN, DBG_SET_FILE, DBG_SET_PROLOGUE_END, DBG_START_LOCAL,
    DBG_START_LOCAL_EXTENDED,
};
use crate::debug_operation::Operation;
use crate::operations::{NameIter, OperationIter};
use dexhead::{Count, Encode, Output};
use dexpool::Numbering;
use std::alloc::AllocError;

// Writes a number plus one, or 0 for none.
fn encode_index<O: Output>(number: Option<u32>, out: &mut O)
    requires { FitsIndex number }
    ensures { O.gives (uleb128p1 number) out.old out.new }
{
    out.uleb(number.map_or(0, |number| number + 1));
}

// Writes the operands that declare a local variable.
fn encode_local<O: Output>(register_num: u32, name: Option<u32>, typ: Option<u32>, out: &mut O)
    requires name { FitsIndex name }
    requires typ { FitsIndex typ }
    ensures { O.gives (uleb128 register_num
        ++ (uleb128p1 name ++ uleb128p1 typ)) out.old out.new }
{
    out.uleb(register_num);
    encode_index(name, out);
    encode_index(typ, out);
}

// Writes an opcode and a number.
fn encode_numbered<O: Output>(opcode: u8, value: u32, out: &mut O)
    ensures { O.gives (opcode ∷ uleb128 value) out.old out.new }
{
    out.byte(opcode);
    out.uleb(value);
}

// Writes an opcode and a number with a sign.
fn encode_signed<O: Output>(opcode: u8, value: i32, out: &mut O)
    ensures { O.gives (opcode ∷ sleb128 value) out.old out.new }
{
    out.byte(opcode);
    out.sleb(value);
}

impl Encode for Operation {
    ghost formed = { IsFormedOperation };

    ghost bytes = { numbered_operation_bytes };

    fn encode<O: Output>(&self, out: &mut O) {
        match self {
            Operation::AdvancePc(addr_diff) => encode_numbered(DBG_ADVANCE_PC, *addr_diff, out),
            Operation::AdvanceLine(line_diff) => encode_signed(DBG_ADVANCE_LINE, *line_diff, out),
            Operation::StartLocal {
                register_num,
                name_idx,
                type_idx,
            } => {
                out.byte(DBG_START_LOCAL);
                encode_local(*register_num, *name_idx, *type_idx, out);
            }
            Operation::StartLocalExtended {
                register_num,
                name_idx,
                type_idx,
                sig_idx,
            } => {
                out.byte(DBG_START_LOCAL_EXTENDED);
                encode_local(*register_num, *name_idx, *type_idx, out);
                encode_index(*sig_idx, out);
            }
            Operation::EndLocal(register_num) => encode_numbered(DBG_END_LOCAL, *register_num, out),
            Operation::RestartLocal(register_num) => {
                encode_numbered(DBG_RESTART_LOCAL, *register_num, out)
            }
            Operation::SetPrologueEnd => out.byte(DBG_SET_PROLOGUE_END),
            Operation::SetEpilogueBegin => out.byte(DBG_SET_EPILOGUE_BEGIN),
            Operation::SetFile(name_idx) => {
                out.byte(DBG_SET_FILE);
                encode_index(*name_idx, out);
            }
            Operation::Special(opcode) => out.byte(*opcode),
        }
    }
}

// Writes names.
fn encode_names<O: Output>(names: NameIter<'_>, out: &mut O)
    requires { All FitsIndex names }
    ensures { O.gives (flat_map uleb128p1 names.entry) out.old out.new }
{
    for name in names {
        encode_index(name, out);
    }
}

// Writes operations.
fn encode_operations<O: Output>(operations: OperationIter<'_>, out: &mut O)
    requires { All IsFormedOperation operations }
    ensures { O.gives (flat_map numbered_operation_bytes operations.entry) out.old out.new }
{
    for operation in operations {
        operation.encode(out);
    }
}

impl Debug<'_> {
    // Writes the debug_info_item.
    fn encode<O: Output>(&self, out: &mut O)
        ensures bytes { O.gives (numbered_debug_bytes self.now) out.old out.new }
        ensures few { length (numbered_debug_bytes self.now) < 2 ^ 63 }
    {
        out.uleb(self.line_start);
        out.uleb(self.names);
        encode_names(self.parameter_names(), out);
        encode_operations(self.operations(), out);
        out.byte(DBG_END_SEQUENCE);
    }

    /// Returns the number of bytes that [`put_debug`] appends.
    pub fn item_len(&self) -> usize
        ensures numbered { result ≡ length (numbered_debug_bytes self.now) }
        ensures symbolic { ForDenotedDebug self.now (λ m x. result ≡ length (debug_bytes m x)) }
    {
        debug_bytes_law();
        let mut count = Count { len: 0 };
        self.encode(&mut count);
        count.len
    }
}

/// Appends the debug_info_item, every number in its shortest encoding. It is that of the symbolic debug program that
/// `debug` denotes in the numbering, each index the rank of its symbol.
///
/// Error: the allocation failed; the vector is then as it was. It does not fail where the spare room is at least the
/// length of the item ([`Debug::item_len`]), or its weight ([`Debug::weight`]).
pub fn put_debug(
    debug: &Debug<'_>,
    numbering: &Numbering<'_>,
    out: &mut Vec<u8>,
) -> Result<(), AllocError>
    ensures bytes { Puts (numbered_debug_bytes debug.now) out.old out.new result }
    ensures symbolic { PutsDenotedDebug numbering.now debug.now out.old out.new result }
    ensures bound { length (numbered_debug_bytes debug.now) ≤ debug_weight (unindexed debug.now) }
    ensures room { vec_len out.old + debug_weight (unindexed debug.now) ≤ vec_capacity out.old
        → IsOk result }
{
    numbering.is_numbering();
    debug_bytes_law();
    // It is measured only where there is no room for its weight.
    if debug.weight > (out.capacity() - out.len()) as u64 {
        out.reserve(debug.item_len())?;
    }
    debug.encode(out);
    Ok(())
}
