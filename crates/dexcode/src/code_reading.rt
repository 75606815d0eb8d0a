//! Code items read from a file.

ghost use Rattle.std.specs.Prelude.{◌≡◌, ◌≤◌, ◌+◌, length, None, IfOk, IfErr, OnOk};
ghost use Rattle.std.specs.Option.{option_map};
ghost use Rattle.dexpool.specs.Pools.{ArePools};
ghost use Rattle.dexcode.specs.Checking.{IsProgramFault};
ghost use Rattle.dexcode.specs.Reading.{IsCodeAt, IsCodeBeside, IsCodeFault};
ghost use Rattle.dexcode.specs.internal.Extras.{ArePartsAt, IsDebugOf};

use crate::code::Code;
use crate::extras::Extras;
use crate::stored_tries::StoredTries;
use crate::tries_reader::TriesReader;
use dexdebug::{Debug, read_debug};
use dexhead::{Frame, u32_at};
use dexinsn::{Pieces, Scratch, build_pieces, check_pieces};
use dexpool::{ItemFault, Pools, SymbolKind};
use std::alloc::Global;

// Reads the pieces and the tries, if there are some, of the code_item at an offset.
fn read_parts<'a>(
    alloc: Global,
    frame: &Frame<'a>,
    pools: &Pools<'_>,
    off: u32,
    scratch: &mut Scratch,
) -> Result<(Pieces<'a>, Option<StoredTries>), ItemFault>
    ensures within { OnOk result (off + 16 ≤ length frame.now) }
    ensures parts { ArePools frame.now pools.now
        → IfOk result (ArePartsAt frame.now off pools.now) }
    ensures refused { ArePools frame.now pools.now → IfErr result (IsCodeFault frame.now off) }
{
    pools.numbering().is_numbering();
    let shape = check_pieces(frame, pools, off, scratch)?;
    let pieces = build_pieces(alloc, frame, pools, off, shape)?;
    let types = pools.len(SymbolKind::Typ);
    let starts = scratch.starts();
    let reader = TriesReader {
        alloc,
        bytes: frame.bytes(),
        starts: &starts,
        types,
    };
    let tries = reader.read_tries(off as usize)?;
    Ok((pieces, tries))
}

// Reads the debug program of the code_item at an offset, if it has one.
fn read_program<'a>(
    alloc: Global,
    frame: &Frame<'a>,
    pools: &Pools<'_>,
    off: u32,
) -> Result<Option<Box<Debug<'a>>>, ItemFault>
    requires { off + 16 ≤ length frame.now }
    ensures program { ArePools frame.now pools.now → IfOk result (λ program.
        IsDebugOf frame.now off pools.now (option_map (λ debug. debug.value) program)) }
    ensures refused { ArePools frame.now pools.now → IfErr result (IsProgramFault frame.now off) }
{
    let debug_off = u32_at(frame.bytes(), off as usize + 8);
    if debug_off == 0 {
        return Ok(None);
    }
    let program = read_debug(alloc, frame, pools, debug_off)?;
    let debug = Box::new(alloc, program)?;
    Ok(Some(debug))
}

/// Reads the code_item at an offset, whose indices count in the pools: those of the file. Its units are borrowed.
///
/// Error: `Refused` with the number of a condition that fails there. It is 18 exactly where
/// [`read_pieces`](dexinsn::read_pieces) is refused. Else it is 19 where tries or handlers are wrong: the zero ushort
/// before the tries, the handler list, the bounds, order and handlers of the tries, or the limit of 65,535 on the
/// weight of the distinct handlers; or 20 where [`read_debug`](crate::read_debug) is refused at the debug program's
/// offset. `Memory` where an allocation failed.
///
/// Source: "code_item".
pub fn read_code<'a>(
    alloc: Global,
    frame: &Frame<'a>,
    pools: &Pools<'_>,
    off: u32,
) -> Result<Code<'a>, ItemFault>
    ensures code { ArePools frame.now pools.now → IfOk result (IsCodeAt frame.now off pools.now) }
    ensures refused { ArePools frame.now pools.now → IfErr result (IsCodeFault frame.now off) }
{
    let mut scratch = Scratch::new(alloc);
    read_code_in(alloc, frame, pools, off, &mut scratch)
}

/// As [`read_code`], in room that is lent from one code_item to the next. It leaves in it at which units instructions
/// begin.
///
/// Error: as of [`read_code`].
///
/// Source: "code_item".
pub fn read_code_in<'a>(
    alloc: Global,
    frame: &Frame<'a>,
    pools: &Pools<'_>,
    off: u32,
    scratch: &mut Scratch,
) -> Result<Code<'a>, ItemFault>
    ensures code { ArePools frame.now pools.now → IfOk result (IsCodeAt frame.now off pools.now) }
    ensures refused { ArePools frame.now pools.now → IfErr result (IsCodeFault frame.now off) }
{
    let (pieces, tries) = read_parts(alloc, frame, pools, off, scratch)?;
    let debug = read_program(alloc, frame, pools, off)?;
    let extras = Extras::of(alloc, tries, debug)?;
    Ok(Code { pieces, extras })
}

/// As [`read_code_in`], but the debug program is not read. Returns the code without it, and its offset in bytes, or 0
/// where the code has none.
///
/// Error: as of [`read_code`], for what is read.
///
/// Source: "code_item".
pub fn read_without_debug<'a>(
    alloc: Global,
    frame: &Frame<'a>,
    pools: &Pools<'_>,
    off: u32,
    scratch: &mut Scratch,
) -> Result<(Code<'a>, u32), ItemFault>
    ensures alone { IfOk result (λ read. read.0.debug ≡ None) }
    ensures code { ArePools frame.now pools.now
        → IfOk result (λ read. IsCodeBeside frame.now off pools.now read.0 read.1) }
    ensures refused { ArePools frame.now pools.now → IfErr result (IsCodeFault frame.now off) }
{
    let (pieces, tries) = read_parts(alloc, frame, pools, off, scratch)?;
    let extras = Extras::of(alloc, tries, None)?;
    let debug_off = u32_at(frame.bytes(), off as usize + 8);
    Ok((Code { pieces, extras }, debug_off))
}
