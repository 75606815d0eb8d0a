//! Pieces read from a file.

ghost use Rattle.std.specs.Prelude.{◌≡◌, ◌^◌, ◌<◌, length, IfOk, IfErr, MatchOption};
ghost use Rattle.dexpool.specs.Pools.{ArePools};
ghost use Rattle.dexinsn.specs.Reading.{IsPiecesFault, HasCodeRoom, AreUnitsAt, HasPiecesAt, HasRegistersAt};
ghost use Rattle.dexinsn.specs.Checking.{AreTheIndices, HaveIndices, IsShapeAt};

use crate::checking::check_pieces;
use crate::code_units::Units;
use crate::instruction::{index_at, kind_at};
use crate::piece_step::size_at;
use crate::pieces::{Index, Pieces};
use crate::scratch::Scratch;
use crate::shape::PiecesShape;
use dexhead::{Frame, u32_at};
use dexpool::{ItemFault, Pools};
use std::alloc::{AllocError, Global};

// The bytes of the units of the code_item at an offset, if there is room for them in the data.
pub(crate) fn units_at<'a>(frame: &Frame<'a>, off: u32) -> Option<&'a [u8]>
    ensures { MatchOption result (HasCodeRoom frame.now off
        → ⊥) (λ bytes. AreUnitsAt frame.now off bytes.now) }
{
    if off % 4 != 0 || !frame.is_in_data(off, 16) {
        return None;
    }
    let code = frame.rest(off);
    let count = u32_at(code, 12);
    if !frame.is_in_data(off, 16 + 2 * u64::from(count)) {
        return None;
    }
    let (_, rest) = code.split_at(16);
    let (bytes, _) = rest.split_at(2 * count as usize);
    Some(bytes)
}

// The indices of the pieces, of which there are `count`.
fn build_indices(alloc: Global, units: &Units<'_>, count: usize) -> Result<Vec<Index>, AllocError>
    requires few { length units.now < 2 ^ 32 }
    requires have { HaveIndices units.now count }
    ensures { IfOk result (λ indices. AreTheIndices units.now indices.items) }
{
    let mut indices = Vec::with_capacity(alloc, count)?;
    let mut at = 0;
    while indices.len() < count {
        let size = size_at(units, at).unwrap();
        if kind_at(units, at).is_some() {
            let number = index_at(units, at);
            let unit = at as u32;
            indices.push(Index { unit, number }).unwrap();
        }
        at += size;
    }
    Ok(indices)
}

/// Builds the registers and the pieces of the code_item at an offset, in a vector without spare room. The units are
/// borrowed, and not copied.
///
/// Condition: the shape is that which [`check_pieces`](crate::check_pieces) returned for the offset.
///
/// Source: "code_item"; the Android page "Dalvik bytecode".
pub fn build_pieces<'a>(
    alloc: Global,
    frame: &Frame<'a>,
    pools: &Pools<'_>,
    off: u32,
    shape: PiecesShape,
) -> Result<Pieces<'a>, AllocError>
    requires { IsShapeAt frame.now off pools.now shape }
    ensures registers { IfOk result (HasRegistersAt frame.now off) }
    ensures pieces { ArePools frame.now pools.now
        → IfOk result (HasPiecesAt frame.now off pools.now) }
{
    let (_, rest) = frame.rest(off).split_at(16);
    let (bytes, _) = rest.split_at(2 * shape.units as usize);
    let indices = build_indices(alloc, &Units::of_bytes(bytes), shape.indices)?;
    Ok(Pieces {
        registers: shape.registers,
        ins: shape.ins,
        outs: shape.outs,
        bytes,
        indices,
    })
}

/// Reads the registers and the pieces of the code_item at an offset, whose indices count in the pools: those of the
/// file. The units are borrowed, and not copied.
///
/// Error: `Refused(18)` exactly where the code_item's fixed part and units are not wholly in the data at a multiple of
/// 4, where the units are not cut as [`split`](crate::split) cuts them, or where an index is out of range of its pool;
/// `Memory` where an allocation failed.
///
/// Source: "code_item"; the Android page "Dalvik bytecode".
pub fn read_pieces<'a>(
    alloc: Global,
    frame: &Frame<'a>,
    pools: &Pools<'_>,
    off: u32,
) -> Result<Pieces<'a>, ItemFault>
    ensures registers { IfOk result (HasRegistersAt frame.now off) }
    ensures pieces { ArePools frame.now pools.now
        → IfOk result (HasPiecesAt frame.now off pools.now) }
    ensures refused { ArePools frame.now pools.now → IfErr result (IsPiecesFault frame.now off) }
{
    let mut scratch = Scratch::new(alloc);
    let shape = check_pieces(frame, pools, off, &mut scratch)?;
    Ok(build_pieces(alloc, frame, pools, off, shape)?)
}
