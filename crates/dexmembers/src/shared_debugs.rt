//! Which methods have the same debug program in memory.

ghost use Rattle.std.specs.Prelude.{◌≡◌, List, IfOk, IfSome, OnOk};
ghost use Rattle.dexdebug.specs.Debug.{NumberedDebug};
ghost use Rattle.dexmembers.specs.SharedDebugs.{code_debug, AreSameBefore};
ghost use Rattle.dexmembers.specs.internal.DebugPlaces.{debug_place, AreFirstsWith, IsFirstOf};
ghost use Rattle.dexmembers.specs.internal.Stored.{item_at};

use crate::code_list::{CodeList, StoredCode};
use crate::method_list::DeclaredMethod;
use crate::places::Place;
use std::alloc::{AllocError, Global};

// The place of the debug program of the code at a place, if there is one.
fn debug_place<C>(items: &[StoredCode<C>], code: Place) -> Option<u32>
    ensures { result ≡ debug_place items.now code }
{
    items.get(code.get()? as usize)?.debug.get()
}

// Returns the first method with the debug program at a place, by the first ones that are known, or this one, which is
// then the first of the next place.
fn first_of(firsts: &mut Vec<usize>, debug: Option<u32>, own: usize) -> Result<usize, AllocError>
    ensures first { IfOk result (IsFirstOf firsts.old.items debug own) }
    ensures known { OnOk result (AreFirstsWith firsts.old.items firsts.new.items debug own) }
{
    let Some(debug) = debug else {
        return Ok(own);
    };
    let debug = debug as usize;
    if debug < firsts.len() {
        return Ok(firsts[debug]);
    }
    if debug == firsts.len() {
        firsts.push(own)?;
    }
    Ok(own)
}

// Returns whether there are debug programs, and fewer than methods with code.
fn may_share_debugs(debug_count: usize, methods: &[DeclaredMethod]) -> bool {
    if debug_count == 0 {
        return false;
    }
    let coded = methods
        .iter()
        .filter(|method| method.code.get().is_some())
        .count();
    debug_count < coded
}

/// For each of the methods the place of the first one whose debug program is at the same place, or its own; `None` where
/// no two methods have one at the same place. The methods have this code, with `debug_count` debug programs.
pub(crate) fn first_with_debugs<C>(
    alloc: Global,
    items: &[StoredCode<C>],
    debug_count: usize,
    methods: &[DeclaredMethod],
) -> Result<Option<Vec<usize>>, AllocError>
    ensures { (debugs : List NumberedDebug) → IfOk result (λ places. IfSome places (λ places.
        AreSameBefore (λ x. item_at debugs (debug_place items.now x.code))
        methods.now places.items)) }
{
    if !may_share_debugs(debug_count, methods) {
        return Ok(None);
    }
    let mut firsts = Vec::with_capacity(alloc, debug_count)?;
    let mut places = Vec::with_capacity(alloc, methods.len())?;
    for (i, method) in methods.iter().enumerate() {
        let debug = debug_place(items, method.code);
        places.push(first_of(&mut firsts, debug, i)?)?;
    }
    Ok(Some(places))
}

impl CodeList<'_> {
    /// For each of the methods the place of the first one whose debug program is at the same place, or its own; `None`
    /// where no two methods have one at the same place.
    pub(crate) fn shared_debugs(
        &self,
        alloc: Global,
        methods: &[DeclaredMethod],
    ) -> Result<Option<Vec<usize>>, AllocError>
        ensures { IfOk result (λ places. IfSome places (λ places.
            AreSameBefore (λ x. code_debug (item_at self.now x.code)) methods.now places.items)) }
    {
        first_with_debugs(alloc, &self.items, self.debugs.len(), methods)
    }
}
