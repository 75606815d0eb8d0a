//! Methods with their code, read or only checked.

ghost use Rattle.std.specs.Prelude.{◌≡◌, ◌+◌, ℕ, List, [], ◌∷◌, length, IfOk, IfErr, IfSome, OnOk};
ghost use Rattle.std.specs.Option.{option_map};
ghost use Rattle.dexspec.specs.Mentions.{Mentions};
ghost use Rattle.dexcode.specs.Reading.{IsDebugOrNone};
ghost use Rattle.dexmembers.specs.Checking.{AreCheckedCodes, HasCodeOrNoneOf, HaveCodesOf};
ghost use Rattle.dexmembers.specs.HeldCodes.{codes_in, methods_in, AreCodesPlaced};
ghost use Rattle.dexmembers.specs.Weighing.{codes_weight};
ghost use Rattle.dexmembers.specs.internal.Attaching.{AreHeldMethods, HaveListsBelow, HaveSetsBelow, PlacesBelow, held_codes};
ghost use Rattle.dexmembers.specs.internal.RowReaders.{IsFile};
ghost use Rattle.dexmembers.specs.internal.Kept.{AreNotedPlaces, IsKeptAt};
ghost use Rattle.dexmembers.specs.internal.MethodCodes.{IsCodeOrNone, IsCodeOrNoneFault, IsCodesFault, IsCodesFaultWithin, IsDebugKept, IsDebugOrNoneFault, ArePlacesOfCodes, AreReadCodes, AreReadDebugs, kept_codes, optional_code_weight, CodesWithin, ForDenotedOrNone, IsTaken};
ghost use Rattle.dexmembers.specs.internal.Stored.{code_with, item_at};

use crate::attaching::place_for;
use crate::class_data::EncodedMethod;
use crate::code_list::{CodeList, StoredCode, code_at};
use crate::held_codes::HeldCodes;
use crate::kept::{Kept, Offsets};
use crate::method_list::{DeclaredMethod, MethodList};
use crate::places::Place;
use crate::row_reader::{RowReader, too_heavy};
use crate::shared_members::{CodeKeys, SharedCodePools};
use dexcode::{
    CheckedDebugs, Code, Debug, check_code_once, debug_unindexed_law, read_debug,
    read_without_debug,
};
use dexflags::MethodFlags;
use dexhead::{Frame, u32_at};
use dexinsn::Scratch;
use dexpool::ItemFault;
use dexval::item_key;
use std::alloc::{AllocError, Global};
use std::collections::HashMap;

// Returns what is left of a weight after the code at a place, with its debug program, or `None` if the code weighs more.
// A method without a place has no code.
fn left_after(left: u64, kept: &KeptCodes<'_>, place: Place) -> Option<u64>
    ensures symbolic { ForDenotedOrNone (item_at (kept_codes kept.now) place) (λ m x.
        IsTaken left (optional_code_weight x) result) }
    ensures numbered { IfSome result
        (λ rest. rest + codes_weight (item_at (kept_codes kept.now) place ∷ []) ≡ left) }
{
    debug_unindexed_law();
    let Some(code) = code_at(&kept.codes.items, &kept.debugs.items, place) else {
        return Some(left);
    };
    let rest = left.checked_sub(code.weight())?;
    match code.debug() {
        Some(debug) => rest.checked_sub(debug.weight()),
        None => Some(rest),
    }
}

/// The code of a file that was checked, each code_item by its offset with its weight. Each is checked once, however
/// many methods name it.
#[derive(Drop)]
pub(crate) struct CheckedCodes {
    // The weight of each with its debug program.
    weights: HashMap<u32, u64>,
    // Their debug programs: each is checked once, however many code items name it.
    debugs: CheckedDebugs,
    // Room for the bits of the one that is checked.
    scratch: Scratch,
}

impl CheckedCodes {
    /// Returns an empty cache.
    pub(crate) fn none(alloc: Global) -> CheckedCodes
        ensures { (b : List ℕ) → AreCheckedCodes b result }
    {
        CheckedCodes {
            weights: HashMap::new(alloc),
            debugs: CheckedDebugs::none(alloc),
            scratch: Scratch::new(alloc),
        }
    }
}

// The code that methods of one list have, and its debug programs. Where several methods name one item, or several items
// one debug program, it is kept once.
#[derive(Drop)]
struct KeptCodes<'a> {
    codes: Kept<StoredCode<Code<'a>>>,
    debugs: Kept<Debug<'a>>,
}

impl<'a> KeptCodes<'a> {
    // Nothing yet, and room for the code of these methods.
    fn none(
        alloc: Global,
        frame: &Frame<'a>,
        listed: &[EncodedMethod],
    ) -> Result<KeptCodes<'a>, AllocError>
        ensures codes { IfOk result (λ kept. kept_codes kept ≡ []) }
        ensures places { IfOk result ArePlacesOfCodes }
        ensures read { (b : List ℕ) (m : Mentions) → IfOk result (AreReadCodes b m) }
    {
        let mut codes = Offsets::none();
        let mut debugs = Offsets::none();
        for method in listed {
            codes.add(method.code_off);
            debugs.add(debug_off_of(frame, method.code_off));
        }
        Ok(KeptCodes {
            codes: Kept::none(alloc, codes)?,
            debugs: Kept::none(alloc, debugs)?,
        })
    }

    // The list of what is kept.
    fn into_list(self) -> CodeList<'a>
        requires { ArePlacesOfCodes self }
        ensures { result ≡ kept_codes self.entry }
    {
        let KeptCodes { codes, debugs } = self;
        CodeList {
            items: codes.items,
            debugs: debugs.items,
        }
    }
}

// Returns the offset of the debug program of a code_item, or 0 where there is no such item.
fn debug_off_of(frame: &Frame<'_>, code_off: u32) -> u32 {
    let bytes = frame.bytes();
    let at = code_off as usize + 8;
    if code_off == 0 || bytes.len() < at + 4 {
        return 0;
    }
    u32_at(bytes, at)
}

// Returns whether a place is this one.
fn is_at(place: Place, at: usize) -> bool {
    place.get().is_some_and(|place| place as usize == at)
}

// The item at a place, if a method has it there.
fn item_if_at<T>(items: &[T], at: usize, place: Place) -> Option<&T> {
    if !is_at(place, at) {
        return None;
    }
    items.get(at)
}

impl<'f> RowReader<'_, 'f, '_> {
    // Reads the debug program at an offset, or none at 0.
    fn debug_or_none(&self, off: u32) -> Result<Option<Debug<'f>>, ItemFault>
        ensures read { IsFile self.now
            → IfOk result (IsDebugOrNone self.now.frame.now off self.now.pools.now) }
        ensures refused { IsFile self.now
            → IfErr result (IsDebugOrNoneFault self.now.frame.now off) }
    {
        if off == 0 {
            return Ok(None);
        }
        let debug = read_debug(self.alloc, self.frame, self.pools, off)?;
        Ok(Some(debug))
    }

    // Returns the place among the debug programs that are kept of the one at an offset, which is read if it is not
    // there, or none at 0.
    fn place_debug(&self, off: u32, kept: &mut Kept<Debug<'f>>) -> Result<Place, ItemFault>
        requires places { AreNotedPlaces kept.old }
        requires known { IsFile self.now
            → AreReadDebugs self.now.frame.now self.now.pools.now kept.old }
        ensures places { OnOk result (AreNotedPlaces kept.new) }
        ensures known { IsFile self.now
            → OnOk result (AreReadDebugs self.now.frame.now self.now.pools.now kept.new) }
        ensures kept { IfOk result (λ place.
            IsKeptAt (item_at kept.new.items.items place) kept.old.items.items kept.new.items.items
            place) }
        ensures read { IsFile self.now → IfOk result (λ place.
            IsDebugOrNone self.now.frame.now off self.now.pools.now
            (item_at kept.new.items.items place)) }
        ensures refused { IsFile self.now
            → IfErr result (IsDebugOrNoneFault self.now.frame.now off) }
    {
        if let Some(place) = kept.place_at(off) {
            return Ok(place);
        }
        let debug = self.debug_or_none(off)?;
        let place = kept.keep(off, debug)?;
        Ok(place)
    }

    // Reads the code at an offset, or none at 0. Its debug program is kept among the others.
    fn code_or_none(
        &self,
        off: u32,
        scratch: &mut Scratch,
        debugs: &mut Kept<Debug<'f>>,
    ) -> Result<Option<StoredCode<Code<'f>>>, ItemFault>
        requires places { AreNotedPlaces debugs.old }
        requires known { IsFile self.now
            → AreReadDebugs self.now.frame.now self.now.pools.now debugs.old }
        ensures places { OnOk result (AreNotedPlaces debugs.new) }
        ensures known { IsFile self.now
            → OnOk result (AreReadDebugs self.now.frame.now self.now.pools.now debugs.new) }
        ensures kept { IfOk result (λ code.
            IsDebugKept code debugs.old.items.items debugs.new.items.items) }
        ensures read { IsFile self.now → IfOk result (λ code.
            IsCodeOrNone self.now.frame.now off self.now.pools.now
            (option_map (code_with debugs.new.items.items) code)) }
        ensures refused { IsFile self.now
            → IfErr result (IsCodeOrNoneFault self.now.frame.now off) }
    {
        if off == 0 {
            return Ok(None);
        }
        let (code, debug_off) = read_without_debug(
            self.alloc, self.frame, self.pools, off, scratch,
        )?;
        let debug = self.place_debug(debug_off, debugs)?;
        Ok(Some(StoredCode { code, debug }))
    }

    // Returns the place among the code that is kept of the code at an offset, which is read if it is not there, or none
    // at 0.
    fn place_code(
        &self,
        off: u32,
        scratch: &mut Scratch,
        kept: &mut KeptCodes<'f>,
    ) -> Result<Place, ItemFault>
        requires places { ArePlacesOfCodes kept.old }
        requires known { IsFile self.now
            → AreReadCodes self.now.frame.now self.now.pools.now kept.old }
        ensures places { OnOk result (ArePlacesOfCodes kept.new) }
        ensures known { IsFile self.now
            → OnOk result (AreReadCodes self.now.frame.now self.now.pools.now kept.new) }
        ensures kept { IfOk result (λ place.
            IsKeptAt (item_at (kept_codes kept.new) place) (kept_codes kept.old)
            (kept_codes kept.new) place) }
        ensures read { IsFile self.now → IfOk result (λ place.
            IsCodeOrNone self.now.frame.now off self.now.pools.now
            (item_at (kept_codes kept.new) place)) }
        ensures refused { IsFile self.now
            → IfErr result (IsCodeOrNoneFault self.now.frame.now off) }
    {
        if let Some(place) = kept.codes.place_at(off) {
            return Ok(place);
        }
        let code = self.code_or_none(off, scratch, &mut kept.debugs)?;
        let place = kept.codes.keep(off, code)?;
        Ok(place)
    }

    // The keys of the code that these methods of the list have, and of its debug programs: of each the offset at the
    // first method that has it.
    fn code_keys(
        &self,
        items: &[StoredCode<Code<'f>>],
        methods: &[DeclaredMethod],
        listed: &[EncodedMethod],
    ) -> Result<CodeKeys, AllocError> {
        let mut keys = CodeKeys {
            codes: Vec::new(self.alloc),
            debugs: Vec::new(self.alloc),
        };
        for (method, encoded) in methods.iter().zip(listed) {
            let Some(item) = item_if_at(items, keys.codes.len(), method.code) else {
                continue;
            };
            let off = encoded.code_off;
            keys.codes.push(item_key(self.frame, off))?;
            if is_at(item.debug, keys.debugs.len()) {
                let debug_off = debug_off_of(self.frame, off);
                keys.debugs.push(item_key(self.frame, debug_off))?;
            }
        }
        Ok(keys)
    }

    // The code of methods of the list: in memory of its own, or, if classes share code, in that of other lists too.
    fn hold_codes(
        &self,
        codes: CodeList<'f>,
        methods: &[DeclaredMethod],
        listed: &[EncodedMethod],
        pools: &mut Option<SharedCodePools<'f>>,
    ) -> Result<HeldCodes<'f>, AllocError>
        ensures { IfOk result (λ held. codes_in held ≡ codes.entry) }
    {
        let Some(pools) = pools else {
            return Ok(HeldCodes::Own(codes));
        };
        let keys = self.code_keys(&codes.items, methods, listed)?;
        Ok(HeldCodes::Shared(pools.share(codes, &keys)?))
    }

    /// Reads the methods of a list of class data, with their code, each with its debug program, and with the places of
    /// their sets and lists of sets in a directory. Returns them with the weight of their code; a method whose offset is
    /// 0 has none. All code is read in the same `scratch`. An item that several of them name is read and kept once, and
    /// so is a debug program; if there are pools of code, both are in the memory of these.
    ///
    /// Error: `Refused` with 18, 19 or 20, a condition that fails for the code of one of the methods; `Refused(23)` at
    /// the method by which the code weighs more than `most`, and what comes after it is not looked at; `Memory` where an
    /// allocation failed.
    ///
    /// Source: "encoded_method format", "code_item", "method_annotation format", "parameter_annotation format".
    pub(crate) fn read_methods(
        &self,
        listed: &[EncodedMethod],
        sets: &[(u32, u32)],
        lists: &[(u32, u32)],
        scratch: &mut Scratch,
        pools: &mut Option<SharedCodePools<'f>>,
    ) -> Result<(MethodList<'f>, u64), ItemFault>
        ensures read { IsFile self.now → IfOk result (CodesWithin self.now listed.now) }
        ensures many { IfOk result (λ methods. length (methods_in methods.0) ≡ length listed.now) }
        ensures placed { IfOk result (λ methods. AreCodesPlaced methods.0) }
        ensures weight { IfOk result (λ methods.
            methods.1 ≡ codes_weight (held_codes (methods_in methods.0))) }
        ensures methods { IfOk result (λ methods.
            AreHeldMethods sets.now lists.now listed.now (methods_in methods.0)) }
        ensures sets_held { (limit : ℕ) → PlacesBelow limit sets.now
            → IfOk result (λ methods. HaveSetsBelow limit (methods_in methods.0)) }
        ensures lists_held { (limit : ℕ) → PlacesBelow limit lists.now
            → IfOk result (λ methods. HaveListsBelow limit (methods_in methods.0)) }
        ensures refused { IsFile self.now
            → IfErr result (IsCodesFaultWithin self.now.frame.now listed.now self.now.most) }
    {
        self.pools.numbering().is_numbering();
        let mut methods = Vec::with_capacity(self.alloc, listed.len())?;
        let mut kept = KeptCodes::none(self.alloc, self.frame, listed)?;
        let mut left = self.most;
        for method in listed {
            let code = self.place_code(method.code_off, scratch, &mut kept)?;
            match left_after(left, &kept, code) {
                Some(rest) => left = rest,
                None => return Err(too_heavy()),
            }
            methods.push(DeclaredMethod {
                number: method.index,
                flags: MethodFlags::from_bits_retain(method.flags),
                code,
                set: place_for(sets, method.index)?,
                list: place_for(lists, method.index)?,
            })?;
        }
        let code_items = self.hold_codes(kept.into_list(), &methods, listed, pools)?;
        let methods = MethodList {
            methods,
            code_items,
        };
        Ok((methods, self.most - left))
    }

    // Returns the weight of the code at an offset with its debug program; at 0 there is no code, and the weight is 0.
    fn check_code(&self, off: u32, checked: &mut CheckedCodes) -> Result<u64, ItemFault>
        requires { IsFile self.now → AreCheckedCodes self.now.frame.now checked.old }
        ensures checked { IsFile self.now
            → OnOk result (AreCheckedCodes self.now.frame.now checked.new) }
        ensures weight { IsFile self.now
            → IfOk result (HasCodeOrNoneOf self.now.frame.now off) }
        ensures refused { IsFile self.now
            → IfErr result (IsCodeOrNoneFault self.now.frame.now off) }
    {
        if off == 0 {
            return Ok(0);
        }
        if let Some(weight) = checked.weights.get(&off) {
            return Ok(*weight);
        }
        let (scratch, debugs) = (&mut checked.scratch, &mut checked.debugs);
        let shape = check_code_once(self.frame, self.pools, off, scratch, debugs)?;
        checked.weights.insert(off, shape.weight)?;
        Ok(shape.weight)
    }

    /// Checks the code of the methods, each with its debug program; a method whose offset is 0 has none. It returns the
    /// weight of the methods with their code and without their annotations, or 2^64 - 1 where that is more. Code that
    /// was checked before is not checked again.
    ///
    /// Condition: what was checked before is of this file. Error: `Refused` with 18, 19 or 20, a condition that fails
    /// for the code of one of the methods; `Memory` where an allocation failed.
    ///
    /// Source: "encoded_method format", the field `code_off`, and "code_item"; the weight is this project's rule.
    pub(crate) fn check_codes(
        &self,
        methods: &[EncodedMethod],
        checked: &mut CheckedCodes,
    ) -> Result<u64, ItemFault>
        requires { IsFile self.now → AreCheckedCodes self.now.frame.now checked.old }
        ensures checked { IsFile self.now
            → OnOk result (AreCheckedCodes self.now.frame.now checked.new) }
        ensures weight { IsFile self.now
            → IfOk result (HaveCodesOf self.now.frame.now methods.now) }
        ensures refused { IsFile self.now
            → IfErr result (IsCodesFault self.now.frame.now methods.now) }
    {
        let mut weight: u64 = 0;
        for method in methods {
            let code = self.check_code(method.code_off, checked)?;
            weight = weight.saturating_add(31).saturating_add(code);
        }
        Ok(weight)
    }
}
