//! The reader of tries and their handlers.

ghost use Rattle.std.specs.Prelude.{◌≡◌, ◌^◌, ◌<◌, ◌≤◌, ◌+◌, ◌*◌, ℕ, List, [], Option, Some, None, length, slice_index, unwrap_or, IfOk, IfErr, IfSome, IfNone, vec_capacity};
ghost use Rattle.dexspec.specs.Bytes.{uint_at};
ghost use Rattle.dexspec.specs.Lists.{Sequence};
ghost use Rattle.dexspec.specs.Numbers.{Uleb128At};
ghost use Rattle.dexcode.specs.Numbered.{NumberedHandler};
ghost use Rattle.dexcode.specs.Reading.{TriesAt, IsStart, CatchAt, CatchAllAt, ListedTryAt, TryItemsAt, IsNumberPut, IsTriesFault};
ghost use Rattle.dexcode.specs.declared.handlers.Catch.{Catch as Caught};
ghost use Rattle.dexcode.specs.declared.tries.Try.{Try as Meant};
ghost use Rattle.dexcode.specs.internal.NamedHandlers.{HasHandler, HasList, HaveListed, IsHandlerAt};
ghost use Rattle.dexcode.specs.internal.TriesReading.{HasNoTries, HaveLightHandlers, IsFoundNamed, AreHeavy, AreTriesRead, NoHandlerAt, NoList, NoTries, NoTryItems};

use crate::handlers::{Catch, Handler, handlers_weight};
use crate::named_handlers::number_at;
use crate::stored_tries::StoredTries;
use crate::tries::Try;
use dexhead::{Condition, u16_at, u32_at};
use dexinsn::InstructionStarts;
use dexleb::{read_s, read_u};
use dexpool::ItemFault;
use indexmap::IndexSet;
use std::alloc::{AllocError, Global};

// The last byte of a list that the offset of a try can name.
const LAST_OFFSET: usize = 65_535;

/// Reads the tries of a code_item and their handlers from the bytes of a file. It has the allocator for what is read,
/// the units at which instructions of the code_item begin, and the number of types of the file.
#[derive(Clone, Copy)]
pub(crate) struct TriesReader<'s, 'u> {
    pub(crate) alloc: Global,
    pub(crate) bytes: &'s [u8],
    pub(crate) starts: &'s InstructionStarts<'u>,
    pub(crate) types: usize,
}

// The numbers of bytes are below 256. It does nothing: its contract is cited.
fn are_bytes(bytes: &[u8])
    ensures { (i : ℕ) → slice_index bytes.now i < 256 }
{}

// The try at a place, where the handlers of the list are numbered by its bytes.
#[inline(always)]
fn read_try(bytes: &[u8], at: usize, units: u32, numbers: &[Option<usize>]) -> Option<Try>
    requires { at + 8 ≤ length bytes.now }
    ensures some { IfSome result (λ t. ListedTryAt units numbers.now bytes.now at t 8) }
    ensures none { IfNone result ((t : Meant) (n : ℕ)
        → ListedTryAt units numbers.now bytes.now at t n → ⊥) }
{
    let start_addr = u32_at(bytes, at);
    let insn_count = u16_at(bytes, at + 4);
    let end = u64::from(start_addr) + u64::from(insn_count);
    if insn_count == 0 || u64::from(units) < end {
        return None;
    }
    let handler = number_at(numbers, u16_at(bytes, at + 6))?;
    Some(Try {
        start_addr,
        insn_count,
        handler,
    })
}

// The handlers of a set, in its order.
fn listed_in(alloc: Global, handlers: IndexSet<Handler>) -> Result<Vec<Handler>, AllocError>
    ensures { IfOk result (λ list. list.items ≡ handlers.keys) }
{
    handlers.into_iter().collect(alloc)
}

// Sets the number of a handler at its offset from the start of its list.
fn put_number(numbers: &mut Vec<Option<usize>>, place: usize, number: u32) -> Result<(), AllocError>
    requires { length numbers.old.items ≤ place }
    ensures { IfOk result (λ _. IsNumberPut place number numbers.old.items numbers.new.items) }
{
    if place > LAST_OFFSET {
        return Ok(());
    }
    numbers.resize(place, None)?;
    numbers.push(Some(number as usize))?;
    Ok(())
}

impl TriesReader<'_, '_> {
    // The tries of the code_item at an offset, if it has any, where its units are in the data.
    pub(crate) fn read_tries(&self, off: usize) -> Result<Option<StoredTries>, ItemFault>
        requires { off + 16 + 2 * uint_at self.now.bytes.now (off + 12)
            ≤ length self.now.bytes.now }
        ensures tries { IfOk result (λ tries. TriesAt self.now.starts.now self.now.types
            self.now.bytes.now off (unwrap_or tries [])) }
        ensures fault { IfErr result (IsTriesFault
            (HasNoTries self.now.starts.now self.now.types self.now.bytes.now off)) }
    {
        let count = u16_at(self.bytes, off + 6);
        if count == 0 {
            return Ok(None);
        }
        let units = u32_at(self.bytes, off + 12);
        let following = off + 16 + 2 * units as usize;
        if units % 2 == 0 {
            return Ok(Some(self.read_try_table(following, count, units)?));
        }
        if self.bytes.len() < following + 2 || u16_at(self.bytes, following) != 0 {
            return Err(ItemFault::Refused(Condition::Tries as u8));
        }
        Ok(Some(self.read_try_table(following + 2, count, units)?))
    }

    // `count` tries from an offset on, and the list of their handlers after them.
    fn read_try_table(&self, at: usize, count: u16, units: u32) -> Result<StoredTries, ItemFault>
        requires { at ≤ length self.now.bytes.now }
        ensures tries { IfOk result (λ tries. TryItemsAt self.now.starts.now self.now.types units
            self.now.bytes.now at count tries) }
        ensures fault { IfErr result (IsTriesFault (NoTryItems self.now.starts.now self.now.types
            units self.now.bytes.now at count)) }
    {
        are_bytes(self.bytes);
        let size = 8 * usize::from(count);
        if self.bytes.len() - at <= size {
            return Err(ItemFault::Refused(Condition::Tries as u8));
        }
        let list_at = at + size;
        let numbers = self.read_list(list_at)?;
        let items = self.read_try_items(at, count, units, &numbers)?;
        self.named(at, list_at, items, numbers)
    }

    // Tries with the handlers that their try_items at a place name, or a refusal where these weigh more than they may. A
    // handler that no try names is not kept. The tries have the numbers that the handlers have in their list, and are
    // given those of the handlers that are kept. The memory of `numbers` is used again.
    fn named(
        &self,
        at: usize,
        list: usize,
        mut tries: Vec<Try>,
        mut numbers: Vec<Option<usize>>,
    ) -> Result<StoredTries, ItemFault>
        requires listed { HaveListed self.now.starts.now self.now.types self.now.bytes.now at
            list tries.items }
        requires room { at + 8 * length tries.items ≤ length self.now.bytes.now }
        requires few { length tries.items < 2 ^ 16 }
        ensures some { IsFoundNamed self.now.starts.now self.now.types self.now.bytes.now at
            list tries.items result }
        ensures light { IfOk result HaveLightHandlers }
        ensures heavy { IfErr result (IsTriesFault
            (AreHeavy self.now.starts.now self.now.types self.now.bytes.now at list tries.items)) }
    {
        numbers.clear();
        let mut handlers = IndexSet::new(self.alloc);
        let mut place = at;
        for i in 0..tries.len() {
            let off = u16_at(self.bytes, place + 6);
            let handler = self.number_of(list, off, &mut handlers, &mut numbers)?;
            tries[i] = Try {
                handler,
                ..tries[i]
            };
            place += 8;
        }
        let handlers = listed_in(self.alloc, handlers)?;
        if handlers_weight(&handlers).is_none() {
            return Err(ItemFault::Refused(Condition::Tries as u8));
        }
        Ok(StoredTries { tries, handlers })
    }

    // Reads `count` tries at an offset, where the handlers of the list are numbered by its bytes, into a vector without
    // spare room.
    fn read_try_items(
        &self,
        at: usize,
        count: u16,
        units: u32,
        numbers: &[Option<usize>],
    ) -> Result<Vec<Try>, ItemFault>
        requires { at + 8 * count ≤ length self.now.bytes.now }
        ensures tries { IfOk result (λ tries.
            AreTriesRead units numbers.now self.now.bytes.now at count tries.items) }
        ensures full { IfOk result (λ tries. vec_capacity tries ≡ count) }
        ensures fault { IfErr result
            (IsTriesFault (NoTries units numbers.now self.now.bytes.now at count)) }
    {
        let mut tries = Vec::with_capacity(self.alloc, usize::from(count))?;
        let mut place = at;
        let mut end = 0;
        for _ in 0..count {
            let Some(item) = read_try(self.bytes, place, units, numbers) else {
                return Err(ItemFault::Refused(Condition::Tries as u8));
            };
            if item.start_addr < end {
                return Err(ItemFault::Refused(Condition::Tries as u8));
            }
            end = item.start_addr + u32::from(item.insn_count);
            tries.push_reserved(item);
            place += 8;
        }
        Ok(tries)
    }

    // Reads the list of handlers at `at`. Returns by the bytes of the list the number of the handler that begins
    // there. No handler is kept.
    fn read_list(&self, at: usize) -> Result<Vec<Option<usize>>, ItemFault>
        requires { at ≤ length self.now.bytes.now }
        ensures list { IfOk result (λ numbers. HasList self.now.starts.now self.now.types
            self.now.bytes.now at numbers.items) }
        ensures fault { IfErr result (IsTriesFault
            (NoList self.now.starts.now self.now.types self.now.bytes.now at)) }
    {
        let Ok((count, count_size)) = read_u(self.bytes, at) else {
            return Err(ItemFault::Refused(Condition::Tries as u8));
        };
        let first = at + count_size;
        let mut numbers = Vec::new(self.alloc);
        let mut size = 0;
        for number in 0..count {
            let place = first + size;
            let Some(len) = self.handler_len(place) else {
                return Err(ItemFault::Refused(Condition::Tries as u8));
            };
            put_number(&mut numbers, place - at, number)?;
            size += len;
        }
        Ok(numbers)
    }

    // Reads the address at `at`, if an instruction begins there, and returns the number of bytes that encode it.
    #[inline(always)]
    fn read_address(&self, at: usize) -> Option<(u32, usize)>
        requires { at ≤ length self.now.bytes.now }
        ensures none { IfNone result ((a n : ℕ) → Uleb128At self.now.bytes.now at a n
            → IsStart self.now.starts.now a → ⊥) }
        ensures address { IfSome result (λ x. Uleb128At self.now.bytes.now at x.0 x.1) }
        ensures start { IfSome result (λ x. IsStart self.now.starts.now x.0) }
    {
        let (addr, size) = read_u(self.bytes, at).ok()?;
        self.starts.contains(addr).then_some((addr, size))
    }

    // Reads the type that is caught and its address at `at`, and returns the number of bytes that encode them.
    #[inline(always)]
    fn read_catch(&self, at: usize) -> Option<(Catch, usize)>
        requires { at ≤ length self.now.bytes.now }
        ensures none { IfNone result ((c : Caught) (n : ℕ)
            → CatchAt self.now.starts.now self.now.types self.now.bytes.now at c n → ⊥) }
        ensures some { IfSome result (λ x.
            CatchAt self.now.starts.now self.now.types self.now.bytes.now at x.0 x.1) }
        ensures within { IfSome result (λ x. at + x.1 ≤ length self.now.bytes.now) }
    {
        let Ok((typ, index_size)) = read_u(self.bytes, at) else {
            return None;
        };
        if self.types <= typ as usize {
            return None;
        }
        let (addr, addr_size) = self.read_address(at + index_size)?;
        Some((Catch { typ, addr }, index_size + addr_size))
    }

    // Builds the `count` catches at `at`, in a vector without spare room, and returns the number of bytes that encode
    // them.
    fn build_catches(&self, at: usize, count: usize) -> Result<(Vec<Catch>, usize), AllocError>
        requires within { at ≤ length self.now.bytes.now }
        requires there { (cs : List Caught) × (n : ℕ) × (length cs ≡ count)
            × Sequence (CatchAt self.now.starts.now self.now.types) self.now.bytes.now at cs n }
        ensures within { IfOk result (λ x. at + x.1 ≤ length self.now.bytes.now) }
        ensures built { (cs : List Caught) (n : ℕ) → length cs ≡ count
            → Sequence (CatchAt self.now.starts.now self.now.types) self.now.bytes.now at cs n
            → IfOk result (λ x. (x.0.items ≡ cs) × (x.1 ≡ n)) }
        ensures full { IfOk result (λ x. vec_capacity x.0 ≡ count) }
    {
        let mut catches = Vec::with_capacity(self.alloc, count)?;
        let mut size = 0;
        for _ in 0..count {
            let (caught, len) = self.read_catch(at + size).unwrap();
            catches.push_reserved(caught);
            size += len;
        }
        Ok((catches, size))
    }

    // Reads the catch-all address, if the size of the handler says that there is one, and returns the number of bytes
    // that encode it.
    #[inline(always)]
    fn read_catch_all(&self, at: usize, size: i32) -> Option<(Option<u32>, usize)>
        requires { at ≤ length self.now.bytes.now }
        ensures none { IfNone result ((a : Option ℕ) (n : ℕ)
            → CatchAllAt self.now.starts.now size self.now.bytes.now at a n → ⊥) }
        ensures some { IfSome result (λ x.
            CatchAllAt self.now.starts.now size self.now.bytes.now at x.0 x.1) }
        ensures within { IfSome result (λ x. at + x.1 ≤ length self.now.bytes.now) }
    {
        if size > 0 {
            return Some((None, 0));
        }
        let (addr, len) = self.read_address(at)?;
        Some((Some(addr), len))
    }

    // Returns the number of bytes that encode the handler at an offset, if there is one. No handler is kept.
    fn handler_len(&self, at: usize) -> Option<usize>
        requires { at ≤ length self.now.bytes.now }
        ensures none { IfNone result
            (NoHandlerAt self.now.starts.now self.now.types self.now.bytes.now at) }
        ensures some { IfSome result
            (HasHandler self.now.starts.now self.now.types self.now.bytes.now at) }
    {
        let Ok((count, count_size)) = read_s(self.bytes, at) else {
            return None;
        };
        let first = at + count_size;
        let mut size = 0;
        for _ in 0..count.unsigned_abs() {
            let (_, len) = self.read_catch(first + size)?;
            size += len;
        }
        let (_, all_size) = self.read_catch_all(first + size, count)?;
        Some(count_size + size + all_size)
    }

    // Builds the handler at an offset.
    pub(crate) fn build_handler(&self, at: usize) -> Result<Handler, AllocError>
        requires within { at ≤ length self.now.bytes.now }
        requires there { (h : NumberedHandler)
            × IsHandlerAt self.now.starts.now self.now.types self.now.bytes.now at h }
        ensures { (h : NumberedHandler)
            → IsHandlerAt self.now.starts.now self.now.types self.now.bytes.now at h
            → IfOk result (λ handler. handler ≡ h) }
    {
        let (count, count_size) = read_s(self.bytes, at).unwrap();
        let first = at + count_size;
        let many = count.unsigned_abs() as usize;
        let (catches, size) = self.build_catches(first, many)?;
        let (catch_all_addr, _) = self.read_catch_all(first + size, count).unwrap();
        Ok(Handler {
            catches,
            catch_all_addr,
        })
    }
}
