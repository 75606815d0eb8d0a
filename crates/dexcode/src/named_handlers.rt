//! The handlers that tries name, each once.

ghost use Rattle.std.specs.Prelude.{◌≡◌, ◌+◌, ◌≤◌, length, slice_index_or, None, IfOk, OnOk};
ghost use Rattle.dexcode.specs.Numbered.{NumberedHandler};
ghost use Rattle.dexcode.specs.internal.NamedHandlers.{AreKnown, IsHandlerAt, IsNumberOf, IsPutAt};

use crate::handlers::Handler;
use crate::tries_reader::TriesReader;
use indexmap::IndexSet;
use std::alloc::AllocError;

// The number at a place, if there is one.
#[inline(always)]
pub(crate) fn number_at(numbers: &[Option<usize>], place: u16) -> Option<usize>
    ensures { result ≡ slice_index_or numbers.now place None }
{
    *numbers.get(usize::from(place))?
}

// Puts a number at a place.
fn put_at(numbers: &mut Vec<Option<usize>>, place: u16, number: usize) -> Result<(), AllocError>
    ensures { OnOk result (IsPutAt place number numbers.old.items numbers.new.items) }
{
    let place = usize::from(place);
    if numbers.len() <= place {
        numbers.resize(place + 1, None)?;
    }
    numbers[place] = Some(number);
    Ok(())
}

impl TriesReader<'_, '_> {
    // Returns the number of the handler at an offset from the start of the list among the handlers that are named, and
    // adds the handler to these if it is new.
    pub(crate) fn number_of(
        &self,
        list: usize,
        off: u16,
        handlers: &mut IndexSet<Handler>,
        numbers: &mut Vec<Option<usize>>,
    ) -> Result<usize, AllocError>
        requires within { list + off ≤ length self.now.bytes.now }
        requires there { (h : NumberedHandler)
            × IsHandlerAt self.now.starts.now self.now.types self.now.bytes.now (list + off) h }
        ensures { (h : NumberedHandler)
            → IsHandlerAt self.now.starts.now self.now.types self.now.bytes.now (list + off) h
            → AreKnown self.now.starts.now self.now.types self.now.bytes.now list handlers.old.keys
            numbers.old.items
            → IfOk result (IsNumberOf self.now.starts.now self.now.types self.now.bytes.now list h
            handlers.old.keys handlers.new.keys numbers.new.items) }
    {
        if let Some(number) = number_at(numbers, off) {
            return Ok(number);
        }
        let handler = self.build_handler(list + usize::from(off))?;
        let (number, _) = handlers.insert_full(handler)?;
        put_at(numbers, off, number)?;
        Ok(number)
    }
}
