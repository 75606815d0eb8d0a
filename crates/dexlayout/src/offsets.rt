//! Where items of one kind begin and end.

ghost use Rattle.std.specs.Prelude.{◌≡◌, ◌+◌, ◌<◌, ◌≤◌, ◌^◌, IfOk, OnOk};
ghost use Rattle.dexspec.specs.Bytes as bytes;
ghost use Rattle.dexlayout.specs.internal.Running.{align_end, none_from, pass, put_next};

use std::alloc::{AllocError, Global};
use std::marker::Model;

/// The offsets of the items of one kind: one for each use, in bytes from the start of the file, and 0 where a use has
/// no item.
#[derive(Drop)]
pub struct Offsets {
    pub(crate) offsets: Vec<u32>,
    pub(crate) end: u32,
}

impl Model for Offsets {
    ghost use Rattle.dexlayout.specs.Places.{ItemPlaces};

    ghost Value = { ItemPlaces };

    ghost view = { λ p. record { offsets = p.offsets.items; end = p.end } };
}

impl Offsets {
    /// The offset of each use's item, or 0.
    pub fn offsets(&self) -> &[u32]
        ensures { result.now ≡ self.now.offsets }
    {
        &self.offsets
    }

    /// Where the last item ends.
    pub fn end(&self) -> u32
        ensures { result ≡ self.now.end }
    {
        self.end
    }

    /// No items yet, and memory for `uses` of them; the first item will be at `from` or after it.
    pub(crate) fn starting_at(alloc: Global, from: u32, uses: usize) -> Result<Offsets, AllocError>
        ensures { IfOk result (λ places. places ≡ none_from from) }
    {
        Ok(Offsets {
            offsets: Vec::with_capacity(alloc, uses)?,
            end: from,
        })
    }

    /// Adds a use that has no item.
    pub(crate) fn pass(&mut self) -> Result<(), AllocError>
        ensures { OnOk result (self.new ≡ pass self.old) }
    {
        self.offsets.push(0)?;
        Ok(())
    }

    /// Adds a use whose item of `len` bytes is at the end of those before it.
    pub(crate) fn put_next(&mut self, len: usize) -> Result<(), AllocError>
        requires { self.old.end + len ≤ 2 ^ 30 }
        ensures { OnOk result (self.new ≡ put_next self.old len) }
    {
        self.offsets.push(self.end)?;
        self.end += len as u32;
        Ok(())
    }

    /// Moves the end to where the next item is aligned to 4 bytes.
    pub(crate) fn align(&mut self)
        requires { self.old.end < 2 ^ 31 }
        ensures { self.new ≡ align_end 4 self.old }
    {
        self.end = round_up(self.end);
    }
}

/// The least multiple of 4 that is not less.
pub(crate) fn round_up(at: u32) -> u32
    requires { at < 2 ^ 31 }
    ensures { result ≡ bytes.round_up 4 at }
{
    (at + 3) / 4 * 4
}

/// The zeros that align what is at an offset to 4 bytes.
pub(crate) fn padding(at: u32) -> &'static [u8]
    ensures { result.now ≡ bytes.padding 4 at }
{
    let zeros: &'static [u8] = &[0; 3];
    &zeros[..((4 - at % 4) % 4) as usize]
}
