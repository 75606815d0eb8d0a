//! The output of a file: its bytes are buffered, and flushed to a target when the buffer is full.

ghost use Rattle.std.specs.Prelude.{◌≡◌, ◌+◌, ◌≤◌, ◌++◌, List, ℕ, [], Bool, true, false, OnOk, OnErr, vec_len, vec_capacity};
ghost use Rattle.dexout.specs.Output.{Adds, HasRoom, result_of};

use crate::faults::StoreFault;
use dexio::{DeviceFault, Output};

// No number is longer.
const MOST_BYTES: usize = 5;

/// Where the bytes of a file go to.
pub trait Target {
    // the bytes, the target before it took them, and the target after it
    ghost gives: { List ℕ → Self → Self → Type 0 };

    // a prefix of the bytes
    ghost gives_prefix: { List ℕ → Self → Self → Type 0 };

    // it has failed
    ghost has_failed: { Self → Bool };

    /// Writes bytes.
    ///
    /// Error: exactly where the target has failed, in this call or before; it has then taken a prefix of the bytes.
    fn write(&mut self, bytes: &[u8]) -> Result<(), DeviceFault>
        ensures works { OnOk result (has_failed self.new ≡ false) }
        ensures fails { OnErr result (has_failed self.new ≡ true) }
        ensures written { OnOk result (gives bytes.now self.old self.new) }
        ensures prefix { OnErr result (gives_prefix bytes.now self.old self.new) };

    ghost nothing: { (a : Self) → gives [] a a };

    ghost both: { (x y : List ℕ) (a b c : Self) → gives x a b → gives y b c → gives (x ++ y) a c };

    ghost whole: { (x : List ℕ) (a b : Self) → gives x a b → gives_prefix x a b };

    ghost more: { (x y : List ℕ) (a b : Self) → gives_prefix x a b → gives_prefix (x ++ y) a b };

    ghost after: { (x y : List ℕ) (a b c : Self) → gives x a b → gives_prefix y b c → gives_prefix (x ++ y) a c };
}

/// An output to a target. Once the target has failed it is left alone, so no call has a condition on what was written
/// before: the fault is asked for once, at the end.
#[derive(Drop)]
pub struct Out<T> {
    // It has room for a header. Where it has less, bytes may be missing.
    pub buffer: Vec<u8>,
    pub failed: bool,
    pub target: T,
}

impl<T: Target> Output for Out<T> {
    ghost use Rattle.dexout.specs.Output.{Adds, adds_nothing, adds_both};

    ghost gives = { λ x a b. Adds T.gives T.gives_prefix T.has_failed x a b };

    fn byte(&mut self, byte: u8) {
        self.make_room();
        self.buffer.byte(byte);
    }

    #[inline(always)]
    fn bytes(&mut self, bytes: &[u8]) {
        if bytes.len() <= self.buffer.capacity() - self.buffer.len() {
            self.buffer.bytes(bytes);
        } else {
            self.bytes_in_parts(bytes);
        }
    }

    fn uleb(&mut self, value: u32) {
        self.make_room();
        self.buffer.uleb(value);
    }

    fn sleb(&mut self, value: i32) {
        self.make_room();
        self.buffer.sleb(value);
    }

    fn u16(&mut self, value: u16) {
        self.make_room();
        self.buffer.u16(value);
    }

    fn u32(&mut self, value: u32) {
        self.make_room();
        self.buffer.u32(value);
    }

    ghost nothing = { λ a. adds_nothing T.gives T.gives_prefix T.has_failed a };

    ghost both = { λ x y a b c. adds_both T.gives T.gives_prefix T.has_failed x y a b c };
}

impl<T: Target> Out<T> {
    // Writes bytes in parts that are as long as the buffer.
    fn bytes_in_parts(&mut self, bytes: &[u8])
        ensures { Adds T.gives T.gives_prefix T.has_failed bytes.now self.old self.new }
    {
        let mut rest = bytes;
        'parts: while !rest.is_empty() {
            let (part, after) = rest.split_at(rest.len().min(self.buffer.capacity().max(1)));
            self.write_part(part);
            rest = after;
        }
    }

    // Flushes the buffer, and writes a part: to the target if it would fill the buffer.
    fn write_part(&mut self, part: &[u8])
        ensures { Adds T.gives T.gives_prefix T.has_failed part.now self.old self.new }
    {
        self.flush();
        if part.len() < self.buffer.capacity() {
            self.buffer.bytes(part);
        } else if !self.failed {
            self.failed = self.target.write(part).is_err();
        }
    }

    // Flushes the buffer where it has no room for the longest number.
    #[inline(always)]
    fn make_room(&mut self)
        ensures adds { Adds T.gives T.gives_prefix T.has_failed [] self.old self.new }
        ensures room { HasRoom self.new
            → vec_len self.new.buffer + 5 ≤ vec_capacity self.new.buffer }
    {
        let spare = self.buffer.capacity() - self.buffer.len();
        if spare >= MOST_BYTES {
            return;
        }
        self.flush();
    }

    /// Writes what is buffered to the target.
    pub fn flush(&mut self)
        ensures adds { Adds T.gives T.gives_prefix T.has_failed [] self.old self.new }
        ensures empty { vec_len self.new.buffer ≡ 0 }
    {
        if self.failed {
            self.buffer.clear();
            return;
        }
        self.failed = self.target.write(&self.buffer).is_err();
        self.buffer.clear();
    }

    /// Returns whether the target has failed, as an error.
    pub fn result(&self) -> Result<(), StoreFault>
        ensures { result ≡ result_of self.now.failed }
    {
        (!self.failed).then_some(()).ok_or(StoreFault::Io)
    }
}
