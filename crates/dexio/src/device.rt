//! What bytes come from and go to, with faults and bytes that a contract can name, and the device over
//! any reader or writer.

ghost use Rattle.std.specs.Prelude.{◌≡◌, ◌<◌, ◌≤◌, ◌++◌, ℕ, List, [], Bool, true, false, length, take, Option, IsSome, unwrap_or, OnOk, OnErr, IfOk, IfErr};
ghost use Rattle.dexio.specs.Prefixes.{TakesPrefix};

use std::io::{Read, Write};

/// A device failed. It does not say why, and is not to be called again.
#[derive(Clone, Copy, Debug, PartialEq, Eq)]
pub struct DeviceFault;

/// What bytes come from. Its caller does not read on after a fault.
pub trait Source {
    // Whether the bytes of the device are known. What is stated about them holds where they are.
    ghost reports: { Self → Type 0 };

    // The bytes to come.
    ghost to_come: { Self → List ℕ };

    // Whether it has failed.
    ghost has_failed: { Self → Bool };

    // How many bytes in all are expected to come.
    ghost expected_len: { Self → ℕ };

    /// Returns whether the device has failed: from the first fault on, and not before.
    fn failed(&self) -> bool
        ensures { result ≡ has_failed self.now };

    /// How many bytes in all are expected to come, 0 where nobody knows. It is a hint for the first allocation.
    fn expected(&self) -> usize
        ensures { result ≡ expected_len self.now };

    /// Moves a prefix of the bytes to come to the start of the buffer, and returns its length, which for a buffer that
    /// is not empty is 0 only at the end of the bytes.
    ///
    /// Condition: the device has not failed.
    fn read(&mut self, buf: &mut [u8]) -> Result<usize, DeviceFault>
        requires { has_failed self.old ≡ false }

        // It returns the fault if and only if the device fails in this call.
        ensures works { OnOk result (has_failed self.new ≡ false) }
        ensures fails { OnErr result (has_failed self.new ≡ true) }

        ensures bound { IfOk result (λ n. n ≤ length buf.new) }
        ensures reports { reports self.old → reports self.new }
        ensures moved { IfOk result (λ n. reports self.old
            → to_come self.old ≡ take n buf.new ++ to_come self.new) }

        // Only at the end are there none for a buffer that has room.
        ensures end { IfOk result (λ n. n ≡ 0 → 0 < length buf.new → reports self.old
            → to_come self.old ≡ []) };
}

/// What bytes go to. Its caller does not write on after a fault.
pub trait Sink {
    // Whether the bytes of the device are known. What is stated about them holds where they are.
    ghost reports: { Self → Type 0 };

    // The bytes that it has taken.
    ghost taken: { Self → List ℕ };

    // Whether it has failed.
    ghost has_failed: { Self → Bool };

    /// Returns whether the device has failed: from the first fault on, and not before.
    fn failed(&self) -> bool
        ensures { result ≡ has_failed self.now };

    /// Appends a prefix of the bytes to those taken, and returns its length, at least 1.
    ///
    /// Conditions: the device has not failed, and the bytes are not empty. A write that fails may have taken a prefix
    /// too.
    fn write(&mut self, bytes: &[u8]) -> Result<usize, DeviceFault>
        requires works { has_failed self.old ≡ false }
        requires some { 0 < length bytes.now }

        // It returns the fault if and only if the device fails in this call.
        ensures works { OnOk result (has_failed self.new ≡ false) }
        ensures fails { OnErr result (has_failed self.new ≡ true) }

        ensures positive { IfOk result (λ n. 0 < n) }
        ensures bound { IfOk result (λ n. n ≤ length bytes.now) }
        ensures reports { reports self.old → reports self.new }
        ensures appended { IfOk result (λ n. reports self.old
            → taken self.new ≡ taken self.old ++ take n bytes.now) }

        // A write that fails has appended a prefix, perhaps an empty one.
        ensures prefix { OnErr result (reports self.old
            → TakesPrefix (taken self.old) (taken self.new) bytes.now) };
}

/// Writes all the bytes, by as many calls of `Sink::write` as it takes; none for no bytes.
///
/// Condition: the device has not failed. Error: exactly where it fails in this call; then it has taken a prefix of the
/// bytes, perhaps an empty one.
pub fn write_whole<W: Sink>(out: &mut W, bytes: &[u8]) -> Result<(), DeviceFault>
    requires { W.has_failed out.old ≡ false }
    ensures reports { W.reports out.old → W.reports out.new }
    ensures written { OnOk result (W.reports out.old
        → W.taken out.new ≡ W.taken out.old ++ bytes.now) }
    ensures prefix { OnErr result (W.reports out.old
        → TakesPrefix (W.taken out.old) (W.taken out.new) bytes.now) }
    ensures works { OnOk result (W.has_failed out.new ≡ false) }
    ensures fails { OnErr result (W.has_failed out.new ≡ true) }
{
    let mut done = 0;
    'pieces: while done < bytes.len() {
        let (_, rest) = bytes.split_at(done);
        done += out.write(rest)?;
    }
    Ok(())
}

/// A source over any reader, and a sink over any writer, whose bytes are those of what is inside.
///
/// Each error of what is inside is a fault, also one of the kind `Interrupted`: no call is tried again.
/// A write that returns 0 is a fault too.
#[derive(Drop)]
pub struct Device<T> {
    inner: T,
    is_broken: bool,
    expected: usize,
}

impl<T> Device<T> {
    ghost use Rattle.dexio.specs.Device.{inner_of, is_broken, expected_of};

    /// A device that has not failed. How many bytes are to come is not known: 0 are expected.
    pub fn new(inner: T) -> Self
        ensures inner { inner_of result ≡ inner }
        ensures works { is_broken result ≡ false }
        ensures expected { expected_of result ≡ 0 }
    {
        Device::expecting(inner, 0)
    }

    /// A device that has not failed, of which `expected` bytes are expected: `Source::expected` returns this number.
    pub fn expecting(inner: T, expected: usize) -> Self
        ensures inner { inner_of result ≡ inner }
        ensures works { is_broken result ≡ false }
        ensures expected { expected_of result ≡ expected }
    {
        Device {
            inner,
            is_broken: false,
            expected,
        }
    }

    /// What is inside.
    pub fn into_inner(self) -> T
        ensures { result ≡ inner_of self }
    {
        let Device { inner, .. } = self;
        inner
    }
}

impl<T: Read> Source for Device<T> {
    ghost use Rattle.dexio.specs.Device.{expected_of};

    ghost reports = { λ d. IsSome (T.remaining d.inner) };

    ghost to_come = { λ d. unwrap_or (T.remaining d.inner) [] };

    ghost has_failed = { λ d. d.is_broken };

    ghost expected_len = { expected_of };

    fn failed(&self) -> bool {
        self.is_broken
    }

    fn expected(&self) -> usize {
        self.expected
    }

    fn read(&mut self, buf: &mut [u8]) -> Result<usize, DeviceFault> {
        let read = self.inner.read(buf);
        self.is_broken = read.is_err();
        read.map_err(|_| DeviceFault)
    }
}

impl<T: Write> Sink for Device<T> {
    ghost reports = { λ d. IsSome (T.contents d.inner) };

    ghost taken = { λ d. unwrap_or (T.contents d.inner) [] };

    ghost has_failed = { λ d. d.is_broken };

    fn failed(&self) -> bool {
        self.is_broken
    }

    fn write(&mut self, bytes: &[u8]) -> Result<usize, DeviceFault> {
        let written = self.inner.write(bytes).unwrap_or(0);
        self.is_broken = written == 0;
        (written > 0).then_some(written).ok_or(DeviceFault)
    }
}
