//! Devices that move few bytes a call, or fail at one call.

ghost use Rattle.std.specs.Prelude.{◌≤◌, IfOk};

use std::io;
use std::io::{ErrorKind, Read, Write};

/// How a device moves its bytes: at most `most` a call, except the call number `failing`, which fails.
#[derive(Clone, Copy)]
pub(crate) struct Script {
    pub(crate) most: usize,
    pub(crate) failing: usize,
    /// The fault of that call; if there is none, the call moves no byte.
    pub(crate) fault: Option<ErrorKind>,
}

/// All bytes at once.
pub(crate) const WHOLE: Script = Script {
    most: 8192,
    failing: 1000000,
    fault: None,
};

/// Returns a script of at most `most` bytes a call.
pub(crate) fn by(most: usize) -> Script {
    Script { most, ..WHOLE }
}

/// Returns a script of at most `most` bytes a call, where one call fails.
pub(crate) fn failing(most: usize, failing: usize) -> Script {
    Script {
        most,
        failing,
        fault: Some(ErrorKind::BrokenPipe),
    }
}

/// A device that follows a script, and counts the calls.
#[derive(Drop)]
pub(crate) struct Scripted<T> {
    pub(crate) inner: T,
    script: Script,
    pub(crate) calls: usize,
}

impl<T> Scripted<T> {
    pub(crate) fn new(inner: T, script: Script) -> Self {
        Scripted {
            inner,
            script,
            calls: 0,
        }
    }

    // Returns how many of `len` bytes this call moves.
    fn moved(&mut self, len: usize) -> io::Result<usize>
        ensures { IfOk result (λ n. n ≤ len) }
    {
        let call = self.calls;
        self.calls = call.saturating_add(1);
        if call != self.script.failing {
            return Ok(self.script.most.min(len));
        }
        match self.script.fault {
            Some(kind) => Err(kind.into()),
            None => Ok(0),
        }
    }
}

impl<T: Read> Read for Scripted<T> {
    fn read(&mut self, buf: &mut [u8]) -> io::Result<usize> {
        let n = self.moved(buf.len())?;
        self.inner.read(&mut buf[..n])
    }
}

impl<T: Write> Write for Scripted<T> {
    fn write(&mut self, bytes: &[u8]) -> io::Result<usize> {
        let n = self.moved(bytes.len())?;
        self.inner.write(&bytes[..n])
    }

    fn flush(&mut self) -> io::Result<()> {
        Ok(())
    }
}
