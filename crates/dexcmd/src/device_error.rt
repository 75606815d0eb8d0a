//! The error by which a device failed.

ghost use Rattle.std.specs.Prelude.{◌≡◌};

use std::alloc::{AllocError, Global};
use std::io;

/// The error by which a device failed.
#[derive(Clone, Copy, Debug)]
pub struct DeviceError {
    error: io::Error,
}

impl DeviceError {
    /// That of a call that returned this error.
    pub fn of(error: io::Error) -> DeviceError
        ensures { result.error ≡ error }
    {
        DeviceError { error }
    }

    /// Returns the system's text for the error, without its number: `No such file or directory`.
    ///
    /// Error: allocation failed.
    pub fn reason(&self, alloc: Global) -> Result<String, AllocError> {
        let error = self.error;
        let text = format!(in alloc; "{error}")?;
        let Some(code) = error.raw_os_error() else {
            return Ok(text);
        };
        let number = format!(in alloc; " (os error {code})")?;
        match text.as_str().strip_suffix(number.as_str()) {
            Some(reason) => String::from_str(alloc, reason),
            None => Ok(text),
        }
    }
}
