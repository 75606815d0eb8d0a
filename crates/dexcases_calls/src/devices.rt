//! Devices in memory.

ghost use Rattle.std.specs.Prelude.{IfOk};
ghost use Rattle.dexio.specs.Device.{is_broken};
ghost use Rattle.dexruns.specs.Runs.{AllWork};

use dexhead::Device;
use std::alloc::{AllocError, Global};

/// Returns a device over the bytes of each file.
pub fn devices(alloc: Global, files: &[Vec<u8>]) -> Result<Vec<Device<&[u8]>>, AllocError>
    ensures { IfOk result (λ devices. AllWork is_broken devices.items) }
{
    let mut devices = Vec::with_capacity(alloc, files.len())?;
    for file in files {
        devices.push(Device::new(file.as_slice()))?;
    }
    Ok(devices)
}
