//! Checks.

ghost use Rattle.std.specs.Prelude.{◌≡◌, ◌⊎◌};
ghost use Rattle.dexclass.specs.Checking.{IsCheckedAs};
ghost use Rattle.dexkit_c.specs.Faults.{IsRefusalSaid};

use crate::faults::{DONE, Fault, MEMORY, REFUSED, put_refusal};
use dexpool::ReadFault;
use std::alloc::Global;

/// Checks a file. Returns 0 if it is accepted, with the number of its classes; 1 if it is refused, with a condition that
/// it does not meet, and where; 4 if an allocation failed.
///
/// Source: "Dalvik Executable format".
#[unsafe(no_mangle)]
pub extern "C" fn dexkit_c_check(
    alloc: Global,
    file: &[u8],
    classes: &mut usize,
    fault: &mut Fault,
) -> u32
    ensures accepted { result ≡ 0 → IsCheckedAs file.now classes.new }
    ensures refused { result ≡ 1 → IsRefusalSaid file.now fault.new }
    ensures no_other { (result ≡ 0) ⊎ ((result ≡ 1) ⊎ (result ≡ 4)) }
    ensures classes_left { (result ≡ 0) ⊎ (classes.new ≡ classes.old) }
    ensures fault_left { (result ≡ 1) ⊎ (fault.new ≡ fault.old) }
{
    match dexclass::check(alloc, file) {
        Ok(count) => {
            *classes = count;
            DONE
        }
        Err(ReadFault::Refused(refusal)) => {
            put_refusal(0, &refusal, fault);
            REFUSED
        }
        Err(ReadFault::Memory) => MEMORY,
    }
}
