//! What is made of one file: its canonical file, its repaired file, and its listing.

ghost use Rattle.std.specs.Prelude.{◌≡◌, ◌⊎◌, OnOk, IfOk, IfErr};
ghost use Rattle.dexspec.specs.Accepted.{IsAccepted};
ghost use Rattle.dexspec.specs.Files.{Collection, Denotes};
ghost use Rattle.dexclass.specs.Programs.{IsFaultOf};
ghost use Rattle.dexlisting.specs.Listing.{listing};
ghost use Rattle.dexruns.specs.Inputs.{bytes_read};
ghost use Rattle.dexruns.specs.Repairs.{AreEqualButForSums, repaired};
ghost use Rattle.dexkit_c.specs.Calls.{IsNormalOf};
ghost use Rattle.dexkit_c.specs.Faults.{IsOfFile, IsRefusalSaid};

use crate::faults::{Bytes, DONE, Fault, MEMORY, REFUSED, put_refusal};
use dexhead::Device;
use dexpool::ReadFault;
use dexruns::{Detail, Leftover, RunFault, dump_run, repair_run};
use std::alloc::Global;

// The canonical file of what a file denotes.
fn normalised(alloc: Global, file: &[u8]) -> Result<Vec<u8>, ReadFault>
    ensures normal { IfOk result (λ out. IsNormalOf file.now out.items) }
    ensures refused { IfErr result (IsFaultOf file.now) }
{
    match dexclass::read(alloc, file) {
        Ok(program) => match dexcanon::to_bytes(alloc, &program) {
            Ok(out) => Ok(out),
            Err(_) => Err(ReadFault::Memory),
        },
        Err(why) => Err(why),
    }
}

/// Hands out the canonical file of what a file denotes. Returns 0 then; 1 if the file is refused, with a condition that
/// it does not meet, and where; 4 if an allocation failed.
///
/// Source: "Dalvik Executable format"; the canonical form is this project's rule.
#[unsafe(no_mangle)]
pub extern "C" fn dexkit_c_normalise<'a>(
    alloc: Global,
    file: &[u8],
    out: &mut Bytes<'a>,
    fault: &mut Fault,
) -> u32
    ensures normal { result ≡ 0 → IsNormalOf file.now out.new.bytes.now }
    ensures refused { result ≡ 1 → IsRefusalSaid file.now fault.new }
    ensures no_other { (result ≡ 0) ⊎ ((result ≡ 1) ⊎ (result ≡ 4)) }
    ensures out_left { (result ≡ 0) ⊎ (out.new ≡ out.old) }
    ensures fault_left { (result ≡ 1) ⊎ (fault.new ≡ fault.old) }
{
    match normalised(alloc, file) {
        Ok(made) => {
            out.bytes = made.leak();
            DONE
        }
        Err(ReadFault::Refused(refusal)) => {
            put_refusal(0, &refusal, fault);
            REFUSED
        }
        Err(ReadFault::Memory) => MEMORY,
    }
}

// A file with its two sums set right.
fn repaired(alloc: Global, file: &[u8]) -> Result<Vec<u8>, RunFault>
    ensures repaired { IfOk result (λ out. out.items ≡ repaired (bytes_read file.now)) }
    ensures accepted { OnOk result (IsAccepted (repaired (bytes_read file.now))) }
    ensures only_sums { AreEqualButForSums (bytes_read file.now) (repaired (bytes_read file.now)) }
    ensures fault { IfErr result (IsOfFile (repaired (bytes_read file.now))) }
{
    let mut input = Device::expecting(file, file.len());
    let mut written = Device::new(Vec::new(alloc));
    match repair_run(alloc, &mut input, &mut written) {
        Ok(()) => Ok(written.into_inner()),
        Err(why) => Err(why),
    }
}

/// Hands out a file with its two sums set right and nothing else changed. Returns 0 then; 1 if what would come out is
/// refused, with a condition that it does not meet, and where; 4 if an allocation failed.
///
/// Source: "Dalvik Executable format", "header_item", the fields `checksum` and `signature`; that nothing else changes
/// is this project's rule.
#[unsafe(no_mangle)]
pub extern "C" fn dexkit_c_repair<'a>(
    alloc: Global,
    file: &[u8],
    out: &mut Bytes<'a>,
    fault: &mut Fault,
) -> u32
    ensures repaired { result ≡ 0 → out.new.bytes.now ≡ repaired (bytes_read file.now) }
    ensures accepted { result ≡ 0 → IsAccepted (repaired (bytes_read file.now)) }
    ensures only_sums { AreEqualButForSums (bytes_read file.now) (repaired (bytes_read file.now)) }
    ensures refused { result ≡ 1 → IsRefusalSaid (repaired (bytes_read file.now)) fault.new }
    ensures no_other { (result ≡ 0) ⊎ ((result ≡ 1) ⊎ (result ≡ 4)) }
    ensures out_left { (result ≡ 0) ⊎ (out.new ≡ out.old) }
    ensures fault_left { (result ≡ 1) ⊎ (fault.new ≡ fault.old) }
{
    match repaired(alloc, file) {
        Ok(made) => {
            out.bytes = made.leak();
            DONE
        }
        Err(RunFault::Input(_, refusal)) => {
            put_refusal(0, &refusal, fault);
            REFUSED
        }
        Err(_) => MEMORY,
    }
}

// The listing of a file.
fn listed(alloc: Global, file: &[u8]) -> Result<Vec<u8>, RunFault>
    ensures listing { IfOk result (λ out. (K : Collection) → Denotes (bytes_read file.now) K
        → out.items ≡ listing K) }
    ensures accepted { OnOk result (IsAccepted (bytes_read file.now)) }
    ensures fault { IfErr result (IsOfFile (bytes_read file.now)) }
{
    let mut input = Device::expecting(file, file.len());
    let mut written = Device::new(Vec::new(alloc));
    match dump_run(
        alloc,
        Detail::Short,
        &mut input,
        &mut written,
        Leftover::Dropped,
    ) {
        Ok(()) => Ok(written.into_inner()),
        Err(why) => Err(why),
    }
}

/// Hands out the listing of a file: its classes, with their members and instructions. Returns 0 then; 1 if the file is
/// refused, with a condition that it does not meet, and where; 4 if an allocation failed.
///
/// Source: "Dalvik Executable format"; the listing is this project's rule.
#[unsafe(no_mangle)]
pub extern "C" fn dexkit_c_dump<'a>(
    alloc: Global,
    file: &[u8],
    out: &mut Bytes<'a>,
    fault: &mut Fault,
) -> u32
    ensures listing { result ≡ 0 → (K : Collection) → Denotes (bytes_read file.now) K
        → out.new.bytes.now ≡ listing K }
    ensures accepted { result ≡ 0 → IsAccepted (bytes_read file.now) }
    ensures refused { result ≡ 1 → IsRefusalSaid (bytes_read file.now) fault.new }
    ensures no_other { (result ≡ 0) ⊎ ((result ≡ 1) ⊎ (result ≡ 4)) }
    ensures out_left { (result ≡ 0) ⊎ (out.new ≡ out.old) }
    ensures fault_left { (result ≡ 1) ⊎ (fault.new ≡ fault.old) }
{
    match listed(alloc, file) {
        Ok(made) => {
            out.bytes = made.leak();
            DONE
        }
        Err(RunFault::Input(_, refusal)) => {
            put_refusal(0, &refusal, fault);
            REFUSED
        }
        Err(_) => MEMORY,
    }
}
