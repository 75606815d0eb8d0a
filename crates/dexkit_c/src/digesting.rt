//! Digests of the classes of a file.

ghost use Rattle.std.specs.Prelude.{◌≡◌, ◌⊎◌, IfOk, IfErr, string_bytes};
ghost use Rattle.std.specs.List.{flat_map};
ghost use Rattle.dexclass.specs.Programs.{IsFaultOf};
ghost use Rattle.dexcanon.specs.Digests.{class_digests};
ghost use Rattle.dexkit_c.specs.Calls.{ended_name, ended_names, AreDigestsOf};
ghost use Rattle.dexkit_c.specs.Faults.{IsRefusalSaid};

use crate::faults::{DONE, Fault, MEMORY, REFUSED, put_refusal};
use dexcanon::into_digests;
use dexclass::Program;
use dexpool::ReadFault;
use dexruns::{class_names, push_text};
use dexstr::Text;
use std::alloc::{AllocError, Global};

/// Digests of classes, in the order of a canonical file.
#[repr(C)]
#[derive(Drop)]
pub struct ClassDigests<'a> {
    /// The digest of each class.
    pub digests: &'a [[u8; 20]],
    /// The name of each class as it is printed, with a 0 after it.
    pub names: &'a [u8],
}

// The names as they are printed, each with a 0 after it.
fn ended(alloc: Global, names: &[Text<'_>]) -> Result<String, AllocError>
    ensures { IfOk result (λ text. string_bytes text ≡ flat_map ended_name names.now) }
{
    let mut text = String::new(alloc);
    for name in names {
        push_text(name, &mut text)?;
        text.push('\0')?;
    }
    Ok(text)
}

// The digests and the names of the classes of a program, which is given up.
fn digests_of(alloc: Global, program: Program<'_>) -> Result<(Vec<[u8; 20]>, String), AllocError>
    ensures digests { IfOk result (λ made. made.0.items ≡ class_digests program.entry) }
    ensures names { IfOk result (λ made. string_bytes made.1 ≡ ended_names program.entry) }
{
    let names = class_names(alloc, &program)?;
    let text = ended(alloc, names.as_slice())?;
    let digests = into_digests(alloc, program)?;
    Ok((digests, text))
}

// The digests and the names of the classes of a file.
fn digested(alloc: Global, file: &[u8]) -> Result<(Vec<[u8; 20]>, String), ReadFault>
    ensures digests { IfOk result (λ made.
        AreDigestsOf file.now made.0.items (string_bytes made.1)) }
    ensures refused { IfErr result (IsFaultOf file.now) }
{
    match dexclass::read(alloc, file) {
        Ok(program) => match digests_of(alloc, program) {
            Ok(made) => Ok(made),
            Err(_) => Err(ReadFault::Memory),
        },
        Err(why) => Err(why),
    }
}

/// Hands out the digest and the name of each class of a file. The digest is the signature of the canonical file of the
/// class alone. Returns 0 then; 1 if the file is refused, with a condition that it does not meet, and where; 4 if an
/// allocation failed.
///
/// Source: "header_item", the field `signature`; the digest is this project's rule.
#[unsafe(no_mangle)]
pub extern "C" fn dexkit_c_digests<'a>(
    alloc: Global,
    file: &[u8],
    out: &mut ClassDigests<'a>,
    fault: &mut Fault,
) -> u32
    ensures digests { result ≡ 0 → AreDigestsOf file.now out.new.digests.now out.new.names.now }
    ensures refused { result ≡ 1 → IsRefusalSaid file.now fault.new }
    ensures no_other { (result ≡ 0) ⊎ ((result ≡ 1) ⊎ (result ≡ 4)) }
    ensures out_left { (result ≡ 0) ⊎ (out.new ≡ out.old) }
    ensures fault_left { (result ≡ 1) ⊎ (fault.new ≡ fault.old) }
{
    match digested(alloc, file) {
        Ok((digests, names)) => {
            out.digests = digests.leak();
            out.names = names.into_bytes().leak();
            DONE
        }
        Err(ReadFault::Refused(refusal)) => {
            put_refusal(0, &refusal, fault);
            REFUSED
        }
        Err(ReadFault::Memory) => MEMORY,
    }
}
