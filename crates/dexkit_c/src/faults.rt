//! What a call hands out, and what it reports of a fault.

ghost use Rattle.std.specs.Prelude.{◌≡◌, ◌⊎◌};
ghost use Rattle.dexruns.specs.Lines.{cause_text, exit_status};
ghost use Rattle.dexkit_c.specs.Faults.{Says, SaysCause, SaysInText};

use dexhead::Refusal;
use dexruns::{ExitStatus, MergeCause, RunFault, cause_text};
use std::alloc::Global;

// The statuses, as numbers for C.
pub(crate) const DONE: u32 = ExitStatus::Done as u32;

pub(crate) const REFUSED: u32 = ExitStatus::Refused as u32;

pub(crate) const USAGE: u32 = ExitStatus::Usage as u32;

const DEVICE: u32 = ExitStatus::Device as u32;

pub(crate) const MEMORY: u32 = ExitStatus::Memory as u32;

/// Bytes of the caller, or bytes that are handed to it.
#[repr(C)]
#[derive(Drop)]
pub struct Bytes<'a> {
    /// The bytes.
    pub bytes: &'a [u8],
}

/// Why a call did not do its work.
#[repr(C)]
#[derive(Drop)]
pub struct Fault {
    /// 1 a file is refused, 2 a conflict, 3 a cycle, 4 a cap.
    pub kind: u32,
    /// The number of the condition, or of the cap.
    pub number: u32,
    /// The place at which the condition fails.
    pub place: u32,
    /// The number of the file, from 0 on.
    pub input: usize,
}

/// Puts down that a file is refused.
pub(crate) fn put_refusal(input: usize, refusal: &Refusal, fault: &mut Fault)
    ensures kind { fault.new.kind ≡ 1 }
    ensures number { fault.new.number ≡ refusal.now.number }
    ensures place { fault.new.place ≡ refusal.now.place }
    ensures input { fault.new.input ≡ input }
{
    fault.kind = 1;
    fault.number = u32::from(refusal.number);
    fault.place = refusal.place;
    fault.input = input;
}

// Puts down why files have no union. Its text is left where the memory for it lacks.
fn put_cause<'a>(alloc: Global, cause: &MergeCause, fault: &mut Fault, text: &mut Bytes<'a>)
    ensures says { SaysCause cause.now fault.new }
    ensures text { (text.new ≡ text.old) ⊎ (text.new.bytes.now ≡ cause_text cause.now) }
{
    match cause {
        MergeCause::Conflict(_) => fault.kind = 2,
        MergeCause::Cycle(_) => fault.kind = 3,
        MergeCause::Cap(number) => {
            fault.kind = 4;
            fault.number = u32::from(*number);
        }
    }
    if let Ok(line) = cause_text(alloc, cause) {
        text.bytes = line.into_bytes().leak();
    }
}

/// Puts down why files were not read or have no union, and returns the status. The text is that of the cause.
pub(crate) fn put<'a>(alloc: Global, why: &RunFault, fault: &mut Fault, text: &mut Bytes<'a>) -> u32
    ensures status { result ≡ exit_status why.now }
    ensures says { Says why.now fault.new }
    ensures text { (text.new ≡ text.old) ⊎ SaysInText why.now text.new.bytes.now }
    ensures fault_left { (result ≡ 1) ⊎ (fault.new ≡ fault.old) }
    ensures text_left { (result ≡ 1) ⊎ (text.new ≡ text.old) }
{
    match why {
        RunFault::Input(i, refusal) => {
            put_refusal(*i, refusal, fault);
            REFUSED
        }
        RunFault::Merge(cause) => {
            put_cause(alloc, cause, fault, text);
            REFUSED
        }
        RunFault::Plan => REFUSED,
        RunFault::Read(_) | RunFault::Write => DEVICE,
        RunFault::Memory => MEMORY,
    }
}
