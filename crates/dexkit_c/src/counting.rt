//! Counts.

ghost use Rattle.std.specs.Prelude.{◌≡◌, ◌⊎◌, map, IfOk, IfErr};
ghost use Rattle.dexkit_c.specs.Calls.{AreCountsOf, counts_in};
ghost use Rattle.dexkit_c.specs.Faults.{AreUncountedBy, IsFaultOfFiles, IsFaultSaid};

use crate::faults::{Bytes, DONE, Fault, put};
use crate::merging::read_each;
use dexmerge::Counts;
use dexruns::{RunFault, counts_of};
use std::alloc::Global;

/// What a union holds.
#[repr(C)]
#[derive(Drop)]
pub struct Numbers {
    /// The types.
    pub types: usize,
    /// The protos.
    pub protos: usize,
    /// The fields.
    pub fields: usize,
    /// The methods.
    pub methods: usize,
    /// One more than the greatest number of a string that a `const-string` names, or 0.
    pub short_strings: usize,
    /// The weight, or 2^64 - 1 where it is more.
    pub weight: u64,
    /// The classes.
    pub classes: usize,
    /// The strings.
    pub strings: usize,
}

// The numbers of the union of files.
fn counted(alloc: Global, files: &[Bytes<'_>]) -> Result<Counts, RunFault>
    ensures counts { IfOk result (AreCountsOf (map (λ file. file.bytes.now) files.now)) }
    ensures fault { IfErr result (IsFaultOfFiles
        (AreUncountedBy (map (λ file. file.bytes.now) files.now))
        (map (λ file. file.bytes.now) files.now)) }
{
    let programs = read_each(alloc, files)?;
    counts_of(alloc, programs.as_slice())
}

// Puts down numbers.
fn put_numbers(counts: &Counts, numbers: &mut Numbers)
    ensures { counts_in numbers.new ≡ counts.now }
{
    numbers.types = counts.types;
    numbers.protos = counts.protos;
    numbers.fields = counts.fields;
    numbers.methods = counts.methods;
    numbers.short_strings = counts.short_strings;
    numbers.weight = counts.weight;
    numbers.classes = counts.classes;
    numbers.strings = counts.strings;
}

/// Counts what the union of files holds; no cap is asked. Returns 0 then; 1 if a file or the union is refused, with
/// why, and with the text of why where there is memory for it; 4 if an allocation failed.
///
/// Source: this project's rule.
#[unsafe(no_mangle)]
pub extern "C" fn dexkit_c_count<'a>(
    alloc: Global,
    files: &[Bytes<'_>],
    numbers: &mut Numbers,
    fault: &mut Fault,
    text: &mut Bytes<'a>,
) -> u32
    ensures counts { result ≡ 0
        → AreCountsOf (map (λ file. file.bytes.now) files.now) (counts_in numbers.new) }
    ensures fault { result ≡ 1 → IsFaultSaid
        (AreUncountedBy (map (λ file. file.bytes.now) files.now))
        (map (λ file. file.bytes.now) files.now) fault.new (text.new ≡ text.old)
        text.new.bytes.now }
    ensures no_other { (result ≡ 0) ⊎ ((result ≡ 1) ⊎ (result ≡ 4)) }
    ensures numbers_left { (result ≡ 0) ⊎ (numbers.new ≡ numbers.old) }
    ensures fault_left { (result ≡ 1) ⊎ (fault.new ≡ fault.old) }
    ensures text_left { (result ≡ 1) ⊎ (text.new ≡ text.old) }
{
    match counted(alloc, files) {
        Ok(counts) => {
            put_numbers(&counts, numbers);
            DONE
        }
        Err(why) => put(alloc, &why, fault, text),
    }
}
