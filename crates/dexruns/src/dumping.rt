//! The run of `dump` over some classes of a file.

ghost use Rattle.std.specs.Prelude.{◌≡◌, ◌↔◌, true, false, length, map, List, ℕ, OnOk, IfOk, IfErr, IsErrOf, MatchOption, All, string_bytes};
ghost use Rattle.std.specs.List.{list_any};
ghost use Rattle.std.specs.Ordering.{is_eq};
ghost use Rattle.dexspec.specs.Accepted.{IsAccepted};
ghost use Rattle.dexspec.specs.Files.{Collection, Denotes};
ghost use Rattle.dexspec.specs.Texts.{text_cmp};
ghost use Rattle.dexruns.specs.Inputs.{bytes_read, ExpectsAll, IsReadNoFurther};
ghost use Rattle.dexruns.specs.Listings.{is_among, printed_names, IsDumped, IsUnlisted, IsClassListingPrefix};
ghost use Rattle.dexruns.specs.Runs.{IsMemoryOf, IsOfInput, IsLeftWith};
ghost use Rattle.dexruns.specs.internal.Choices.{IsFirstFalse, IsChoice};
ghost use Rattle.dexruns.specs.declared.faults.RunFault.TheVariants.{Read, Write};

use crate::digesting::class_names;
use crate::faults::RunFault;
use crate::inputs::{Leftover, give_up, read_input, read_program};
use crate::lines::push_text;
use dexclass::Program;
use dexhead::{Sink, Source};
use dexlaws::denotes::collections::one_collection;
use dexlisting::{Detail, write_listing_of};
use std::alloc::{AllocError, Global};
use std::collections::BTreeSet;

/// What came of listing the classes of some names.
#[derive(Clone, Copy, Debug, PartialEq, Eq)]
pub enum Listed {
    /// They were listed.
    Done,
    /// No class has the name with this number, which is the first such name, and nothing was written.
    NoClass(usize),
}

// The flags of the classes that names choose, or the number of the first name that no class has.
#[derive(Drop)]
enum Choice {
    Classes(Vec<bool>),
    NoClass(usize),
}

// Texts as a set.
fn set_of(alloc: Global, texts: &[String]) -> Result<BTreeSet<&str>, AllocError>
    ensures { IfOk result (λ set. (text : List ℕ)
        → list_any (λ key. is_eq (text_cmp text key.now)) set.keys
        ≡ is_among (map string_bytes texts.now) text) }
{
    let mut set = BTreeSet::new(alloc);
    for text in texts {
        set.insert(text.as_str())?;
    }
    Ok(set)
}

// Returns for each of some texts whether it is among others.
fn are_among(alloc: Global, texts: &[String], others: &[String]) -> Result<Vec<bool>, AllocError>
    ensures { IfOk result (λ flags. flags.items
        ≡ map (is_among (map string_bytes others.now)) (map string_bytes texts.now)) }
{
    let set = set_of(alloc, others)?;
    let mut flags = Vec::with_capacity(alloc, texts.len())?;
    for text in texts {
        flags.push(set.contains(text.as_str()))?;
    }
    Ok(flags)
}

// Returns the number of the first flag that is false.
fn first_false(flags: &[bool]) -> Option<usize>
    ensures { MatchOption result (All (λ flag. flag ≡ true) flags.now) (IsFirstFalse flags.now) }
{
    flags.iter().position(|flag| !*flag)
}

// The names of the classes of a program as they are printed, in the order of a canonical file.
fn printed_names(alloc: Global, program: &Program<'_>) -> Result<Vec<String>, AllocError>
    ensures { IfOk result (λ names. map string_bytes names.items ≡ printed_names program.now) }
{
    let names = class_names(alloc, program)?;
    let mut printed = Vec::with_capacity(alloc, names.len())?;
    for i in 0..names.len() {
        let mut text = String::new(alloc);
        push_text(&names[i], &mut text)?;
        printed.push(text)?;
    }
    Ok(printed)
}

// Returns which classes of a program have one of these names, if each name is that of a class.
fn choose(alloc: Global, names: &[String], program: &Program<'_>) -> Result<Choice, AllocError>
    ensures { IfOk result (IsChoice (map string_bytes names.now) program.now) }
{
    let classes = printed_names(alloc, program)?;
    let known = are_among(alloc, names, classes.as_slice())?;
    if let Some(i) = first_false(known.as_slice()) {
        return Ok(Choice::NoClass(i));
    }
    let flags = are_among(alloc, classes.as_slice(), names)?;
    Ok(Choice::Classes(flags))
}

/// Writes the listing of the classes of an input that have these names: what [`dump_run`](crate::dump_run) writes in
/// this detail, without the lines of the other classes. A name is as the listing prints it in the line of its class. A name that
/// is given twice counts once.
///
/// Condition: neither device has failed. Error: as in `dump_run`. That a name is that of no class is no error, and is
/// returned as `NoClass`: of the first such name, if the input is accepted. After `Write` a prefix of what was to be
/// written was written, and after any other error and after `NoClass` nothing.
///
/// Source: "Dalvik Executable format"; the listing is this project's rule.
pub fn dump_classes_run<R: Source, W: Sink>(
    alloc: Global,
    detail: Detail,
    names: &[String],
    input: &mut R,
    out: &mut W,
    leftover: Leftover,
) -> Result<Listed, RunFault>
    requires input { R.has_failed input.old ≡ false }
    requires out { W.has_failed out.old ≡ false }
    ensures accepted { OnOk result (R.reports input.old
        → IsAccepted (bytes_read (R.to_come input.old))) }
    ensures listed { IfOk result (λ listed. R.reports input.old → (K : Collection)
        → Denotes (bytes_read (R.to_come input.old)) K
        → IsDumped detail (map string_bytes names.now) K
        (W.reports out.old) (W.taken out.old) (W.taken out.new) listed) }
    ensures unlisted { IfOk result (IsUnlisted (length names.now) out.old out.new) }
    ensures fault { IfErr result
        (IsOfInput (R.reports input.old) (bytes_read (R.to_come input.old))) }
    ensures memory { IfErr result (IsMemoryOf
        (ExpectsAll R.reports R.to_come R.expected_len input.old) (input.new ≡ input.old)
        (bytes_read (R.to_come input.old))) }
    ensures left { IfErr result
        (IsLeftWith (IsClassListingPrefix detail (R.reports input.old) (W.reports out.old)
        (map string_bytes names.now) (W.taken out.old) (W.taken out.new)
        (bytes_read (R.to_come input.old))) out.old out.new) }
    ensures no_further { IsReadNoFurther R.reports R.to_come R.has_failed input.old input.new }

    // The faults of the devices are reported exactly where they are.
    ensures read { IsErrOf result (Read 0) ↔ (R.has_failed input.new ≡ true) }
    ensures write { IsErrOf result Write ↔ (W.has_failed out.new ≡ true) }
{
    let bytes = read_input(alloc, 0, input)?;
    let program = read_program(alloc, 0, bytes.as_slice())?;
    one_collection();
    let choice = choose(alloc, names, &program)?;
    let flags = match choice {
        Choice::Classes(flags) => flags,
        Choice::NoClass(i) => return Ok(Listed::NoClass(i)),
    };
    write_listing_of(alloc, &program, detail, flags.as_slice(), out)?;
    give_up(program, leftover);
    Ok(Listed::Done)
}
