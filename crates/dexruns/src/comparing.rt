//! The run of `conflicts` and `diff`, which compare the classes of files by their digests.

ghost use Rattle.std.specs.Prelude.{◌≡◌, ◌++◌, false, map, slice_index_or, List, [], IfOk, OnOk, IfErr, string_bytes};
ghost use Rattle.std.specs.List.{AllZip, flat_map};
ghost use Rattle.dexspec.specs.Depth.{in_class_order};
ghost use Rattle.dexspec.specs.Files.{Collection, definitions};
ghost use Rattle.dexspec.specs.Texts.{Text as Units};
ghost use Rattle.dexruns.specs.Comparisons.{copies_in, copy_line, conflict_lines, change_of, change_word, change_line, change_lines, comparison_lines, AreClassLines, compared_status, AreCompared, IsCompareFault};
ghost use Rattle.dexruns.specs.Inputs.{IsReadNoFurther};
ghost use Rattle.dexruns.specs.Merges.{IsAppended, IsPrefixAppended, IsReadEachFault, IsOfDevices};
ghost use Rattle.dexruns.specs.Runs.{AllWork, IsLeft};
ghost use Rattle.dexruns.specs.internal.CopyTables.{copies_at, copies_list, HoldsCopies, HaveCopies};

use crate::copies::{ClassCopy, Copies, CopyTable};
use crate::digesting::{class_names, push_hexadecimal};
use crate::faults::RunFault;
use crate::inputs::{read_input, read_program, write_output};
use crate::lines::{push_sign, push_text};
use crate::merging::kept;
use crate::names::{NameForm, push_named};
use crate::status::ExitStatus;
use dexcanon::into_digests;
use dexclass::Program;
use dexhead::{Sink, Source};
use dexstr::Text;
use std::alloc::{AllocError, Global};

/// What is reported of the classes of files.
#[derive(Clone, Copy, Debug, PartialEq, Eq)]
pub enum Comparison {
    /// Each copy of the classes of which not all copies are equal, with its file's name in this form.
    Conflicts(NameForm),
    /// How classes have changed from the first files, of which there is this number, to the others.
    Changes(usize),
}

/// How a class has changed from some files to others.
#[derive(Clone, Copy, Debug, PartialEq, Eq)]
enum Change {
    /// None of the old files has it.
    Added,
    /// None of the new files has it.
    Removed,
    /// Old and new files have it, and not all copies are equal.
    Changed,
}

impl Change {
    // The word in its line.
    fn word(self) -> &'static str
        ensures { result.now ≡ change_word self }
    {
        match self {
            Change::Added => "added",
            Change::Removed => "removed",
            Change::Changed => "changed",
        }
    }

    // How a class has changed from the first files, of which there are `old`, to the others.
    fn of(copies: &Copies, old: usize) -> Option<Change>
        ensures { result ≡ change_of old (copies_list copies.now) }
    {
        if !copies.has_old(old) {
            return Some(Change::Added);
        }
        if !copies.has_new(old) {
            return Some(Change::Removed);
        }
        copies.differ().then_some(Change::Changed)
    }
}

// The name of the file with this number, or nothing where there are fewer.
fn file_name<'a>(files: &[&'a str], number: usize) -> &'a str
    ensures { result.now ≡ slice_index_or (map (λ file. file.now) files.now) number [] }
{
    files.get(number).copied().unwrap_or("")
}

// Appends the line of a copy.
#[tactic(auto, unfolding(crate::specs::Comparisons::copy_line))]
fn push_copy_line(
    form: NameForm,
    files: &[&str],
    name: &Text<'_>,
    copy: &ClassCopy,
    text: &mut String,
) -> Result<(), AllocError>
    ensures { OnOk result (string_bytes text.new ≡ string_bytes text.old
        ++ copy_line form (map (λ file. file.now) files.now) name.now copy.now) }
{
    push_text(name, text)?;
    push_sign(b'\t', text)?;
    push_hexadecimal(&copy.digest, text)?;
    push_sign(b'\t', text)?;
    push_named(form, file_name(files, copy.file), "\n", text)
}

// Appends the line of each copy of a class.
fn push_copies(
    form: NameForm,
    files: &[&str],
    name: &Text<'_>,
    copies: &Copies,
    text: &mut String,
) -> Result<(), AllocError>
    ensures { OnOk result (string_bytes text.new ≡ string_bytes text.old
        ++ flat_map (copy_line form (map (λ file. file.now) files.now) name.now)
        (copies_list copies.now)) }
{
    push_copy_line(form, files, name, &copies.first, text)?;
    for copy in &copies.others {
        push_copy_line(form, files, name, copy, text)?;
    }
    Ok(())
}

// Appends the line of a class that has changed.
#[tactic(auto, unfolding(crate::specs::Comparisons::change_line))]
fn push_change(name: &Text<'_>, change: Change, text: &mut String) -> Result<(), AllocError>
    ensures { OnOk result (string_bytes text.new ≡ string_bytes text.old
        ++ change_line name.now change) }
{
    text.push_str(change.word())?;
    push_sign(b'\t', text)?;
    push_text(name, text)?;
    push_sign(b'\n', text)
}

// Appends what is reported of a class.
fn push_class(
    comparison: Comparison,
    files: &[&str],
    name: &Text<'_>,
    copies: &Copies,
    text: &mut String,
) -> Result<(), AllocError>
    ensures { OnOk result (string_bytes text.new ≡ string_bytes text.old
        ++ comparison_lines comparison (map (λ file. file.now) files.now) name.now
        (copies_list copies.now)) }
{
    match comparison {
        Comparison::Conflicts(form) => {
            if copies.differ() {
                push_copies(form, files, name, copies, text)?;
            }
        }
        Comparison::Changes(old) => {
            if let Some(change) = Change::of(copies, old) {
                push_change(name, change, text)?;
            }
        }
    }
    Ok(())
}

// What is reported of the classes of a table.
fn table_lines(
    alloc: Global,
    comparison: Comparison,
    files: &[&str],
    table: &CopyTable,
) -> Result<String, AllocError>
    ensures { IfOk result (λ text. (Ks : List Collection) → HoldsCopies Ks table.now.classes
        → AreClassLines Ks (comparison_lines comparison (map (λ file. file.now) files.now))
        (string_bytes text)) }
{
    let mut text = String::new(alloc);
    for (name, copies) in &table.classes {
        push_class(comparison, files, &name.text(), copies, &mut text)?;
    }
    Ok(text)
}

// Adds the classes of the program of a file, which is given up.
fn add_classes(
    alloc: Global,
    file: usize,
    program: Program<'_>,
    table: &mut CopyTable,
) -> Result<(), AllocError>
    ensures { OnOk result
        ((name : Units) → copies_at table.new.classes name ≡ copies_at table.old.classes name
        ++ copies_in file (in_class_order (definitions program.entry)) name) }
{
    let names = class_names(alloc, &program)?;
    let digests = into_digests(alloc, program)?;
    for i in 0..names.len() {
        let digest = digests[i];
        table.add(alloc, &names[i], ClassCopy { file, digest })?;
    }
    Ok(())
}

// The copies of the classes of inputs, which are read one after the other: one at a time is held.
fn read_copies<R: Source>(
    alloc: Global,
    inputs: &mut [R],
    is_stripped: bool,
) -> Result<CopyTable, RunFault>
    requires { AllWork R.has_failed inputs.old }
    ensures copies { IfOk result (λ table.
        HaveCopies R.reports R.to_come inputs.old is_stripped table.classes) }
    ensures no_further { AllZip
        (IsReadNoFurther R.reports R.to_come R.has_failed) inputs.old inputs.new }
    ensures works { OnOk result (AllWork R.has_failed inputs.new) }
    ensures fault { IfErr result (IsReadEachFault R.reports R.to_come inputs.old) }
    ensures devices { IfErr result (IsOfDevices R.has_failed inputs.new false) }
{
    let mut table = CopyTable::new(alloc);
    for i in 0..inputs.len() {
        let bytes = read_input(alloc, i, &mut inputs[i])?;
        let whole = read_program(alloc, i, bytes.as_slice())?;
        let program = kept(alloc, whole, is_stripped)?;
        add_classes(alloc, i, program, &mut table)?;
    }
    Ok(table)
}

// The status: 1 where there is a line.
fn compared_status(lines: &str) -> u8
    ensures { result ≡ compared_status lines.now }
{
    if lines.is_empty() {
        return ExitStatus::Done as u8;
    }
    ExitStatus::Refused as u8
}

/// How the classes of files are compared.
#[derive(Clone, Copy)]
pub struct CompareOptions<'o> {
    /// What is reported of them.
    pub comparison: Comparison,
    /// Whether they are compared without their debug programs and source texts.
    pub is_stripped: bool,
    /// The names of the files.
    pub names: &'o [&'o str],
}

/// Compares the classes of inputs by their digests, and writes what is reported of them, in the order of their names.
/// Returns 1 if there is a line, and 0 otherwise. The digest of a class is that of
/// [`digest_or_strip_run`](crate::digest_or_strip_run).
///
/// `Conflicts` reports each class of which not all copies are equal: a line for each copy, in the order of the inputs,
/// with the class, the digest and the name of the input in the given form, and a tab between them. `Changes` reports
/// each class that differs between the first inputs, of which it has the number, and the others, in a line: `added`,
/// `removed` or `changed`, a tab and the class. It is changed where both have it and not all copies are equal. Names of
/// classes are written as [`explain`](crate::explain) writes them.
///
/// Condition: no device has failed. Error: one input after the other is read whole and checked, and the first that
/// fails ends the call: `Read` with its number exactly where its reader failed in this call, or `Input` with its number
/// where it is refused, with what [`dexclass::read`] reports of its bytes, of which `2^30 + 1` are read and no more.
/// `Write` exactly where the writer failed; `Memory` where an allocation failed; no other. After `Write` a prefix of
/// the lines was written, and after any other error nothing.
///
/// Source: this project's rule.
pub fn compare_run<R: Source, W: Sink>(
    alloc: Global,
    options: &CompareOptions<'_>,
    inputs: &mut [R],
    out: &mut W,
) -> Result<u8, RunFault>
    requires inputs { AllWork R.has_failed inputs.old }
    requires out { W.has_failed out.old ≡ false }
    ensures compared { IfOk result
        (λ status. AreCompared R.reports R.to_come inputs.old options.now.is_stripped
        (comparison_lines options.now.comparison (map (λ name. name.now) options.now.names.now))
        (λ lines. IsAppended (W.reports out.old) (W.taken out.old) (W.taken out.new) lines
        × (status ≡ compared_status lines))) }
    ensures fault { IfErr result
        (IsCompareFault R.reports R.to_come inputs.old options.now.is_stripped
        (comparison_lines options.now.comparison (map (λ name. name.now) options.now.names.now))
        (IsPrefixAppended (W.reports out.old) (W.taken out.old) (W.taken out.new))) }
    ensures left { IfErr result (IsLeft out.old out.new) }
    ensures reports { W.reports out.old → W.reports out.new }
    ensures no_further { AllZip
        (IsReadNoFurther R.reports R.to_come R.has_failed) inputs.old inputs.new }

    // The faults of the devices are reported exactly where they are.
    ensures readers { OnOk result (AllWork R.has_failed inputs.new) }
    ensures writer { OnOk result (W.has_failed out.new ≡ false) }
    ensures devices { IfErr result (IsOfDevices R.has_failed inputs.new (W.has_failed out.new)) }
{
    let table = read_copies(alloc, inputs, options.is_stripped)?;
    let lines = table_lines(alloc, options.comparison, options.names, &table)?;
    write_output(out, lines.as_bytes())?;
    Ok(compared_status(&lines))
}
