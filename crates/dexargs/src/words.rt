//! The commands of the program, and the job that its arguments ask for.

ghost use Rattle.std.specs.Prelude.{◌≡◌, ◌≢◌, ◌<◌, ◌≤◌, not, map, vec_len, string_bytes, option_map, IfOk, IfErr, IfSome};
ghost use Rattle.clap.specs.Values.{kind_of};
ghost use Rattle.clap.specs.Kinds.{HasKind};
ghost use Rattle.clap.specs.declared.error.kind.ErrorKind.TheVariants.{ValueValidation};
ghost use Rattle.clap.specs.Matches.{found_of};
ghost use Rattle.clap.specs.Walk.{first_of, is_empty, rows_of};
ghost use Rattle.clap.specs.Simple.{app_of, subcommand_rows_of};
ghost use Rattle.dexspec.specs.Merging.{AreCaps};
ghost use Rattle.dexargs.specs.Words.{IsSound, IsSoundOut, EndsNames};
ghost use Rattle.dexargs.specs.Asked.{is_set, option_values, number_in, files_in, out_in, possible_fan, possible_caps, names_in, side_ids, merge_in, diff_in, by_in, count_in, dump_in, ends_names, asked_of, asked_by, request_of, IsAsked, refusal};
ghost use Rattle.dexargs.specs.CommandLine.{program_app};
ghost use Rattle.dexargs.specs.Answers.{Returns};
ghost use Rattle.dexargs.specs.declared.lists.Ending.{Ending};
ghost use Rattle.dexargs.specs.declared.words.NoJob.TheVariants.{Memory};

use crate::commands::{GREATEST_FAN, LEAST_FAN, NULL, command};
use crate::help;
use crate::lists::Ending;
use clap::error::ErrorKind;
use clap::{ArgMatches, Command, Error};
use dexmerge::Caps;
use std::alloc::{AllocError, AllocFailed, Global};

// The name of standard output.
const STANDARD: &str = "-";

/// How the output of a job comes under its name.
#[derive(Clone, Copy, Debug, PartialEq, Eq)]
pub enum Placing {
    /// It is written under its name.
    InPlace,
    /// It is written under another name, and moved to its own when it is whole.
    Atomic,
}

/// What the arguments ask for. File names are as in the arguments.
#[derive(Debug, Drop)]
pub enum Job {
    /// Reports for each of these files whether it is accepted. The names in its lines have this ending.
    Check(Ending, Vec<String>),
    /// Lists the classes of this file, with all that they have if the flag is set.
    Dump(bool, String),
    /// Lists the classes of this file that have these names, as a listing prints them, with all that they have if the
    /// flag is set.
    DumpClasses(bool, String, Vec<String>),
    /// Writes the canonical file of the first file to the second.
    Normalise(String, String, Placing),
    /// Writes the merged file to the first name. Merges the given number of files at a time, or all at once, under the
    /// caps. Leaves out debug programs and source texts if the flag is set.
    Merge(String, Placing, Option<usize>, Caps, bool, Vec<String>),
    /// Reports for each of these files whether it is accepted, and continues after files that cannot be read. The names
    /// in its lines have this ending.
    KeepChecking(Ending, Vec<String>),
    /// Prints the digest of each class of these files. Leaves out debug programs and source texts if the flag is set. The
    /// names of files in its lines have this ending.
    Digest(Ending, bool, Vec<String>),
    /// Prints the copies of each class of these files of which not all copies are equal. Compares them without debug
    /// programs and source texts if the flag is set. The names of files in its lines have this ending.
    Conflicts(Ending, bool, Vec<String>),
    /// Prints the classes that differ between the first files, of which there is this number, and the others. Compares
    /// them without debug programs and source texts if the flag is set.
    Diff(usize, bool, Vec<String>),
    /// Prints the counts of a merge of these files, beside the greatest caps.
    Count(Vec<String>),
    /// Prints the counts of each of these files.
    CountEach(Ending, Vec<String>),
    /// Prints the counts of the classes of each package of these files.
    CountPackages(Vec<String>),
    /// Writes the first file to the second, with its checksum and signature set right.
    Repair(String, String, Placing),
}

// Why there is no job.
#[derive(Clone, Copy, Debug)]
enum NoJob {
    // Allocation failed.
    Memory,
    // Standard output is to be moved.
    MovedStandard,
    // A comparison has not its two sides.
    Sides,
    // Counts are asked for of each file and of each package, or by what they are not made by.
    Counts,
    // An option asks for another ending than lists were read by.
    Ending,
    // A required argument is not there, or out of its bounds. Clap refuses such arguments before.
    Argument,
}

impl From<AllocError> for NoJob {
    ghost from_gives = { λ _ e. e ≡ Memory };

    fn from(_error: AllocError) -> NoJob {
        NoJob::Memory
    }
}

impl<T: Drop> From<AllocFailed<T>> for NoJob {
    ghost from_gives = { λ _ e. e ≡ Memory };

    fn from(_error: AllocFailed<T>) -> NoJob {
        NoJob::Memory
    }
}

// Returns whether an option without a value is set.
fn is_set(matches: &ArgMatches<'_>, id: &str) -> bool
    ensures { result ≡ is_set id.now (rows_of (found_of matches.now)) }
{
    match matches.get_str(id) {
        Some(value) => value == "true",
        None => false,
    }
}

// Returns the value of an argument that has one.
fn text_of(alloc: Global, matches: &ArgMatches<'_>, id: &str) -> Result<String, NoJob>
    ensures { Returns string_bytes (first_of id.now (rows_of (found_of matches.now))) result }
{
    match matches.get_str(id) {
        Some(text) => Ok(String::from_str(alloc, text)?),
        None => Err(NoJob::Argument),
    }
}

// Returns copies of texts.
fn copies(alloc: Global, texts: &[&str]) -> Result<Vec<String>, AllocError>
    ensures { IfOk result (λ copies. map string_bytes copies.items
        ≡ map (λ text. text.now) texts.now) }
{
    let mut copies = Vec::new(alloc);
    for text in texts {
        copies.push(String::from_str(alloc, text)?)?;
    }
    Ok(copies)
}

// Returns the values of an argument.
fn texts_of(alloc: Global, matches: &ArgMatches<'_>, id: &str) -> Result<Vec<String>, AllocError>
    ensures { IfOk result (λ texts. map string_bytes texts.items
        ≡ option_values id.now (rows_of (found_of matches.now))) }
{
    match matches.get_strs(id) {
        Some(texts) => copies(alloc, texts),
        None => Ok(Vec::new(alloc)),
    }
}

// Returns the number of an option.
fn number_of(matches: &ArgMatches<'_>, id: &str) -> Option<u32>
    ensures { result ≡ number_in id.now (rows_of (found_of matches.now)) }
{
    matches.get_one(id)
}

// Returns the output of a command, and how it comes under its name. It is a usage error if standard output is to be
// moved.
fn out_of(alloc: Global, matches: &ArgMatches<'_>) -> Result<(String, Placing), NoJob>
    ensures out { Returns (λ out. (string_bytes out.0, out.1))
        (out_in (rows_of (found_of matches.now))) result }
    ensures sound { IfOk result (λ out. IsSoundOut (string_bytes out.0) out.1) }
{
    let out = text_of(alloc, matches, "out")?;
    if !is_set(matches, "atomic") {
        return Ok((out, Placing::InPlace));
    }
    if out.as_str() == STANDARD {
        return Err(NoJob::MovedStandard);
    }
    Ok((out, Placing::Atomic))
}

// Returns the files of a command, of which there is one or more.
fn files_of(alloc: Global, matches: &ArgMatches<'_>) -> Result<Vec<String>, NoJob>
    ensures files { Returns (λ files. map string_bytes files.items)
        (files_in (rows_of (found_of matches.now))) result }
    ensures some { IfOk result (λ files. 0 < vec_len files) }
{
    let files = texts_of(alloc, matches, "files")?;
    if files.is_empty() {
        return Err(NoJob::Argument);
    }
    Ok(files)
}

// Returns how many files a merge merges at a time.
fn fan_of(matches: &ArgMatches<'_>) -> Result<Option<usize>, NoJob>
    ensures fan { Returns (λ fan. fan) (possible_fan (rows_of (found_of matches.now))) result }
    ensures bounds { IfOk result (λ fan. IfSome fan (λ n. 2 ≤ n) × IfSome fan (λ n. n ≤ 65535)) }
{
    match number_of(matches, "fan") {
        None => Ok(None),
        Some(fan) if LEAST_FAN <= fan && fan <= GREATEST_FAN => Ok(Some(fan as usize)),
        Some(_) => Err(NoJob::Argument),
    }
}

// Returns the caps of a merge: the values of the options, and the greatest caps otherwise.
fn caps_of(matches: &ArgMatches<'_>) -> Result<Caps, NoJob>
    ensures caps { Returns (λ caps. caps) (possible_caps (rows_of (found_of matches.now))) result }
    ensures sound { IfOk result AreCaps }
{
    let greatest = Caps::greatest();
    let caps = Caps::new(
        number_of(matches, "max-types").unwrap_or(greatest.types()),
        number_of(matches, "max-protos").unwrap_or(greatest.protos()),
        number_of(matches, "max-fields").unwrap_or(greatest.fields()),
        number_of(matches, "max-methods").unwrap_or(greatest.methods()),
        greatest.short_strings(),
        number_of(matches, "max-weight").unwrap_or(greatest.weight()),
    );
    match caps {
        Some(caps) => {
            caps.are_caps();
            Ok(caps)
        }
        None => Err(NoJob::Argument),
    }
}

fn merge_of(alloc: Global, matches: &ArgMatches<'_>) -> Result<Job, NoJob>
    ensures job { Returns request_of (merge_in (rows_of (found_of matches.now))) result }
    ensures sound { IfOk result IsSound }
    ensures ending { IfOk result (λ job. (ending : Ending) → EndsNames ending job) }
{
    let fan = fan_of(matches)?;
    let caps = caps_of(matches)?;
    let (out, placing) = out_of(alloc, matches)?;
    let files = files_of(alloc, matches)?;
    let strip = is_set(matches, "strip");
    Ok(Job::Merge(out, placing, fan, caps, strip, files))
}

// Returns whether an argument has a value.
fn is_named(matches: &ArgMatches<'_>, id: &str) -> bool
    ensures { result ≡ not (is_empty (option_values id.now (rows_of (found_of matches.now)))) }
{
    match matches.get_strs(id) {
        Some(texts) => !texts.is_empty(),
        None => false,
    }
}

// Returns the arguments that name the old and the new files of a comparison. It is a usage error if both name some.
fn side_ids(matches: &ArgMatches<'_>) -> Option<(&'static str, &'static str)>
    ensures { option_map (λ ids. (ids.0.now, ids.1.now)) result
        ≡ side_ids (rows_of (found_of matches.now)) }
{
    let are_options = is_named(matches, "from") || is_named(matches, "to");
    if !are_options {
        return Some(("old", "new"));
    }
    let are_places = is_named(matches, "old") || is_named(matches, "new");
    (!are_places).then_some(("from", "to"))
}

fn diff_of(alloc: Global, matches: &ArgMatches<'_>) -> Result<Job, NoJob>
    ensures job { Returns request_of (diff_in (rows_of (found_of matches.now))) result }
    ensures sound { IfOk result IsSound }
    ensures ending { IfOk result (λ job. (ending : Ending) → EndsNames ending job) }
{
    let Some((old, new)) = side_ids(matches) else {
        return Err(NoJob::Sides);
    };
    let mut files = texts_of(alloc, matches, old)?;
    let mut others = texts_of(alloc, matches, new)?;
    if files.is_empty() || others.is_empty() {
        return Err(NoJob::Sides);
    }
    let count = files.len();
    files.append(&mut others)?;
    Ok(Job::Diff(count, is_set(matches, "strip"), files))
}

fn dump_of(alloc: Global, matches: &ArgMatches<'_>) -> Result<Job, NoJob>
    ensures job { Returns request_of (dump_in (rows_of (found_of matches.now))) result }
    ensures sound { IfOk result IsSound }
    ensures ending { IfOk result (λ job. (ending : Ending) → EndsNames ending job) }
{
    let file = text_of(alloc, matches, "file")?;
    let classes = texts_of(alloc, matches, "class")?;
    let is_full = is_set(matches, "all");
    if classes.is_empty() {
        return Ok(Job::Dump(is_full, file));
    }
    Ok(Job::DumpClasses(is_full, file, classes))
}

// Returns whether classes are counted by package.
fn by_of(matches: &ArgMatches<'_>) -> Result<bool, NoJob>
    ensures { Returns (λ by. by) (by_in (rows_of (found_of matches.now))) result }
{
    match matches.get_str("by") {
        None => Ok(false),
        Some("package") => Ok(true),
        Some(_) => Err(NoJob::Counts),
    }
}

// Returns the job of counts: of each file, of each package, or of all files.
fn count_of(alloc: Global, matches: &ArgMatches<'_>, ending: Ending) -> Result<Job, NoJob>
    ensures job { Returns request_of (count_in ending (rows_of (found_of matches.now))) result }
    ensures sound { IfOk result IsSound }
    ensures ending { IfOk result (EndsNames ending) }
{
    let by_package = by_of(matches)?;
    let files = files_of(alloc, matches)?;
    match (is_set(matches, "each"), by_package) {
        (true, true) => Err(NoJob::Counts),
        (true, false) => Ok(Job::CountEach(ending, files)),
        (false, true) => Ok(Job::CountPackages(files)),
        (false, false) => Ok(Job::Count(files)),
    }
}

// Returns the file that a command reads, the one that it writes, and how that comes under its name.
fn names_of(alloc: Global, matches: &ArgMatches<'_>) -> Result<(String, String, Placing), NoJob>
    ensures names { Returns (λ names. (string_bytes names.0, string_bytes names.1, names.2))
        (names_in (rows_of (found_of matches.now))) result }
    ensures sound { IfOk result (λ names. IsSoundOut (string_bytes names.1) names.2) }
{
    let file = text_of(alloc, matches, "file")?;
    let (out, placing) = out_of(alloc, matches)?;
    Ok((file, out, placing))
}

// Returns whether the options of a command ask for names that end as those of lists do, which are read before.
fn ends_names(command: &str, matches: &ArgMatches<'_>, ending: Ending) -> bool
    ensures { result ≡ ends_names ending command.now (rows_of (found_of matches.now)) }
{
    match command {
        "check" | "merge" | "digest" | "conflicts" | "diff" | "count" => {
            is_set(matches, NULL) == (ending == Ending::Null)
        }
        _ => true,
    }
}

// Returns the job that a command asks for by the matches of its arguments.
fn job_of_command(
    alloc: Global,
    command: &str,
    matches: &ArgMatches<'_>,
    ending: Ending,
) -> Result<Job, NoJob>
    ensures job { Returns request_of
        (asked_of ending command.now (rows_of (found_of matches.now))) result }
    ensures sound { IfOk result IsSound }
    ensures ending { IfOk result (EndsNames ending) }
{
    match command {
        "check" => {
            let files = files_of(alloc, matches)?;
            Ok(if is_set(matches, "keep-going") {
                Job::KeepChecking(ending, files)
            } else {
                Job::Check(ending, files)
            })
        }
        "merge" => merge_of(alloc, matches),
        "normalise" => {
            let (file, out, placing) = names_of(alloc, matches)?;
            Ok(Job::Normalise(file, out, placing))
        }
        "digest" => {
            let files = files_of(alloc, matches)?;
            Ok(Job::Digest(ending, is_set(matches, "strip"), files))
        }
        "conflicts" => {
            let files = files_of(alloc, matches)?;
            Ok(Job::Conflicts(ending, is_set(matches, "strip"), files))
        }
        "diff" => diff_of(alloc, matches),
        "count" => count_of(alloc, matches, ending),
        "dump" => dump_of(alloc, matches),
        "repair" => {
            let (file, out, placing) = names_of(alloc, matches)?;
            Ok(Job::Repair(file, out, placing))
        }
        _ => Err(NoJob::Argument),
    }
}

// Returns the job that the command asks for that was met.
fn job_of(alloc: Global, matches: &ArgMatches<'_>, ending: Ending) -> Result<Job, NoJob>
    ensures job { Returns request_of (asked_by ending (subcommand_rows_of matches.now)) result }
    ensures sound { IfOk result IsSound }
    ensures ending { IfOk result (EndsNames ending) }
{
    let Some((command, found)) = matches.subcommand() else {
        return Err(NoJob::Argument);
    };
    if !ends_names(command, found, ending) {
        return Err(NoJob::Ending);
    }
    job_of_command(alloc, command, found, ending)
}

// Returns the usage error of a fault.
fn usage_error(command: &mut Command<'_>, fault: NoJob) -> Result<Error, AllocError>
    ensures { IfOk result (λ error. (fault ≢ Memory) × (kind_of error ≡ ValueValidation)) }
{
    let text = match fault {
        NoJob::Memory => return Err(AllocError),
        NoJob::MovedStandard => help::MOVED_STANDARD,
        NoJob::Sides => help::NO_SIDES,
        NoJob::Counts => help::BY_PACKAGE,
        NoJob::Ending => help::NOT_ALONE,
        NoJob::Argument => help::NO_JOB,
    };
    command.error(ErrorKind::ValueValidation, text)
}

// Returns the job that arguments ask for, by the command of the program.
fn job_in<'a>(
    alloc: Global,
    command: &mut Command<'a>,
    words: &'a [&'a str],
    ending: Ending,
) -> Result<Job, Error>
    requires { app_of command.old ≡ program_app }
    ensures asked { IfOk result (IsAsked ending (map (λ word. word.now) words.now)) }
    ensures refused { IfErr result (HasKind (refusal ending (map (λ word. word.now) words.now))) }
    ensures sound { IfOk result IsSound }
    ensures ending { IfOk result (EndsNames ending) }
{
    let matches = command.try_get_matches_from_mut(words)?;
    match job_of(alloc, &matches, ending) {
        Ok(job) => Ok(job),
        Err(fault) => Err(usage_error(command, fault)?),
    }
}

/// Returns the job that the arguments after the program's name ask for. The caller expands lists among them first, with
/// [`list_name`](crate::list_name) and [`arguments_in`](crate::arguments_in), and gives the ending of their names, that
/// of [`ending_of`](crate::ending_of).
///
/// Error: that of `clap`, if the arguments are a usage error, ask for help or the version, or allocation failed. It is a
/// usage error if an option asks for another ending (`-z` in a list, or among other letters), if standard output is to
/// be moved, and if `diff` has files of a side both by name and by option, or none.
pub fn read_words(alloc: Global, words: &[&str], ending: Ending) -> Result<Job, Error>
    ensures asked { IfOk result (IsAsked ending (map (λ word. word.now) words.now)) }
    ensures refused { IfErr result (HasKind (refusal ending (map (λ word. word.now) words.now))) }
    ensures sound { IfOk result IsSound }
    ensures ending { IfOk result (EndsNames ending) }
{
    let mut command = command(alloc)?;
    job_in(alloc, &mut command, words, ending)
}
