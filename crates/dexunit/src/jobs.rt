//! The jobs of the program over a system in memory.

ghost use Rattle.dexargs.specs.Words.{IsSound};

use crate::system::{Log, System, file};
use crate::words::words_of;
use dexargs::{MEANINGS, REMEDIES};
use dexcmd::{
    Ending, Job, ListsFault, Reasons, Remedies, Report, SystemDevices, ending_of, expand_arguments,
    explain_lists, read_words, run_named,
};
use std::alloc::{AllocError, Global};

// Runs a job that arguments ask for over the devices of its names, and returns its report, with what is known of its
// faults if the flag is set.
fn run(
    alloc: Global,
    system: &System<'_>,
    job: &Job,
    is_verbose: bool,
) -> Result<Report, AllocError>
    requires { IsSound job.now }
{
    let remedies = Remedies {
        meanings: &MEANINGS,
        remedies: &REMEDIES,
    };
    let devices = SystemDevices::new(system);
    run_named(alloc, &devices, job, is_verbose.then_some(&remedies))
}

// Runs the job that the arguments ask for, and returns its report.
fn report(alloc: Global, system: &System<'_>, words: &str, is_verbose: bool) -> Option<Report> {
    let words = words_of(alloc, words).ok()?;
    match read_words(alloc, words.as_slice(), Ending::Line) {
        Ok(job) => run(alloc, system, &job, is_verbose).ok(),
        Err(_) => None,
    }
}

// Returns whether the bytes are those of the file `name`, or, if there is no such file, of the text `name`.
fn are_bytes(alloc: Global, bytes: &[u8], name: &str) -> bool {
    match file(alloc, name) {
        Some(file) => bytes == file.as_slice(),
        None => bytes == name.as_bytes(),
    }
}

// Returns whether a run with these arguments ends with this status and these lines, opens, makes and moves that many
// files, and writes the file `written`, or the text `written` if there is no such file.
fn have_outcome(alloc: Global, words: &str, outcome: &str, written: &str) -> Option<bool> {
    let log = Log::new(alloc);
    let system = System { alloc, log: &log };
    let report = report(alloc, &system, words, false)?;
    let (status, lines) = (report.status, &report.lines);
    let (opened, made, moved) = (log.opened.get(), log.made.get(), log.moved.get());
    let line = format!(in alloc;
        "{status} {lines:?} opened {opened} made {made} moved {moved}"
    ).ok()?;
    let bytes = log.written.try_borrow().ok()?;
    Some(line.as_str() == outcome && are_bytes(alloc, bytes.as_slice(), written))
}

const LISTING: &str = "class LA; flags=0x1(public) super=Ljava/lang/Object;\n";

const DIGESTS: &str = "9c62f0a840d5e9ec28ed4ee1ded1977522fda2c3\tLA;\ta\n\
    5fde63fa4bb0be2a47ec1d96f990c83301061a18\tLB;\tb\n";

const COUNTS: &str = "types 3 of 65535\nprotos 0 of 65535\nfields 0 of 65536\nmethods 0 of 65536\n\
    short-strings 0 of 65536\nweight 1330 of 1073741824\nclasses 2\nstrings 3\n";

const COUNTS_OF_EACH: &str = "2\t0\t0\t0\t0\t1211\t1\t2\ta\n2\t0\t0\t0\t0\t1166\t1\t2\tb\n";

const COUNTS_OF_PACKAGES: &str = "3\t0\t0\t0\t0\t1330\t2\t3\t.\n";

#[test]
fn jobs_read_and_write_the_files_of_their_names(rt: HostRuntime) {
    for (words, outcome, written) in [
        ("normalise unused o", "0 [] opened 1 made 1 moved 0", "a"),
        ("normalise o o", "0 [] opened 1 made 1 moved 0", "a"),
        ("normalise - -", "0 [] opened 0 made 0 moved 0", "a"),
        (
            "normalise --atomic o o",
            "0 [] opened 1 made 1 moved 1",
            "a",
        ),
        ("repair unused o", "0 [] opened 1 made 1 moved 0", "unused"),
        (
            "repair --atomic unused o",
            "0 [] opened 1 made 1 moved 1",
            "unused",
        ),
        ("merge -o o a b a", "0 [] opened 3 made 1 moved 0", "both"),
        (
            "merge --atomic -o o a b a",
            "0 [] opened 3 made 1 moved 1",
            "both",
        ),
        (
            "merge -o o --fan 2 a b a",
            "0 [] opened 3 made 1 moved 0",
            "both",
        ),
        (
            "merge -o o --max-types 3 --max-protos 0 --max-fields 0 --max-methods 0 --max-weight 1330 a b",
            "0 [] opened 2 made 1 moved 0",
            "both",
        ),
        (
            "merge -o o source",
            "0 [] opened 1 made 1 moved 0",
            "source",
        ),
        (
            "merge -o o --strip source",
            "0 [] opened 1 made 1 moved 0",
            "a",
        ),
        (
            "check a cut b",
            "1 [] opened 3 made 0 moved 0",
            "a: ok classes=1\ncut: refused 4 Lengths at 0\nb: ok classes=1\n",
        ),
        (
            "check a missing b",
            "3 [\"dexkit: missing: cannot be read\"] opened 2 made 0 moved 0",
            "a: ok classes=1\n",
        ),
        (
            "check --keep-going a missing b",
            "3 [\"dexkit: missing: cannot be read\"] opened 3 made 0 moved 0",
            "a: ok classes=1\nb: ok classes=1\n",
        ),
        ("dump a", "0 [] opened 1 made 0 moved 0", LISTING),
        ("digest a b", "0 [] opened 2 made 0 moved 0", DIGESTS),
        ("count a b", "0 [] opened 2 made 0 moved 0", COUNTS),
        (
            "count --each a b",
            "0 [] opened 2 made 0 moved 0",
            COUNTS_OF_EACH,
        ),
        (
            "count --by package a b",
            "0 [] opened 2 made 0 moved 0",
            COUNTS_OF_PACKAGES,
        ),
    ] {
        assert!(rt;
            have_outcome(rt.alloc(), words, outcome, written) == Some(true),
            "{words}"
        );
    }
}

#[test]
fn jobs_that_fail_leave_the_output_alone(rt: HostRuntime) {
    for (words, outcome) in [
        (
            "normalise cut o",
            "1 [\"dexkit: cut: refused 4 Lengths at 0\"] opened 1 made 0 moved 0",
        ),
        (
            "repair --atomic cut o",
            "1 [\"dexkit: cut: refused 4 Lengths at 0\"] opened 1 made 0 moved 0",
        ),
        (
            "normalise --atomic a b",
            "3 [\"dexkit: b: cannot be written\"] opened 2 made 0 moved 0",
        ),
        (
            "normalise a b",
            "3 [\"dexkit: b: cannot be written\"] opened 2 made 0 moved 0",
        ),
        (
            "merge -o o missing a",
            "3 [\"dexkit: missing: cannot be read\"] opened 1 made 0 moved 0",
        ),
        (
            "merge -o o --max-types 2 a b",
            "1 [\"dexkit: cap types\"] opened 2 made 0 moved 0",
        ),
        (
            "merge -o o --max-types 0 a b",
            "1 [\"dexkit: cap types\"] opened 2 made 0 moved 0",
        ),
        (
            "merge -o o --max-weight 1329 a b",
            "1 [\"dexkit: cap weight\"] opened 2 made 0 moved 0",
        ),
        (
            "merge -o o a source",
            "1 [\"dexkit: conflict LA;\"] opened 2 made 0 moved 0",
        ),
    ] {
        assert!(rt;
            have_outcome(rt.alloc(), words, outcome, "") == Some(true),
            "{words}"
        );
    }
}

// Returns what arguments expand to, or what the program reports instead.
fn expanded(alloc: Global, words: &str) -> Option<String> {
    let log = Log::new(alloc);
    let system = System { alloc, log: &log };
    let mut arguments = Vec::new(alloc);
    for word in words_of(alloc, words).ok()? {
        arguments.push(String::from_str(alloc, word).ok()?).ok()?;
    }
    let devices = SystemDevices::new(&system);
    match expand_arguments(alloc, &devices, ending_of(&arguments), &arguments) {
        Ok(all) => format!(in alloc; "{all:?}").ok(),
        Err(fault) => reported(alloc, fault),
    }
}

// Returns what the program reports of a list.
fn reported(alloc: Global, fault: ListsFault<'_>) -> Option<String> {
    let report = explain_lists(alloc, fault).ok()?;
    let (status, lines) = (report.status, &report.lines);
    format!(in alloc; "{status} {lines:?}").ok()
}

#[test]
fn lists_are_replaced_by_their_lines(rt: HostRuntime) {
    for (words, right) in [
        ("check @list a", "[\"check\", \"a\", \"@list\", \"a\"]"),
        ("@empty", "[]"),
        ("@", "[\"@\"]"),
        ("a @missing", "3 [\"dexkit: missing: cannot be read\"]"),
        ("@list @cut", "2 [\"dexkit: cut: line 2 is not UTF-8\"]"),
        ("@list -- @list", "[\"a\", \"@list\", \"--\", \"@list\"]"),
    ] {
        let expanded = expanded(rt.alloc(), words);
        assert!(rt;
            expanded.is_some_and(|expanded| expanded.as_str() == right),
            "{words}"
        );
    }
}

// Returns the status and the lines of the job that the arguments ask for, with what is known of its faults.
fn explained(alloc: Global, words: &str) -> Option<String> {
    let log = Log::new(alloc);
    let system = System { alloc, log: &log };
    let report = report(alloc, &system, words, true)?;
    let (status, lines) = (report.status, &report.lines);
    format!(in alloc; "{status} {lines:?}").ok()
}

#[test]
fn faults_are_explained(rt: HostRuntime) {
    for (words, right) in [
        ("normalise a o", "0 []"),
        (
            "check --keep-going missing a gone",
            "3 [\"dexkit: missing: cannot be read: entity not found\", \"dexkit: gone: cannot be read: entity not found\"]",
        ),
        (
            "normalise a b",
            "3 [\"dexkit: b: cannot be written: permission denied\"]",
        ),
        (
            "normalise cut o",
            "1 [\"dexkit: cut: refused 4 Lengths at 0\", \"  It is not as long as its header says: it was cut, or something was appended.\", \"  Fetch or build it again.\"]",
        ),
        ("merge -o o a source", "1 [\"dexkit: conflict LA;\"]"),
    ] {
        let explained = explained(rt.alloc(), words);
        assert!(rt;
            explained.is_some_and(|explained| explained.as_str() == right),
            "{words}"
        );
    }
}
