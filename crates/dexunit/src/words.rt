//! The arguments of the program.

use dexcmd::{Ending, read_words};
use std::alloc::{AllocError, Global};

// Returns the arguments of a line, split at single blanks.
pub(crate) fn words_of(alloc: Global, line: &str) -> Result<Vec<&str>, AllocError> {
    let mut words = Vec::new(alloc);
    for word in line.split(' ') {
        if !word.is_empty() {
            words.push(word)?;
        }
    }
    Ok(words)
}

// Returns whether the arguments are read as this job.
fn are_read(alloc: Global, words: &str, job: &str) -> Option<bool> {
    let words = words_of(alloc, words).ok()?;
    let read = read_words(alloc, words.as_slice(), Ending::Line).ok()?;
    Some(format!(in alloc; "{read:?}").ok()?.as_str() == job)
}

#[test]
fn files_are_read_as_jobs(rt: HostRuntime) {
    for (words, job) in [
        ("check a.dex", "Check(Line, [\"a.dex\"])"),
        (
            "check a.dex b a.dex",
            "Check(Line, [\"a.dex\", \"b\", \"a.dex\"])",
        ),
        ("check -", "Check(Line, [\"-\"])"),
        (
            "check --keep-going a b",
            "KeepChecking(Line, [\"a\", \"b\"])",
        ),
        (
            "check a b --keep-going",
            "KeepChecking(Line, [\"a\", \"b\"])",
        ),
        ("check a --verbose", "Check(Line, [\"a\"])"),
        ("--verbose check a", "Check(Line, [\"a\"])"),
        ("dump a.dex", "Dump(false, \"a.dex\")"),
        ("dump --all a.dex", "Dump(true, \"a.dex\")"),
        (
            "dump --class LB; a --class=LA; --class LB;",
            "DumpClasses(false, \"a\", [\"LB;\", \"LA;\", \"LB;\"])",
        ),
        (
            "dump --class LB; a --all",
            "DumpClasses(true, \"a\", [\"LB;\"])",
        ),
        ("digest a b a", "Digest(Line, false, [\"a\", \"b\", \"a\"])"),
        ("digest a --strip -", "Digest(Line, true, [\"a\", \"-\"])"),
        ("count a", "Count([\"a\"])"),
        ("count a -- -b", "Count([\"a\", \"-b\"])"),
        ("count a --each b", "CountEach(Line, [\"a\", \"b\"])"),
        ("count a --by package b", "CountPackages([\"a\", \"b\"])"),
        ("count --by=package a", "CountPackages([\"a\"])"),
    ] {
        assert!(rt; are_read(rt.alloc(), words, job) == Some(true), "{words}");
    }
}

#[test]
fn files_and_outputs_are_read_as_jobs(rt: HostRuntime) {
    for (words, job) in [
        (
            "normalise a.dex a.dex",
            "Normalise(\"a.dex\", \"a.dex\", InPlace)",
        ),
        ("normalise -- -a -b", "Normalise(\"-a\", \"-b\", InPlace)"),
        ("normalise - -", "Normalise(\"-\", \"-\", InPlace)"),
        ("normalize a b", "Normalise(\"a\", \"b\", InPlace)"),
        ("repair a b", "Repair(\"a\", \"b\", InPlace)"),
        ("normalise --atomic - b", "Normalise(\"-\", \"b\", Atomic)"),
        ("repair a ./- --atomic", "Repair(\"a\", \"./-\", Atomic)"),
        (
            "merge --atomic a -o o",
            "Merge(\"o\", Atomic, None, Caps { types: 65535, protos: 65535, fields: 65536, methods: 65536, short_strings: 65536, weight: 1073741824 }, false, [\"a\"])",
        ),
        (
            "merge --out out.dex a.dex b a.dex",
            "Merge(\"out.dex\", InPlace, None, Caps { types: 65535, protos: 65535, fields: 65536, methods: 65536, short_strings: 65536, weight: 1073741824 }, false, [\"a.dex\", \"b\", \"a.dex\"])",
        ),
        (
            "merge a --max-types=0 --max-protos 1 --fan 65535 --max-fields 2 --out=o --max-methods 3 --max-weight 4 b",
            "Merge(\"o\", InPlace, Some(65535), Caps { types: 0, protos: 1, fields: 2, methods: 3, short_strings: 65536, weight: 4 }, false, [\"a\", \"b\"])",
        ),
        (
            "merge --fan 2 --max-types 65535 --max-protos 65535 --max-fields 65536 --max-methods 65536 --max-weight 1073741824 --strip -o o a",
            "Merge(\"o\", InPlace, Some(2), Caps { types: 65535, protos: 65535, fields: 65536, methods: 65536, short_strings: 65536, weight: 1073741824 }, true, [\"a\"])",
        ),
        (
            "merge a -o - -",
            "Merge(\"-\", InPlace, None, Caps { types: 65535, protos: 65535, fields: 65536, methods: 65536, short_strings: 65536, weight: 1073741824 }, false, [\"a\", \"-\"])",
        ),
    ] {
        assert!(rt; are_read(rt.alloc(), words, job) == Some(true), "{words}");
    }
}

// Returns the exit status of arguments that ask for no job.
fn status(alloc: Global, words: &str) -> Option<i32> {
    let words = words_of(alloc, words).ok()?;
    Some(
        read_words(alloc, words.as_slice(), Ending::Line)
            .err()?
            .exit_code(),
    )
}

#[test]
fn other_words_are_refused(rt: HostRuntime) {
    for words in [
        "",
        "check",
        "check --fan a.dex",
        "check --keep-going",
        "check --keep-going --keep-going a",
        "check --keep-going=yes a",
        "normalise a.dex",
        "normalise a.dex b.dex c.dex",
        "normalise --keep-going a b",
        "normalised a b",
        "dump",
        "dump a.dex b.dex",
        "dump --strip a.dex",
        "digest",
        "digest -o o a",
        "digest --keep-going a",
        "digest --strip",
        "digest --strip --strip a",
        "count",
        "count --max-types 1 a",
        "count --each",
        "count --each --each a",
        "repair a",
        "repair a b c",
        "repair -o b a",
        "repair --atomic a -",
        "normalise a - --atomic",
        "normalise --atomic --atomic a b",
        "check --atomic a",
    ] {
        assert!(rt; status(rt.alloc(), words) == Some(2), "{words}");
    }
}

#[test]
fn other_merges_are_refused(rt: HostRuntime) {
    for words in [
        "merge --out o",
        "merge a b",
        "merge --out o --out o a",
        "merge --out o -o o a",
        "merge --out o --fan 0 a",
        "merge --out o --fan 1 a",
        "merge --out o --fan 65536 a",
        "merge --out o --fan two a",
        "merge --out o --fan 2 --fan 2 a",
        "merge --out o --max-types 65536 a",
        "merge --out o --max-types -1 a",
        "merge --out o --max-types 2 --max-types 2 a",
        "merge --out o --max-protos 65536 a",
        "merge --out o --max-protos 2 --max-protos 2 a",
        "merge --out o --max-fields 65537 a",
        "merge --out o --max-fields 2 --max-fields 2 a",
        "merge --out o --max-methods 65537 a",
        "merge --out o --max-methods 2 --max-methods 2 a",
        "merge --out o --max-weight 1073741825 a",
        "merge --out o --max-weight 2 --max-weight 2 a",
        "merge --out o --max-short-strings 1 a",
        "merge --out o --strip --strip a",
        "merge --out o --strip=yes a",
        "merge --out o --max 1 a",
        "merge --atomic --out - a",
    ] {
        assert!(rt; status(rt.alloc(), words) == Some(2), "{words}");
    }
}

#[test]
fn help_and_version_are_no_fault(rt: HostRuntime) {
    for words in [
        "--help",
        "-h",
        "--version",
        "-V",
        "help",
        "help digest",
        "check --help",
        "merge -h",
    ] {
        assert!(rt; status(rt.alloc(), words) == Some(0), "{words}");
    }
}
