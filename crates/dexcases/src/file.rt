//! Files of lines.

use crate::cases::Cases;
use crate::fault::CaseFault;
use crate::folder::Folder;
use crate::outcome::Outcome;
use crate::tally::Tally;
use std::collections::{BTreeMap, BTreeSet};
use std::path::Path;
use std::rt::Files;
use std::{fs, io};

/// How the lines of a file are run: the folder that their files are in, and their kind.
#[derive(Drop)]
struct Source<'a, K> {
    folder: Path<'a>,
    /// The kind of each line; `None` if the first word of a line says it.
    kind: Option<K>,
}

impl<'a, K: Cases> Source<'a, K> {
    /// Returns how the lines of the file of this name are run; `None` if it is not the name of a file of right answers.
    fn of(name: &'a str) -> Option<Source<'a, K>> {
        let path = Path::new(name);
        let file_name = path.file_name()?;
        let folder = path.parent()?;
        if file_name == "index.txt" {
            return Some(Source { folder, kind: None });
        }
        let kind = Some(K::of_calls(file_name)?);
        Some(Source { folder, kind })
    }

    /// Returns the kind of a line, and the part of it that is run.
    fn kind_of<'l>(&self, line: &'l str) -> (K, &'l str) {
        match self.kind {
            Some(kind) => (kind, line),
            None => {
                let (word, case) = line.split_once(' ').unwrap_or((line, ""));
                (K::of_case(word), case)
            }
        }
    }
}

/// Runs each line of a file, prints the lines that failed and, for each kind of line, how many passed and failed, and
/// returns the totals. Skips lines that begin with `#`. A line that is the same as one above fails. Prints a file that cannot be read
/// or has no case, and counts it as one failure.
pub fn run_file<K: Cases, R: Files + Print + AllocGlobal>(
    rt: &R,
    name: &str,
) -> Result<Tally, CaseFault> {
    let source: Source<'_, K> = Source::of(name).ok_or(CaseFault::Words(K::WORDS))?;
    println!(rt; "{name}")?;
    let tally = match fs::read_to_string(rt, name) {
        Ok(text) => run_text(rt, name, &source, text.as_str())?,
        Err(_) => return without_case(rt, "cannot be read"),
    };
    if tally.is_empty() {
        return without_case(rt, "no case");
    }
    Ok(tally)
}

// Prints why a file has no case, and returns a tally of one failure.
fn without_case<R: Print>(rt: &R, reason: &str) -> Result<Tally, CaseFault> {
    println!(rt; "  {reason}")?;
    Ok(Tally::failure())
}

// Runs each line of a text.
fn run_text<K: Cases, R: Files + Print + AllocGlobal>(
    rt: &R,
    name: &str,
    source: &Source<'_, K>,
    text: &str,
) -> Result<Tally, CaseFault> {
    let mut tallies: BTreeMap<K, Tally> = BTreeMap::new(rt.alloc());
    let mut above: BTreeSet<&str> = BTreeSet::new(rt.alloc());
    for (number, line) in (1u64..).zip(text.lines()) {
        if !line.starts_with('#') {
            let is_new = above.insert(line)?;
            count_line(rt, name, source, (number, line, is_new), &mut tallies)?;
        }
    }
    print_tallies(rt, &tallies)
}

// Runs a line, given by its number, its text and whether no line above is the same, prints it if it failed, and counts it.
fn count_line<K: Cases, R: Files + Print + AllocGlobal>(
    rt: &R,
    name: &str,
    source: &Source<'_, K>,
    (number, line, is_new): (u64, &str, bool),
    tallies: &mut BTreeMap<K, Tally>,
) -> Result<(), CaseFault> {
    let (kind, outcome) = if is_new {
        run_line(rt, source, line)?
    } else {
        repeated(rt, source, line)?
    };
    if let Outcome::Failed(answered) = &outcome {
        print_failed(rt, name, number, line, answered.as_str())?;
    }
    tallies
        .entry(kind)?
        .or_insert(Tally::default())
        .count(&outcome);
    Ok(())
}

// Prints how many lines of each kind passed and failed, and returns the totals.
fn print_tallies<K: Cases, R: Print>(
    rt: &R,
    tallies: &BTreeMap<K, Tally>,
) -> Result<Tally, CaseFault> {
    let mut all = Tally::default();
    for (kind, tally) in tallies.iter() {
        println!(rt; "  {kind}: {tally}")?;
        all = all.with(*tally);
    }
    Ok(all)
}

// Prints a line that failed.
fn print_failed<R: Print>(
    rt: &R,
    name: &str,
    number: u64,
    line: &str,
    answered: &str,
) -> io::Result<()> {
    println!(rt; "  {name}:{number}: {line}")?;
    println!(rt; "    returned: {answered}")
}

// Returns the kind of a line that is the same as one above, and that it fails.
fn repeated<K: Cases, R: AllocGlobal>(
    rt: &R,
    source: &Source<'_, K>,
    line: &str,
) -> Result<(K, Outcome), CaseFault> {
    let (kind, _) = source.kind_of(line);
    Ok((kind, Outcome::failed(rt.alloc(), "the same line is above")?))
}

// Runs a line, and returns the kind under which it is counted, and its outcome.
fn run_line<K: Cases, R: Files + AllocGlobal>(
    rt: &R,
    source: &Source<'_, K>,
    line: &str,
) -> Result<(K, Outcome), CaseFault> {
    let (kind, case) = source.kind_of(line);
    let folder = Folder {
        rt,
        path: source.folder,
    };
    let outcome = match kind.run(folder, case) {
        Err(CaseFault::Form) => Outcome::failed(rt.alloc(), "not a line of this kind")?,
        Err(CaseFault::Failed(answered)) => Outcome::Failed(answered),
        ran => ran?,
    };
    Ok((kind, outcome))
}
