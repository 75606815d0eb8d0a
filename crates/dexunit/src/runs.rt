//! Runs that normalise, list, check, merge, repair, count and digest, over devices that move few bytes a call or fail.

use crate::files::{
    cut_a, final_a, letter_a, letter_b, letters_a_and_b, source_of_a, unsigned, unsigned_a,
    unused_beside_a,
};
use crate::scripts::{Script, Scripted, WHOLE, by, failing};
use dexcmd::{
    ConditionSet, Listed, MergeCause, NameForm, RunFault, check_run, count_run, digest_run,
    dump_classes_run, dump_run, explain, merge_run, merge_strip_run, normalise_run, repair_run,
};
use dexhead::{Device, DeviceFault, Refusal, Sink, Source};
use dexmerge::{Caps, Plan};
use dexruns::{Detail, Leftover};
use std::alloc::Global;
use std::io::ErrorKind;

// What a run returned and wrote, and the state of its devices. The status is 0 if the run returns none.
struct Ran {
    answer: Result<u8, RunFault>,
    reads: usize,
    read_failed: bool,
    written: Vec<u8>,
    writes: usize,
    write_failed: bool,
}

// One call drops a record, at each exit of the functions that hold one.
impl Drop for Ran {
    fn drop(self) {
        let Ran {
            answer: _,
            reads: _,
            read_failed: _,
            written: _,
            writes: _,
            write_failed: _,
        } = self;
    }
}

// Returns the record of a run, given the calls of its readers, whether a reader failed, and its writer.
fn ended(
    answer: Result<u8, RunFault>,
    (reads, read_failed): (usize, bool),
    out: Device<Scripted<Vec<u8>>>,
) -> Ran {
    let write_failed = Sink::failed(&out);
    let Scripted { inner, calls, .. } = out.into_inner();
    Ran {
        answer,
        reads,
        read_failed,
        written: inner,
        writes: calls,
        write_failed,
    }
}

fn status(answer: Result<(), RunFault>) -> Result<u8, RunFault> {
    answer?;
    Ok(0)
}

// Returns how often the readers were called.
fn calls_of(inputs: Vec<Device<Scripted<&[u8]>>>) -> usize {
    let mut calls: usize = 0;
    for input in inputs {
        calls = calls.saturating_add(input.into_inner().calls);
    }
    calls
}

// Returns whether the run succeeded and wrote these bytes.
fn is_done(ran: &Ran, right: &[u8]) -> bool {
    matches!(ran.answer, Ok(0)) && ran.written.as_slice() == right
}

// Returns whether the run refused the file of this number by this condition, and wrote nothing.
fn has_refused(ran: &Ran, file: usize, condition: u8) -> bool {
    if ran.writes != 0 {
        return false;
    }
    match &ran.answer {
        Err(RunFault::Input(i, refusal)) => *i == file && refusal.number == condition,
        _ => false,
    }
}

// Returns whether the run reported a conflict, and wrote nothing.
fn has_conflict(ran: &Ran) -> bool {
    ran.writes == 0 && matches!(ran.answer, Err(RunFault::Merge(MergeCause::Conflict(_))))
}

// A run over one file.
#[derive(Clone, Copy)]
enum FileRun {
    Normalise,
    List,
    Repair,
    Digest,
}

// Runs over one file.
fn over_file(alloc: Global, run: FileRun, file: &[u8], reads: Script, writes: Script) -> Ran {
    let mut input = Device::new(Scripted::new(file, reads));
    let mut out = Device::new(Scripted::new(Vec::new(alloc), writes));
    let answer = match run {
        FileRun::Normalise => normalise_run(alloc, &mut input, &mut out, Leftover::Dropped),
        FileRun::List => dump_run(
            alloc,
            Detail::Short,
            &mut input,
            &mut out,
            Leftover::Dropped,
        ),
        FileRun::Repair => repair_run(alloc, &mut input, &mut out),
        FileRun::Digest => digest_run(alloc, NameForm::Escaped, "a b", &mut input, &mut out),
    };
    let read_failed = Source::failed(&input);
    ended(status(answer), (input.into_inner().calls, read_failed), out)
}

// Counts the union of two files.
fn counted(alloc: Global, files: [(&[u8], Script); 2], writes: Script) -> Option<Ran> {
    let mut inputs = Vec::new(alloc);
    for (file, reads) in files {
        inputs.push(Device::new(Scripted::new(file, reads))).ok()?;
    }
    let mut out = Device::new(Scripted::new(Vec::new(alloc), writes));
    let answer = count_run(alloc, inputs.as_mut_slice(), &mut out, Leftover::Dropped);
    let read_failed = inputs.iter().any(Source::failed);
    Some(ended(status(answer), (calls_of(inputs), read_failed), out))
}

// Checks files of these names; each has the script of its reader.
fn checked(alloc: Global, files: &[(&str, &[u8], Script)], writes: Script) -> Option<Ran> {
    let mut names = Vec::new(alloc);
    let mut inputs = Vec::new(alloc);
    for (name, file, reads) in files {
        names.push(*name).ok()?;
        inputs.push(Device::new(Scripted::new(*file, *reads))).ok()?;
    }
    let mut out = Device::new(Scripted::new(Vec::new(alloc), writes));
    let answer = check_run(
        alloc,
        NameForm::Escaped,
        names.as_slice(),
        inputs.as_mut_slice(),
        &mut out,
        &mut ConditionSet::new(),
    );
    let read_failed = inputs.iter().any(Source::failed);
    Some(ended(answer, (calls_of(inputs), read_failed), out))
}

// Merges two files, each with the script of its reader, by a plan of two leaves with these numbers. Strips the result
// if `is_stripped`.
fn merged(
    alloc: Global,
    files: [(&[u8], Script); 2],
    leaves: [usize; 2],
    is_stripped: bool,
    writes: Script,
) -> Option<Ran> {
    let parts = Vec::from_array(alloc, [Plan::Leaf(leaves[0]), Plan::Leaf(leaves[1])]).ok()?;
    let mut inputs = Vec::new(alloc);
    for (file, reads) in files {
        inputs.push(Device::new(Scripted::new(file, reads))).ok()?;
    }
    let mut out = Device::new(Scripted::new(Vec::new(alloc), writes));
    let (plan, caps) = (Plan::Node(parts), Caps::greatest());
    let answer = if is_stripped {
        merge_strip_run(alloc, inputs.as_mut_slice(), &plan, &caps, &mut out)
    } else {
        merge_run(alloc, inputs.as_mut_slice(), &plan, &caps, &mut out)
    };
    let read_failed = inputs.iter().any(Source::failed);
    Some(ended(status(answer), (calls_of(inputs), read_failed), out))
}

// A run over one file, over the same file twice, or over files of two classes.
#[derive(Clone, Copy)]
enum Run {
    File(FileRun),
    Check,
    Merge,
    MergeStrip,
    Count,
}

const RUNS: [Run; 8] = [
    Run::File(FileRun::Normalise),
    Run::File(FileRun::List),
    Run::File(FileRun::Repair),
    Run::File(FileRun::Digest),
    Run::Check,
    Run::Merge,
    Run::MergeStrip,
    Run::Count,
];

const LISTING: &[u8] = b"class LA; flags=0x1(public) super=Ljava/lang/Object;\n";

const FIRST_LINE: &[u8] = b"a: ok classes=1\n";

const LINES: &[u8] = b"a: ok classes=1\nb: ok classes=1\n";

const COUNTS: &[u8] =
    b"types 2 of 65535\nprotos 0 of 65535\nfields 0 of 65536\nmethods 0 of 65536\nshort-strings 0 of 65536\n\
    weight 1211 of 1073741824\nclasses 1\nstrings 2\n";

const DIGEST: &[u8] = b"9c62f0a840d5e9ec28ed4ee1ded1977522fda2c3\tLA;\ta b\n";

impl Run {
    // Returns the last file: one with unused texts; for a strip, one with a source text; for a repair, one with wrong
    // sums.
    fn last_file(self, alloc: Global) -> Option<Vec<u8>> {
        match self {
            Run::Merge => letter_b(alloc),
            Run::MergeStrip => source_of_a(alloc),
            Run::File(FileRun::Repair) => unsigned_a(alloc),
            _ => unused_beside_a(alloc),
        }
    }

    // Returns the file before the last, if the run has two.
    fn first_file(self, alloc: Global) -> Option<Vec<u8>> {
        match self {
            Run::Merge => letter_a(alloc),
            _ => self.last_file(alloc),
        }
    }

    // Returns what the run writes.
    fn right(self, alloc: Global) -> Option<Vec<u8>> {
        match self {
            Run::File(FileRun::List) => Vec::from_slice(alloc, LISTING).ok(),
            Run::Check => Vec::from_slice(alloc, LINES).ok(),
            Run::Count => Vec::from_slice(alloc, COUNTS).ok(),
            Run::File(FileRun::Digest) => Vec::from_slice(alloc, DIGEST).ok(),
            Run::Merge => letters_a_and_b(alloc),
            _ => letter_a(alloc),
        }
    }

    // Returns the number of the last reader, how many calls the reader before it gets, and what is written before the
    // last reader is called.
    fn before_last(self) -> (usize, usize, &'static [u8]) {
        match self {
            Run::File(_) => (0, 0, b""),
            Run::Check => (1, 2, FIRST_LINE),
            Run::Merge | Run::MergeStrip | Run::Count => (1, 2, b""),
        }
    }

    // Runs with these scripts for the last reader and the writer. The other reader returns its whole file at the first
    // call, and the end at the second.
    fn done(self, alloc: Global, reads: Script, writes: Script) -> Option<Ran> {
        self.done_by(alloc, [WHOLE, reads], writes)
    }

    // Runs with scripts for all devices.
    fn done_by(self, alloc: Global, reads: [Script; 2], writes: Script) -> Option<Ran> {
        let (first, last) = (self.first_file(alloc)?, self.last_file(alloc)?);
        let first = (first.as_slice(), reads[0]);
        let last = (last.as_slice(), reads[1]);
        self.done_with(alloc, [first, last], writes)
    }

    // Runs over these files, each with its script: over the last one only, or over both.
    fn done_with(self, alloc: Global, files: [(&[u8], Script); 2], writes: Script) -> Option<Ran> {
        let [(first, first_reads), (last, reads)] = files;
        match self {
            Run::File(run) => Some(over_file(alloc, run, last, reads, writes)),
            Run::Check => {
                let files = [("a", first, first_reads), ("b", last, reads)];
                checked(alloc, &files, writes)
            }
            Run::Merge => merged(alloc, files, [0, 1], false, writes),
            Run::MergeStrip => merged(alloc, files, [0, 1], true, writes),
            Run::Count => counted(alloc, files, writes),
        }
    }
}

// Returns how many calls a reader gets for a file, at `most` bytes a call; the last call finds the end.
fn calls_of_file(len: usize, most: usize) -> usize {
    let most = most.max(1);
    (len.saturating_add(most - 1) / most).saturating_add(1)
}

// Returns whether a run reports the reader's fault if and only if the script fails one of the reader's calls. After the
// fault the run makes no further call and writes no more.
fn reports_the_reader(alloc: Global, run: Run, reads: Script) -> Option<bool> {
    let ran = run.done(alloc, reads, WHOLE)?;
    if reads.failing >= calls_of_file(run.last_file(alloc)?.len(), reads.most) {
        return Some(!ran.read_failed && is_done(&ran, &run.right(alloc)?));
    }
    Some(has_reported_the_reader(&ran, run, reads.failing))
}

// Returns whether a run reported the fault of its last reader at the call of this number, and then made no further call.
fn has_reported_the_reader(ran: &Ran, run: Run, failing: usize) -> bool {
    let (last, calls, written) = run.before_last();
    ran.read_failed
        && matches!(ran.answer, Err(RunFault::Read(reader)) if reader == last)
        && ran.reads == calls.saturating_add(failing).saturating_add(1)
        && !ran.write_failed
        && ran.written.as_slice() == written
}

// The reader moves 100 bytes a call, so that one of the first five calls finds the end, or one byte a call.
#[test]
fn readers_fail_at_each_call(rt: HostRuntime) {
    for run in RUNS {
        for (most, calls) in [(100, 6), (1, 290)] {
            for kind in [ErrorKind::BrokenPipe, ErrorKind::Interrupted] {
                for call in 0..calls {
                    let reads = Script {
                        fault: Some(kind),
                        ..failing(most, call)
                    };
                    assert!(rt;
                        reports_the_reader(rt.alloc(), run, reads) == Some(true),
                        "call {call}"
                    );
                }
            }
        }
    }
}

// Returns whether a run reports the writer's fault if and only if the writer fails. After the fault the run makes no
// further call, and what was written is a prefix of the output: all bytes of the calls before.
fn reports_the_writer(alloc: Global, run: Run, writes: Script) -> Option<bool> {
    let right = run.right(alloc)?;
    let ran = run.done(alloc, WHOLE, writes)?;
    Some(has_reported_the_writer(&ran, &right, writes))
}

// Returns whether a run wrote these bytes, or reported the writer's fault after a prefix of them.
fn has_reported_the_writer(ran: &Ran, right: &[u8], writes: Script) -> bool {
    if !ran.write_failed {
        return ran.writes <= writes.failing && is_done(ran, right);
    }
    matches!(ran.answer, Err(RunFault::Write))
        && ran.writes == writes.failing.saturating_add(1)
        && (writes.most > 1 || ran.written.len() == writes.failing)
        && ran.written.len() < right.len()
        && right.starts_with(ran.written.as_slice())
}

// The writer moves one byte a call, or a hundred. At one call it fails, or reports that it wrote no byte.
#[test]
fn writers_fail_at_each_call(rt: HostRuntime) {
    for run in RUNS {
        for most in [1, 100] {
            for fault in [
                Some(ErrorKind::BrokenPipe),
                Some(ErrorKind::Interrupted),
                None,
            ] {
                for failing in 0..310 {
                    let writes = Script {
                        most,
                        failing,
                        fault,
                    };
                    assert!(rt;
                        reports_the_writer(rt.alloc(), run, writes) == Some(true),
                        "call {failing}"
                    );
                }
            }
        }
    }
}

fn is_done_by_single_bytes(alloc: Global, run: Run) -> Option<bool> {
    let right = run.right(alloc)?;
    Some(is_done(&run.done_by(alloc, [by(1), by(1)], by(1))?, &right))
}

#[test]
fn devices_move_one_byte_a_call(rt: HostRuntime) {
    for run in RUNS {
        assert!(rt; is_done_by_single_bytes(rt.alloc(), run) == Some(true));
    }
}

#[test]
fn an_error_on_an_empty_buffer_is_a_fault(rt: HostRuntime) {
    let mut input = Device::new(Scripted::new(LISTING, failing(100, 0)));
    let answer = Source::read(&mut input, &mut []);
    assert!(rt; answer == Err(DeviceFault) && Source::failed(&input));
}

const LISTING_OF_B: &[u8] = b"class LB; flags=0x1(public) super=LA;\n";

// Returns whether a listing of the classes of two names of the file of `LA;` and `LB;` returns and writes this.
fn are_listed(alloc: Global, names: [&str; 2], right: Listed, lines: &[u8]) -> Option<bool> {
    let file = letters_a_and_b(alloc)?;
    let mut classes = Vec::new(alloc);
    for name in names {
        classes.push(String::from_str(alloc, name).ok()?).ok()?;
    }
    let mut input = Device::new(file.as_slice());
    let mut out = Device::new(Vec::new(alloc));
    let listed = dump_classes_run(
        alloc,
        Detail::Short,
        classes.as_slice(),
        &mut input,
        &mut out,
        Leftover::Dropped,
    )
    .ok()?;
    Some(listed == right && out.into_inner().as_slice() == lines)
}

#[test]
fn classes_are_listed_by_their_names(rt: HostRuntime) {
    for (names, listed, lines) in [
        (["LB;", "LB;"], Listed::Done, LISTING_OF_B),
        (["LA;", "LC;"], Listed::NoClass(1), b""),
    ] {
        assert!(rt; are_listed(rt.alloc(), names, listed, lines) == Some(true));
    }
}

// Returns how many calls read 10,000 bytes, which are not a DEX file, if `expected` bytes are expected and each call
// fills the buffer.
fn calls_for(alloc: Global, expected: usize) -> Option<usize> {
    let file = vec![in alloc; 0; 10000].ok()?;
    let script = Script {
        most: 20000,
        ..WHOLE
    };
    let mut input = Device::expecting(Scripted::new(file.as_slice(), script), expected);
    let mut out = Device::new(Vec::new(alloc));
    match dump_run(
        alloc,
        Detail::Short,
        &mut input,
        &mut out,
        Leftover::Dropped,
    ) {
        Err(RunFault::Input(0, _)) => Some(input.into_inner().calls),
        _ => None,
    }
}

// The exact length is expected, a greater one, or one byte too few.
#[test]
fn one_call_reads_a_file_of_known_length_and_one_finds_its_end(rt: HostRuntime) {
    for expected in [10000, 12345, 9999] {
        assert!(rt;
            calls_for(rt.alloc(), expected) == Some(2),
            "expected {expected}"
        );
    }
}

// The buffer is doubled until the file is in it.
#[test]
fn few_calls_read_a_file_that_is_longer_than_expected(rt: HostRuntime) {
    for (expected, calls) in [(9998, 3), (1, 5), (0, 4)] {
        assert!(rt;
            calls_for(rt.alloc(), expected) == Some(calls),
            "expected {expected}"
        );
    }
}

// The refusal of a file without its last byte.
const TOO_SHORT: Refusal = Refusal {
    number: 4,
    place: 0,
};

// Returns whether the refusal of a file is reported, and nothing is written.
fn is_refused(alloc: Global) -> Option<bool> {
    let cut = cut_a(alloc)?;
    let ran = over_file(alloc, FileRun::List, &cut, WHOLE, WHOLE);
    Some(matches!(ran.answer, Err(RunFault::Input(0, TOO_SHORT))) && ran.writes == 0)
}

#[test]
fn a_file_that_is_cut_is_not_listed(rt: HostRuntime) {
    assert!(rt; is_refused(rt.alloc()) == Some(true));
}

// Returns whether each of three files has its line, and the status reports that one is refused.
fn are_checked(alloc: Global) -> Option<bool> {
    let (first, cut, last) = (letter_a(alloc)?, cut_a(alloc)?, final_a(alloc)?);
    let files = [
        ("a.dex", first.as_slice(), WHOLE),
        ("b c", cut.as_slice(), by(7)),
        ("d", last.as_slice(), by(1)),
    ];
    let ran = checked(alloc, &files, by(5))?;
    let lines = b"a.dex: ok classes=1\nb c: refused 4 Lengths at 0\nd: ok classes=1\n";
    Some(matches!(ran.answer, Ok(1)) && ran.written.as_slice() == lines.as_slice())
}

#[test]
fn each_file_has_its_line(rt: HostRuntime) {
    assert!(rt; are_checked(rt.alloc()) == Some(true));
}

// Merges a cut file and a file whose reader fails, in this order or the other.
fn cut_and_failing(alloc: Global, is_cut_first: bool) -> Option<Ran> {
    let (cut, whole) = (cut_a(alloc)?, letter_b(alloc)?);
    let cut = (cut.as_slice(), WHOLE);
    let whole = (whole.as_slice(), failing(100, 0));
    let files = if is_cut_first {
        [cut, whole]
    } else {
        [whole, cut]
    };
    merged(alloc, files, [0, 1], false, WHOLE)
}

#[test]
fn the_first_file_that_fails_is_reported(rt: HostRuntime) {
    let first = cut_and_failing(rt.alloc(), true);
    assert!(rt;
        first.is_some_and(|merged| merged.writes == 0
            && matches!(merged.answer, Err(RunFault::Input(0, TOO_SHORT))))
    );
    let second = cut_and_failing(rt.alloc(), false);
    assert!(rt;
        second.is_some_and(|merged| merged.writes == 0
            && matches!(merged.answer, Err(RunFault::Read(0))))
    );
}

fn is_bad_plan_reported(alloc: Global) -> Option<bool> {
    let file = letter_a(alloc)?;
    let files = [(file.as_slice(), failing(100, 0)), (file.as_slice(), WHOLE)];
    let ran = merged(alloc, files, [0, 2], false, WHOLE)?;
    Some(ran.reads == 0 && ran.writes == 0 && matches!(ran.answer, Err(RunFault::Plan)))
}

#[test]
fn a_bad_plan_is_reported_before_a_reader_is_called(rt: HostRuntime) {
    assert!(rt; is_bad_plan_reported(rt.alloc()) == Some(true));
}

// Returns the line that reports a conflict of two classes `LA;` with different flags, if nothing was written.
fn conflict_line(alloc: Global) -> Option<String> {
    let (first, second) = (letter_a(alloc)?, final_a(alloc)?);
    let files = [(first.as_slice(), WHOLE), (second.as_slice(), WHOLE)];
    reported_line(alloc, &merged(alloc, files, [1, 0], false, WHOLE)?)
}

// Returns the line that reports a conflict, if nothing was written.
fn reported_line(alloc: Global, ran: &Ran) -> Option<String> {
    if !has_conflict(ran) {
        return None;
    }
    match &ran.answer {
        Err(fault) => line_of(alloc, fault),
        Ok(_) => None,
    }
}

// Returns the line that reports why files cannot be merged, if its status is 1.
fn line_of(alloc: Global, fault: &RunFault) -> Option<String> {
    match fault {
        RunFault::Merge(_) => {
            let (status, line) = explain(alloc, fault, &[], "out").ok()?;
            if status == 1 { Some(line) } else { None }
        }
        _ => None,
    }
}

#[test]
fn a_conflict_is_reported(rt: HostRuntime) {
    let line = conflict_line(rt.alloc());
    assert!(rt; line.is_some_and(|line| line.as_str() == "dexkit: conflict LA;"));
}

// Returns whether two equal files with a source text are merged and stripped to the file without it, and a file with
// the text and one without it are a conflict, as in a merge that does not strip.
fn is_stripped_after_the_merge(alloc: Global) -> Option<bool> {
    let (with, without) = (source_of_a(alloc)?, letter_a(alloc)?);
    let (with, without_debug) = ((with.as_slice(), WHOLE), (without.as_slice(), WHOLE));
    let equal = merged(alloc, [with, with], [1, 0], true, WHOLE)?;
    let unequal = merged(alloc, [with, without_debug], [0, 1], true, WHOLE)?;
    Some(is_done(&equal, &without) && has_conflict(&unequal))
}

#[test]
fn a_merge_is_checked_before_it_is_stripped(rt: HostRuntime) {
    assert!(rt; is_stripped_after_the_merge(rt.alloc()) == Some(true));
}

// Returns whether files that no sums make acceptable are refused, and nothing is written: a cut file, a file of 31
// bytes, which has no room for its sums, and an empty file.
fn is_beyond_repair(alloc: Global) -> Option<bool> {
    let cut = cut_a(alloc)?;
    for (file, number) in [(cut.as_slice(), 4), (cut.get(..31)?, 1), (cut.get(..0)?, 1)] {
        let ran = over_file(alloc, FileRun::Repair, file, WHOLE, WHOLE);
        if !has_refused(&ran, 0, number) {
            return Some(false);
        }
    }
    Some(true)
}

#[test]
fn a_file_beyond_repair_is_refused(rt: HostRuntime) {
    assert!(rt; is_beyond_repair(rt.alloc()) == Some(true));
}

// Returns whether a file that is not canonical, with wrong sums, is repaired to the same file with the right ones.
fn is_repaired(alloc: Global) -> Option<bool> {
    let right = unused_beside_a(alloc)?;
    let file = unsigned(unused_beside_a(alloc)?)?;
    let ran = over_file(alloc, FileRun::Repair, &file, WHOLE, WHOLE);
    Some(is_done(&ran, &right))
}

#[test]
fn a_repair_sets_sums_alone_right(rt: HostRuntime) {
    assert!(rt; is_repaired(rt.alloc()) == Some(true));
}

// Returns whether a count refuses two different classes of one name, and a cut file.
fn is_uncounted(alloc: Global) -> Option<bool> {
    let (first, second, cut) = (letter_a(alloc)?, final_a(alloc)?, cut_a(alloc)?);
    are_uncounted(alloc, &first, &second, &cut)
}

// Returns whether a count refuses the first two of these files, and the first with the last.
fn are_uncounted(alloc: Global, first: &[u8], second: &[u8], cut: &[u8]) -> Option<bool> {
    let first = (first, WHOLE);
    let unequal = counted(alloc, [first, (second, WHOLE)], WHOLE)?;
    let refused = counted(alloc, [first, (cut, WHOLE)], WHOLE)?;
    Some(has_conflict(&unequal) && has_refused(&refused, 1, 4))
}

#[test]
fn files_without_a_union_are_not_counted(rt: HostRuntime) {
    assert!(rt; is_uncounted(rt.alloc()) == Some(true));
}

const COUNTS_OF_BOTH: &[u8] =
    b"types 3 of 65535\nprotos 0 of 65535\nfields 0 of 65536\nmethods 0 of 65536\nshort-strings 0 of 65536\n\
    weight 1330 of 1073741824\nclasses 2\nstrings 3\n";

// Returns whether the types, the classes and the strings of two files are counted once, though both have a type.
fn is_counted(alloc: Global) -> Option<bool> {
    let (first, second) = (letter_a(alloc)?, letter_b(alloc)?);
    let files = [(first.as_slice(), WHOLE), (second.as_slice(), WHOLE)];
    Some(is_done(&counted(alloc, files, WHOLE)?, COUNTS_OF_BOTH))
}

#[test]
fn a_count_is_of_a_union(rt: HostRuntime) {
    assert!(rt; is_counted(rt.alloc()) == Some(true));
}

// Returns whether a refused file has no digests.
fn is_undigested(alloc: Global) -> Option<bool> {
    let cut = cut_a(alloc)?;
    let ran = over_file(alloc, FileRun::Digest, &cut, WHOLE, WHOLE);
    Some(has_refused(&ran, 0, 4))
}

#[test]
fn a_file_that_is_cut_has_no_digests(rt: HostRuntime) {
    assert!(rt; is_undigested(rt.alloc()) == Some(true));
}
