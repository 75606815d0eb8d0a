//! Files checked: `check FILE ok CLASSES`, or `check FILE refused NUMBER PLACE | NUMBER PLACE ..`, of which any is
//! right; of conditions before 17 one alone is. The file is read as a program, and then checked without keeping one.

ghost use Rattle.std.specs.Prelude.{◌≡◌, IfOk, IsTrue};
ghost use Rattle.dexcases_calls.specs.Reported.{Agree, IsRight, IsReported};

use dexcases::{CaseFault, FIRST_OF_CLASSES, Outcome, first_word, number};
use dexclass::{check, read};
use dexhead::Refusal;
use dexpool::ReadFault;
use std::alloc::{AllocError, Global};

/// What is right: a number of classes, or one of these refusals.
#[derive(Drop)]
pub(crate) enum RightAnswer {
    /// The file is accepted, with this number of classes.
    Accepted(usize),
    /// The file is refused with one of these refusals.
    Refused(Vec<Refusal>),
}

/// What a call reported.
#[derive(Clone, Copy)]
pub(crate) enum Answer {
    /// The file is accepted, with this number of classes.
    Accepted(usize),
    /// The file is refused.
    Refused(Refusal),
}

/// Runs a line. `right` is the text after the file's name.
pub fn run(alloc: Global, bytes: &[u8], right: &str) -> Result<Outcome, CaseFault> {
    let right = right_in(alloc, right)?;
    check_answer(alloc, bytes, &right)
}

// Reads and checks a file, and returns the outcome of its line.
fn check_answer(alloc: Global, bytes: &[u8], right: &RightAnswer) -> Result<Outcome, CaseFault>
    ensures { IfOk result (λ outcome. outcome ≡ Outcome.Passed → IsRight bytes.now right.now) }
{
    let reported = answer_to(alloc, bytes)?;
    if !agree(right, reported) {
        return Ok(Outcome::Failed(words_of(alloc, reported)?));
    }
    let checked = answer_of_check(alloc, bytes)?;
    if agree(right, checked) {
        return Ok(Outcome::Passed);
    }
    let words = words_of(alloc, checked)?;
    Ok(Outcome::Failed(format!(in alloc; "by the check {words}")?))
}

// Reads a file, and returns what is reported of it.
fn answer_to(alloc: Global, bytes: &[u8]) -> Result<Answer, CaseFault>
    ensures { IfOk result (IsReported bytes.now) }
{
    match read(alloc, bytes) {
        Ok(program) => Ok(Answer::Accepted(program.len())),
        Err(ReadFault::Refused(refusal)) => Ok(Answer::Refused(refusal)),
        Err(ReadFault::Memory) => Err(CaseFault::Memory),
    }
}

// Checks a file, and returns what is reported of it.
fn answer_of_check(alloc: Global, bytes: &[u8]) -> Result<Answer, CaseFault> {
    match check(alloc, bytes) {
        Ok(classes) => Ok(Answer::Accepted(classes)),
        Err(ReadFault::Refused(refusal)) => Ok(Answer::Refused(refusal)),
        Err(ReadFault::Memory) => Err(CaseFault::Memory),
    }
}

// Returns whether what was reported is right.
fn agree(right: &RightAnswer, reported: Answer) -> bool
    ensures { IsTrue result → Agree right.now reported }
{
    match (right, reported) {
        (RightAnswer::Accepted(right), Answer::Accepted(reported)) => *right == reported,
        (RightAnswer::Refused(right), Answer::Refused(reported)) => right.contains(&reported),
        _ => false,
    }
}

// Parses what is right.
fn right_in(alloc: Global, right: &str) -> Result<RightAnswer, CaseFault> {
    if let Some(classes) = right.strip_prefix("ok ") {
        return Ok(RightAnswer::Accepted(number(classes)?.parse()?));
    }
    match right.strip_prefix("refused ") {
        Some(listed) => Ok(RightAnswer::Refused(refusals_in(alloc, listed)?)),
        None => Err(CaseFault::Form),
    }
}

// Parses refusals: one, or several different ones of conditions on classes.
fn refusals_in(alloc: Global, listed: &str) -> Result<Vec<Refusal>, CaseFault> {
    let is_single = listed.split_once(" | ").is_none();
    let mut refusals = Vec::new(alloc);
    for one in listed.split(" | ") {
        let refusal = refusal_in(one)?;
        if refusals.contains(&refusal) || !is_single && refusal.number < FIRST_OF_CLASSES {
            return Err(CaseFault::Form);
        }
        refusals.push(refusal)?;
    }
    Ok(refusals)
}

// Parses a refusal.
fn refusal_in(words: &str) -> Result<Refusal, CaseFault> {
    let (condition, place) = first_word(words)?;
    Ok(Refusal {
        number: number(condition)?.parse()?,
        place: number(place)?.parse()?,
    })
}

// Returns what was reported, as a line has it.
fn words_of(alloc: Global, reported: Answer) -> Result<String, AllocError> {
    match reported {
        Answer::Accepted(classes) => format!(in alloc; "ok {classes}"),
        Answer::Refused(Refusal { number, place }) => format!(in alloc; "refused {number} {place}"),
    }
}
