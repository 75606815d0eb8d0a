//! More of the lines of a report: why a device failed, and what to do about a file that is refused.

ghost use Rattle.std.specs.Prelude.{◌≡◌, ◌++◌, ◌∷◌, [], map, IfOk, OnOk, None, is_some, option_map, string_bytes};
ghost use Rattle.dexcmd.specs.Reports.{IsReport};
ghost use Rattle.dexcmd.specs.Explaining.{IsReasonAdded, first_kind, later_kinds, reason_of, reasons_after, note_of, line_with, note_lines, condition_lines, noted_lines, explained_lines, IsExplainedOrPlain};

use crate::device_error::DeviceError;
use crate::outcome_report::{LineKind, Report};
use dexruns::{ConditionSet, condition_text};
use std::alloc::{AllocError, Global};

/// Why devices failed.
#[derive(Debug, Drop)]
pub struct Reasons {
    /// Of the inputs that cannot be read, in their order.
    pub unread: Vec<String>,
    /// Of the output that cannot be written, if it is known.
    pub unwritten: Option<String>,
}

impl Reasons {
    /// No reasons.
    pub fn new(alloc: Global) -> Reasons
        ensures unread { result.unread.items ≡ [] }
        ensures unwritten { result.unwritten ≡ None }
    {
        Reasons {
            unread: Vec::new(alloc),
            unwritten: None,
        }
    }

    /// Adds the reason of the next input that keeps the error by which it failed; an input without one has none. The
    /// reason is the system's text for the error, such as `No such file or directory`.
    ///
    /// Error: allocation failed.
    pub fn add_input(&mut self, alloc: Global, error: Option<DeviceError>) -> Result<(), AllocError>
        ensures added { OnOk result (IsReasonAdded error (map string_bytes self.old.unread.items)
            (map string_bytes self.new.unread.items)) }
        ensures unwritten { self.new.unwritten ≡ self.old.unwritten }
    {
        if let Some(error) = &error {
            self.unread.push(error.reason(alloc)?)?;
        }
        Ok(())
    }

    /// Sets the reason of the output to that of an error; without one it has none.
    ///
    /// Error: allocation failed.
    pub fn set_output(
        &mut self,
        alloc: Global,
        error: Option<DeviceError>,
    ) -> Result<(), AllocError>
        ensures set { OnOk result (is_some self.new.unwritten ≡ is_some error) }
        ensures unread { self.new.unread ≡ self.old.unread }
    {
        self.unwritten = match &error {
            Some(error) => Some(error.reason(alloc)?),
            None => None,
        };
        Ok(())
    }
}

// The text in an option.
fn text_in(text: &Option<String>) -> Option<&str>
    ensures { option_map (λ text. text.now) result ≡ option_map string_bytes text.now }
{
    match text {
        Some(text) => Some(text.as_str()),
        None => None,
    }
}

// What the first line is about, and the others.
fn next_kind(kinds: &[LineKind]) -> (LineKind, &[LineKind])
    ensures first { result.0 ≡ first_kind kinds.now }
    ensures later { result.1.now ≡ later_kinds kinds.now }
{
    match kinds.split_first() {
        Some((kind, later)) => (*kind, later),
        None => (LineKind::Other, kinds),
    }
}

// The reason of a line, and those of the lines after it.
fn next_reason<'a>(
    kind: LineKind,
    unread: &'a [String],
    unwritten: Option<&'a str>,
) -> (Option<&'a str>, &'a [String])
    ensures reason { option_map (λ reason. reason.now) result.0
        ≡ reason_of kind (map string_bytes unread.now)
        (option_map (λ reason. reason.now) unwritten.entry) }
    ensures after { map string_bytes result.1.now
        ≡ reasons_after kind (map string_bytes unread.now) }
{
    match kind {
        LineKind::Unread => match unread.split_first() {
            Some((reason, after)) => (Some(reason.as_str()), after),
            None => (None, unread),
        },
        LineKind::Unwritten => (unwritten, unread),
        LineKind::Refused(_) | LineKind::Other => (None, unread),
    }
}

// The note of a line about a refused file, if there is one: that with the number of its condition.
fn note_of<'a>(kind: LineKind, notes: &[&'a str]) -> Option<&'a str>
    ensures { option_map (λ note. note.now) result
        ≡ note_of kind (map (λ note. note.now) notes.now) }
{
    match kind {
        LineKind::Refused(number) if (number as usize) < notes.len() => {
            Some(notes[number as usize])
        }
        LineKind::Refused(_) | LineKind::Unread | LineKind::Unwritten | LineKind::Other => None,
    }
}

// Appends a line with its reason.
fn push_line(
    alloc: Global,
    line: &str,
    reason: Option<&str>,
    lines: &mut Vec<String>,
) -> Result<(), AllocError>
    ensures { OnOk result (map string_bytes lines.new.items ≡ map string_bytes lines.old.items
        ++ line_with line.now (option_map (λ reason. reason.now) reason.entry) ∷ []) }
{
    let text = match reason {
        Some(reason) => format!(in alloc; "{line}: {reason}")?,
        None => String::from_str(alloc, line)?,
    };
    lines.push(text)?;
    Ok(())
}

// Appends the line of a note, if there is one.
fn push_note(alloc: Global, note: Option<&str>, lines: &mut Vec<String>) -> Result<(), AllocError>
    ensures { OnOk result (map string_bytes lines.new.items ≡ map string_bytes lines.old.items
        ++ note_lines (option_map (λ note. note.now) note.entry)) }
{
    if let Some(note) = note {
        lines.push(format!(in alloc; "  {note}")?)?;
    }
    Ok(())
}

// Appends the lines of a condition: that files are refused by it, what that means, and what to do.
fn push_condition(
    alloc: Global,
    number: u8,
    remedies: &Remedies<'_>,
    lines: &mut Vec<String>,
) -> Result<(), AllocError>
    ensures { OnOk result (map string_bytes lines.new.items ≡ map string_bytes lines.old.items
        ++ condition_lines (map (λ text. text.now) remedies.now.meanings.now)
        (map (λ text. text.now) remedies.now.remedies.now) number) }
{
    let kind = LineKind::Refused(number);
    let text = condition_text(alloc, number)?;
    lines.push(format!(in alloc; "dexkit: {text}")?)?;
    push_note(alloc, note_of(kind, remedies.meanings), lines)?;
    push_note(alloc, note_of(kind, remedies.remedies), lines)
}

// Appends the lines of the conditions of a set, in the order of their numbers.
fn push_conditions(
    alloc: Global,
    conditions: &ConditionSet,
    remedies: &Remedies<'_>,
    lines: &mut Vec<String>,
) -> Result<(), AllocError>
    ensures { OnOk result (map string_bytes lines.new.items ≡ map string_bytes lines.old.items
        ++ noted_lines (map (λ text. text.now) remedies.now.meanings.now)
        (map (λ text. text.now) remedies.now.remedies.now) conditions.now) }
{
    for number in 0..ConditionSet::NUMBERS {
        if conditions.contains(number) {
            push_condition(alloc, number, remedies, lines)?;
        }
    }
    Ok(())
}

/// What is said of each condition, at its number: what it means that a file does not meet it, and what to do then.
#[derive(Clone, Copy, Debug)]
pub struct Remedies<'a> {
    /// What it means.
    pub meanings: &'a [&'a str],
    /// What to do.
    pub remedies: &'a [&'a str],
}

impl Report {
    /// Returns the report with `: ` and a reason after each line of a device that failed, as long as there are reasons,
    /// and after each line of a refused file two more lines, of two blanks and the meaning of its condition, and of two
    /// blanks and the remedy. Other lines are as they were. At the end there are three lines for each of its conditions,
    /// in the order of their numbers: that files are refused by it, and the same two. It has no kinds and no conditions:
    /// all is said.
    ///
    /// Error: allocation failed.
    pub fn explained(
        &self,
        alloc: Global,
        reasons: &Reasons,
        remedies: &Remedies<'_>,
    ) -> Result<Report, AllocError>
        ensures { IfOk result (IsReport self.now.status (explained_lines
            (map (λ text. text.now) remedies.now.meanings.now)
            (map (λ text. text.now) remedies.now.remedies.now)
            (option_map string_bytes reasons.now.unwritten)
            (map string_bytes reasons.now.unread.items)
            (map string_bytes self.now.lines.items) self.now.kinds.items
            ++ noted_lines (map (λ text. text.now) remedies.now.meanings.now)
            (map (λ text. text.now) remedies.now.remedies.now) self.now.conditions)) }
    {
        let mut lines = Vec::with_capacity(alloc, self.lines.len())?;
        let mut plain = self.lines.as_slice();
        let mut kinds = self.kinds.as_slice();
        let mut unread = reasons.unread.as_slice();
        let unwritten = text_in(&reasons.unwritten);
        while let Some((line, later)) = plain.split_first() {
            let (kind, others) = next_kind(kinds);
            let (reason, after) = next_reason(kind, unread, unwritten);
            push_line(alloc, line.as_str(), reason, &mut lines)?;
            push_note(alloc, note_of(kind, remedies.meanings), &mut lines)?;
            push_note(alloc, note_of(kind, remedies.remedies), &mut lines)?;
            plain = later;
            kinds = others;
            unread = after;
        }
        push_conditions(alloc, &self.conditions, remedies, &mut lines)?;
        Ok(Report {
            status: self.status,
            lines,
            kinds: Vec::new(alloc),
            conditions: ConditionSet::new(),
        })
    }
    /// Returns the report as [`explained`](Report::explained) does, or as it is where there is no memory for that, or
    /// was none for the reasons.
    pub fn explained_or_plain(
        self,
        alloc: Global,
        reasons: Result<Reasons, AllocError>,
        remedies: &Remedies<'_>,
    ) -> Report
        ensures { IsExplainedOrPlain remedies.now reasons self result }
    {
        let Ok(reasons) = reasons else {
            return self;
        };
        match self.explained(alloc, &reasons, remedies) {
            Ok(explained) => explained,
            Err(AllocError) => self,
        }
    }
}
