//! What the program prints on standard error.

ghost use Rattle.std.specs.Prelude.{◌≡◌, ◌++◌, true, false, map, IfOk, OnOk, OnErr, string_bytes, codes};
ghost use Rattle.dexio.specs.Prefixes.{TakesPrefix};
ghost use Rattle.dexcmd.specs.Printing.{line_text, lines_text, printed_lines, printed_status};

use crate::outcome_report::Report;
use dexhead::{DeviceFault, Sink, write_whole};
use dexruns::ExitStatus;
use std::alloc::{AllocError, Global};

// A line with its end.
fn ended(alloc: Global, line: &str) -> Result<String, AllocError>
    ensures { IfOk result (λ text. string_bytes text ≡ line_text line.now) }
{
    format!(in alloc; "{line}\n")
}

// Writes a line and its end: in one piece, so that lines of programs that print at the same time stay whole, and in two
// where memory for one is not to be had.
fn write_line<W: Sink>(alloc: Global, line: &str, out: &mut W) -> Result<(), DeviceFault>
    requires { W.has_failed out.old ≡ false }
    ensures works { OnOk result (W.has_failed out.new ≡ false) }
    ensures fails { OnErr result (W.has_failed out.new ≡ true) }
    ensures reports { W.reports out.old → W.reports out.new }
    ensures written { OnOk result (W.reports out.old
        → W.taken out.new ≡ W.taken out.old ++ line_text line.now) }
{
    if let Ok(text) = ended(alloc, line) {
        return write_whole(out, text.as_bytes());
    }
    write_whole(out, line.as_bytes())?;
    write_whole(out, b"\n")
}

/// Writes lines, each with its end.
///
/// Condition: the device has not failed. Error: exactly where it fails in this call.
pub fn write_lines<W: Sink>(alloc: Global, lines: &[String], out: &mut W) -> Result<(), DeviceFault>
    requires { W.has_failed out.old ≡ false }
    ensures works { OnOk result (W.has_failed out.new ≡ false) }
    ensures fails { OnErr result (W.has_failed out.new ≡ true) }
    ensures reports { W.reports out.old → W.reports out.new }
    ensures written { OnOk result (W.reports out.old
        → W.taken out.new ≡ W.taken out.old ++ lines_text (map string_bytes lines.now)) }
{
    for line in lines {
        write_line(alloc, line.as_str(), out)?;
    }
    Ok(())
}

/// Writes the lines of a report to standard error, or that memory is out where there is no report, and returns the exit
/// status: that of the report, or 4. A device that fails is not reported: there is nowhere to report it.
///
/// Condition: the device has not failed.
pub fn print_report<W: Sink>(alloc: Global, report: &Result<Report, AllocError>, err: &mut W) -> u8
    requires { W.has_failed err.old ≡ false }
    ensures status { result ≡ printed_status report.now }
    ensures written { W.reports err.old → W.has_failed err.new ≡ false
        → W.taken err.new ≡ W.taken err.old ++ lines_text (printed_lines report.now) }
{
    match report {
        Ok(report) => {
            let _ = write_lines(alloc, &report.lines, err);
            report.status
        }
        Err(AllocError) => {
            let _ = write_line(alloc, "dexkit: out of memory", err);
            ExitStatus::Memory as u8
        }
    }
}
