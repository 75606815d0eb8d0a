//! Runs files of cases that must fail. Its stored output shows that each failure is found: a wrong answer, a line of an
//! unknown kind, a line whose file cannot be read, a file of lines that cannot be read, a file without lines, and a
//! file of comments only. It shows also that the lines and files after each failure are run. The status is 1.
#![tactic(auto)]

mod kind;

use kind::Kind;
use std::process::ExitCode;

fn main(rt: HostRuntime) -> ExitCode {
    dexcases::run::<Kind, HostRuntime>(&rt)
}
