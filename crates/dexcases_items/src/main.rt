//! Runs files of right answers through the calls that read, check and put one item of a file, and prints the lines that
//! fail.
//!
//! The arguments are the names of such files. `value.txt`, `statics.txt`, `set.txt`, `directory.txt`, `debug_info.txt`,
//! `code.txt` and `classdata.txt` ask on each line for an item of a file in their folder. `item_puts.txt` asks for the
//! bytes that an item is put as, `checks.txt` for the numbers of an item that is checked and not kept, `weights.txt`
//! for its weight, and `units.txt` for the units of code. In an `index.txt` the first word of a line says what the line
//! asks for. Lines are counted by kind; a line that fails is printed whole, with its file and number.
//!
//! The status is 0 if no line failed, 1 if a line failed or a file cannot be read or has no case, 2 on a usage error, 4
//! if the output cannot be written or allocation failed.
#![tactic(auto)]

mod canonical;
mod checked_lines;
mod checks;
mod dex_file;
mod item;
mod item_kind;
mod item_remaps;
mod kind;
mod likeness;
mod line;
mod offsets;
mod puts;
mod reads;
mod sameness;
mod shown;
mod texts;
mod units;
mod weights;

use kind::Kind;
use std::process::ExitCode;

fn main(rt: HostRuntime) -> ExitCode {
    dexcases::run::<Kind, HostRuntime>(&rt)
}
