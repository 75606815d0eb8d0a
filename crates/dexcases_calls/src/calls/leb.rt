//! Numbers read: `HEX u=VALUE/USED s=VALUE/USED p1=VALUE/USED`, with a fault instead of `VALUE/USED` if the call fails.

use dexcases::Printed;
use dexleb::{LebFault, read_p1, read_s, read_u};
use std::alloc::{AllocError, Global};
use std::fmt;

/// Returns what the three calls report of the number at the start of these bytes.
pub fn reported(alloc: Global, bytes: &[u8]) -> Result<String, AllocError> {
    let mut text = Printed::new(alloc);
    text.add("u=");
    print_answer(read_u(bytes, 0), &mut text);
    text.add(" s=");
    print_answer(read_s(bytes, 0), &mut text);
    text.add(" p1=");
    match read_p1(bytes, 0) {
        Ok((Some(number), used)) => print_answer(Ok((number, used)), &mut text),
        Ok((None, used)) => print_answer(Ok(("none", used)), &mut text),
        Err(fault) => print_answer::<u32>(Err(fault), &mut text),
    }
    text.finish()
}

// Prints a number and how many bytes encode it, or a fault.
fn print_answer<N: Copy + fmt::Display>(answer: Result<(N, usize), LebFault>, out: &mut Printed) {
    match answer {
        Ok((number, used)) => {
            out.add_shown(&number);
            out.add("/");
            out.add_shown(&used);
        }
        Err(LebFault::Short) => out.add("Short"),
        Err(LebFault::Range) => out.add("Range"),
    }
}
