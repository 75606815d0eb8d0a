//! Debug programs.

use crate::shown::symbols::{print_counted, print_string, print_type};
use dexcases::Printed;
use dexcode::{Debug, Operation};
use dexpool::Numbering;

// Prints a text in quotes, or `-` for none.
fn print_text_or_none(numbering: &Numbering<'_>, number: Option<u32>, out: &mut Printed) {
    match number {
        Some(number) => print_string(numbering, number as usize, out),
        None => out.add("-"),
    }
}

// Prints a type, or `-` for none.
fn print_type_or_none(numbering: &Numbering<'_>, number: Option<u32>, out: &mut Printed) {
    match number {
        Some(number) => print_type(numbering, number as usize, out),
        None => out.add("-"),
    }
}

// Prints the start of a local variable: the opcode, the register, the name and the type.
fn print_local(
    opcode: &str,
    register_num: u32,
    operation: &Operation,
    numbering: &Numbering<'_>,
    out: &mut Printed,
) {
    print_counted(opcode, i64::from(register_num), out);
    out.add(" ");
    print_text_or_none(numbering, operation.name_idx(), out);
    out.add(" ");
    print_type_or_none(numbering, operation.type_idx(), out);
}

// Prints an operation: its opcode, and its operands.
fn print_operation(operation: &Operation, numbering: &Numbering<'_>, out: &mut Printed) {
    match operation {
        Operation::AdvancePc(addr_diff) => print_counted("01 ", i64::from(*addr_diff), out),
        Operation::AdvanceLine(line_diff) => print_counted("02 ", i64::from(*line_diff), out),
        Operation::StartLocal { register_num, .. } => {
            print_local("03 ", *register_num, operation, numbering, out);
        }
        Operation::StartLocalExtended {
            register_num,
            sig_idx,
            ..
        } => {
            print_local("04 ", *register_num, operation, numbering, out);
            out.add(" ");
            print_text_or_none(numbering, *sig_idx, out);
        }
        Operation::EndLocal(register_num) => print_counted("05 ", i64::from(*register_num), out),
        Operation::RestartLocal(register_num) => print_counted(
            "06 ",
            i64::from(*register_num),
            out,
        ),
        Operation::SetPrologueEnd => out.add("07"),
        Operation::SetEpilogueBegin => out.add("08"),
        Operation::SetFile(name_idx) => {
            out.add("09 ");
            print_text_or_none(numbering, *name_idx, out);
        }
        Operation::Special(opcode) => out.add_hex(u64::from(*opcode), 2),
    }
}

/// Prints a debug program: its first line, the names of parameters, and the operations.
pub fn print_debug(debug: &Debug<'_>, numbering: &Numbering<'_>, out: &mut Printed) {
    print_counted("debug ", i64::from(debug.line_start()), out);
    out.add(" (");
    let mut is_first_name = true;
    for name in debug.parameter_names() {
        if !is_first_name {
            out.add(", ");
        }
        print_text_or_none(numbering, name, out);
        is_first_name = false;
    }
    out.add(")");
    let mut is_first = true;
    for operation in debug.operations() {
        if is_first {
            out.add(" ");
        } else {
            out.add(", ");
        }
        print_operation(&operation, numbering, out);
        is_first = false;
    }
}
