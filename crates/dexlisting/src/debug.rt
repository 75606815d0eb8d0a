//! The lines of debug programs.

ghost use Rattle.std.specs.Prelude.{◌≡◌, ◌<◌, ◌≤◌, ◌+◌, ◌^◌, ◌++◌, ◌≤ℤ◌, ◌+ℤ◌, pos, All, IfSome, map, length, codes};
ghost use Rattle.std.specs.List.{flat_map};
ghost use Rattle.std.specs.Option.{option_map};
ghost use Rattle.dexspec.specs.Mentions.{Mentions};
ghost use Rattle.dexdebug.specs.Meaning.{operation_in, debug_in, IsKnownText, IsKnownType, IsKnownOperation, IsKnownDebug};
ghost use Rattle.dexpool.specs.NumberedSymbols.{text_at, type_at};
ghost use Rattle.dexdebug.specs.Positions as recorded;
ghost use Rattle.dexout.specs.Printed.{quoted, shown, count_text, place_text};
ghost use Rattle.dexlisting.specs.FullListing.{text_or_dash, signed_text, local_text, operation_text, operation_line, operation_lines, parameter_name_line, debug_lines};

use crate::numbers::{encode_signed, encode_wide};
use crate::operands::encode_register;
use crate::parts::encode_type;
use dexcode::{Debug, NameIter, Operation, OperationIter};
use dexhead::Output;
use dexout::{encode_count, encode_quoted};
use dexpool::Numbering;

/// The first special opcode.
const FIRST_SPECIAL: u8 = 0x0a;

/// The number of lines by which special opcodes differ.
const LINE_RANGE: u8 = 15;

// Writes a text between quotation marks, or a dash for none.
fn encode_text_or_dash<O: Output>(numbering: &Numbering<'_>, text: Option<u32>, out: &mut O)
    requires { IsKnownText numbering.now text }
    ensures { O.gives (text_or_dash quoted (option_map (text_at numbering.now) text)) out.old
        out.new }
{
    match text {
        Some(text) => encode_quoted(numbering.string(text as usize), out),
        None => out.byte(b'-'),
    }
}

// Writes a type, or a dash for none.
fn encode_type_or_dash<O: Output>(numbering: &Numbering<'_>, typ: Option<u32>, out: &mut O)
    requires { IsKnownType numbering.now typ }
    ensures { O.gives (text_or_dash shown (option_map (type_at numbering.now) typ)) out.old
        out.new }
{
    match typ {
        Some(typ) => encode_type(numbering, typ as usize, out),
        None => out.byte(b'-'),
    }
}

// Writes the register, the name and the type of a local variable.
fn encode_local<O: Output>(
    numbering: &Numbering<'_>,
    register: u32,
    name: Option<u32>,
    typ: Option<u32>,
    out: &mut O,
)
    requires name { IsKnownText numbering.now name }
    requires typ { IsKnownType numbering.now typ }
    ensures { O.gives (local_text register (option_map (text_at numbering.now) name)
        (option_map (type_at numbering.now) typ)) out.old out.new }
{
    encode_register(register as usize, out);
    out.byte(b' ');
    encode_text_or_dash(numbering, name, out);
    out.byte(b' ');
    encode_type_or_dash(numbering, typ, out);
}

// Writes the position that a special opcode records.
fn encode_position<O: Output>(address: u64, line: i64, opcode: u8, out: &mut O)
    ensures { O.gives
        (codes "position " ++ (place_text address ++ (codes " line=" ++ (signed_text line
        ++ count_text (codes " opcode=") opcode)))) out.old out.new }
{
    out.bytes(b"position ");
    encode_wide(address, out);
    out.bytes(b" line=");
    encode_signed(line, out);
    encode_count(b" opcode=", usize::from(opcode), out);
}

// Writes an operation that leaves this address and this line.
fn encode_operation<O: Output>(
    numbering: &Numbering<'_>,
    address: u64,
    line: i64,
    operation: &Operation,
    out: &mut O,
)
    requires { IsKnownOperation numbering.now operation.now }
    ensures { O.gives (operation_text address line (operation_in numbering.now operation.now))
        out.old out.new }
{
    match operation {
        Operation::AdvancePc(addr_diff) => {
            encode_count(b"advance-pc ", *addr_diff as usize, out);
        }
        Operation::AdvanceLine(line_diff) => {
            out.bytes(b"advance-line ");
            encode_signed(i64::from(*line_diff), out);
        }
        Operation::StartLocal {
            register_num,
            name_idx,
            type_idx,
        } => {
            out.bytes(b"start-local ");
            encode_local(numbering, *register_num, *name_idx, *type_idx, out);
        }
        Operation::StartLocalExtended {
            register_num,
            name_idx,
            type_idx,
            sig_idx,
        } => {
            out.bytes(b"start-local-extended ");
            encode_local(numbering, *register_num, *name_idx, *type_idx, out);
            out.byte(b' ');
            encode_text_or_dash(numbering, *sig_idx, out);
        }
        Operation::EndLocal(register_num) => {
            out.bytes(b"end-local ");
            encode_register(*register_num as usize, out);
        }
        Operation::RestartLocal(register_num) => {
            out.bytes(b"restart-local ");
            encode_register(*register_num as usize, out);
        }
        Operation::SetPrologueEnd => out.bytes(b"set-prologue-end"),
        Operation::SetEpilogueBegin => out.bytes(b"set-epilogue-begin"),
        Operation::SetFile(name_idx) => {
            out.bytes(b"set-file ");
            encode_text_or_dash(numbering, *name_idx, out);
        }
        Operation::Special(opcode) => encode_position(address, line, *opcode, out),
    }
}

// Writes the line of an operation that leaves this address and this line.
fn encode_operation_line<O: Output>(
    numbering: &Numbering<'_>,
    address: u64,
    line: i64,
    operation: &Operation,
    out: &mut O,
)
    requires { IsKnownOperation numbering.now operation.now }
    ensures { O.gives (operation_line address line (operation_in numbering.now operation.now))
        out.old out.new }
{
    out.bytes(b"      ");
    encode_operation(numbering, address, line, operation, out);
    out.byte(b'\n');
}

// Returns the number by which an operation advances the address.
fn address_step(operation: &Operation) -> u64
    ensures step { (m : Mentions) → result ≡ recorded.address_step (operation_in m operation.now) }
    ensures small { result < 2 ^ 32 }
{
    match operation {
        Operation::AdvancePc(addr_diff) => u64::from(*addr_diff),
        Operation::Special(opcode) => u64::from(opcode.saturating_sub(FIRST_SPECIAL) / LINE_RANGE),
        _ => 0,
    }
}

// Returns the number by which an operation advances the line.
fn line_step(operation: &Operation) -> i64
    ensures step { (m : Mentions) → result ≡ recorded.line_step (operation_in m operation.now) }
    ensures low { pos 0 ≤ℤ (result +ℤ pos (2 ^ 31)) }
    ensures high { result ≤ℤ pos (2 ^ 31) }
{
    match operation {
        Operation::AdvanceLine(line_diff) => i64::from(*line_diff),
        Operation::Special(opcode) => {
            i64::from(opcode.saturating_sub(FIRST_SPECIAL) % LINE_RANGE) - 4
        }
        _ => 0,
    }
}

// Writes the lines of operations, from a line on.
fn encode_operations<O: Output>(
    numbering: &Numbering<'_>,
    line_start: u32,
    operations: OperationIter<'_>,
    out: &mut O,
)
    requires few { length operations < 2 ^ 30 }
    requires known { All (IsKnownOperation numbering.now) operations }
    ensures { O.gives (operation_lines 0 (pos line_start)
        (map (operation_in numbering.now) operations.entry)) out.old out.new }
{
    let mut address = 0;
    let mut line = i64::from(line_start);
    for operation in operations {
        address += address_step(&operation);
        line += line_step(&operation);
        encode_operation_line(numbering, address, line, &operation, out);
    }
}

// Writes the lines of the names of parameters.
fn encode_parameter_names<O: Output>(numbering: &Numbering<'_>, names: NameIter<'_>, out: &mut O)
    requires { All (IsKnownText numbering.now) names }
    ensures { O.gives (flat_map parameter_name_line
        (map (option_map (text_at numbering.now)) names.entry)) out.old out.new }
{
    for name in names {
        out.bytes(b"      parameter ");
        encode_text_or_dash(numbering, name, out);
        out.byte(b'\n');
    }
}

/// Writes the lines of a debug program.
pub(crate) fn encode_debug<O: Output>(numbering: &Numbering<'_>, debug: &Debug<'_>, out: &mut O)
    requires { IsKnownDebug numbering.now debug.now }
    ensures { O.gives (debug_lines (debug_in numbering.now debug.now)) out.old out.new }
{
    debug.numbers_fit();
    encode_count(b"    line-start ", debug.line_start() as usize, out);
    out.byte(b'\n');
    encode_parameter_names(numbering, debug.parameter_names(), out);
    encode_operations(numbering, debug.line_start(), debug.operations(), out);
}
