//! Code items.

use crate::shown::debug::print_debug;
use crate::shown::symbols::{print_counted, print_symbol, print_type};
use dexcases::Printed;
use dexcode::{BorrowedCode, Code, Handler, Try};
use dexinsn::{Piece, PieceKind, mnemonic};
use dexpool::{Numbering, SymbolKind};

// Prints an instruction: its mnemonic and its symbol.
fn print_instruction(
    opcode: u8,
    symbol: Option<(SymbolKind, usize)>,
    numbering: &Numbering<'_>,
    out: &mut Printed,
) {
    out.add(mnemonic(opcode).unwrap_or("?"));
    if let Some((kind, number)) = symbol {
        out.add(" ");
        print_symbol(numbering, kind, number, out);
    }
}

// Prints a piece: its first unit, and what it is.
fn print_piece(piece: Piece, numbering: &Numbering<'_>, out: &mut Printed) {
    out.add_hex(piece.unit as u64, 4);
    out.add(": ");
    match piece.kind {
        PieceKind::Instruction(opcode, symbol) => print_instruction(opcode, symbol, numbering, out),
        PieceKind::PackedSwitch(size) => {
            print_counted("packed-switch-payload size=", i64::from(size), out);
        }
        PieceKind::SparseSwitch(size) => {
            print_counted("sparse-switch-payload size=", i64::from(size), out);
        }
        PieceKind::ArrayData(width, size) => {
            print_counted("fill-array-data-payload width=", i64::from(width), out);
            print_counted(" size=", i64::from(size), out);
        }
    }
}

/// Prints the lines of a listing for code, joined by ` / `.
pub fn print_lines(code: &BorrowedCode<'_, '_>, numbering: &Numbering<'_>, out: &mut Printed) {
    let pieces = code.pieces();
    print_counted("code registers=", i64::from(pieces.registers()), out);
    print_counted(" ins=", i64::from(pieces.ins()), out);
    print_counted(" outs=", i64::from(pieces.outs()), out);
    out.add(" units=");
    out.add_shown(&pieces.units());
    out.add(" tries=");
    out.add_shown(&code.tries().tries().len());
    for piece in pieces.iter() {
        out.add(" / ");
        print_piece(piece, numbering, out);
    }
}

// Prints a handler: ` / handler TYPE ADDRESS, TYPE ADDRESS, all ADDRESS`.
fn print_handler(handler: &Handler, numbering: &Numbering<'_>, out: &mut Printed) {
    out.add(" / handler ");
    let mut mark = "";
    for catch in handler.catches() {
        out.add(mark);
        print_type(numbering, catch.typ as usize, out);
        print_counted(" ", i64::from(catch.addr), out);
        mark = ", ";
    }
    if let Some(addr) = handler.catch_all_addr() {
        out.add(mark);
        print_counted("all ", i64::from(addr), out);
    }
}

// Prints a try: ` / try START COUNT HANDLER`.
fn print_try(item: Try, out: &mut Printed) {
    print_counted(" / try ", i64::from(item.start_addr), out);
    print_counted(" ", i64::from(item.insn_count), out);
    out.add(" ");
    out.add_shown(&item.handler);
}

/// Prints code: its lines, its handlers, its tries and its debug program.
pub fn print_code(code: &Code<'_>, numbering: &Numbering<'_>, out: &mut Printed) {
    print_lines(&code.as_borrowed(), numbering, out);
    for handler in code.tries().handlers() {
        print_handler(handler, numbering, out);
    }
    for item in code.tries().tries() {
        print_try(*item, out);
    }
    if let Some(debug) = code.debug() {
        out.add(" / ");
        print_debug(debug, numbering, out);
    }
}
