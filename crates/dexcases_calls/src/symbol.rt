//! Symbols of rows: `symbol FILE POOL ROW TEXT`. A type prints as its descriptor, a proto as `(PARAMETERS)RETURN`, a
//! field as `CLASS->NAME:TYPE` and a method as `CLASS->NAME(PARAMETERS)RETURN`. A copy of the symbol is printed, and
//! its rank in a numbering of the pools must be its row.

use crate::pools::{frame_of, pools_of};
use crate::words::print_name;
use dexcases::{CaseFault, Outcome, Printed, first_word, number};
use dexpool::{Numbering, Pools, ProtoSymbol, Symbol, SymbolKind};
use dexstr::Name;
use std::alloc::{AllocError, Global};

/// Runs a line. `asked` is the text after the file's name.
pub fn run(alloc: Global, bytes: &[u8], asked: &str) -> Result<Outcome, CaseFault> {
    let (pool, rest) = first_word(asked)?;
    let (row, right) = first_word(rest)?;
    let kind = kind_of(pool).ok_or(CaseFault::Form)?;
    let answered = named_in(alloc, bytes, kind, number(row)?.parse()?)?;
    Ok(Outcome::of(answered, right))
}

// Returns the text of the symbol of a row of a file.
fn named_in(alloc: Global, bytes: &[u8], kind: SymbolKind, row: u32) -> Result<String, CaseFault> {
    let frame = frame_of(alloc, bytes)?;
    let pools = pools_of(alloc, &frame)?;
    named_by(alloc, &pools, kind, row)
}

// Returns the text of the symbol of a row of these pools.
fn named_by(
    alloc: Global,
    pools: &Pools<'_>,
    kind: SymbolKind,
    row: u32,
) -> Result<String, CaseFault> {
    if row as usize >= pools.len(kind) {
        return Err(CaseFault::failed(alloc, "no row"));
    }
    let symbol = pools.symbol(alloc, kind, row)?;
    Ok(named(alloc, pools, row, &symbol)?)
}

// Returns the text of a copy of a symbol, or that its rank is another than its row.
fn named(
    alloc: Global,
    pools: &Pools<'_>,
    row: u32,
    symbol: &Symbol,
) -> Result<String, AllocError> {
    let copy = symbol.copy()?;
    named_itself(alloc, pools, row, &copy)
}

// Returns the text of a symbol, or that its rank is another than its row.
fn named_itself(
    alloc: Global,
    pools: &Pools<'_>,
    row: u32,
    symbol: &Symbol,
) -> Result<String, AllocError> {
    if rank_in(pools, symbol)? != row as usize {
        return String::from_str(alloc, "another rank");
    }
    shown(alloc, symbol)
}

// Returns how many symbols of its kind are less than a symbol in a numbering of the pools.
fn rank_in(pools: &Pools<'_>, symbol: &Symbol) -> Result<usize, AllocError> {
    let numbering = Numbering::of(pools)?;
    Ok(rank(&numbering, symbol))
}

// Returns how many symbols of its kind are less than a symbol.
fn rank(numbering: &Numbering<'_>, symbol: &Symbol) -> usize {
    match symbol {
        Symbol::Text(name) => numbering.rank_string(&name.text()),
        Symbol::Typ(name) => numbering.rank_typ(&name.text()),
        Symbol::Proto(proto) => numbering.rank_proto(proto),
        Symbol::Field(field) => numbering.rank_field(field),
        Symbol::Method(method) => numbering.rank_method(method),
    }
}

// Returns the kind of symbol of the pool of this name.
fn kind_of(pool: &str) -> Option<SymbolKind> {
    match pool {
        "strings" => Some(SymbolKind::Text),
        "types" => Some(SymbolKind::Typ),
        "protos" => Some(SymbolKind::Proto),
        "fields" => Some(SymbolKind::Field),
        "methods" => Some(SymbolKind::Method),
        _ => None,
    }
}

// Returns the text of a symbol.
fn shown(alloc: Global, symbol: &Symbol) -> Result<String, AllocError> {
    let mut words = Printed::new(alloc);
    print_symbol(symbol, &mut words);
    words.finish()
}

fn print_symbol(symbol: &Symbol, out: &mut Printed) {
    match symbol {
        Symbol::Text(name) | Symbol::Typ(name) => print_name(name, out),
        Symbol::Proto(proto) => print_proto(proto, out),
        Symbol::Field(field) => {
            print_member(&field.class, &field.name, out);
            out.add(":");
            print_name(&field.typ, out);
        }
        Symbol::Method(method) => {
            print_member(&method.class, &method.name, out);
            print_proto(&method.proto, out);
        }
    }
}

// Prints a class, an arrow and the name of a member.
fn print_member(class: &Name, name: &Name, out: &mut Printed) {
    print_name(class, out);
    out.add("->");
    print_name(name, out);
}

// Prints the parameters in round brackets, and then the return type.
fn print_proto(proto: &ProtoSymbol, out: &mut Printed) {
    out.add("(");
    for parameter in &proto.parameters {
        print_name(parameter, out);
    }
    out.add(")");
    print_name(&proto.return_type, out);
}
