//! Classes of a file: `class FILE I NAME SUPERCLASS`, the class with index `I` in canonical order and its superclass,
//! or `-` for none. A copy of the class that is renumbered to just the symbols that occur in it must print the same.

ghost use Rattle.std.specs.Prelude.{◌<◌, length};
ghost use Rattle.dexspec.specs.Files.{definitions};
ghost use Rattle.dexclass.specs.Uses.{IsKnownClass};

use crate::program::program_of;
use dexcases::{CaseFault, Outcome, Printed, first_word, number};
use dexclass::{Class, Program, renumber, uses_law};
use dexcode::code_kept_law;
use dexmembers::members_cut_law;
use dexpool::{Marks, Numbering, SymbolKind};
use dexstr::Text;
use std::alloc::{AllocError, Global};

/// Runs a line. `asked` is the text after the file's name.
pub fn run(alloc: Global, bytes: &[u8], asked: &str) -> Result<Outcome, CaseFault> {
    let (i, right) = first_word(asked)?;
    let program = program_of(alloc, bytes)?;
    let i: usize = number(i)?.parse()?;
    if i >= program.len() {
        return Err(CaseFault::failed(alloc, "no class"));
    }
    Ok(outcome_of(alloc, &program, i, right)?)
}

// Returns the outcome of a line that asks for a class of a program.
fn outcome_of(
    alloc: Global,
    program: &Program<'_>,
    i: usize,
    right: &str,
) -> Result<Outcome, AllocError>
    requires { i < length (definitions program.now) }
{
    let class = program.class(i);
    let text = text_of(alloc, program.numbering(), class)?;
    let renumbered = renumbered_text(alloc, program.numbering(), class)?;
    match Outcome::of(text, right) {
        Outcome::Passed => Ok(Outcome::of(renumbered, right)),
        failed => Ok(failed),
    }
}

// Returns the name of a class and the name of its superclass.
fn text_of(
    alloc: Global,
    numbering: &Numbering<'_>,
    class: &Class<'_>,
) -> Result<String, AllocError> {
    let mut text = Printed::new(alloc);
    print_type(numbering, Some(class.name()), &mut text);
    text.add(" ");
    print_type(numbering, class.superclass(), &mut text);
    text.finish()
}

// Returns these names of a copy that is renumbered to just the symbols that occur in the class.
fn renumbered_text(
    alloc: Global,
    numbering: &Numbering<'_>,
    class: &Class<'_>,
) -> Result<String, AllocError>
    requires { IsKnownClass numbering.now class.now }
{
    uses_law();
    code_kept_law();
    members_cut_law();
    let mut marks = Marks::none(alloc, numbering)?;
    class.mark(&mut marks);
    let (kept, remap) = numbering.keep(alloc, &marks)?;
    class.members().numbers_fit();
    let mut copy = class.copy()?;
    renumber(&mut copy, &remap)?;
    text_of(alloc, &kept, &copy)
}

// Prints the descriptor of a type, or `-` for none, and its rank if that is not its number.
fn print_type(numbering: &Numbering<'_>, number: Option<usize>, out: &mut Printed) {
    match number {
        Some(number) if number < numbering.count(SymbolKind::Typ) => {
            let descriptor = numbering.typ(number);
            print_text(descriptor, out);
            let rank = numbering.rank_type(descriptor);
            if rank != number {
                out.add_shown(&rank);
            }
        }
        _ => out.add("-"),
    }
}

fn print_text(text: &Text<'_>, out: &mut Printed) {
    for unit in text.units() {
        out.add_unit(unit);
    }
}
