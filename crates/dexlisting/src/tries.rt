//! The lines of tries and their handlers.

ghost use Rattle.std.specs.Prelude.{◌<◌, ◌++◌, [], All, map, length};
ghost use Rattle.std.specs.List.{flat_map};
ghost use Rattle.std.specs.Option.{option_map_or};
ghost use Rattle.dexcode.specs.Numbered.{catch_meant, handler_meant, try_meant, named};
ghost use Rattle.dexcode.specs.Meaning.{IsKnownTry};
ghost use Rattle.dexlisting.specs.FullListing.{catch_line, catch_all_line, try_lines};

use crate::parts::encode_type;
use dexcode::{Catch, Handler, Tries, Try};
use dexhead::Output;
use dexout::{encode_count, encode_place};
use dexpool::Numbering;

// Writes the line of a type that is caught.
fn encode_catch<O: Output>(numbering: &Numbering<'_>, catch: &Catch, out: &mut O)
    requires { catch.now.typ < length numbering.now.types }
    ensures { O.gives (catch_line (catch_meant numbering.now catch.now)) out.old out.new }
{
    out.bytes(b"      catch ");
    encode_type(numbering, catch.typ as usize, out);
    out.byte(b' ');
    encode_place(catch.addr, out);
    out.byte(b'\n');
}

// Writes the lines of types that are caught.
fn encode_catches<O: Output>(numbering: &Numbering<'_>, catches: &[Catch], out: &mut O)
    requires { All (λ c. c.typ < length numbering.now.types) catches.now }
    ensures { O.gives (flat_map (λ c. catch_line (catch_meant numbering.now c)) catches.now)
        out.old out.new }
{
    for catch in catches {
        encode_catch(numbering, catch, out);
    }
}

// Writes the line of the address at which everything else is caught, if there is one.
fn encode_catch_all<O: Output>(address: Option<u32>, out: &mut O)
    ensures { O.gives (option_map_or catch_all_line address []) out.old out.new }
{
    if let Some(address) = address {
        out.bytes(b"      catch-all ");
        encode_place(address, out);
        out.byte(b'\n');
    }
}

// Writes the lines of a handler.
fn encode_handler<O: Output>(numbering: &Numbering<'_>, handler: &Handler, out: &mut O)
    requires { All (λ c. c.typ < length numbering.now.types) handler.now.catches }
    ensures { O.gives (flat_map catch_line (handler_meant numbering.now handler.now).catches
        ++ option_map_or catch_all_line (handler_meant numbering.now handler.now).catch_all [])
        out.old out.new }
{
    encode_catches(numbering, handler.catches(), out);
    encode_catch_all(handler.catch_all_addr(), out);
}

// Writes the lines of a try, which names one of these handlers.
fn encode_try<O: Output>(
    numbering: &Numbering<'_>,
    handlers: &[Handler],
    covered: &Try,
    out: &mut O,
)
    requires within { covered.now.handler < length handlers.now }
    requires known { IsKnownTry numbering.now (named handlers.now covered.now) }
    ensures { O.gives (try_lines (try_meant numbering.now (named handlers.now covered.now)))
        out.old out.new }
{
    out.bytes(b"    try ");
    encode_place(covered.start_addr, out);
    encode_count(b" units=", usize::from(covered.insn_count), out);
    out.byte(b'\n');
    encode_handler(numbering, &handlers[covered.handler], out);
}

/// Writes the lines of tries.
pub(crate) fn encode_tries<O: Output>(numbering: &Numbering<'_>, tries: &Tries<'_>, out: &mut O)
    requires { All (IsKnownTry numbering.now) tries.now }
    ensures { O.gives (flat_map try_lines (map (try_meant numbering.now) tries.now)) out.old
        out.new }
{
    let (handlers, all) = (tries.handlers(), tries.tries());
    for k in 0..all.len() {
        encode_try(numbering, handlers, &all[k], out);
    }
}
