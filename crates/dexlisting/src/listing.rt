//! The listing of a program, written to a device.

ghost use Rattle.std.specs.Prelude.{◌≡◌, ◌↔◌, ◌≤◌, true, false, if◌then◌else◌, [], All, map, slice_index_or, OnOk, IfErr, IsErrOf, vec_len, vec_capacity};
ghost use Rattle.std.specs.List.{flat_map};
ghost use Rattle.dexclass.specs.Numbered.{definition_of};
ghost use Rattle.dexclass.specs.Uses.{IsKnownClass};
ghost use Rattle.dexout.specs.Output.{Adds, HasRoom};
ghost use Rattle.dexout.specs.Written.{HasLeft, HasTaken};
ghost use Rattle.dexout.specs.declared.faults.StoreFault.TheVariants.{Io};
ghost use Rattle.dexlisting.specs.Listing.{chosen};
ghost use Rattle.dexlisting.specs.Detailed.{lines_in, listing_in, listing_in_of};

use crate::full_lines::encode_full_class;
use crate::lines::encode_class;
use dexclass::{Class, Program};
use dexhead::{Output, Sink};
use dexout::{Out, StoreFault, Target, Writer};
use dexpool::Numbering;
use std::alloc::Global;

/// The most bytes that are buffered.
const ROOM: usize = 65536;

// Returns whether the class at a place is chosen.
fn is_chosen(flags: &[bool], place: usize) -> bool
    ensures { result ≡ slice_index_or flags.now place true }
{
    flags.get(place).copied().unwrap_or(true)
}

/// How much is listed of each class.
#[derive(Clone, Copy, Debug, PartialEq, Eq)]
pub enum Detail {
    /// What it declares, and the instructions of its methods with the symbols that they name.
    Short,
    /// All that it has.
    Full,
}

// Writes the lines of a class in this detail.
fn encode_detailed<O: Output>(
    numbering: &Numbering<'_>,
    detail: Detail,
    class: &Class<'_>,
    out: &mut O,
)
    requires { IsKnownClass numbering.now class.now }
    ensures { O.gives (lines_in detail (definition_of numbering.now class.now)) out.old out.new }
{
    match detail {
        Detail::Short => encode_class(numbering, class, out),
        Detail::Full => encode_full_class(numbering, class, out),
    }
}

// Writes the lines of a class if it is chosen. Once the target has failed, it is not walked over.
fn write_class<T: Target>(
    numbering: &Numbering<'_>,
    detail: Detail,
    class: &Class<'_>,
    is_chosen: bool,
    out: &mut Out<T>,
)
    requires { IsKnownClass numbering.now class.now }
    ensures { Adds T.gives T.gives_prefix T.has_failed
        (if is_chosen then lines_in detail (definition_of numbering.now class.now) else []) out.old
        out.new }
{
    if !is_chosen || out.failed {
        return;
    }
    encode_detailed(numbering, detail, class, out);
}

// Writes the lines of the classes that the flags choose.
fn write_lines<T: Target>(
    numbering: &Numbering<'_>,
    detail: Detail,
    classes: &[Class<'_>],
    flags: &[bool],
    out: &mut Out<T>,
)
    requires { All (IsKnownClass numbering.now) classes.now }
    ensures { Adds T.gives T.gives_prefix T.has_failed
        (flat_map (lines_in detail)
        (chosen flags.now (map (definition_of numbering.now) classes.now)))
        out.old out.new }
{
    for i in 0..classes.len() {
        write_class(numbering, detail, &classes[i], is_chosen(flags, i), out);
    }
}

// Writes the lines of the classes of a program that the flags choose, and flushes them.
fn write_classes<T: Target>(program: &Program<'_>, detail: Detail, flags: &[bool], out: &mut Out<T>)
    ensures adds { Adds T.gives T.gives_prefix T.has_failed
        (listing_in_of detail flags.now program.now)
        out.old out.new }
    ensures empty { vec_len out.new.buffer ≡ 0 }
{
    write_lines(program.numbering(), detail, program.classes(), flags, out);
    out.flush();
}

// Writes the listing of the classes that the flags choose through an output in which nothing is buffered.
fn write_through<W: Sink>(
    program: &Program<'_>,
    detail: Detail,
    flags: &[bool],
    out: &mut Out<Writer<'_, W>>,
) -> Result<(), StoreFault>
    requires empty { out.old.buffer.items ≡ [] }
    requires fresh { out.old.failed ≡ false }
    requires room { HasRoom out.old }
    requires works { W.has_failed out.old.target.sink.now ≡ false }
    ensures same { out.new.target.sink.ghost_name ≡ out.old.target.sink.ghost_name }
    ensures written { OnOk result (HasTaken W.reports W.taken out.old.target.sink.now
        out.new.target.sink.now (listing_in_of detail flags.now program.now)) }
    ensures left { IfErr result (HasLeft (W.reports out.old.target.sink.now) out.old.target.sink.now
        out.new.target.sink.now W.taken (listing_in_of detail flags.now program.now)) }
    ensures device { IsErrOf result Io ↔ (W.has_failed out.new.target.sink.now ≡ true) }
{
    write_classes(program, detail, flags, out);
    out.result()
}

/// Writes the listing of some classes of a program: what [`write_listing`] writes, without the lines of each class at
/// whose place in the order of [`Program::classes`] the flag is `false`. A class past the end of the flags is listed.
///
/// Condition: the writer has not failed. Error: `Memory` if the buffer of 65,536 bytes could not be allocated, and then
/// nothing was written; `Io` exactly where the writer failed in this call, and then a prefix of the listing was
/// written.
///
/// Source: the form is this project's rule.
pub fn write_listing_of<W: Sink>(
    alloc: Global,
    program: &Program<'_>,
    detail: Detail,
    flags: &[bool],
    out: &mut W,
) -> Result<(), StoreFault>
    requires { W.has_failed out.old ≡ false }
    ensures written { OnOk result
        (HasTaken W.reports W.taken out.old out.new (listing_in_of detail flags.now program.now)) }
    ensures left { IfErr result
        (HasLeft (W.reports out.old) out.old out.new W.taken
        (listing_in_of detail flags.now program.now)) }
    ensures device { IsErrOf result Io ↔ (W.has_failed out.new ≡ true) }
{
    let mut output = Out {
        buffer: Vec::with_capacity(alloc, ROOM)?,
        failed: false,
        target: Writer { sink: out },
    };
    let result = write_through(program, detail, flags, &mut output);
    let Out {
        target: Writer { sink: _sink },
        ..
    } = output;
    result
}

/// Writes the listing of a program. What is written is buffered in one vector of 65,536 bytes, whose memory is all that
/// is allocated, however long the listing is.
///
/// Condition: the writer has not failed. Error: `Memory` if the vector could not be allocated, and then nothing was
/// written; `Io` exactly where the writer failed in this call, and then a prefix of the listing was written.
///
/// Source: the form is this project's rule.
#[tactic(auto, using(crate::proofs::Chosen::listing_in_all))]
pub fn write_listing<W: Sink>(
    alloc: Global,
    program: &Program<'_>,
    detail: Detail,
    out: &mut W,
) -> Result<(), StoreFault>
    requires { W.has_failed out.old ≡ false }
    ensures written { OnOk result
        (HasTaken W.reports W.taken out.old out.new (listing_in detail program.now)) }
    ensures left { IfErr result
        (HasLeft (W.reports out.old) out.old out.new W.taken (listing_in detail program.now)) }
    ensures device { IsErrOf result Io ↔ (W.has_failed out.new ≡ true) }
{
    write_listing_of(alloc, program, detail, &[], out)
}
