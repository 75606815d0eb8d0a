//! The canonical file as bytes, and written to a device.

ghost use Rattle.std.specs.Prelude.{◌≡◌, ◌↔◌, ◌≤◌, ◌++◌, true, false, IfOk, OnOk, IfErr, IsErrOf, vec_len, vec_capacity};
ghost use Rattle.dexspec.specs.Canonical.{canonical};
ghost use Rattle.dexhead.specs.Written.{head_bytes};
ghost use Rattle.dexout.specs.Output.{HasRoom};
ghost use Rattle.dexout.specs.Written.{HasLeft, HasTaken};
ghost use Rattle.dexout.specs.declared.faults.StoreFault.TheVariants.{Io};
ghost use Rattle.dexcanon.specs.internal.Ready.{CanBeMade};
ghost use Rattle.dexcanon.specs.internal.Adding.{file_of, after_header_of};
ghost use Rattle.dexcanon.specs.internal.Through.{HasTakenRest, HasLeftRest};
ghost use Rattle.dexcanon.specs.Written.{CanonicalIsAccepted, CanonicalDenotes};

use crate::adler_combine::adler_combine;
use crate::contents::Contents;
use crate::files::{encode_body, put_head, write_body, write_signed};
use crate::targets::Sums;
use dexclass::Program;
use dexhead::{Adler, Head, Sink, adler, set_sums, write_whole};
use dexlayout::Layout;
use dexout::{Out, StoreFault, Writer};
use sha1::Sha1;
use std::alloc::{AllocError, Global};

/// The most bytes that a writer gets at a time.
pub(crate) const PIECE: usize = 65536;

/// The canonical file of a program. It is accepted, and denotes exactly the program's definitions. The memory for it is
/// allocated at once, after the layout, which has some 8 bytes for each use and item, of equal lists of sets only for one,
/// and the bytes of all items but texts, type lists, lists of sets, and code of more than 8 MB.
///
/// Source: "Dalvik Executable format", "Overall file layout".
pub fn to_bytes(alloc: Global, program: &Program<'_>) -> Result<Vec<u8>, AllocError>
    ensures bytes { IfOk result (λ bytes. bytes.items ≡ canonical program.now) }
    ensures accepted { CanonicalIsAccepted }
    ensures denotes { CanonicalDenotes }
{
    dexlaws::normal::normal_form();
    let layout = Layout::of(alloc, program)?;
    let contents = Contents::of(program, &layout);
    whole_file(alloc, &contents)
}

// The file of its contents, in a vector that has room for all of it.
fn whole_file(alloc: Global, contents: &Contents<'_, '_, '_>) -> Result<Vec<u8>, AllocError>
    requires { CanBeMade contents.now }
    ensures { IfOk result (λ file. file.items ≡ file_of contents.now) }
{
    dexhead::laws::file_law();
    let mut file = Vec::with_capacity(alloc, contents.layout.len() as usize)?;
    contents.layout.head().put(&mut file)?;
    encode_body(contents, &mut file);
    set_sums(&mut file);
    Ok(file)
}

/// Writes the canonical file of a program. A file of more than 65,536 bytes is encoded in two passes: the first
/// computes its two sums, the second writes it. Its bytes are buffered in one vector, which is allocated before
/// anything is written. The writer gets no slice that is longer than 65,536 bytes.
///
/// Condition: the writer has not failed. Error: `Memory` if an allocation failed, and then nothing was written; `Io`
/// exactly if the writer failed in this call, and then a prefix of the file was written.
///
/// Source: "Dalvik Executable format", "header_item", the fields `checksum` and `signature`.
pub fn write_to<W: Sink>(
    alloc: Global,
    program: &Program<'_>,
    out: &mut W,
) -> Result<(), StoreFault>
    requires { W.has_failed out.old ≡ false }
    ensures written { OnOk result
        (HasTaken W.reports W.taken out.old out.new (canonical program.now)) }
    ensures left { IfErr result
        (HasLeft (W.reports out.old) out.old out.new W.taken (canonical program.now)) }
    ensures device { IsErrOf result Io ↔ (W.has_failed out.new ≡ true) }
{
    let layout = Layout::of(alloc, program)?;
    let contents = Contents::of(program, &layout);
    write_contents(alloc, &contents, out)
}

// Writes the file of its contents, as `write_to` says: a short one is encoded once, a longer one twice.
fn write_contents<W: Sink>(
    alloc: Global,
    contents: &Contents<'_, '_, '_>,
    sink: &mut W,
) -> Result<(), StoreFault>
    requires ready { CanBeMade contents.now }
    requires works { W.has_failed sink.old ≡ false }
    ensures written { OnOk result
        (HasTaken W.reports W.taken sink.old sink.new (file_of contents.now)) }
    ensures left { IfErr result
        (HasLeft (W.reports sink.old) sink.old sink.new W.taken (file_of contents.now)) }
    ensures device { IsErrOf result Io ↔ (W.has_failed sink.new ≡ true) }
{
    if contents.layout.len() as usize <= PIECE {
        let file = whole_file(alloc, contents)?;
        write_whole(sink, &file)?;
        return Ok(());
    }
    let buffer = Vec::with_capacity(alloc, PIECE)?;
    let (head, mut buffer) = head_with_sums(contents, buffer);
    put_head(&head, 0, &mut buffer);
    let mut out = Out {
        buffer,
        failed: false,
        target: Writer { sink },
    };
    let result = write_through(contents, &mut out);
    let Out {
        target: Writer { sink: _sink },
        ..
    } = out;
    result
}

// Writes what is buffered, and then all that is after the header.
fn write_through<W: Sink>(
    contents: &Contents<'_, '_, '_>,
    out: &mut Out<Writer<'_, W>>,
) -> Result<(), StoreFault>
    requires ready { CanBeMade contents.now }
    requires fresh { out.old.failed ≡ false }
    requires room { HasRoom out.old }
    requires works { W.has_failed out.old.target.sink.now ≡ false }
    ensures same { out.new.target.sink.ghost_name ≡ out.old.target.sink.ghost_name }
    ensures written { OnOk result (HasTakenRest W.reports W.taken contents.now out.old out.new) }
    ensures left { IfErr result (HasLeftRest W.reports W.taken contents.now out.old out.new) }
    ensures device { IsErrOf result Io ↔ (W.has_failed out.new.target.sink.now ≡ true) }
{
    write_body(contents, out);
    out.result()
}

// The header of a file with its two sums, which are computed over the file as it is encoded into a buffer with room.
// The buffer is returned empty.
fn head_with_sums(contents: &Contents<'_, '_, '_>, buffer: Vec<u8>) -> (Head, Vec<u8>)
    requires ready { CanBeMade contents.now }
    requires room { 112 ≤ vec_capacity buffer }
    requires empty { vec_len buffer ≡ 0 }
    ensures bytes { head_bytes result.0 ++ after_header_of contents.now ≡ file_of contents.now }
    ensures room { 112 ≤ vec_capacity result.1 }
    ensures empty { vec_len result.1 ≡ 0 }
{
    dexhead::laws::fields_law();
    dexhead::laws::file_law();
    dexhead::laws::sums_law();
    let sums = Sums {
        message: Sha1::new(),
        checksum: Adler::new(),
    };
    let (buffer, Sums { message, checksum }) = write_signed(contents, buffer, sums);
    let mut head = contents.layout.head();
    head.signature = message.finalize();
    let front = adler(&head.signature);
    head.checksum = adler_combine(front, checksum.value(), head.file_size - 32);
    (head, buffer)
}
