//! Merges.

ghost use Rattle.std.specs.Prelude.{◌≡◌, ◌⊎◌, ◌≤◌, ◌==◌, length, map, IfOk, IfErr, IfSome, IfNone};
ghost use Rattle.dexkit_c.specs.Calls.{AreReadAs, IsAskedRight, IsMergedOf, caps_in, fan_in};
ghost use Rattle.dexkit_c.specs.Faults.{IsUnreadFile, IsFaultOfFiles, IsFaultSaid, IsUnmergedBy, fault_of_input};

use crate::faults::{Bytes, DONE, Fault, USAGE, put};
use dexclass::Program;
use dexlaws::normal::normal_form;
use dexmerge::{Caps, merge_files};
use dexpool::ReadFault;
use dexruns::{RunFault, fan_plan, kept};
use std::alloc::Global;

// The flag of a merge that is stripped.
const STRIP: u32 = 1;

/// The most that a union may hold.
#[repr(C)]
#[derive(Drop)]
pub struct CapNumbers {
    /// The most types.
    pub types: u32,
    /// The most protos.
    pub protos: u32,
    /// The most fields.
    pub fields: u32,
    /// The most methods.
    pub methods: u32,
    /// The most texts up to that of a `const-string`.
    pub short_strings: u32,
    /// The most weight.
    pub weight: u32,
}

// How files are merged.
#[derive(Drop)]
struct Options {
    caps: Caps,
    fan: Option<usize>,
    is_stripped: bool,
}

// How a number of files is merged, if it is asked for what there is.
fn options_of(count: usize, caps: &CapNumbers, fan: usize, flags: u32) -> Option<Options>
    ensures caps { IfSome result (λ options. options.caps ≡ caps_in caps.now) }
    ensures fan { IfSome result (λ options. options.fan ≡ fan_in fan) }
    ensures strip { IfSome result (λ options. options.is_stripped ≡ (flags == 1)) }
    ensures right { IfSome result (λ _. IsAskedRight count (caps_in caps.now) fan flags) }
    ensures wrong { IfNone result (IsAskedRight count (caps_in caps.now) fan flags → ⊥) }
{
    if count == 0 || fan == 1 || flags > STRIP {
        return None;
    }
    let caps = Caps::new(
        caps.types,
        caps.protos,
        caps.fields,
        caps.methods,
        caps.short_strings,
        caps.weight,
    )?;
    caps.are_caps();
    Some(Options {
        caps,
        fan: if fan == 0 { None } else { Some(fan) },
        is_stripped: flags == STRIP,
    })
}

/// The programs of files, one after the other; the first that is not read ends the call.
pub(crate) fn read_each<'a>(
    alloc: Global,
    files: &[Bytes<'a>],
) -> Result<Vec<Program<'a>>, RunFault>
    ensures read { IfOk result (λ programs.
        AreReadAs (map (λ file. file.bytes.now) files.now) programs.items) }
    ensures fault { IfErr result (IsUnreadFile (map (λ file. file.bytes.now) files.now)) }
{
    let mut programs = Vec::new(alloc);
    for i in 0..files.len() {
        let program = match dexclass::read(alloc, files[i].bytes) {
            Ok(program) => program,
            Err(why) => return Err(fault_of(i, why)),
        };
        programs.push(program)?;
    }
    Ok(programs)
}

// Why a file was not read, as a fault of a run.
fn fault_of(i: usize, why: ReadFault) -> RunFault
    ensures { result ≡ fault_of_input i why }
{
    match why {
        ReadFault::Refused(refusal) => RunFault::Input(i, refusal),
        ReadFault::Memory => RunFault::Memory,
    }
}

// The canonical file of what is kept of the union of files.
fn merged(alloc: Global, files: &[Bytes<'_>], options: &Options) -> Result<Vec<u8>, RunFault>
    requires some { 1 ≤ length files.now }
    requires fan { IfSome options.now.fan (λ fan. 2 ≤ fan) }
    ensures merged { IfOk result (λ out. IsMergedOf options.now.caps options.now.fan
        options.now.is_stripped (map (λ file. file.bytes.now) files.now) out.items) }
    ensures fault { IfErr result (IsFaultOfFiles (IsUnmergedBy options.now.caps options.now.fan
        (map (λ file. file.bytes.now) files.now)) (map (λ file. file.bytes.now) files.now)) }
{
    normal_form();
    let plan = fan_plan(alloc, files.len(), options.fan)?;
    let programs = read_each(alloc, files)?;
    let whole = merge_files(alloc, programs, &plan, &options.caps)?;
    let program = kept(alloc, whole, options.is_stripped)?;
    program.is_good();
    Ok(dexcanon::to_bytes(alloc, &program)?)
}

/// Hands out the canonical file of the union of files, merged as `fan` groups them (0: all at once), or of what is left
/// of the union without debug programs and source texts if `flags` is 1. Returns 0 then; 1 if a file or the union is
/// refused, with why, and with the text of why where there is memory for it; 2 if there is no file, the fan is 1, a cap
/// is above the greatest one, or the flags are above 1; 4 if an allocation failed.
///
/// Source: "Dalvik Executable format"; merging, stripping and the canonical form are this project's rules.
#[unsafe(no_mangle)]
pub extern "C" fn dexkit_c_merge<'a>(
    alloc: Global,
    files: &[Bytes<'_>],
    caps: &CapNumbers,
    fan: usize,
    flags: u32,
    out: &mut Bytes<'a>,
    fault: &mut Fault,
    text: &mut Bytes<'a>,
) -> u32
    ensures merged { result ≡ 0 → IsMergedOf (caps_in caps.now) (fan_in fan) (flags == 1)
        (map (λ file. file.bytes.now) files.now) out.new.bytes.now }
    ensures fault { result ≡ 1 → IsFaultSaid (IsUnmergedBy (caps_in caps.now) (fan_in fan)
        (map (λ file. file.bytes.now) files.now)) (map (λ file. file.bytes.now) files.now) fault.new
        (text.new ≡ text.old) text.new.bytes.now }
    ensures wrong { result ≡ 2 → IsAskedRight (length files.now) (caps_in caps.now) fan flags → ⊥ }
    ensures right { (result ≡ 2) ⊎ IsAskedRight (length files.now) (caps_in caps.now) fan flags }
    ensures no_other { (result ≡ 0) ⊎ ((result ≡ 1) ⊎ ((result ≡ 2) ⊎ (result ≡ 4))) }
    ensures out_left { (result ≡ 0) ⊎ (out.new ≡ out.old) }
    ensures fault_left { (result ≡ 1) ⊎ (fault.new ≡ fault.old) }
    ensures text_left { (result ≡ 1) ⊎ (text.new ≡ text.old) }
{
    let options = match options_of(files.len(), caps, fan, flags) {
        Some(options) => options,
        None => return USAGE,
    };
    match merged(alloc, files, &options) {
        Ok(made) => {
            out.bytes = made.leak();
            DONE
        }
        Err(why) => put(alloc, &why, fault, text),
    }
}
