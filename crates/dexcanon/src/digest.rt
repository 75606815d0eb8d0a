//! The digest of each class of a program: the signature of the canonical file of the class alone.

ghost use Rattle.std.specs.Prelude.{◌≡◌, ◌<◌, ◌≤◌, ◌++◌, length, map, reverse, take, drop, IfOk, OnOk};
ghost use Rattle.std.specs.List.{Contains};
ghost use Rattle.dexspec.specs.Classes.{Definition};
ghost use Rattle.dexspec.specs.Files.{definitions};
ghost use Rattle.dexspec.specs.Canonical.{canonical};
ghost use Rattle.dexcanon.specs.Digests.{class_digest, IsFileAlone, class_digests, EqualByFiles, EqualByDigests};

use crate::contents::Contents;
use crate::files::write_signed;
use crate::targets::Message;
use crate::writing::PIECE;
use dexclass::{Part, Program};
use dexlayout::Layout;
use sha1::Sha1;
use std::alloc::{AllocError, Global};

// How many parts a part is split into at least. With more of them a class is renumbered fewer times, and the tables of a
// part are read more often.
const WAYS: usize = 8;

/// The digest of each class, in the order of [`Program::classes`]: the signature of the canonical file of the class
/// alone. This file is accepted, and denotes the class alone. Equal definitions have equal digests in whatever program
/// they are. Different ones have different files, and their digests differ too unless these files are a collision of
/// SHA-1.
///
/// The classes are split into parts, these into parts again, and so on, each over the numbering of just what its
/// classes mention: no class costs tables as long as the program's.
///
/// Source: "header_item", the field `signature`; the digest is this project's rule.
#[tactic(auto, using(crate::proofs::Digested::one_file, crate::proofs::Digested::equal_digests))]
pub fn digests(alloc: Global, program: &Program<'_>) -> Result<Vec<[u8; 20]>, AllocError>
    ensures digests { IfOk result (λ digests. digests.items ≡ class_digests program.now) }
    ensures files { (d : Definition) → Contains (definitions program.now) d → IsFileAlone d }
    ensures one { EqualByFiles }
    ensures apart { EqualByDigests }
{
    dexlaws::normal::normal_form();
    program.is_good();
    digests_of(alloc, Part::of(program)?)
}

/// What [`digests`] returns of a program that is given up: its classes are moved, and not copied.
///
/// Source: as of [`digests`].
pub fn into_digests(alloc: Global, program: Program<'_>) -> Result<Vec<[u8; 20]>, AllocError>
    ensures { IfOk result (λ digests. digests.items ≡ class_digests program.entry) }
{
    digests_of(alloc, program.into_part())
}

// The digest of each class of a part.
fn digests_of(alloc: Global, part: Part<'_>) -> Result<Vec<[u8; 20]>, AllocError>
    ensures { IfOk result (λ digests. digests.items ≡ map class_digest part.entry) }
{
    let mut digests = Vec::with_capacity(alloc, part.len())?;
    put_digests(alloc, part, &mut digests)?;
    digests.reverse();
    Ok(digests)
}

// How many classes each part of a part has. Where the classes weigh much more than the tables, the parts are many: one for
// each class where the classes are few for what they weigh.
fn part_size(part: &Part<'_>) -> usize
    requires { 2 ≤ length part.now }
    ensures some { 0 < result }
    ensures fewer { result < length part.now }
{
    let count = part.len();
    let density = part.density() as usize;
    if count / 4 <= density {
        return 1;
    }
    ((count - 1) / WAYS.max(density) + 1).min(count - 1)
}

// Appends the digest of each class of a part, from the last to the first.
fn put_digests(alloc: Global, part: Part<'_>, digests: &mut Vec<[u8; 20]>) -> Result<(), AllocError>
    ensures { OnOk result (digests.new.items
        ≡ digests.old.items ++ reverse (map class_digest part.entry)) }
{
    let count = part.len();
    if count == 0 {
        return Ok(());
    }
    if count == 1 {
        let program = part.into_program(alloc)?;
        digests.push(signature(alloc, &program)?)?;
        return Ok(());
    }
    let size = part_size(&part);
    let mut parts = part.into_parts();
    while parts.len() > 0 {
        let last = parts.split_off(alloc, parts.len().saturating_sub(size))?;
        put_digests(alloc, last, digests)?;
    }
    Ok(())
}

// The signature of the canonical file of a program.
fn signature(alloc: Global, program: &Program<'_>) -> Result<[u8; 20], AllocError>
    ensures { IfOk result (λ signature. signature ≡ take 20 (drop 12 (canonical program.now))) }
{
    dexhead::laws::file_law();
    dexhead::laws::sums_law();
    let layout = Layout::of(alloc, program)?;
    let contents = Contents::of(program, &layout);
    let buffer = Vec::with_capacity(alloc, PIECE)?;
    let message = Message { hash: Sha1::new() };
    let (_buffer, Message { hash }) = write_signed(&contents, buffer, message);
    Ok(hash.finalize())
}
