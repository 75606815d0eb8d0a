//! Draws merges: files, a plan and caps.

use crate::merging::{cause_of, parts_of};
use crate::needs::{CAPS, caps_of, needed, with_cap};
use crate::plans::{DrawnPlan, draw_plan};
use dexclass::Program;
use dexmerge::{Caps, MergeFault, merge};
use rand::RngExt;
use rand::seq::{IndexedRandom, SliceRandom};
use rand_pcg::Pcg32;
use std::alloc::{AllocError, Global};

/// The most files of a merge.
const MOST_FILES: usize = 20;

// The stream of the generators.
const STREAM: u64 = 54;

/// What is known of a merge before it is tried under its caps.
#[derive(Drop)]
pub enum Known {
    /// Nothing.
    Nothing,
    /// The files merge under these caps.
    Merges,
    /// Only this cap is exceeded.
    Exceeds(u8),
    /// The merge is refused for this cause under all caps.
    Refused(MergeFault),
}

/// A drawn merge.
#[derive(Drop)]
pub struct Drawn {
    /// The numbers of the files among the files to draw from. Some numbers occur twice.
    pub files: Vec<usize>,
    /// The same numbers in another order.
    pub reordered: Vec<usize>,
    pub plan: DrawnPlan,
    pub caps: Caps,
    pub known: Known,
}

// Draws the number of a file: often one near the last number, or one of the numbers drawn before.
fn draw_file(rng: &mut Pcg32, files: &[usize], count: usize) -> usize {
    if count == 0 {
        return 0;
    }
    match files.last() {
        Some(_) if rng.random_ratio(1, 6) => files.choose(rng).map_or(0, |file| *file),
        Some(last) if rng.random_ratio(1, 2) => {
            last.saturating_add(rng.random_range(0..8)) % count
        }
        _ => rng.random_range(0..count),
    }
}

/// Which drawn files are left out.
#[derive(Clone, Copy)]
enum LeftOut {
    /// None.
    None,
    /// Files with a class that differs from a class of the same name before.
    Conflicts,
    /// Files that cannot be merged with the files before.
    Unmerged,
}

impl LeftOut {
    fn draw(rng: &mut Pcg32) -> LeftOut {
        match rng.random_range(0..8) {
            0 => LeftOut::None,
            1 | 2 => LeftOut::Conflicts,
            _ => LeftOut::Unmerged,
        }
    }

    // Returns whether files are kept that cannot be merged for this cause.
    fn keeps(self, cause: &MergeFault) -> bool {
        match self {
            LeftOut::None => true,
            LeftOut::Conflicts => !matches!(cause, MergeFault::Conflict(_)),
            LeftOut::Unmerged => false,
        }
    }
}

// Returns whether these files, of which the last is new, are kept.
fn are_kept(
    alloc: Global,
    left_out: LeftOut,
    programs: &[&Program<'_>],
    files: &[usize],
) -> Result<bool, AllocError> {
    let parts = parts_of(alloc, programs, files)?;
    match cause_of(alloc, &parts, &Caps::greatest()) {
        None => Ok(true),
        Some(MergeFault::Memory) => Err(AllocError),
        Some(cause) => Ok(left_out.keeps(&cause)),
    }
}

// Draws the numbers of files.
fn draw_files(
    alloc: Global,
    rng: &mut Pcg32,
    programs: &[&Program<'_>],
) -> Result<Vec<usize>, AllocError> {
    let count = rng.random_range(0..=MOST_FILES);
    let left_out = LeftOut::draw(rng);
    let mut files = Vec::new(alloc);
    for _ in 0..count.saturating_mul(2) {
        if files.len() >= count {
            break;
        }
        files.push(draw_file(rng, &files, programs.len()))?;
        if !are_kept(alloc, left_out, programs, &files)? {
            files.pop();
        }
    }
    Ok(files)
}

// Returns the files in another order.
fn shuffled(alloc: Global, rng: &mut Pcg32, files: &[usize]) -> Result<Vec<usize>, AllocError> {
    let mut shuffled = Vec::from_slice(alloc, files)?;
    shuffled.as_mut_slice().shuffle(rng);
    Ok(shuffled)
}

// Draws caps at and around the numbers that the files need, and returns what is then known of the merge.
fn draw_caps(rng: &mut Pcg32, needed: [u32; CAPS]) -> (Caps, Known) {
    let place: usize = rng.random_range(0..CAPS);
    let need = needed.get(place).map_or(0, |need| *need);
    match rng.random_range(0..6) {
        0 => (Caps::greatest(), Known::Merges),
        1 => (caps_of(needed), Known::Merges),
        2 => (caps_of(with_cap(place, need)), Known::Merges),
        3 if need > 0 => {
            let mut numbers = needed;
            if let Some(cap) = numbers.get_mut(place) {
                *cap = need - 1;
            }
            (caps_of(numbers), Known::Exceeds(place as u8 + 1))
        }
        4 => {
            let mut around = needed;
            for cap in &mut around {
                let more: u32 = rng.random_range(0..4);
                *cap = cap.saturating_add(more).saturating_sub(1);
            }
            (caps_of(around), Known::Nothing)
        }
        _ => {
            let mut below = needed;
            for cap in &mut below {
                *cap = rng.random_range(0..=*cap);
            }
            (caps_of(below), Known::Nothing)
        }
    }
}

// Draws caps for files that cannot be merged.
fn draw_small_caps(rng: &mut Pcg32) -> Caps {
    if rng.random_ratio(1, 2) {
        return Caps::greatest();
    }
    let mut small = [0; CAPS];
    for cap in &mut small {
        *cap = rng.random_range(0..40);
    }
    caps_of(small)
}

// Draws caps for files, and returns what is then known of the merge.
fn draw_limits(
    alloc: Global,
    rng: &mut Pcg32,
    programs: &[&Program<'_>],
    files: &[usize],
) -> Result<(Caps, Known), AllocError> {
    let parts = parts_of(alloc, programs, files)?;
    match merge(alloc, &parts, &Caps::greatest()) {
        Ok(program) => Ok(draw_caps(rng, needed(alloc, &parts, &program)?)),
        Err(MergeFault::Memory) => Err(AllocError),
        Err(cause) => Ok((draw_small_caps(rng), Known::Refused(cause))),
    }
}

/// Draws the merge of this number.
pub fn draw(alloc: Global, number: u64, programs: &[&Program<'_>]) -> Result<Drawn, AllocError> {
    let mut rng = Pcg32::new(number, STREAM);
    let files = draw_files(alloc, &mut rng, programs)?;
    let reordered = shuffled(alloc, &mut rng, &files)?;
    let plan = draw_plan(alloc, &mut rng, files.len())?;
    let (caps, known) = draw_limits(alloc, &mut rng, programs, &files)?;
    Ok(Drawn {
        files,
        reordered,
        plan,
        caps,
        known,
    })
}
