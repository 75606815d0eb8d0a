//! Files cut to each length of a range: `cuts FILE FROM TO MENDED refused NUMBER PLACE`. Each cut file must be refused
//! so. MENDED is `nothing`; or `size` for the length in the header and the two sums; or `data` for the length of the
//! data too.

use crate::check;
use dexcases::{CaseFault, Outcome, first_word, number};
use dexhead::set_sums;
use std::alloc::Global;
use std::ops::RangeInclusive;

/// Which fields of the header of a cut file are set right.
#[derive(Clone, Copy)]
enum Mended {
    /// None.
    Nothing,
    /// The length and the two sums.
    Size,
    /// The length of the data, the length and the two sums.
    Data,
}

impl Mended {
    fn of_word(word: &str) -> Option<Mended> {
        match word {
            "nothing" => Some(Mended::Nothing),
            "size" => Some(Mended::Size),
            "data" => Some(Mended::Data),
            _ => None,
        }
    }

    // Sets these fields right in a file.
    fn mend(self, file: &mut [u8]) {
        if file.len() < 112 {
            return;
        }
        let size = match u32::try_from(file.len()) {
            Ok(size) => size,
            Err(_) => return,
        };
        match self {
            Mended::Nothing => return,
            Mended::Size => {}
            Mended::Data => {
                let data_off = u32::from_le_bytes([file[108], file[109], file[110], file[111]]);
                let data_size = size.saturating_sub(data_off);
                file[104..108].copy_from_slice(&data_size.to_le_bytes());
            }
        }
        file[32..36].copy_from_slice(&size.to_le_bytes());
        set_sums(file);
    }
}

/// Runs a line. `case` is the text after the file's name.
pub fn run(alloc: Global, bytes: &[u8], case: &str) -> Result<Outcome, CaseFault> {
    let (first, rest) = first_word(case)?;
    let (last, rest) = first_word(rest)?;
    let (mended, right) = first_word(rest)?;
    let lens = number(first)?.parse()?..=number(last)?.parse()?;
    let mended = Mended::of_word(mended).ok_or(CaseFault::Form)?;
    if lens.is_empty() {
        return Err(CaseFault::Form);
    }
    run_cuts(alloc, bytes, lens, mended, right)
}

// Cuts a file to each of these lengths, and returns the first outcome that failed.
fn run_cuts(
    alloc: Global,
    bytes: &[u8],
    lens: RangeInclusive<usize>,
    mended: Mended,
    right: &str,
) -> Result<Outcome, CaseFault> {
    for len in lens {
        let front = bytes.get(..len).ok_or(CaseFault::Form)?;
        if let Outcome::Failed(answered) = run_cut(alloc, front, mended, right)? {
            let answered = format!(in alloc; "cut to {len} bytes: {answered}")?;
            return Ok(Outcome::Failed(answered));
        }
    }
    Ok(Outcome::Passed)
}

// Checks a cut file, whose bytes are `front`.
fn run_cut(alloc: Global, front: &[u8], mended: Mended, right: &str) -> Result<Outcome, CaseFault> {
    let mut cut = Vec::from_slice(alloc, front)?;
    mended.mend(&mut cut);
    check::run(alloc, &cut, right)
}
