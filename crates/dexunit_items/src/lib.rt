//! Tests of what no line of `dexcases_items` shows of items: items that are put where there is just room for them,
//! numbers that no small file has, and numbers without an image.
#![tactic(auto)]

#[cfg(test)]
mod made_files;
#[cfg(test)]
mod remaps;
#[cfg(test)]
mod room;
#[cfg(test)]
mod wide_numbers;
