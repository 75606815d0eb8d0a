//! Tests of what no line of data shows: devices that fail, the order and the equality of texts, generic functions at
//! concrete types, and the arguments of the program.
//!
//! The tests have a crate of their own because a crate with tests is proved twice.
#![tactic(auto)]

#[cfg(test)]
mod files;
#[cfg(test)]
mod jobs;
#[cfg(test)]
mod lists;
#[cfg(test)]
mod runs;
#[cfg(test)]
mod scripts;
#[cfg(test)]
mod sentences;
#[cfg(test)]
mod system;
#[cfg(test)]
mod tables;
#[cfg(test)]
mod texts;
#[cfg(test)]
mod words;
#[cfg(test)]
mod written;
