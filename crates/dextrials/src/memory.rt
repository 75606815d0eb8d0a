//! Calls that run out of memory.

mod calls;
mod hoard;
mod trial;
mod tries;

pub use tries::{Rounds, try_calls};
