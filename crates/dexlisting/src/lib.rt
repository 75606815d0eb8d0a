//! The listing of a program: its classes, what they declare, and the instructions of their methods, as text.
//!
//! Public contracts use the definitions of `specs/Detailed`, `specs/FullListing`, `specs/Laws` and `specs/Listing`, and
//! those of `dexout`.
#![tactic(auto)]

mod debug;
mod full_lines;
mod full_pieces;
mod lines;
mod listing;
mod names;
mod numbers;
mod operands;
mod parts;
mod pieces;
mod read_back;
mod tries;
mod units;
mod values;

pub use dexout::StoreFault;
pub use listing::{Detail, write_listing, write_listing_of};
pub use read_back::full_listing_law;
