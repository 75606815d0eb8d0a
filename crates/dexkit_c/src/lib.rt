//! dexkit for C: exports over bytes in memory. `lib/dexkit.c` makes of them the calls that `lib/dexkit.h` declares.
//!
//! Public contracts use the definitions of `specs/Calls` and `specs/Faults`.
//!
//! Each returns a status of the program: 0 if all was done, 1 if a file or a union is refused, 2 if it was asked for
//! what there is not, 4 if an allocation failed. What it hands out is memory of the program's `malloc`, for the caller
//! to free; nothing is handed out unless it returns 0, but for the text of a fault.
#![tactic(auto)]

mod checking;
mod conditions;
mod counting;
mod digesting;
mod faults;
mod merging;
mod one_file;

pub use checking::dexkit_c_check;
pub use conditions::dexkit_c_condition;
pub use counting::{Numbers, dexkit_c_count};
pub use digesting::{ClassDigests, dexkit_c_digests};
pub use faults::{Bytes, Fault};
pub use merging::{CapNumbers, dexkit_c_merge};
pub use one_file::{dexkit_c_dump, dexkit_c_normalise, dexkit_c_repair};
