//! The canonical file of a program.
//!
//! Of the definitions that its contracts use, read `specs/Written` (what is written is the canonical file, and what it
//! denotes) and `specs/Digests` first; the bytes themselves are `dexspec`'s `Canonical`.
//!
//! Source: the Android page "Dalvik Executable format"; the order of the sections and of their contents is this
//! project's rule.
#![tactic(auto)]

mod adler_combine;
mod contents;
mod digest;
mod files;
mod tables;
mod targets;
mod writing;

pub use dexlayout::Layout;
pub use dexout::StoreFault;
pub use digest::{digests, into_digests};
pub use writing::{to_bytes, write_to};
