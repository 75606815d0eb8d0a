//! The laws of the definitions. Each is the contract of a public function with an empty body; a function that
//! needs a law calls it. The definitions that state the laws are in `specs`, one module for each module here.
//!
//! The statements are in `specs/Merge` (unions), `specs/Denotes` (what a file denotes) and `specs/Normal` (what a
//! canonical file denotes), and in one file for each other module.
#![tactic(auto)]

pub mod causes;
pub mod denotes;
pub mod frame;
pub mod growth;
pub mod items;
pub mod leb128;
pub mod merge;
pub mod normal;
pub mod size;
pub mod strip;
pub mod written;
