//! Instructions and payloads: 16-bit code units cut into pieces.
//!
//! Sources: the Android pages "Dalvik bytecode" and "Dalvik executable instruction formats".
//!
//! Of the definitions that its contracts use, read `specs/Numbered` (pieces with numbers for symbols, and what they
//! denote), `specs/Split` (why units are no code) and `specs/Reading` first.
#![tactic(auto)]

pub use checking::check_pieces;
pub use code::{Cut, split};
pub use code_fault::CodeFault;
pub use format::Format;
pub use laws::{
    cut_places_law, images_law, joined_places_law, marks_law, renumber_law, short_strings_law,
    units_law, uses_law,
};
pub use listing::{Piece, PieceIter, PieceKind};
pub use opcodes::{index_kind, mnemonic};
pub use payload::PayloadKind;
pub use pieces::Pieces;
pub use put::put_pieces;
pub use reading::{build_pieces, read_pieces};
pub use scratch::{InstructionStarts, Scratch};
pub use shape::PiecesShape;
pub use symbol_indices::renumber;

mod checking;
mod code;
mod code_fault;
mod code_units;
mod format;
mod instruction;
mod laws;
mod listing;
mod long_switches;
mod opcodes;
mod payload;
mod piece_step;
mod pieces;
mod put;
mod reading;
mod same;
mod scratch;
mod shape;
mod start_bits;
mod symbol_indices;
mod target_group;
mod target_groups;
mod unit;
