//! Code with its tries and handlers. The debug programs that it has are those of `dexdebug`.
//!
//! Of the definitions that its contracts use, read `specs/Numbered` (tries with numbers for types), `specs/Meaning`
//! (what numbered code denotes) and `specs/Reading` (when code is refused) first.
//!
//! Source: the Android page "Dalvik Executable format", under the headings "code_item", "try_item",
//! "encoded_catch_handler_list", "encoded_catch_handler" and "encoded_type_addr_pair".
#![tactic(auto)]

pub use borrowed_code::BorrowedCode;
pub use code::Code;
pub use code_checking::{CodeShape, check_code, check_code_once};
pub use code_laws::{
    code_bytes_law, code_cut_law, code_images_law, code_joined_law, code_kept_law,
    code_meaning_law, code_places_law, code_remapped_law, code_renumber_law, code_types_law,
    code_uses_law, code_weight_law, debug_places_law,
};
pub use code_numbers::renumber;
pub use code_put::{CodeItem, put_code};
pub use code_reading::{read_code, read_code_in, read_without_debug};
pub use dexdebug::{
    CheckedDebugs, Debug, DebugShape, NameIter, Operation, OperationIter, build_debug, check_debug,
    debug_bytes_law, debug_equality_law, debug_meaning_law, debug_remapped_law, debug_renumber_law,
    debug_unindexed_law, debug_uses_law, operation_equality_law, positions, put_debug, read_debug,
};
pub use handlers::{Catch, Handler};
pub use tries::{Tries, Try};

mod borrowed_code;
mod code;
mod code_checking;
mod code_laws;
mod code_len;
mod code_numbers;
mod code_put;
mod code_reading;
mod extras;
mod handlers;
mod named_handlers;
mod sharing;
mod stored_tries;
mod tries;
mod tries_numbers;
mod tries_reader;
mod tries_same;
