//! Texts and the names that they may be. A text is a list of 16-bit units, which MUTF-8 spells in bytes:
//! one byte for a unit from 0x0001 to 0x007f, two for 0x0000 and from 0x0080 to 0x07ff, three from 0x0800
//! on. Each unit is spelled by itself, surrogates too, and a surrogate need not have a partner.
//!
//! Of the definitions that its contracts use, read `specs/Units` (the units that bytes spell) and `specs/Faults` (when
//! a text is not read) first.
//!
//! Source: the Android page "Dalvik Executable format", under the headings "MUTF-8 (Modified UTF-8)
//! encoding", "string_data_item", "TypeDescriptor", "ShortyDescriptor" and "MemberName".
#![tactic(auto)]

pub use descriptors::{Kind, descriptor_kind, is_member_name, shorty_letter};
pub use escapes::{escaped, hexadecimal_digit};
pub use keyed::KeyedText;
pub use names::Name;
pub use reading::TextFault;
pub use text_reader::TextReader;
pub use texts::Text;
pub use units::Units;
pub use writing::put_text;

mod descriptors;
mod escapes;
mod keyed;
mod names;
mod order;
mod reading;
mod runs;
mod text_reader;
mod texts;
mod units;
mod writing;
