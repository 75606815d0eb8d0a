//! The conditions that a file has to meet, by name and number.

ghost use Rattle.std.specs.Prelude.{◌≡◌, ◌⊎◌, ◌<◌, IfSome, IfNone};
ghost use Rattle.dexspec.specs.Accepted as accepted;
ghost use Rattle.dexhead.specs.Conditions.{condition_meant, condition_name};

use std::fmt;

/// A condition that a file has to meet to be accepted.
///
/// Source: this project's rule; what each condition says is the definition of its name.
#[derive(Clone, Copy, Debug, PartialEq, Eq)]
pub enum Condition {
    /// The input has 112 to 2^30 bytes.
    Size = 1,
    /// It begins as a DEX file, with three digits.
    Magic = 2,
    /// The digits are 035.
    Version = 3,
    /// `file_size` and `header_size` are right.
    Lengths = 4,
    /// `endian_tag` is that of little-endian numbers.
    Endian = 5,
    /// There is no link data.
    Link = 6,
    /// `checksum` is right.
    Checksum = 7,
    /// `signature` is right.
    Signature = 8,
    /// The pools and the data are in order, and within the limits of their sizes.
    Layout = 9,
    /// The map_list agrees with the header.
    Map = 10,
    /// The rows of string_ids.
    Strings = 11,
    /// The rows of type_ids.
    Types = 12,
    /// The rows of proto_ids.
    Protos = 13,
    /// The rows of field_ids.
    Fields = 14,
    /// The rows of method_ids.
    Methods = 15,
    /// The rows of class_defs.
    Classes = 16,
    /// The class_data_item of a class.
    Members = 17,
    /// The fixed parts and the units of its code_items.
    Code = 18,
    /// Their tries and handlers.
    Tries = 19,
    /// Their debug_info_items.
    Debug = 20,
    /// The static values of a class.
    Values = 21,
    /// The annotations of a class.
    Annotations = 22,
    /// The weight of all classes together.
    Weight = 23,
}

impl Condition {
    /// The number of the condition, from 1 to 23.
    pub fn number(self) -> u8
        ensures { result ≡ accepted.number (condition_meant self) }
    {
        self as u8
    }

    /// The condition with a number, or `None` if none has it.
    pub fn of(number: u8) -> Option<Condition>
        ensures some { IfSome result (λ condition. accepted.number (condition_meant condition)
            ≡ number) }
        ensures none { IfNone result ((number ≡ 0) ⊎ (23 < number)) }
    {
        match number {
            1 => Some(Condition::Size),
            2 => Some(Condition::Magic),
            3 => Some(Condition::Version),
            4 => Some(Condition::Lengths),
            5 => Some(Condition::Endian),
            6 => Some(Condition::Link),
            7 => Some(Condition::Checksum),
            8 => Some(Condition::Signature),
            9 => Some(Condition::Layout),
            10 => Some(Condition::Map),
            11 => Some(Condition::Strings),
            12 => Some(Condition::Types),
            13 => Some(Condition::Protos),
            14 => Some(Condition::Fields),
            15 => Some(Condition::Methods),
            16 => Some(Condition::Classes),
            17 => Some(Condition::Members),
            18 => Some(Condition::Code),
            19 => Some(Condition::Tries),
            20 => Some(Condition::Debug),
            21 => Some(Condition::Values),
            22 => Some(Condition::Annotations),
            23 => Some(Condition::Weight),
            _ => None,
        }
    }

    /// The name of the condition, as refusals print it.
    pub fn name(self) -> &'static str
        ensures { result.now ≡ condition_name (condition_meant self) }
    {
        match self {
            Condition::Size => "Size",
            Condition::Magic => "Magic",
            Condition::Version => "Version",
            Condition::Lengths => "Lengths",
            Condition::Endian => "Endian",
            Condition::Link => "Link",
            Condition::Checksum => "Checksum",
            Condition::Signature => "Signature",
            Condition::Layout => "Layout",
            Condition::Map => "Map",
            Condition::Strings => "Strings",
            Condition::Types => "Types",
            Condition::Protos => "Protos",
            Condition::Fields => "Fields",
            Condition::Methods => "Methods",
            Condition::Classes => "Classes",
            Condition::Members => "Members",
            Condition::Code => "Code",
            Condition::Tries => "Tries",
            Condition::Debug => "Debug",
            Condition::Values => "Values",
            Condition::Annotations => "Annotations",
            Condition::Weight => "Weight",
        }
    }
}

impl fmt::Display for Condition {
    fn fmt<W: fmt::Write>(&self, f: &mut fmt::Formatter<W>) -> fmt::Result {
        f.write_str(self.name())
    }
}
