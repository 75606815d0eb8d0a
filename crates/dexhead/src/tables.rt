//! The tables after the header.

ghost use Rattle.std.specs.Prelude.{◌≡◌};
ghost use Rattle.dexspec.specs.Header.{size_place, row_size};
ghost use Rattle.dexspec.specs.Sections.{TableOf, type_code};
ghost use Rattle.dexhead.specs.Tables.{meant};

/// A table after the header: one of the five pools, or the class definitions.
///
/// Source: "Dalvik Executable format", "File layout".
#[derive(Clone, Copy, Debug, PartialEq, Eq)]
pub enum Table {
    StringIds = 0x0001,
    TypeIds = 0x0002,
    ProtoIds = 0x0003,
    FieldIds = 0x0004,
    MethodIds = 0x0005,
    ClassDefs = 0x0006,
}

// The bytes for the size and the offset of a table in the header, and where they would be for a table of number 0.
const PLACE_SIZE: usize = 8;

const PLACES: usize = 48;

impl Table {
    // The bytes of a row.
    pub(crate) fn row_size(self) -> u32
        ensures { result ≡ row_size (meant self) }
    {
        match self {
            Table::StringIds | Table::TypeIds => 4,
            Table::ProtoIds => 12,
            Table::FieldIds | Table::MethodIds => 8,
            Table::ClassDefs => 32,
        }
    }

    // The number that a map has for it.
    pub(crate) fn code(self) -> u16
        ensures { result ≡ type_code (TableOf (meant self)) }
    {
        self as u16
    }

    // Where the header has the number of rows, and four bytes on the offset of the first.
    pub(crate) fn size_place(self) -> usize
        ensures { result ≡ size_place (meant self) }
    {
        PLACES + PLACE_SIZE * self as usize
    }
}
