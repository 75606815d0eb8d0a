//! The kinds of section that a map names.

ghost use Rattle.std.specs.Prelude.{◌≡◌};
ghost use Rattle.dexspec.specs.Sections.{type_code};
ghost use Rattle.dexhead.specs.Sections.{section_meant};

use crate::tables::Table;

/// A kind of section.
///
/// Source: "Dalvik Executable format", "Type codes".
#[derive(Clone, Copy, Debug, PartialEq, Eq)]
pub enum Section {
    HeaderItem,
    TableOf(Table),
    MapList,
    TypeLists,
    AnnotationSetRefLists,
    AnnotationSets,
    ClassDataItems,
    CodeItems,
    StringDataItems,
    DebugInfoItems,
    AnnotationItems,
    EncodedArrayItems,
    AnnotationsDirectories,
}

impl Section {
    /// The number that a map has for it.
    pub fn code(self) -> u16
        ensures { result ≡ type_code (section_meant self) }
    {
        match self {
            Section::HeaderItem => 0x0000,
            Section::TableOf(table) => table.code(),
            Section::MapList => 0x1000,
            Section::TypeLists => 0x1001,
            Section::AnnotationSetRefLists => 0x1002,
            Section::AnnotationSets => 0x1003,
            Section::ClassDataItems => 0x2000,
            Section::CodeItems => 0x2001,
            Section::StringDataItems => 0x2002,
            Section::DebugInfoItems => 0x2003,
            Section::AnnotationItems => 0x2004,
            Section::EncodedArrayItems => 0x2005,
            Section::AnnotationsDirectories => 0x2006,
        }
    }
}
