//! A map that is written.

ghost use Rattle.std.specs.Prelude.{◌≡◌, ◌+◌, ◌*◌, ◌^◌, ◌<◌, ⊤, length};
ghost use Rattle.dexspec.specs.Canonical.{map_entry_bytes};
ghost use Rattle.dexspec.specs.internal.Writing.{Puts};

use crate::sections::Section;
use dexio::{Encode, Output, encode_all, put_with_len};
use std::alloc::AllocError;

/// An entry of a map: a kind of section, the number of its items, and the offset of the first.
///
/// Source: "Dalvik Executable format", "map_item".
#[derive(Clone, Copy, Debug, PartialEq, Eq)]
pub struct MapEntry {
    /// The kind of section.
    pub section: Section,
    /// The number of items.
    pub size: u32,
    /// The offset of the first item, in bytes from the start of the file.
    pub off: u32,
}

/// The entries of a map, of which there are less than 2^32.
///
/// Source: "Dalvik Executable format", "map_list".
#[derive(Drop)]
pub struct MapList<'a> {
    /// The entries, in the order in which they are written.
    pub entries: &'a [MapEntry],
    ghost few: { length entries.now < 2 ^ 32 },
}

impl Encode for MapEntry {
    ghost use Rattle.dexhead.specs.Written.{entry_meant};

    ghost formed = { λ _. ⊤ };

    ghost bytes = { λ e. map_entry_bytes (entry_meant e) };

    fn encode<O: Output>(&self, out: &mut O) {
        out.u16(self.section.code());
        out.u16(0);
        out.u32(self.size);
        out.u32(self.off);
    }
}

impl Encode for MapList<'_> {
    ghost use Rattle.dexhead.specs.Written.{map_list_bytes};

    ghost formed = { λ _. ⊤ };

    ghost bytes = { λ m. map_list_bytes m.entries.now };

    fn encode<O: Output>(&self, out: &mut O) {
        out.u32(self.entries.len() as u32);
        encode_all(self.entries, out);
    }
}

impl MapList<'_> {
    ghost use Rattle.dexhead.specs.Written.{map_list_bytes};

    /// Appends the map, 4 bytes and 12 for each entry.
    ///
    /// It fails only if allocation fails, and never if the spare room is as many bytes. After a failure the vector is
    /// unchanged.
    #[tactic(auto, using(crate::proofs::Lengths::length_map))]
    pub fn put(&self, out: &mut Vec<u8>) -> Result<(), AllocError>
        ensures puts { Puts (map_list_bytes self.now.entries.now) out.old out.new result }
        ensures len { length (map_list_bytes self.now.entries.now)
            ≡ 4 + 12 * length self.now.entries.now }
    {
        put_with_len(self, 4 + 12 * self.entries.len(), out)
    }
}
