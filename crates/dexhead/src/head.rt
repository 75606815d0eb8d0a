//! A header that is written.

ghost use Rattle.std.specs.Prelude.{◌≡◌, ⊤, length};
ghost use Rattle.dexspec.specs.internal.Writing.{Puts};

use crate::header::{ENDIAN_CONSTANT, HEADER_SIZE};
use dexio::{Encode, Output, encode_all, put_with_len};
use std::alloc::AllocError;

const MAGIC: [u8; 8] = [0x64, 0x65, 0x78, 0x0a, 0x30, 0x33, 0x35, 0x00];

/// How many rows a table has, and the offset of the first; an empty table has offset 0.
#[derive(Clone, Copy, Debug, PartialEq, Eq)]
pub struct Rows {
    /// The number of rows.
    pub size: u32,
    /// The offset of the first row, in bytes from the start of the file.
    pub off: u32,
}

/// The fields of a header of version 035 that differ from file to file. The tables are in the order of
/// [`Table`](crate::Table).
///
/// The two sums may be set after the file's other bytes: see [`set_sums`](crate::set_sums).
///
/// Source: "Dalvik Executable format", "header_item".
#[derive(Clone, Copy, Debug, PartialEq, Eq)]
pub struct Head {
    /// Adler-32 of the file's bytes from 12 on.
    pub checksum: u32,
    /// SHA-1 of the file's bytes from 32 on.
    pub signature: [u8; 20],
    /// The length of the file, in bytes.
    pub file_size: u32,
    /// The offset of the map, in bytes from the start of the file.
    pub map_off: u32,
    /// The rows of each table.
    pub tables: [Rows; 6],
    /// The length of the data, in bytes.
    pub data_size: u32,
    /// The offset of the data, in bytes from the start of the file.
    pub data_off: u32,
}

impl Encode for Rows {
    ghost use Rattle.dexhead.specs.Written.{rows_bytes};

    ghost formed = { λ _. ⊤ };

    ghost bytes = { rows_bytes };

    fn encode<O: Output>(&self, out: &mut O) {
        out.u32(self.size);
        out.u32(self.off);
    }
}

impl Encode for Head {
    ghost use Rattle.dexhead.specs.Written.{head_bytes};

    ghost formed = { λ _. ⊤ };

    ghost bytes = { head_bytes };

    fn encode<O: Output>(&self, out: &mut O) {
        out.bytes(&MAGIC);
        out.u32(self.checksum);
        out.bytes(&self.signature);
        self.encode_fields(out);
    }
}

impl Head {
    ghost use Rattle.dexhead.specs.Written.{field_bytes, head_bytes};

    /// Appends the 112 bytes of the header.
    ///
    /// It fails only if allocation fails, and never if the spare room is at least 112 bytes. After a failure the vector
    /// is unchanged.
    #[tactic(auto, using(crate::proofs::Lengths::length_head))]
    pub fn put(&self, out: &mut Vec<u8>) -> Result<(), AllocError>
        ensures puts { Puts (head_bytes self.now) out.old out.new result }
        ensures len { length (head_bytes self.now) ≡ 112 }
    {
        put_with_len(self, HEADER_SIZE as usize, out)
    }

    // Writes the header after its signature.
    fn encode_fields<O: Output>(&self, out: &mut O)
        ensures { O.gives (field_bytes self.now) out.old out.new }
    {
        out.u32(self.file_size);
        out.u32(HEADER_SIZE);
        out.u32(ENDIAN_CONSTANT);
        out.u32(0);
        out.u32(0);
        out.u32(self.map_off);
        encode_all(&self.tables, out);
        out.u32(self.data_size);
        out.u32(self.data_off);
    }
}
