//! The two sums of a file that is written.

ghost use Rattle.std.specs.Prelude.{◌≡◌, ◌++◌, ◌≤◌, length, take, drop};
ghost use Rattle.dexspec.specs.Bytes.{uint};
ghost use Rattle.dexspec.specs.Header.{adler_32};
ghost use Rattle.dexhead.specs.Sums.{signed, with_sums_set};

use crate::whole::adler;
use sha1::Sha1;

/// Sets the two sums in the header of a file whose other bytes are there: first the signature, SHA-1 of
/// the bytes from 32 on, and then the checksum, Adler-32 of the bytes from 12 on.
///
/// Condition: the file has 32 bytes or more. Source: "Dalvik Executable format", "header_item".
pub fn set_sums(file: &mut [u8])
    requires { 32 ≤ length file.old }
    ensures { file.new ≡ with_sums_set file.old }
{
    let signature = Sha1::digest(&file[32..]);
    file[12..32].copy_from_slice(&signature);
    let checksum = adler(&file[12..]);
    file[8..12].copy_from_slice(&checksum.to_le_bytes());
}
