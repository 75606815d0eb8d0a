//! Sums: `HEX ADLER SHA1`, the Adler-32 checksum and the SHA-1 digest of the bytes.

use dexhead::adler;
use sha1::Sha1;
use std::alloc::{AllocError, Global};

/// Returns the checksum and the digest of bytes.
pub fn reported(alloc: Global, bytes: &[u8]) -> Result<String, AllocError> {
    let checksum = adler(bytes);
    let signature = hex::encode(alloc, Sha1::digest(bytes).as_slice())?;
    format!(in alloc; "{checksum:08x} {signature}")
}
