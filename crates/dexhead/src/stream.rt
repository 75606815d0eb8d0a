//! Adler-32 of bytes that come in pieces.

ghost use Rattle.std.specs.Prelude.{◌≡◌, ℕ, ◌<◌, ◌≤◌, length};
ghost use Rattle.dexspec.specs.Header.{adler_sums, adler_number};

use std::marker::Model;

// the greatest prime below 2^16
const MODULUS: u32 = 65521;

// This number of bytes adds less than 2^32 to sums below the modulus: the sums are reduced once, after them.
const PART: usize = 3900;

/// The Adler-32 of bytes that come in pieces, however they are cut. Contracts see its two sums: 1 and 0 at the start,
/// the second above the first in the number.
///
/// Source: "Dalvik Executable format", "header_item", the field `checksum`.
#[derive(Drop)]
pub struct Adler {
    first: u32,
    second: u32,
}

impl Model for Adler {
    ghost Value = { ℕ × ℕ };

    ghost view = { λ s. (s.first, s.second) };

    ghost invariant = { λ s. (s.first < 65521) × (s.second < 65521) };
}

impl Adler {
    /// Of no bytes.
    pub fn new() -> Self
        ensures { result ≡ (1, 0) }
    {
        Adler {
            first: 1,
            second: 0,
        }
    }

    /// Goes on with more bytes after those so far.
    pub fn update(&mut self, bytes: &[u8])
        ensures { self.new ≡ adler_sums self.old bytes.now }
    {
        let mut rest = bytes;
        'parts: while rest.len() > PART {
            let (prefix, back) = rest.split_at(PART);
            self.add(prefix);
            rest = back;
        }
        self.add(rest);
    }

    // Goes on with at most `PART` bytes, so that the sums are reduced once, at the end.
    fn add(&mut self, part: &[u8])
        requires { length part.now ≤ 3900 }
        ensures { self.new ≡ adler_sums self.old part.now }
    {
        let mut first = self.first;
        let mut second = self.second;
        for byte in part {
            first += *byte as u32;
            second += first;
        }
        self.first = first % MODULUS;
        self.second = second % MODULUS;
    }

    /// The Adler-32 of all the bytes so far.
    pub fn value(&self) -> u32
        ensures { result ≡ adler_number self.now }
    {
        self.second * 65536 + self.first
    }
}
