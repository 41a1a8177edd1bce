//! The bytes of a short key, which are kept within the key.
ghost use Rattle.std.specs.Prelude.{◌≡◌, ◌≤◌, ◌↔◌, IsTrue, length, take, drop};
ghost use Rattle.std.specs.Int.{to_le_bytes, w64};

use std::fmt::{self, Debug, Formatter, Write};
use std::marker::Model;

/// The most bytes that are kept within a key.
pub(crate) const SHORT_LEN: usize = 30;

/// At most 30 bytes. They take no memory of their own. Contracts see them as a list.
#[derive(Drop)]
pub(crate) struct ShortBytes {
    count: u8,
    bytes: [u8; 30],
}

impl Model for ShortBytes {
    ghost use Rattle.std.specs.Prelude.{List, ℕ, ◌≤◌, take};

    ghost Value = { List ℕ };

    ghost view = { λ s. take s.count s.bytes };

    ghost invariant = { λ s. s.count ≤ 30 };
}

// Eight of the bytes from a place on, as one little-endian number.
#[inline(always)]
fn word_at(bytes: &[u8; 30], at: usize) -> u64
    requires { at ≤ 22 }
    ensures { to_le_bytes w64 result ≡ take 8 (drop at bytes.now) }
{
    let mut word = [0; 8];
    word.copy_from_slice(&bytes[at..at + 8]);
    u64::from_le_bytes(word)
}

// Compares eight bytes at a time. The last two words overlap.
#[inline(always)]
fn are_same(bytes: &[u8; 30], others: &[u8; 30]) -> bool
    ensures { IsTrue result ↔ (bytes.now ≡ others.now) }
{
    if word_at(bytes, 0) != word_at(others, 0) {
        return false;
    }
    if word_at(bytes, 8) != word_at(others, 8) {
        return false;
    }
    if word_at(bytes, 16) != word_at(others, 16) {
        return false;
    }
    word_at(bytes, 22) == word_at(others, 22)
}

impl ShortBytes {
    /// Makes the list of these bytes, at most 30.
    #[inline(always)]
    pub(crate) fn of(bytes: &[u8]) -> ShortBytes
        requires { length bytes.now ≤ 30 }
        ensures { result ≡ bytes.now }
    {
        let mut table = [0; 30];
        // The first byte is written by itself, so that the compiler clears the whole table and calls no function for the rest.
        if let Some(first) = bytes.first() {
            table[0] = *first;
        }
        table[..bytes.len()].copy_from_slice(bytes);
        ShortBytes {
            count: bytes.len() as u8,
            bytes: table,
        }
    }

    /// Returns a copy of the bytes.
    #[inline(always)]
    pub(crate) fn copy(&self) -> ShortBytes
        ensures { result ≡ self.now }
    {
        ShortBytes {
            count: self.count,
            bytes: self.bytes,
        }
    }

    /// Returns whether the bytes are the same. Mostly they are, and the zeros after them too, so both tables are compared first.
    #[inline(always)]
    pub(crate) fn equals(&self, other: &ShortBytes) -> bool
        ensures { IsTrue result ↔ (self.now ≡ other.now) }
    {
        if self.count == other.count {
            if are_same(&self.bytes, &other.bytes) {
                return true;
            }
        }
        self.as_slice() == other.as_slice()
    }

    /// Returns the bytes, at most 30.
    #[inline(always)]
    pub(crate) fn as_slice(&self) -> &[u8]
        ensures value { result.now ≡ self.now }
        ensures few { length self.now ≤ 30 }
    {
        &self.bytes[..self.count as usize]
    }
}

impl Debug for ShortBytes {
    fn fmt<W: Write>(&self, f: &mut Formatter<W>) -> Result<(), fmt::Error> {
        self.as_slice().fmt(f)
    }
}
