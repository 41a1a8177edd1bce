//! Pieces of bytes that a reader reads. They are given away or lent, and the values of blocks are made from them.
ghost use Rattle.std.specs.Prelude.{◌≡◌, ◌-◌, ◌≤◌, ℕ, List, IfOk, length, take, drop};

use bytes::Bytes;
use mc_item::{NoMemory, Value};
use std::alloc::Global;

/// A piece of bytes that is read from its front. Contracts see the bytes that aren't read yet.
pub trait Piece: Drop {
    ghost unread: { Self → List ℕ };

    /// Returns the bytes that aren't read yet.
    fn bytes(&self) -> &[u8]
        ensures { result.now ≡ unread self.now };

    /// Makes a value of the unread bytes from `begin` up to `end`.
    fn value_at(&self, alloc: Global, begin: usize, end: usize) -> Result<Value, NoMemory>
        requires begin { begin ≤ end }
        requires within { end ≤ length (unread self.now) }
        ensures { IfOk result (λ value. value ≡ take (end - begin) (drop begin (unread self.now))) };

    /// Marks the first `count` unread bytes as read.
    fn pass(&mut self, count: usize)
        requires { count ≤ length (unread self.old) }
        ensures { unread self.new ≡ drop count (unread self.old) };
}

// A piece that was given away. A value is a part of it, without a copy, and keeps the piece in memory.
impl Piece for Bytes {
    ghost unread = { λ b. b };

    #[inline(always)]
    fn bytes(&self) -> &[u8] {
        self.as_slice()
    }

    #[inline(always)]
    fn value_at(&self, alloc: Global, begin: usize, end: usize) -> Result<Value, NoMemory> {
        Value::of_part(alloc, self.slice(begin..end)?)
    }

    #[inline(always)]
    fn pass(&mut self, count: usize) {
        self.advance(count)
    }
}

// A piece that is lent. A value is a copy.
impl Piece for &[u8] {
    ghost unread = { λ s. s.now };

    #[inline(always)]
    fn bytes(&self) -> &[u8] {
        *self
    }

    #[inline(always)]
    fn value_at(&self, alloc: Global, begin: usize, end: usize) -> Result<Value, NoMemory> {
        let all: &[u8] = *self;
        Value::of(alloc, Vec::from_slice(alloc, &all[begin..end])?)
    }

    #[inline(always)]
    fn pass(&mut self, count: usize) {
        let all: &[u8] = *self;
        *self = &all[count..];
    }
}
