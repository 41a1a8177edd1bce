//! An input in pieces, while it is cut. Its bytes are *passed* in order, and then taken as pieces of their own.
ghost use Rattle.std.specs.Prelude.{◌≡◌, ◌-◌, ◌<◌, ◌≤◌, ◌++◌, ℕ, List, [], IfOk, OnOk, true, false, length, take, drop};
ghost use Rattle.std.specs.{VecDeque.deque_len, List.flat_map};
ghost use Rattle.mc_proto.specs.Lines.{Lacks, LacksNext};

use crate::lacking::{ends_with_percent, lacks_next, pieces_lack_next};
use crate::taking::MAX_LINE;
use crate::token::line_end;
use mc_item::NoMemory;
use std::alloc::Global;
use std::collections::VecDeque;
use std::marker::Model;
use std::mem;

/// An input in pieces. Contracts see the bytes that were passed since the last `take`, and the bytes that are coming.
#[derive(Drop)]
pub struct Uncut {
    done: VecDeque<Vec<u8>>,
    piece: Vec<u8>,
    begin: usize,
    at: usize,
    rest: VecDeque<Vec<u8>>,
}

impl Model for Uncut {
    ghost use Rattle.std.specs.Prelude.{◌≤◌, length};
    ghost use Rattle.std.specs.List.{flat_map};
    ghost use Rattle.mc_proto.specs.Uncut.{Passing, passing};

    ghost Value = { Passing };

    ghost view = { λ u. passing (flat_map (λ p. p.items) u.done.items) u.begin u.at u.piece.items (flat_map (λ p. p.items) u.rest.items) };

    ghost invariant = { λ u. (u.begin ≤ u.at) × (u.at ≤ length u.piece.items) };
}

// Whether the pieces have at least `count` bytes.
fn hold(pieces: &VecDeque<Vec<u8>>, count: usize) -> bool
    ensures yes { result ≡ true → count ≤ length (flat_map (λ p. p.items) pieces.now.items) }
    ensures no { result ≡ false → length (flat_map (λ p. p.items) pieces.now.items) < count }
{
    let mut missing = count;
    for piece in pieces.iter() {
        if missing <= piece.len() {
            return true;
        }
        missing -= piece.len();
    }
    missing == 0
}

// A copy of a line's beginning and of its rest in the pieces. It ends in LF, or exceeds what a line can have, or has all pieces.
fn line_on(alloc: Global, begin: &[u8], pieces: &VecDeque<Vec<u8>>) -> Result<Vec<u8>, NoMemory>
    ensures { IfOk result (λ line. (more : List ℕ) × (begin.now ++ flat_map (λ p. p.items) pieces.now.items ≡ line.items ++ more)
        × (Lacks 10 line.items → length line.items ≤ 65536 → more ≡ [])) }
{
    let mut line = Vec::from_slice(alloc, begin)?;
    for piece in pieces.iter() {
        if line.len() > MAX_LINE {
            return Ok(line);
        }
        let end = line_end(piece.as_slice());
        if end < piece.len() {
            line.extend_from_slice(piece.as_slice().split_at(end + 1).0)?;
            return Ok(line);
        }
        line.extend_from_slice(piece.as_slice())?;
    }
    Ok(line)
}

// Takes the first piece, or returns an empty one if none is left.
fn next_of(alloc: Global, pieces: &mut VecDeque<Vec<u8>>) -> Vec<u8>
    ensures all { flat_map (λ p. p.items) pieces.old.items ≡ result.items ++ flat_map (λ p. p.items) pieces.new.items }
    ensures fewer { deque_len pieces.new ≡ deque_len pieces.old - 1 }
{
    match pieces.pop_front() {
        Some(piece) => piece,
        None => Vec::new(alloc),
    }
}

// A piece without its first `begin` bytes. It is copied only if `begin` isn't 0.
fn piece_from(alloc: Global, piece: Vec<u8>, begin: usize) -> Result<Vec<u8>, NoMemory>
    requires { begin ≤ length piece.items }
    ensures { IfOk result (λ v. v.items ≡ drop begin piece.items) }
{
    if begin == 0 {
        return Ok(piece);
    }
    Ok(Vec::from_slice(alloc, piece.as_slice().split_at(begin).1)?)
}

impl Uncut {
    /// Returns an input of which no byte is passed yet.
    pub fn new(alloc: Global, input: VecDeque<Vec<u8>>) -> Uncut
        ensures passed { result.passed ≡ [] }
        ensures coming { result.coming ≡ flat_map (λ p. p.items) input.items }
    {
        let mut rest = input;
        let piece = next_of(alloc, &mut rest);
        Uncut {
            done: VecDeque::new(alloc),
            piece,
            begin: 0,
            at: 0,
            rest,
        }
    }

    /// Returns the coming bytes of the current piece.
    pub fn window(&self) -> &[u8]
        ensures { (more : List ℕ) × (self.now.coming ≡ result.now ++ more) }
    {
        self.piece.as_slice().split_at(self.at).1
    }

    /// Says whether at least `count` bytes are coming.
    pub fn has(&self, count: usize) -> bool
        ensures yes { result ≡ true → count ≤ length self.now.coming }
        ensures no { result ≡ false → length self.now.coming < count }
    {
        let here = self.piece.len() - self.at;
        if count <= here {
            return true;
        }
        hold(&self.rest, count - here)
    }

    /// Returns a copy of the first coming bytes. They have an LF, or exceed what a line can have, or are all that is coming.
    pub fn line(&self, alloc: Global) -> Result<Vec<u8>, NoMemory>
        ensures { IfOk result (λ line. (more : List ℕ) × (self.now.coming ≡ line.items ++ more)
            × (Lacks 10 line.items → length line.items ≤ 65536 → more ≡ [])) }
    {
        line_on(alloc, self.piece.as_slice().split_at(self.at).1, &self.rest)
    }

    /// Says whether no `%` of the coming bytes is directly followed by an `n`.
    pub fn lacks_next(&self) -> bool
        ensures lacks { result ≡ true → LacksNext self.now.coming }
        ensures has { LacksNext self.now.coming → result ≡ true }
    {
        let here = self.piece.as_slice().split_at(self.at).1;
        if !lacks_next(false, here) {
            return false;
        }
        pieces_lack_next(ends_with_percent(false, here), &self.rest)
    }

    /// Passes `count` bytes, which may lie in several pieces.
    pub fn pass(&mut self, alloc: Global, count: usize) -> Result<(), NoMemory>
        requires { count ≤ length self.old.coming }
        ensures passed { OnOk result (self.new.passed ≡ self.old.passed ++ take count self.old.coming) }
        ensures coming { OnOk result (self.new.coming ≡ drop count self.old.coming) }
    {
        let mut left = count;
        while left > self.piece.len() - self.at {
            left -= self.piece.len() - self.at;
            let begin = mem::replace(&mut self.begin, 0);
            self.at = 0;
            let piece = mem::replace(&mut self.piece, next_of(alloc, &mut self.rest));
            self.done.push_back(piece_from(alloc, piece, begin)?)?;
        }
        self.at += left;
        Ok(())
    }

    /// Takes the passed bytes as pieces. A piece before the current one is moved, unless a part of it was taken earlier. The
    /// passed bytes of the current piece are copied.
    pub fn take(&mut self, alloc: Global) -> Result<VecDeque<Vec<u8>>, NoMemory>
        ensures taken { IfOk result (λ v. flat_map (λ p. p.items) v.items ≡ self.old.passed) }
        ensures none { OnOk result (self.new.passed ≡ []) }
        ensures coming { OnOk result (self.new.coming ≡ self.old.coming) }
    {
        let front = self.piece.as_slice().split_at(self.at).0;
        let part = Vec::from_slice(alloc, front.split_at(self.begin).1)?;
        self.done.push_back(part)?;
        self.begin = self.at;
        Ok(mem::replace(&mut self.done, VecDeque::new(alloc)))
    }

    /// Takes the passed bytes and all that are coming, as pieces.
    pub fn take_all(self, alloc: Global) -> Result<VecDeque<Vec<u8>>, NoMemory>
        ensures { IfOk result (λ v. flat_map (λ p. p.items) v.items ≡ self.passed ++ self.coming) }
    {
        let Uncut {
            done,
            piece,
            begin,
            at: _,
            rest,
        } = self;
        let mut pieces = done;
        let mut rest = rest;
        pieces.push_back(piece_from(alloc, piece, begin)?)?;
        pieces.append(&mut rest)?;
        Ok(pieces)
    }
}
