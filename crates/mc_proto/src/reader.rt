//! Reads requests from pieces of bytes that may be cut anywhere.
ghost use Rattle.std.specs.Prelude.{◌≡◌, ◌++◌, [], ◌<◌, ℕ, List, All, IfOk, OnOk, OnErr, IsErr, IsOk};
ghost use Rattle.mc_proto.specs.{Grammar.IsModerate, Grammar.Reads, Grammar.closed, Reader.After, Reader.IsSoundReader, Reader.rest_name};
ghost use Rattle.mc_proto.specs.declared.{request.Request.Request, state.State.State, state.State.TheVariants.Line, state.State.TheVariants.Failed};
ghost use Rattle.mc_proto.specs.declared.{state.State.TheVariants.Closed};

use crate::piece::Piece;
use crate::request::{Limits, Request, Rest};
use crate::state::State;
use crate::taking::take_part;
use bytes::{Bytes, BytesMut};
use mc_item::NoMemory;
use std::alloc::Global;
use std::marker::Model;

// For how many requests room is made at once: one for each 32 bytes of a piece, at most 2,048.
fn room_for(bytes: usize) -> usize {
    (bytes / 32).min(2048)
}

// Reads a whole piece, and returns the requests that it completes.
fn read_piece<P: Piece>(
    alloc: Global,
    limits: Limits,
    state: &mut State,
    line: &mut BytesMut,
    piece: P,
) -> Result<Vec<Request>, NoMemory>
    requires sound { IsSoundReader state.old line.old.items }
    ensures sound { OnOk result (IsSoundReader state.new line.new.items) }
    ensures moderate { IfOk result (λ v. All (IsModerate limits) v.items) }
    ensures reads { IfOk result (λ v. (stream : List ℕ) (requests : List Request) → After limits state.old line.old.items stream requests
        → After limits state.new line.new.items (stream ++ P.unread piece) (requests ++ v.items)) }
{
    let mut requests = Vec::with_capacity(alloc, room_for(piece.bytes().len()))?;
    let mut rest = piece;
    while !rest.bytes().is_empty() {
        let taken = take_part(alloc, limits, state, line, &mut requests, &rest)?;
        rest.pass(taken);
    }
    Ok(requests)
}

/// Reads requests from a stream of bytes that comes in pieces, cut anywhere. It keeps the bytes of at most one unfinished line or
/// block. Of a block that no slab class can hold it keeps only a count, and after a line that was too long nothing. Contracts see
/// its limits, its state and the bytes of an unfinished line.
#[derive(Drop)]
pub struct Reader {
    alloc: Global,
    limits: Limits,
    line: BytesMut,
    state: State,
}

impl Model for Reader {
    ghost use Rattle.mc_proto.specs.Reader.{Kept, kept, IsSoundReader};

    ghost Value = { Kept };

    ghost view = { λ r. kept r.limits r.state r.line.items };

    ghost invariant = { λ r. IsSoundReader r.state r.line.items };
}

impl Reader {
    /// Returns a reader that has read nothing.
    pub fn new(alloc: Global, limits: Limits) -> Reader
        ensures limits { result.limits ≡ limits }
        ensures start { After limits result.state result.unread [] [] }
    {
        Reader {
            alloc,
            limits,
            line: BytesMut::new(alloc),
            state: State::Line,
        }
    }

    // Reads a piece that was given away or lent.
    fn read<P: Piece>(&mut self, piece: P) -> Result<Vec<Request>, NoMemory>
        ensures limits { self.new.limits ≡ self.old.limits }
        ensures reads { IfOk result (λ v. (stream : List ℕ) (requests : List Request) → After self.old.limits self.old.state self.old.unread stream requests
            → After self.new.limits self.new.state self.new.unread (stream ++ P.unread piece) (requests ++ v.items)) }
        ensures closed { self.old.state ≡ Closed → (IfOk result (λ v. v.items ≡ []) × (self.new ≡ self.old) × IsOk result) }
        ensures moderate { IfOk result (λ v. All (IsModerate self.old.limits) v.items) }
        ensures err { OnErr result (self.new.state ≡ Failed) }
        ensures failed { self.old.state ≡ Failed → IsErr result }
    {
        match &self.state {
            State::Failed => {
                return Err(NoMemory);
            }
            State::Closed => {
                return Ok(Vec::new(self.alloc));
            }
            State::Line | State::Block(_, _) | State::Skip(_, _) => {}
        }
        match read_piece(
            self.alloc,
            self.limits,
            &mut self.state,
            &mut self.line,
            piece,
        ) {
            Ok(requests) => Ok(requests),
            Err(fault) => {
                self.state = State::Failed;
                Err(fault)
            }
        }
    }

    /// Reads the next bytes of the stream, and returns the requests that they complete. After 65,537 bytes of a line without an
    /// LF the reader is closed: it returns no more requests.
    /// *Errors*: `NoMemory` if memory is refused. Then each later call returns `NoMemory` too.
    /// An unfinished line or block and values are copied. Call `take` for a piece that you can give away.
    pub fn feed(&mut self, piece: &[u8]) -> Result<Vec<Request>, NoMemory>
        ensures limits { self.new.limits ≡ self.old.limits }
        ensures reads { IfOk result (λ v. (stream : List ℕ) (requests : List Request) → After self.old.limits self.old.state self.old.unread stream requests
            → After self.new.limits self.new.state self.new.unread (stream ++ piece.now) (requests ++ v.items)) }
        ensures closed { self.old.state ≡ Closed → (IfOk result (λ v. v.items ≡ []) × (self.new ≡ self.old) × IsOk result) }
        ensures moderate { IfOk result (λ v. All (IsModerate self.old.limits) v.items) }
        ensures err { OnErr result (self.new.state ≡ Failed) }
        ensures failed { self.old.state ≡ Failed → IsErr result }
    {
        self.read(piece)
    }

    /// Reads as `feed` does, but takes the piece and copies less. The value of a block that lies whole in the piece is a part of
    /// it, and keeps the piece in memory.
    pub fn take(&mut self, piece: Vec<u8>) -> Result<Vec<Request>, NoMemory>
        ensures limits { self.new.limits ≡ self.old.limits }
        ensures reads { IfOk result (λ v. (stream : List ℕ) (requests : List Request) → After self.old.limits self.old.state self.old.unread stream requests
            → After self.new.limits self.new.state self.new.unread (stream ++ piece.items) (requests ++ v.items)) }
        ensures closed { self.old.state ≡ Closed → (IfOk result (λ v. v.items ≡ []) × (self.new ≡ self.old) × IsOk result) }
        ensures moderate { IfOk result (λ v. All (IsModerate self.old.limits) v.items) }
        ensures err { OnErr result (self.new.state ≡ Failed) }
        ensures failed { self.old.state ≡ Failed → IsErr result }
    {
        if let State::Closed = &self.state {
            return Ok(Vec::new(self.alloc));
        }
        match Bytes::from_vec(piece) {
            Ok(block) => self.read(block),
            Err(_) => {
                self.state = State::Failed;
                Err(NoMemory)
            }
        }
    }

    // What the reader has left unfinished.
    fn name(&self) -> Rest
        ensures { result ≡ Rattle.mc_proto.specs.Reader.rest_of self.now.state self.now.unread }
    {
        match &self.state {
            State::Line => {
                if self.line.is_empty() {
                    Rest::Nothing
                } else {
                    Rest::Line
                }
            }
            State::Block(_, _) | State::Skip(_, _) => Rest::Block,
            State::Closed | State::Failed => Rest::Nothing,
        }
    }

    /// Ends the stream, and returns what is left unfinished: `Nothing` after a line that was too long or after `NoMemory`.
    pub fn end(self) -> Rest
        ensures value { result ≡ Rattle.mc_proto.specs.Reader.rest_of self.state self.unread }
        ensures rest { (stream : List ℕ) (requests : List Request) → After self.limits self.state self.unread stream requests
            → ((rest : List ℕ) × Reads self.limits stream requests rest × (result ≡ rest_name (closed requests) rest)) }
    {
        self.name()
    }
}
