//! A source and a sink in memory.
ghost use Rattle.std.specs.Prelude.{◌≡◌, ◌<◌, ◌+◌, ◌++◌, [], OnOk, OnErr};
ghost use Rattle.std.specs.List.{flat_map};
ghost use Rattle.mc_proto.specs.Gathered.{bytes_of_parts};

use mc_item::NoMemory;
use mc_proto::{ReplyText, Sink, SinkFault, TextPart};
use mc_script::{Source, SourceFault};
use std::alloc::Global;
use std::collections::VecDeque;
use std::marker::Model;
use std::sync::ledger::{Book, Ledger, Share};
use std::sync::{Mutex, Wait};

/// A source that gives its pieces one by one, and keeps none of those it gave. It never fails.
#[derive(Drop)]
pub struct Pieces {
    pieces: VecDeque<Vec<u8>>,
}

impl Model for Pieces {
    ghost use Rattle.std.specs.Prelude.{List, ℕ};
    ghost use Rattle.std.specs.List.{flat_map};

    ghost Value = { List ℕ };

    ghost view = { λ p. flat_map (λ v. v.items) p.pieces.items };
}

impl Pieces {
    /// Creates a source of these pieces.
    pub fn new(pieces: VecDeque<Vec<u8>>) -> Pieces
        ensures { result ≡ flat_map (λ v. v.items) pieces.items }
    {
        Pieces { pieces }
    }
}

impl Source for Pieces {
    ghost coming = { λ s. s };

    ghost failures = { λ s. 0 };

    fn piece(&mut self) -> Result<Option<Vec<u8>>, SourceFault> {
        Ok(self.pieces.pop_front())
    }
}

// How many bytes of room an empty text gets, once the sink has taken the bytes of the full one.
const ROOM: usize = 81920;

// Appends a copy of some bytes to the pieces. After an `Err` the pieces are unchanged.
fn keep_copy(alloc: Global, pieces: &mut Vec<TextPart>, bytes: &[u8]) -> Result<(), NoMemory>
    ensures ok { OnOk result (bytes_of_parts pieces.new.items ≡ bytes_of_parts pieces.old.items ++ bytes.now) }
    ensures err { OnErr result (pieces.new.items ≡ pieces.old.items) }
{
    let piece = Vec::from_slice(alloc, bytes)?;
    pieces.reserve(1)?;
    pieces.push_reserved(TextPart::Own(piece));
    Ok(())
}

/// A sink that keeps what it takes in memory. It fails if memory runs out, and counts its failures in its share of a ledger.
/// All sinks of a run have one book of that ledger in common.
#[derive(Drop)]
pub struct Kept<'a, R: Wait, L: Ledger> {
    /// What the sink has taken, in pieces.
    pub pieces: Vec<TextPart>,
    rt: &'a R,
    alloc: Global,
    book: &'a Mutex<Book<L>>,
    share: Share<L>,
    ghost has_part: { 0 < share.parts },
}

impl<'a, R: Wait, L: Ledger> Kept<'a, R, L> {
    /// Creates a sink that has taken nothing.
    pub fn new(
        rt: &'a R,
        alloc: Global,
        book: &'a Mutex<Book<L>>,
        share: Share<L>,
    ) -> Kept<'a, R, L>
        requires { 0 < share.parts }
        ensures { result.pieces.items ≡ [] }
    {
        Kept {
            pieces: Vec::new(alloc),
            rt,
            alloc,
            book,
            share,
        }
    }

    // Counts a failure.
    fn fail(&mut self) -> SinkFault
        ensures pieces { self.new.pieces.items ≡ self.old.pieces.items }
        ensures count { self.new.share.amount ≡ self.old.share.amount + 1 }
    {
        let mut book = self.book.lock(self.rt);
        book.add(&mut self.share, 1);
        SinkFault
    }
}

impl<'a, R: Wait, L: Ledger> Sink for Kept<'a, R, L> {
    ghost taken = { λ s. bytes_of_parts s.pieces.items };

    ghost failures = { λ s. s.share.amount };

    fn put(&mut self, bytes: &[u8]) -> Result<usize, SinkFault> {
        match keep_copy(self.alloc, &mut self.pieces, bytes) {
            Ok(()) => Ok(bytes.len()),
            Err(_) => Err(self.fail()),
        }
    }

    fn put_whole(&mut self, text: &mut ReplyText) -> Result<(), SinkFault> {
        match text.move_behind(&mut self.pieces, ROOM) {
            Ok(()) => Ok(()),
            Err(_) => Err(self.fail()),
        }
    }
}
