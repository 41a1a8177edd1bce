//! The pieces of memory that a history's events lie in.
ghost use Rattle.std.specs.Prelude.{◌≡◌, ◌+◌, ◌*◌, ◌^◌, ◌<◌, ◌≤◌, ◌∷◌, ◌++◌, [], length, vec_capacity, OnOk, IsOk};
ghost use Rattle.std.specs.{Option.option_copied, List.slice_get};
ghost use Rattle.mc_history.specs.Pieces.{events_of, room_of, ArePiecesSound, ArePiecesKept};

use std::alloc::{AllocError, Global};
use std::mem;

/// How many events a piece holds.
const PIECE_LEN: usize = 4_096;

/// The most places that there can be for events. It keeps all sums within 64 bits.
const MOST_PLACES: usize = 1 << 63;

/// The pieces of a history. The one that takes the next event is a field of its own, so that adding an event touches no other.
#[derive(Drop)]
pub(crate) struct Pieces<E> {
    // The piece that takes the next event. It has no memory until room is first made.
    last: Vec<E>,
    // The full pieces before it, oldest first.
    full: Vec<Vec<E>>,
    // Empty pieces, for events that the last one has no place for.
    ahead: Vec<Vec<E>>,
}

#[inline(always)]
fn item_at<T>(items: &[T], place: usize) -> Option<&T>
    ensures { option_copied result ≡ slice_get items.now place }
{
    items.get(place)
}

impl<E: Drop> Pieces<E> {
    // No events, and no room. It takes no memory.
    pub(crate) fn new(alloc: Global) -> Pieces<E>
        ensures kept { ArePiecesKept result }
        ensures events { events_of result ≡ [] }
        ensures room { room_of result ≡ 0 }
    {
        Pieces {
            last: Vec::new(alloc),
            full: Vec::new(alloc),
            ahead: Vec::new(alloc),
        }
    }

    #[inline(always)]
    pub(crate) fn len(&self) -> usize
        requires kept { ArePiecesKept self.now }
        ensures value { result ≡ length (events_of self.now) }
        ensures places { result + room_of self.now ≤ 2 ^ 63 }
    {
        PIECE_LEN * self.full.len() + self.last.len()
    }

    pub(crate) fn get(&self, place: usize) -> Option<&E>
        requires kept { ArePiecesKept self.now }
        ensures { option_copied result ≡ slice_get (events_of self.now) place }
    {
        match item_at(self.full.as_slice(), place / PIECE_LEN) {
            Some(piece) => item_at(piece.as_slice(), place % PIECE_LEN),
            None => item_at(self.last.as_slice(), place - PIECE_LEN * self.full.len()),
        }
    }

    // How many more events the last piece has a place for.
    #[inline(always)]
    pub(crate) fn left(&self) -> usize
        ensures { result + length self.now.last.items ≡ vec_capacity self.now.last }
    {
        self.last.capacity() - self.last.len()
    }

    // How many more events need no memory.
    fn room(&self) -> usize
        requires kept { ArePiecesKept self.now }
        ensures { result ≡ room_of self.now }
    {
        self.left() + PIECE_LEN * self.ahead.len()
    }

    // Makes room for `n` more events. The usual case, in which the last piece has enough, is inlined.
    #[inline(always)]
    pub(crate) fn reserve(&mut self, alloc: Global, n: usize) -> Result<(), AllocError>
        requires kept { ArePiecesKept self.old }
        ensures kept { ArePiecesKept self.new }
        ensures events { events_of self.new ≡ events_of self.old }
        ensures ok { OnOk result (n ≤ room_of self.new) }
        ensures room { room_of self.old ≤ room_of self.new }
        ensures succeeds { n ≤ room_of self.old → IsOk result }
    {
        if n <= self.left() {
            return Ok(());
        }
        self.make_room(alloc, n)
    }

    // Makes pieces until there is room for `n` more events. It fails if memory is refused, or past 2^63 places.
    #[cold]
    #[inline(never)]
    pub(crate) fn make_room(&mut self, alloc: Global, n: usize) -> Result<(), AllocError>
        requires kept { ArePiecesKept self.old }
        ensures kept { ArePiecesKept self.new }
        ensures events { events_of self.new ≡ events_of self.old }
        ensures ok { OnOk result (n ≤ room_of self.new) }
        ensures room { room_of self.old ≤ room_of self.new }
        ensures succeeds { n ≤ room_of self.old → IsOk result }
    {
        if MOST_PLACES - self.len() < n {
            return Err(AllocError);
        }
        'making: while self.room() < n {
            self.make_piece(alloc)?;
        }
        Ok(())
    }

    // Makes a piece ahead, and a place for it among the full ones. If the last piece has no place left, the new one becomes last.
    fn make_piece(&mut self, alloc: Global) -> Result<(), AllocError>
        requires kept { ArePiecesKept self.old }
        requires few { length (events_of self.old) + room_of self.old < 2 ^ 63 }
        ensures kept { ArePiecesKept self.new }
        ensures events { events_of self.new ≡ events_of self.old }
        ensures ok { OnOk result (room_of self.new ≡ room_of self.old + 4096) }
        ensures room { room_of self.old ≤ room_of self.new }
    {
        self.full.reserve(self.ahead.len() + 1)?;
        self.ahead.reserve(1)?;
        self.ahead
            .push_reserved(Vec::with_capacity(alloc, PIECE_LEN)?);
        self.turn_if_full();
        Ok(())
    }

    // Adds an event at the end. There must be room for it. If it fills the last piece, the next one becomes the last at once, so
    // that the next event goes straight to its place.
    #[inline(always)]
    pub(crate) fn push_reserved(&mut self, event: E)
        requires kept { ArePiecesKept self.old }
        requires room { 0 < room_of self.old }
        ensures kept { ArePiecesKept self.new }
        ensures events { events_of self.new ≡ events_of self.old ++ event ∷ [] }
        ensures room { room_of self.old ≡ room_of self.new + 1 }
    {
        self.last.push_reserved(event);
        self.turn_if_full();
    }

    #[inline(always)]
    fn turn_if_full(&mut self)
        requires sound { ArePiecesSound self.old }
        ensures kept { ArePiecesKept self.new }
        ensures events { events_of self.new ≡ events_of self.old }
        ensures room { room_of self.new ≡ room_of self.old }
    {
        if self.left() == 0 {
            self.turn_over();
        }
    }

    // The next piece ahead, if there is one, becomes the last. The old last piece is full, or has no memory and is dropped.
    #[cold]
    #[inline(never)]
    fn turn_over(&mut self)
        requires sound { ArePiecesSound self.old }
        requires full { length self.old.last.items ≡ vec_capacity self.old.last }
        ensures kept { ArePiecesKept self.new }
        ensures events { events_of self.new ≡ events_of self.old }
        ensures room { room_of self.new ≡ room_of self.old }
    {
        if self.ahead.is_empty() {
            return;
        }
        let next = self.ahead.take_last();
        let done = mem::replace(&mut self.last, next);
        if !done.is_empty() {
            self.full.push_reserved(done);
        }
    }
}
