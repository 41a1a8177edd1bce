//! Reads an input to its end, in pieces.
ghost use Rattle.std.specs.Prelude.{◌≡◌, ◌≤◌, ◌<◌, ◌+◌, ◌++◌, IfOk, IfSome, OnErr, OnOk, drop, length, take};
ghost use Rattle.std.specs.{List.flat_map, Io.KnownBytes.Consumes, Io.KnownBytes.IsAtEnd, Io.KnownBytes.Keeps};

use crate::input::PIECE;
use std::alloc::Global;
use std::collections::VecDeque;
use std::io::{self, ErrorKind, Read};

// How many tries one read may take, and how many pieces an input may have. Beyond that, reading fails.
const MOST_READS: u64 = 1 << 32;

/// Reads once, and tries again if a signal interrupts the read.
pub(crate) fn read_once<R: Read>(reader: &mut R, room: &mut [u8]) -> io::Result<usize>
    ensures fits { IfOk result (λ n. n ≤ length room.old) }
    ensures room { length room.new ≡ length room.old }
    ensures bytes { IfOk result (λ n. Consumes (R.remaining reader.old) (R.remaining reader.new) (take n room.new)) }
    ensures end { IfOk result (λ n. n ≡ 0 → 0 < length room.old → IsAtEnd (R.remaining reader.new)) }
    ensures err { OnErr result (Keeps (R.remaining reader.old) (R.remaining reader.new)) }
{
    for _ in 0..MOST_READS {
        match reader.read(room) {
            Ok(count) => return Ok(count),
            Err(error) => {
                if error.kind() != ErrorKind::Interrupted {
                    return Err(error);
                }
            }
        }
    }
    Err(io::Error::from(ErrorKind::TimedOut))
}

// Reads once into the room, after the bytes that are already there.
fn read_behind<R: Read>(reader: &mut R, room: &mut Vec<u8>, filled: usize) -> io::Result<usize>
    requires { filled < length room.old.items }
    ensures fits { IfOk result (λ n. filled + n ≤ length room.old.items) }
    ensures room { length room.new.items ≡ length room.old.items }
    ensures front { take filled room.new.items ≡ take filled room.old.items }
    ensures bytes { IfOk result (λ n. Consumes (R.remaining reader.old) (R.remaining reader.new) (take n (drop filled room.new.items))) }
    ensures end { IfOk result (λ n. n ≡ 0 → IsAtEnd (R.remaining reader.new)) }
{
    read_once(reader, &mut room.as_mut_slice()[filled..])
}

// Reads until the room is full or the reader is at its end. Returns how many bytes came.
fn read_piece<R: Read>(reader: &mut R, room: &mut Vec<u8>) -> io::Result<usize>
    ensures fits { IfOk result (λ n. n ≤ length room.old.items) }
    ensures room { length room.new.items ≡ length room.old.items }
    ensures bytes { IfOk result (λ n. Consumes (R.remaining reader.old) (R.remaining reader.new) (take n room.new.items)) }
    ensures end { IfOk result (λ n. n < length room.old.items → IsAtEnd (R.remaining reader.new)) }
{
    let mut filled = 0;
    while filled < room.len() {
        let came = read_behind(reader, room, filled)?;
        if came == 0 {
            return Ok(filled);
        }
        filled += came;
    }
    Ok(filled)
}

// Appends a copy of some bytes to the pieces, if there are any.
fn keep_piece(alloc: Global, pieces: &mut VecDeque<Vec<u8>>, bytes: &[u8]) -> io::Result<()>
    ensures { OnOk result (flat_map (λ v. v.items) pieces.new.items ≡ flat_map (λ v. v.items) pieces.old.items ++ bytes.now) }
{
    if !bytes.is_empty() {
        pieces.push_back(Vec::from_slice(alloc, bytes)?)?;
    }
    Ok(())
}

/// Reads to the end, in pieces. A piece that isn't full is the last: a terminal that is asked again after its end would go on.
pub(crate) fn read_pieces<R: Read>(alloc: Global, reader: &mut R) -> io::Result<VecDeque<Vec<u8>>>
    ensures { IfOk result (λ input. IfSome (R.remaining reader.old) (λ bytes. flat_map (λ v. v.items) input.items ≡ bytes)) }
{
    let mut pieces = VecDeque::new(alloc);
    let mut room = Vec::new(alloc);
    room.resize(PIECE, 0)?;
    for _ in 0..MOST_READS {
        let came = read_piece(reader, &mut room)?;
        keep_piece(alloc, &mut pieces, &room.as_slice()[..came])?;
        if came < PIECE {
            return Ok(pieces);
        }
    }
    Err(io::Error::from(ErrorKind::TimedOut))
}
