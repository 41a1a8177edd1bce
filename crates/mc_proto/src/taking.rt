//! Takes the bytes of a piece line by line and block by block, and updates the reader's state.
ghost use Rattle.std.specs.Prelude.{◌≡◌, ◌++◌, [], ◌+◌, ◌-◌, ◌<◌, ◌≤◌, ◌∷◌, ℕ, List, IfOk, OnOk, All, length, take, drop, nat_eq, false};
ghost use Rattle.std.specs.Cmp.Lexicographic.{pointwise};
ghost use Rattle.mc_item.specs.declared.command.Command.TheVariants as commands;
ghost use Rattle.mc_proto.specs.{Grammar.stored, Grammar.skipped, Grammar.IsFine, Grammar.IsModerate, Table.says, Reader.After, Reader.IsSoundReader};
ghost use Rattle.mc_proto.specs.declared.request.LineFault.TheVariants.{Chunk, LineTooLong};
ghost use Rattle.mc_proto.specs.declared.{request.Limits.Limits, request.Request.Request, request.Request.TheVariants.Bad, request.Request.TheVariants.One};
ghost use Rattle.mc_proto.specs.declared.{state.State.State, state.State.TheVariants.Line, state.State.TheVariants.Closed};

use crate::brief::read_brief;
use crate::line::said_of;
use crate::piece::Piece;
use crate::quick::{lone_get, quick_store};
use crate::request::{Keys, Limits, LineFault, Request};
use crate::state::{PartialBlock, Said, Start, State};
use crate::token::line_end;
use bytes::BytesMut;
use mc_item::{Command, NoMemory, Value};
use std::alloc::Global;
use std::mem;

/// The longest line in bytes, without its LF.
pub const MAX_LINE: usize = 65_536;

// What a line says whose beginning was kept in `line`, and whose end is `front`. Empties `line`.
#[cold]
#[inline(never)]
fn said_behind(
    alloc: Global,
    limits: Limits,
    line: &mut BytesMut,
    front: &[u8],
) -> Result<Said, NoMemory>
    ensures value { IfOk result (λ s. s ≡ says limits (line.old.items ++ front.now)) }
    ensures fine { IfOk result (λ s. IsFine limits s) }
    ensures none { IfOk result (λ s. line.new.items ≡ []) }
{
    line.extend_from_slice(front)?;
    let said = said_of(alloc, limits, line.as_slice())?;
    line.clear();
    Ok(said)
}

// What the line says that begins with `line` and ends with `front`. A line that lies whole in one piece isn't copied.
#[inline(always)]
fn said_at(
    alloc: Global,
    limits: Limits,
    line: &mut BytesMut,
    front: &[u8],
) -> Result<Said, NoMemory>
    ensures value { IfOk result (λ s. s ≡ says limits (line.old.items ++ front.now)) }
    ensures fine { IfOk result (λ s. IsFine limits s) }
    ensures none { IfOk result (λ s. line.new.items ≡ []) }
{
    if line.is_empty() {
        return said_of(alloc, limits, front);
    }
    said_behind(alloc, limits, line, front)
}

// Whether a block of `count` bytes and two more ends with CR LF.
#[inline(always)]
fn ends_well(block: &[u8], count: usize) -> bool
    requires { length block.now ≡ count + 2 }
    ensures { result ≡ pointwise nat_eq (drop count block.now) (13 ∷ 10 ∷ []) }
{
    block[count] == b'\r' && block[count + 1] == b'\n'
}

// The request that stores a value.
#[inline(always)]
fn store(start: Start, value: Value) -> Request
    ensures { result ≡ One (commands.Store start.verb start.key start.flags start.exptime value) start.quiet }
{
    Request::One {
        command: Command::Store {
            verb: start.verb,
            key: start.key,
            flags: start.flags,
            exptime: start.exptime,
            value,
        },
        quiet: start.quiet,
    }
}

// The request of a block that doesn't end with CR LF.
#[inline(always)]
fn bad_chunk(start: Start) -> Request
    ensures { result ≡ Bad Chunk start.quiet }
{
    Request::Bad {
        why: LineFault::Chunk,
        quiet: start.quiet,
    }
}

// The request of a block that lies whole in a piece, from `begin` on. The value is made from the piece.
#[inline(always)]
fn stored_in<P: Piece>(
    alloc: Global,
    start: Start,
    piece: &P,
    begin: usize,
) -> Result<Request, NoMemory>
    requires { begin + (start.count + 2) ≤ length (P.unread piece.now) }
    ensures value { IfOk result (λ r. r ≡ stored start (take (start.count + 2) (drop begin (P.unread piece.now)))) }
    ensures moderate { (limits : Limits) → IfOk result (λ r. IsModerate limits r) }
{
    let count = start.count as usize;
    let block = &piece.bytes()[begin..begin + count + 2];
    if !ends_well(block, count) {
        return Ok(bad_chunk(start));
    }
    let value = piece.value_at(alloc, begin, begin + count)?;
    Ok(store(start, value))
}

// The request of a block that lay in several pieces. Its bytes become the value, without a copy.
fn stored_of(alloc: Global, start: Start, mut block: Vec<u8>) -> Result<Request, NoMemory>
    requires { length block.items ≡ start.count + 2 }
    ensures value { IfOk result (λ r. r ≡ stored start block.items) }
    ensures moderate { (limits : Limits) → IfOk result (λ r. IsModerate limits r) }
{
    let count = start.count as usize;
    if !ends_well(block.as_slice(), count) {
        return Ok(bad_chunk(start));
    }
    block.truncate(count);
    let value = Value::of(alloc, block)?;
    Ok(store(start, value))
}

// Takes what a piece has of the block that starts at `begin`, and returns up to where. If the block isn't whole in the piece,
// memory for all of it is taken at once.
#[inline(always)]
fn take_begun<P: Piece>(
    alloc: Global,
    state: &mut State,
    requests: &mut Vec<Request>,
    start: Start,
    piece: &P,
    begin: usize,
) -> Result<usize, NoMemory>
    requires line { state.old ≡ Line }
    requires within { (0 < begin) × (begin ≤ length (P.unread piece.now)) }
    requires count { start.count ≤ 2147483645 }
    ensures taken { IfOk result (λ n. (0 < n) × (n ≤ length (P.unread piece.now))) }
    ensures sound { OnOk result (IsSoundReader state.new []) }
    ensures moderate { (limits : Limits) → OnOk result (All (IsModerate limits) requests.old.items → All (IsModerate limits) requests.new.items) }
    ensures reads { IfOk result (λ n. (limits : Limits) (stream : List ℕ) (before : List Request)
        → After limits (State.Block start []) [] (stream ++ take begin (P.unread piece.now)) (before ++ requests.old.items)
        → After limits state.new [] (stream ++ take n (P.unread piece.now)) (before ++ requests.new.items)) }
{
    let wanted = start.count as usize + 2;
    let all = piece.bytes();
    if all.len() - begin < wanted {
        let mut bytes = Vec::with_capacity(alloc, wanted)?;
        bytes.extend_from_slice(all.split_at(begin).1)?;
        *state = State::Block(start, PartialBlock { bytes });
        return Ok(all.len());
    }
    requests.push(stored_in(alloc, start, piece, begin)?)?;
    Ok(begin + wanted)
}

// Closes the reader behind a line that is too long. Empties `line`.
#[cold]
#[inline(never)]
fn close(
    state: &mut State,
    line: &mut BytesMut,
    requests: &mut Vec<Request>,
) -> Result<(), NoMemory>
    ensures { OnOk result ((state.new ≡ Closed) × (line.new.items ≡ []) × (requests.new.items ≡ requests.old.items ++ Bad LineTooLong false ∷ [])) }
{
    line.clear();
    requests.push(Request::Bad {
        why: LineFault::LineTooLong,
        quiet: false,
    })?;
    *state = State::Closed;
    Ok(())
}

// Takes bytes of a line up to its LF, and those of a kept block after it. Returns how many bytes that were. If the line is too
// long, the rest of the piece is taken.
fn take_line<P: Piece>(
    alloc: Global,
    limits: Limits,
    state: &mut State,
    line: &mut BytesMut,
    requests: &mut Vec<Request>,
    piece: &P,
) -> Result<usize, NoMemory>
    requires some { 0 < length (P.unread piece.now) }
    requires line { state.old ≡ Line }
    requires sound { IsSoundReader Line line.old.items }
    ensures taken { IfOk result (λ n. (0 < n) × (n ≤ length (P.unread piece.now))) }
    ensures sound { OnOk result (IsSoundReader state.new line.new.items) }
    ensures moderate { OnOk result (All (IsModerate limits) requests.old.items → All (IsModerate limits) requests.new.items) }
    ensures reads { IfOk result (λ n. (stream : List ℕ) (before : List Request) → After limits Line line.old.items stream (before ++ requests.old.items)
        → After limits state.new line.new.items (stream ++ take n (P.unread piece.now)) (before ++ requests.new.items)) }
{
    let bytes = piece.bytes();
    let end = line_end(bytes);
    if line.len() + end > MAX_LINE {
        close(state, line, requests)?;
        return Ok(bytes.len());
    }
    if end == bytes.len() {
        line.extend_from_slice(bytes)?;
        return Ok(end);
    }
    let front = bytes.split_at(end).0;
    if line.is_empty() {
        if let Some(key) = lone_get(alloc, front)? {
            requests.push(Request::Get {
                keys: Keys::one(key),
                with_cas: false,
            })?;
            return Ok(end + 1);
        }
        if read_brief(alloc, front, requests)? {
            return Ok(end + 1);
        }
        if let Some(start) = quick_store(alloc, limits, front)? {
            return take_begun(alloc, state, requests, start, piece, end + 1);
        }
    }
    match said_at(alloc, limits, line, front)? {
        Said::Whole(request) => {
            requests.push(request)?;
            Ok(end + 1)
        }
        Said::Block(start) => take_begun(alloc, state, requests, start, piece, end + 1),
        Said::Skip(start) => {
            let left = start.count + 2;
            *state = State::Skip(start, left);
            Ok(end + 1)
        }
    }
}

// Takes bytes of a block that is kept, and returns how many. If more are to come, the block goes back into the state.
fn take_block(
    alloc: Global,
    state: &mut State,
    requests: &mut Vec<Request>,
    start: Start,
    part: PartialBlock,
    piece: &[u8],
) -> Result<usize, NoMemory>
    requires some { 0 < length piece.now }
    requires line { state.old ≡ Line }
    requires sound { IsSoundReader (State.Block start part) [] }
    ensures taken { IfOk result (λ n. (0 < n) × (n ≤ length piece.now)) }
    ensures sound { OnOk result (IsSoundReader state.new []) }
    ensures moderate { (limits : Limits) → OnOk result (All (IsModerate limits) requests.old.items → All (IsModerate limits) requests.new.items) }
    ensures reads { IfOk result (λ n. (limits : Limits) (stream : List ℕ) (before : List Request)
        → After limits (State.Block start part) [] stream (before ++ requests.old.items)
        → After limits state.new [] (stream ++ take n piece.now) (before ++ requests.new.items)) }
{
    let PartialBlock { mut bytes } = part;
    let wanted = start.count as usize + 2 - bytes.len();
    if piece.len() < wanted {
        bytes.extend_from_slice(piece)?;
        *state = State::Block(start, PartialBlock { bytes });
        return Ok(piece.len());
    }
    bytes.extend_from_slice(piece.split_at(wanted).0)?;
    requests.push(stored_of(alloc, start, bytes)?)?;
    Ok(wanted)
}

// Takes bytes of a block that is skipped, and returns how many. The state keeps only how many are to come.
fn take_skipped(
    state: &mut State,
    requests: &mut Vec<Request>,
    start: Start,
    left: u64,
    piece: &[u8],
) -> Result<usize, NoMemory>
    requires some { 0 < length piece.now }
    requires line { state.old ≡ Line }
    requires sound { IsSoundReader (State.Skip start left) [] }
    ensures taken { IfOk result (λ n. (0 < n) × (n ≤ length piece.now)) }
    ensures sound { OnOk result (IsSoundReader state.new []) }
    ensures moderate { (limits : Limits) → OnOk result (All (IsModerate limits) requests.old.items → All (IsModerate limits) requests.new.items) }
    ensures reads { IfOk result (λ n. (limits : Limits) (stream : List ℕ) (before : List Request)
        → After limits (State.Skip start left) [] stream (before ++ requests.old.items)
        → After limits state.new [] (stream ++ take n piece.now) (before ++ requests.new.items)) }
{
    let count = piece.len() as u64;
    if count < left {
        *state = State::Skip(start, left - count);
        return Ok(piece.len());
    }
    requests.push(Request::One {
        command: Command::Huge {
            verb: start.verb,
            key: start.key,
        },
        quiet: start.quiet,
    })?;
    Ok(left as usize)
}

/// Takes bytes of a piece up to the end of a line or a block, and returns how many, at least one. Appends the request that they
/// complete, if any, to `requests`.
pub fn take_part<P: Piece>(
    alloc: Global,
    limits: Limits,
    state: &mut State,
    line: &mut BytesMut,
    requests: &mut Vec<Request>,
    piece: &P,
) -> Result<usize, NoMemory>
    requires some { 0 < length (P.unread piece.now) }
    requires sound { IsSoundReader state.old line.old.items }
    ensures taken { IfOk result (λ n. (0 < n) × (n ≤ length (P.unread piece.now))) }
    ensures sound { OnOk result (IsSoundReader state.new line.new.items) }
    ensures moderate { OnOk result (All (IsModerate limits) requests.old.items → All (IsModerate limits) requests.new.items) }
    ensures reads { IfOk result (λ n. (stream : List ℕ) (before : List Request) → After limits state.old line.old.items stream (before ++ requests.old.items)
        → After limits state.new line.new.items (stream ++ take n (P.unread piece.now)) (before ++ requests.new.items)) }
{
    match state {
        State::Line => {
            return take_line(alloc, limits, state, line, requests, piece);
        }
        State::Closed => {
            return Ok(piece.bytes().len());
        }
        State::Failed => {
            return Ok(piece.bytes().len());
        }
        State::Block(_, _) => {}
        State::Skip(_, _) => {}
    }
    let bytes = piece.bytes();
    match mem::replace(state, State::Line) {
        State::Block(start, part) => take_block(alloc, state, requests, start, part, bytes),
        State::Skip(start, left) => take_skipped(state, requests, start, left, bytes),
        State::Line => unreachable!(),
        State::Closed => unreachable!(),
        State::Failed => unreachable!(),
    }
}
