//! Streams of drawn bytes, each read in one piece and cut at drawn places.
use super::SEED;
use super::dice::Dice;
use super::roundtrip::check_requests;
use super::show::{feed, give, limits, push_rest, read, text};
use mc_proto::Reader;
use std::alloc::Global;
use std::process::Abort;

// How many streams are drawn, and how many lists of requests.
const ROUNDS: usize = 300;

// Up to how many bytes a stream is read byte by byte too.
const SHORT: usize = 400;

// What streams are made of: lines of all verbs, lines with a bad token or another number of them, blocks of right and wrong
// lengths, and parts of lines.
static FRAGMENTS: [&[u8]; 59] = [
    b"get a\r\n",
    b"gets a b\n",
    b"  get   a  \r\n",
    b"set k 1 2 3\r\nabc\r\n",
    b"add k 0 0 0 noreply\r\n\r\n",
    b"replace k 0 -1 2\r\n\r\n\r\n",
    b"cas k 0 0 1 7\r\nx\r\n",
    b"append k 0 0 1\r\nx\r\n",
    b"prepend k 1 -2 2 noreply\r\nxy\r\n",
    b"gat 5 a\r\n",
    b"gats -1 a b\n",
    b"incr k 5 noreply\r\n",
    b"decr k 5\r\n",
    b"touch k 9\n",
    b"delete k noreply\r\n",
    b"%at 5\r\n",
    b"%juggle all\r\n",
    b"%crawl 2\r\n",
    b"%next\r\n",
    b"quit\r\n",
    b"set k 0 0 37\r\n0123456789012345678901234567890123456\r\n",
    b"set k 0 0 3\r\nab\r\n",
    b"set k 0 0 1\r\nabc\r\n",
    b"cas k 0 0 2 1 noreply\r\nabc\r\n",
    b"add k 0 0 1\nx\n\n",
    b"set k 0 0 90 noreply\r\n",
    b"set k 0 0 9\r\n",
    b"replace k 0 0 36\r\n",
    b"append k 0 0 36\r\n",
    b"set \0 0 0 1\r\n",
    b"set k 4294967296 0 1\r\n",
    b"add k 0 x 1 noreply\r\n",
    b"cas k 0 0 1 18446744073709551616\r\n",
    b"get a\rb\r\n",
    b"gat x a\r\n",
    b"gats 0\r\n",
    b"incr k x\r\n",
    b"decr k 18446744073709551616 noreply\r\n",
    b"touch k --1 noreply\r\n",
    b"delete \0\r\n",
    b"%juggle 44\r\n",
    b"%at -1\r\n",
    b"set k 0 0\r\n",
    b"incr k\r\n",
    b"delete k 0\r\n",
    b"flush_all\r\n",
    b"noreply",
    b" noreply\r\n",
    b"get ",
    b"set k 0 0 ",
    b"%next",
    b"\r\n",
    b"\r",
    b"\n",
    b"\0",
    b" ",
    b"7",
    b"0000000000000000000012",
    b"-",
];

fn push_fragment(rt: &impl Abort, dice: &mut Dice, out: &mut Vec<u8>) {
    let place = dice.below(FRAGMENTS.len());
    let fragment = FRAGMENTS.as_slice().get(place).expect(rt, "a fragment");
    text(rt, out, *fragment);
}

// Of a hundred runs one is so long that its line may be too long.
fn length_of(dice: &mut Dice) -> usize {
    if dice.below(100) == 0 {
        dice.below(1_000).wrapping_add(65_000)
    } else {
        dice.below(300)
    }
}

// Adds a run of one byte.
fn push_run(rt: &impl Abort, dice: &mut Dice, out: &mut Vec<u8>) {
    let byte = dice.byte();
    for _ in 0..length_of(dice) {
        out.push(byte).expect(rt, "memory");
    }
}

/// Adds so many bytes, each any.
pub(super) fn push_any(rt: &impl Abort, dice: &mut Dice, out: &mut Vec<u8>, count: usize) {
    for _ in 0..count {
        out.push(dice.byte()).expect(rt, "memory");
    }
}

fn push_few(rt: &impl Abort, dice: &mut Dice, out: &mut Vec<u8>) {
    let count = dice.below(12);
    push_any(rt, dice, out, count);
}

fn push_part(rt: &impl Abort, dice: &mut Dice, out: &mut Vec<u8>) {
    match dice.below(12) {
        0 => push_run(rt, dice, out),
        1 => push_few(rt, dice, out),
        _ => push_fragment(rt, dice, out),
    }
}

fn stream_of(rt: &impl Abort, alloc: Global, dice: &mut Dice) -> Vec<u8> {
    let mut out = Vec::new(alloc);
    for _ in 0..dice.below(24) {
        push_part(rt, dice, &mut out);
    }
    out
}

// Hands a piece to a reader, lent or given away.
fn hand(
    rt: &impl Abort,
    alloc: Global,
    dice: &mut Dice,
    reader: &mut Reader,
    out: &mut Vec<u8>,
    piece: &[u8],
) {
    if dice.below(2) == 0 {
        feed(rt, reader, out, piece);
    } else {
        give(rt, alloc, reader, out, piece);
    }
}

// Hands an input to a reader in pieces of drawn lengths below a bound, of which some are empty.
fn hand_all(
    rt: &impl Abort,
    alloc: Global,
    dice: &mut Dice,
    reader: &mut Reader,
    out: &mut Vec<u8>,
    input: &[u8],
) {
    let bound = dice.below(40);
    let mut rest = input;
    for _ in 0..input.len() {
        let count = dice.below(bound).min(rest.len());
        let (piece, behind) = rest.split_at(count);
        hand(rt, alloc, dice, reader, out, piece);
        rest = behind;
    }
    hand(rt, alloc, dice, reader, out, rest);
}

/// The requests of an input that is cut at drawn places, in short, and what is left unfinished.
pub(super) fn read_cut(rt: &impl Abort, alloc: Global, dice: &mut Dice, input: &[u8]) -> Vec<u8> {
    let mut reader = Reader::new(alloc, limits());
    let mut out = Vec::new(alloc);
    hand_all(rt, alloc, dice, &mut reader, &mut out, input);
    push_rest(rt, &mut out, reader.end());
    out
}

/// Ends the test where something else was seen in a round.
pub(super) fn alike(rt: &impl Abort, seen: &[u8], wanted: &[u8], what: &str, round: usize) {
    assert_eq!(rt; seen, wanted, "{what}, in round {round}");
}

// A short stream is read byte by byte too.
fn check_bytes(rt: &impl Abort, alloc: Global, stream: &[u8], wanted: &[u8], round: usize) {
    if stream.len() <= SHORT {
        let bytes = read(rt, alloc, stream, 1);
        alike(rt, bytes.as_slice(), wanted, "byte by byte", round);
    }
}

fn check_stream(rt: &impl Abort, alloc: Global, dice: &mut Dice, round: usize) {
    let stream = stream_of(rt, alloc, dice);
    let whole = read(rt, alloc, stream.as_slice(), stream.len().max(1));
    let cut = read_cut(rt, alloc, dice, stream.as_slice());
    alike(rt, cut.as_slice(), whole.as_slice(), "a cut stream", round);
    check_bytes(rt, alloc, stream.as_slice(), whole.as_slice(), round);
}

/// What holds of the streams and the requests that are drawn from a seed.
pub(super) fn check_drawn(rt: &impl Abort, alloc: Global, seed: u64) {
    let mut dice = Dice::new(seed);
    for round in 0..ROUNDS {
        check_stream(rt, alloc, &mut dice, round);
        check_requests(rt, alloc, &mut dice, round);
    }
}

#[test]
fn drawn_streams_read_alike_however_they_are_cut(rt: HostRuntime) {
    check_drawn(&rt, rt.alloc(), SEED);
}
