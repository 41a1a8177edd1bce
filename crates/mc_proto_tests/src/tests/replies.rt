//! The text of each reply.
use super::show::{same, text};
use mc_item::{ClassNo, Histogram, Key, Moves, Reply, Value};
use mc_proto::{
    Keys, LineFault, chunks_text, fault_text, histogram_text, moves_text, push_chunks, push_end,
    push_fault, push_histogram, push_moves, push_reply, push_value_head, push_value_tail,
    reply_text, value_text,
};
use std::alloc::Global;
use std::process::Abort;

/// The key of these bytes.
fn key(rt: &impl Abort, alloc: Global, bytes: &[u8]) -> Key {
    Key::of(alloc, bytes).expect(rt, "a key")
}

/// A value of these bytes, with these flags and this cas number.
pub(super) fn value(rt: &impl Abort, alloc: Global, bytes: &[u8], flags: u32, cas: u64) -> Reply {
    let bytes = Vec::from_slice(alloc, bytes).expect(rt, "memory");
    Reply::Value {
        flags,
        value: Value::of(alloc, bytes).expect(rt, "memory"),
        cas,
    }
}

// A value of these bytes, with the last flags and the last cas number.
pub(super) fn last_value(rt: &impl Abort, alloc: Global, bytes: &[u8]) -> Reply {
    value(rt, alloc, bytes, 4_294_967_295, 18_446_744_073_709_551_615)
}

fn check_reply(rt: &impl Abort, alloc: Global, reply: &Reply, want: &[u8]) {
    let got = reply_text(alloc, reply).expect(rt, "memory");
    same(rt, got.as_slice(), want, "of length", want.len());
}

#[test]
fn each_reply_has_its_line(rt: HostRuntime) {
    let alloc = rt.alloc();
    check_reply(&rt, alloc, &Reply::Miss, b"");
    check_reply(&rt, alloc, &Reply::Stored, b"STORED\r\n");
    check_reply(&rt, alloc, &Reply::NotStored, b"NOT_STORED\r\n");
    check_reply(&rt, alloc, &Reply::Exists, b"EXISTS\r\n");
    check_reply(&rt, alloc, &Reply::NotFound, b"NOT_FOUND\r\n");
    let large = b"SERVER_ERROR object too large for cache\r\n".as_slice();
    check_reply(&rt, alloc, &Reply::TooLarge, large);
    let room = b"SERVER_ERROR out of memory storing object\r\n".as_slice();
    check_reply(&rt, alloc, &Reply::NoRoom, room);
}

#[test]
fn other_replies_that_stand_alone(rt: HostRuntime) {
    let alloc = rt.alloc();
    check_reply(&rt, alloc, &Reply::Deleted, b"DELETED\r\n");
    check_reply(&rt, alloc, &Reply::Touched, b"TOUCHED\r\n");
    check_reply(&rt, alloc, &Reply::Number(0), b"0\r\n");
    let last = Reply::Number(18_446_744_073_709_551_615);
    check_reply(&rt, alloc, &last, b"18446744073709551615\r\n");
    let text = b"CLIENT_ERROR cannot increment or decrement non-numeric value\r\n".as_slice();
    check_reply(&rt, alloc, &Reply::NonNumeric, text);
    let space = b"SERVER_ERROR out of memory\r\n".as_slice();
    check_reply(&rt, alloc, &Reply::NoSpace, space);
}

static FAULTS: [(LineFault, &[u8]); 6] = [
    (LineFault::Error, b"ERROR\r\n"),
    (
        LineFault::Format,
        b"CLIENT_ERROR bad command line format\r\n",
    ),
    (LineFault::Chunk, b"CLIENT_ERROR bad data chunk\r\n"),
    (
        LineFault::Delta,
        b"CLIENT_ERROR invalid numeric delta argument\r\n",
    ),
    (LineFault::LineTooLong, b"CLIENT_ERROR line too long\r\n"),
    (
        LineFault::Exptime,
        b"CLIENT_ERROR invalid exptime argument\r\n",
    ),
];

fn check_fault(rt: &impl Abort, alloc: Global, why: LineFault, want: &[u8], place: usize) {
    let got = fault_text(alloc, why).expect(rt, "memory");
    same(rt, got.as_slice(), want, "at row", place);
}

#[test]
fn each_fault_has_its_line(rt: HostRuntime) {
    for (place, (why, want)) in FAULTS.as_slice().iter().enumerate() {
        check_fault(&rt, rt.alloc(), *why, *want, place);
    }
}

fn check_added_fault(rt: &impl Abort, alloc: Global, why: LineFault, want: &[u8], place: usize) {
    let mut out = Vec::from_slice(alloc, b"7\r\n").expect(rt, "memory");
    push_fault(&mut out, why).expect(rt, "memory");
    let mut wanted = Vec::from_slice(alloc, b"7\r\n").expect(rt, "memory");
    text(rt, &mut wanted, want);
    same(rt, out.as_slice(), wanted.as_slice(), "at row", place);
}

#[test]
fn a_fault_is_added_behind_other_text(rt: HostRuntime) {
    for (place, (why, want)) in FAULTS.as_slice().iter().enumerate() {
        check_added_fault(&rt, rt.alloc(), *why, *want, place);
    }
}

fn check_value(rt: &impl Abort, alloc: Global, reply: &Reply, with_cas: bool, want: &[u8]) {
    let key = key(rt, alloc, b"k");
    let got = value_text(alloc, &key, reply, with_cas).expect(rt, "memory");
    same(rt, got.as_slice(), want, "of length", want.len());
}

#[test]
fn a_value_has_its_line_and_its_bytes(rt: HostRuntime) {
    let alloc = rt.alloc();
    let reply = last_value(&rt, alloc, b"a\r\nb");
    let plain = b"VALUE k 4294967295 4\r\na\r\nb\r\n".as_slice();
    check_value(&rt, alloc, &reply, false, plain);
    let with_cas = b"VALUE k 4294967295 4 18446744073709551615\r\na\r\nb\r\n".as_slice();
    check_value(&rt, alloc, &reply, true, with_cas);
    check_value(&rt, alloc, &Reply::Miss, true, b"");
    check_reply(&rt, alloc, &reply, b"");
}

fn push_head(rt: &impl Abort, out: &mut Vec<u8>, key: &[u8]) {
    push_value_head(out, key).expect(rt, "memory");
}

fn push_tail(rt: &impl Abort, out: &mut Vec<u8>, reply: &Reply, with_cas: bool) {
    push_value_tail(out, reply, with_cas).expect(rt, "memory");
}

fn end(rt: &impl Abort, out: &mut Vec<u8>) {
    push_end(out).expect(rt, "memory");
}

#[test]
fn a_value_is_added_behind_a_text(rt: HostRuntime) {
    let alloc = rt.alloc();
    let mut out = Vec::new(alloc);
    push_reply(&mut out, &Reply::Number(7)).expect(&rt, "memory");
    push_head(&rt, &mut out, b"k");
    let empty = last_value(&rt, alloc, b"");
    push_tail(&rt, &mut out, &empty, false);
    push_tail(&rt, &mut out, &Reply::Stored, true);
    end(&rt, &mut out);
    let want = b"7\r\nVALUE k 4294967295 0\r\n\r\nEND\r\n".as_slice();
    same(&rt, out.as_slice(), want, "of length", want.len());
}

// Flags, a count of letters, and the line of a value that has them, under the key `k`.
static LINES: [(u32, usize, &[u8]); 9] = [
    (0, 0, b"VALUE k 0 0\r\n"),
    (0, 9, b"VALUE k 0 9\r\n"),
    (0, 10, b"VALUE k 0 10\r\n"),
    (0, 87, b"VALUE k 0 87\r\n"),
    (0, 100, b"VALUE k 0 100\r\n"),
    (0, 975, b"VALUE k 0 975\r\n"),
    (0, 1000, b"VALUE k 0 1000\r\n"),
    (7, 9, b"VALUE k 7 9\r\n"),
    (65_535, 975, b"VALUE k 65535 975\r\n"),
];

/// So many times a letter.
pub(super) fn letters(rt: &impl Abort, alloc: Global, letter: u8, count: usize) -> Vec<u8> {
    let mut letters = Vec::new(alloc);
    letters.resize(count, letter).expect(rt, "memory");
    letters
}

fn check_line(rt: &impl Abort, alloc: Global, flags: u32, count: usize, line: &[u8]) {
    let letters = letters(rt, alloc, b'x', count);
    let mut wanted = Vec::from_slice(alloc, line).expect(rt, "memory");
    text(rt, &mut wanted, letters.as_slice());
    text(rt, &mut wanted, b"\r\n");
    let reply = value(rt, alloc, letters.as_slice(), flags, 1);
    check_value(rt, alloc, &reply, false, wanted.as_slice());
}

#[test]
fn a_value_has_its_flags_and_its_length_in_its_line(rt: HostRuntime) {
    for (flags, count, line) in LINES.as_slice() {
        check_line(&rt, rt.alloc(), *flags, *count, *line);
    }
}

fn push_keys(rt: &impl Abort, out: &mut Vec<u8>, keys: &[Key]) {
    for key in keys {
        text(rt, out, key.bytes());
        text(rt, out, b" in a list;");
    }
}

fn push_listed(rt: &impl Abort, out: &mut Vec<u8>, keys: Keys) {
    match keys.into_one() {
        Ok(alone) => text(rt, out, alone.bytes()),
        Err(keys) => push_keys(rt, out, keys.as_slice()),
    }
}

#[test]
fn keys_come_back_alone_or_as_a_list(rt: HostRuntime) {
    let alloc = rt.alloc();
    let mut out = Vec::new(alloc);
    push_listed(&rt, &mut out, Keys::one(key(&rt, alloc, b"k")));
    same(&rt, out.as_slice(), b"k", "of length", 1);
    out.clear();
    let mut keys = Vec::new(alloc);
    keys.push(key(&rt, alloc, b"l")).expect(&rt, "memory");
    push_listed(&rt, &mut out, Keys::from_vec(keys));
    same(&rt, out.as_slice(), b"l in a list;", "of length", 1);
}

static MOVES: Moves = Moves {
    reclaimed: 3,
    moved: 500,
};

#[test]
fn moves_have_a_line(rt: HostRuntime) {
    let got = moves_text(rt.alloc(), &MOVES).expect(&rt, "memory");
    same(&rt, got.as_slice(), b"JUGGLED 3 500\r\n", "moves", 0);
    let mut out = Vec::new(rt.alloc());
    end(&rt, &mut out);
    push_moves(&mut out, &MOVES).expect(&rt, "memory");
    same(&rt, out.as_slice(), b"END\r\nJUGGLED 3 500\r\n", "moves", 1);
}

#[test]
fn a_new_limit_is_told_with_its_class(rt: HostRuntime) {
    let got = chunks_text(rt.alloc(), ClassNo(1), 5).expect(&rt, "memory");
    same(&rt, got.as_slice(), b"CHUNKS 1 5\r\n", "chunks", 0);
    let mut out = Vec::new(rt.alloc());
    end(&rt, &mut out);
    push_chunks(&mut out, ClassNo(43), 1_048_576).expect(&rt, "memory");
    same(
        &rt,
        out.as_slice(),
        b"END\r\nCHUNKS 43 1048576\r\n",
        "chunks",
        1,
    );
}

fn check_histogram(rt: &impl Abort, alloc: Global, counts: &Histogram, want: &[u8]) {
    let got = histogram_text(alloc, counts).expect(rt, "memory");
    same(rt, got.as_slice(), want, "of length", want.len());
}

fn fill(counts: &mut Histogram) {
    counts.seen = 21;
    counts.reclaimed = 1;
    counts.passed = 2;
    counts.gone = 3;
    counts.no_expiry = 4;
    counts.hour_plus = 5;
    counts.minutes[0] = 6;
    counts.minutes[59] = 10;
}

#[test]
fn a_histogram_tells_the_minutes_that_have_entries(rt: HostRuntime) {
    let mut counts = Histogram::new();
    check_histogram(&rt, rt.alloc(), &counts, b"CRAWL 0 0 0 0 0 0\r\nEND\r\n");
    fill(&mut counts);
    let want = b"CRAWL 21 1 2 3 4 5\r\nMINUTE 0 6\r\nMINUTE 59 10\r\nEND\r\n".as_slice();
    check_histogram(&rt, rt.alloc(), &counts, want);
}

fn add_histogram(rt: &impl Abort, out: &mut Vec<u8>, counts: &Histogram) {
    push_histogram(out, counts).expect(rt, "memory");
}

fn fill_with_last(counts: &mut Histogram) {
    counts.seen = 18_446_744_073_709_551_615;
    counts.minutes[1] = 1;
    counts.minutes[9] = 2;
    counts.minutes[10] = 4_294_967_295;
}

#[test]
fn a_histogram_is_added_behind_a_text(rt: HostRuntime) {
    let mut out = Vec::new(rt.alloc());
    end(&rt, &mut out);
    let mut counts = Histogram::new();
    add_histogram(&rt, &mut out, &counts);
    let want = b"END\r\nCRAWL 0 0 0 0 0 0\r\nEND\r\n".as_slice();
    same(&rt, out.as_slice(), want, "histogram", 0);
    out.clear();
    fill_with_last(&mut counts);
    add_histogram(&rt, &mut out, &counts);
    end(&rt, &mut out);
    let want =
        b"CRAWL 18446744073709551615 0 0 0 0 0\r\nMINUTE 1 1\r\nMINUTE 9 2\r\nMINUTE 10 4294967295\r\nEND\r\nEND\r\n".as_slice();
    same(&rt, out.as_slice(), want, "histogram", 1);
}
