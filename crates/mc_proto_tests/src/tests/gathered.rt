//! Texts with values that are long enough to be shared.
use super::replies::{last_value, letters};
use super::show::{same, text};
use mc_item::{ClassNo, Histogram, Moves, Reply};
use mc_proto::{LONG, LineFault, ReplyText, TextPart};
use std::alloc::Global;
use std::process::Abort;

// Adds a value, and a miss, which has no text.
fn add_value(rt: &impl Abort, out: &mut ReplyText, reply: &Reply, with_cas: bool) {
    out.push_value_head(b"k").expect(rt, "memory");
    out.push_value_tail(reply, with_cas).expect(rt, "memory");
    out.push_value_tail(&Reply::Miss, with_cas)
        .expect(rt, "memory");
}

// Ends the text of a get.
fn end(rt: &impl Abort, out: &mut ReplyText) {
    out.push_end().expect(rt, "memory");
}

// A text with two values of so many letters `y`, the second with its cas number.
fn two_values(rt: &impl Abort, alloc: Global, count: usize) -> ReplyText {
    let letters = letters(rt, alloc, b'y', count);
    let reply = last_value(rt, alloc, letters.as_slice());
    let mut out = ReplyText::new(alloc);
    add_value(rt, &mut out, &reply, false);
    add_value(rt, &mut out, &reply, true);
    end(rt, &mut out);
    out
}

// What that text has to be.
fn wanted_of(rt: &impl Abort, alloc: Global, count: usize) -> Vec<u8> {
    let letters = letters(rt, alloc, b'y', count);
    let first = format!(in alloc; "VALUE k 4294967295 {count}\r\n").expect(rt, "memory");
    let second = format!(in alloc; "VALUE k 4294967295 {count} 18446744073709551615\r\n").expect(
        rt, "memory",
    );
    let mut wanted = Vec::new(alloc);
    text(rt, &mut wanted, first.as_bytes());
    text(rt, &mut wanted, letters.as_slice());
    text(rt, &mut wanted, b"\r\n".as_slice());
    text(rt, &mut wanted, second.as_bytes());
    text(rt, &mut wanted, letters.as_slice());
    text(rt, &mut wanted, b"\r\nEND\r\n".as_slice());
    wanted
}

fn copy_of(rt: &impl Abort, alloc: Global, gathered: &ReplyText) -> Vec<u8> {
    let mut copy = Vec::new(alloc);
    gathered.copy_behind(&mut copy).expect(rt, "memory");
    copy
}

fn same_count(rt: &impl Abort, seen: usize, wanted: usize, count: usize) {
    assert_eq!(rt; seen, wanted, "with {count} letters");
}

fn check_shared(rt: &impl Abort, alloc: Global, count: usize, shared: usize) {
    let gathered = two_values(rt, alloc, count);
    let wanted = wanted_of(rt, alloc, count);
    same_count(rt, gathered.len(), wanted.len(), count);
    same_count(rt, gathered.lying().0.len(), shared, count);
    let copy = copy_of(rt, alloc, &gathered);
    same(rt, copy.as_slice(), wanted.as_slice(), "letters", count);
}

#[test]
fn a_long_value_is_shared_and_reads_the_same(rt: HostRuntime) {
    check_shared(&rt, rt.alloc(), LONG - 1, 0);
    check_shared(&rt, rt.alloc(), LONG, 4);
    check_shared(&rt, rt.alloc(), LONG + 1, 4);
}

// The first so many bytes of others, and then the end of a get.
fn cut_and_ended(rt: &impl Abort, alloc: Global, others: &[u8], count: usize) -> Vec<u8> {
    let (front, _) = others.split_at(count.min(others.len()));
    let mut wanted = Vec::from_slice(alloc, front).expect(rt, "memory");
    text(rt, &mut wanted, b"END\r\n".as_slice());
    wanted
}

fn same_length(rt: &impl Abort, seen: usize, wanted: usize, count: usize) {
    assert_eq!(rt; seen, wanted, "cut at {count}");
}

fn check_cut(rt: &impl Abort, alloc: Global, count: usize) {
    let whole = wanted_of(rt, alloc, LONG);
    let wanted = cut_and_ended(rt, alloc, whole.as_slice(), count);
    let mut gathered = two_values(rt, alloc, LONG);
    gathered.truncate(count);
    same_length(rt, gathered.len(), count.min(whole.len()), count);
    end(rt, &mut gathered);
    same_length(rt, gathered.len(), wanted.len(), count);
    let copy = copy_of(rt, alloc, &gathered);
    same(rt, copy.as_slice(), wanted.as_slice(), "cut at", count);
}

// The text has 8,272 bytes: a line up to 25, a shared value up to 4,121, CR LF and a line up to 4,169, a shared value up to
// 8,265, and then CR LF and `END`.
static PLACES: [usize; 18] = [
    0, 1, 24, 25, 26, 4120, 4121, 4122, 4168, 4169, 4170, 8264, 8265, 8266, 8271, 8272, 8273, 9000,
];

#[test]
fn a_text_with_long_values_ends_at_any_place(rt: HostRuntime) {
    for count in PLACES.as_slice() {
        check_cut(&rt, rt.alloc(), *count);
    }
}

fn push_parts(rt: &impl Abort, out: &mut Vec<u8>, parts: &[TextPart]) {
    for part in parts {
        text(rt, out, part.bytes());
    }
}

fn check_moved(rt: &impl Abort, alloc: Global, count: usize) {
    let mut gathered = two_values(rt, alloc, count);
    let mut parts = Vec::new(alloc);
    gathered.move_behind(&mut parts, 100).expect(rt, "memory");
    same_count(rt, gathered.len(), 0, count);
    end(rt, &mut gathered);
    gathered.move_behind(&mut parts, 100).expect(rt, "memory");
    let mut moved = Vec::new(alloc);
    push_parts(rt, &mut moved, parts.as_slice());
    let mut wanted = wanted_of(rt, alloc, count);
    text(rt, &mut wanted, b"END\r\n".as_slice());
    same(rt, moved.as_slice(), wanted.as_slice(), "letters", count);
}

#[test]
fn a_text_moves_behind_others_and_is_empty(rt: HostRuntime) {
    check_moved(&rt, rt.alloc(), 3);
    check_moved(&rt, rt.alloc(), LONG);
}

static MOVES: Moves = Moves {
    reclaimed: 3,
    moved: 500,
};

// Adds the texts of a refused block, of `%juggle`, of `%chunks` and of `%crawl`.
fn push_others(rt: &impl Abort, out: &mut ReplyText) {
    out.push_fault(LineFault::Chunk).expect(rt, "memory");
    out.push_moves(&MOVES).expect(rt, "memory");
    out.push_chunks(ClassNo(43), 1_048_576).expect(rt, "memory");
    out.push_histogram(&Histogram::new()).expect(rt, "memory");
}

#[test]
fn other_texts_are_added_after_a_shared_value(rt: HostRuntime) {
    let alloc = rt.alloc();
    let mut gathered = two_values(&rt, alloc, LONG);
    push_others(&rt, &mut gathered);
    let mut wanted = wanted_of(&rt, alloc, LONG);
    let others =
        b"CLIENT_ERROR bad data chunk\r\nJUGGLED 3 500\r\nCHUNKS 43 1048576\r\nCRAWL 0 0 0 0 0 0\r\nEND\r\n".as_slice();
    text(&rt, &mut wanted, others);
    same_count(&rt, gathered.len(), wanted.len(), LONG);
    let copy = copy_of(&rt, alloc, &gathered);
    same(&rt, copy.as_slice(), wanted.as_slice(), "letters", LONG);
}
