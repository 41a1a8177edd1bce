//! Inputs and the scripts that they are cut into, each with a `|` behind it.
use crate::tests::show::{limits, text};
use mc_proto::split_scripts;
use std::alloc::Global;
use std::collections::VecDeque;
use std::process::Abort;

// A name, an input, and its scripts.
type Case = (&'static str, &'static [u8], &'static [u8]);

fn push_piece(rt: &impl Abort, alloc: Global, pieces: &mut VecDeque<Vec<u8>>, piece: &[u8]) {
    let copy = Vec::from_slice(alloc, piece).expect(rt, "memory");
    pieces.push_back(copy).expect(rt, "memory");
}

// The pieces of an input, each of so many bytes, with the last one shorter.
fn pieces_of(rt: &impl Abort, alloc: Global, input: &[u8], size: usize) -> VecDeque<Vec<u8>> {
    let mut pieces = VecDeque::new(alloc);
    for piece in input.chunks(size.max(1)) {
        push_piece(rt, alloc, &mut pieces, piece);
    }
    pieces
}

fn push_pieces(rt: &impl Abort, out: &mut Vec<u8>, script: &VecDeque<Vec<u8>>) {
    for piece in script.iter() {
        text(rt, out, piece.as_slice());
    }
}

fn push_all(rt: &impl Abort, out: &mut Vec<u8>, scripts: &[VecDeque<Vec<u8>>]) {
    for script in scripts {
        push_pieces(rt, out, script);
        text(rt, out, b"|".as_slice());
    }
}

// The scripts of an input in pieces, each with a `|` behind it.
fn split_in(rt: &impl Abort, alloc: Global, input: VecDeque<Vec<u8>>) -> Vec<u8> {
    let scripts = split_scripts(alloc, input, limits()).expect(rt, "memory");
    let mut out = Vec::new(alloc);
    push_all(rt, &mut out, scripts.as_slice());
    out
}

fn same(rt: &impl Abort, seen: &[u8], wanted: &[u8], name: &str, size: usize) {
    assert_eq!(rt; seen, wanted, "{name}, in pieces of {size}");
}

// The input is cut in pieces of a size.
fn check_pieces(
    rt: &impl Abort,
    alloc: Global,
    name: &str,
    input: &[u8],
    want: &[u8],
    size: usize,
) {
    let pieces = pieces_of(rt, alloc, input, size);
    let seen = split_in(rt, alloc, pieces);
    same(rt, seen.as_slice(), want, name, size);
}

// Each input is cut in pieces of a byte, in pieces of seven, and in one piece.
fn compare(rt: &impl Abort, alloc: Global, cases: &[Case]) {
    for (name, input, want) in cases {
        check_pieces(rt, alloc, *name, *input, *want, 1);
        check_pieces(rt, alloc, *name, *input, *want, 7);
        check_pieces(rt, alloc, *name, *input, *want, 1_000);
    }
}

static EACH_NEXT_BEGINS_A_SCRIPT: [Case; 10] = [
    ("nothing", b"", b"|"),
    ("no next", b"get a\r\nget b\r\n", b"get a\r\nget b\r\n|"),
    ("next alone", b"%next\r\n", b"||"),
    (
        "three scripts",
        b"get a\r\n%next\r\nget b\r\nget c\r\n%next\nget d",
        b"get a\r\n|get b\r\nget c\r\n|get d|",
    ),
    ("empty scripts", b"%next\n%next\r\n", b"|||"),
    (
        "an empty line is a script's",
        b"\r\n%next\n\n%next\r\n",
        b"\r\n|\n||",
    ),
    (
        "spaces",
        b"get a\n  %next  \r\nget b\n %next\n%next \nget c\n",
        b"get a\n|get b\n||get c\n|",
    ),
    (
        "behind quit",
        b"quit\r\nget a\r\n%next\r\nget b\r\n",
        b"quit\r\nget a\r\n|get b\r\n|",
    ),
    (
        "behind a gat, good or refused",
        b"gat 0 a\r\n%next\r\ngats x a\r\n%next\r\nget k\r\n",
        b"gat 0 a\r\n|gats x a\r\n|get k\r\n|",
    ),
    (
        "behind a refused line, which has no block",
        b"set k 0 0 x\r\n%next\r\nget k\r\n",
        b"set k 0 0 x\r\n|get k\r\n|",
    ),
];

#[test]
fn each_next_begins_a_script(rt: HostRuntime) {
    compare(&rt, rt.alloc(), EACH_NEXT_BEGINS_A_SCRIPT.as_slice());
}

static OTHER_LINES_BEGIN_NO_SCRIPT: [Case; 6] = [
    (
        "a token too many",
        b"get a\r\n%next x\r\nget b\r\n",
        b"get a\r\n%next x\r\nget b\r\n|",
    ),
    (
        "upper case",
        b"%NEXT\r\n%Next\r\nget b\r\n",
        b"%NEXT\r\n%Next\r\nget b\r\n|",
    ),
    (
        "other words",
        b"next\n%nex\n%nextx\n% next\n",
        b"next\n%nex\n%nextx\n% next\n|",
    ),
    (
        "a CR within the line",
        b"%next\r\r\nget b\r\n",
        b"%next\r\r\nget b\r\n|",
    ),
    ("no LF", b"get a\r\n%next", b"get a\r\n%next|"),
    ("a CR and no LF", b"get a\r\n%next\r", b"get a\r\n%next\r|"),
];

#[test]
fn other_lines_begin_no_script(rt: HostRuntime) {
    compare(&rt, rt.alloc(), OTHER_LINES_BEGIN_NO_SCRIPT.as_slice());
}

static A_NEXT_WITHIN_A_BLOCK_IS_PART_OF_IT: [Case; 7] = [
    (
        "a kept block",
        b"set k 0 0 9\r\n%next\r\nxx\r\nget k\r\n",
        b"set k 0 0 9\r\n%next\r\nxx\r\nget k\r\n|",
    ),
    (
        "kept blocks of each verb",
        b"add k 0 0 7\r\n\n%next\n\r\nreplace k 0 0 7\n\n%next\n\r\ncas k 0 0 7 1 noreply\n\n%next\n\r\n%next\n",
        b"add k 0 0 7\r\n\n%next\n\r\nreplace k 0 0 7\n\n%next\n\r\ncas k 0 0 7 1 noreply\n\n%next\n\r\n||",
    ),
    (
        "blocks of append and prepend",
        b"append k 0 0 7\r\n\n%next\n\r\nprepend k 0 0 7\n\n%next\n\r\n%next\n",
        b"append k 0 0 7\r\n\n%next\n\r\nprepend k 0 0 7\n\n%next\n\r\n||",
    ),
    (
        "a skipped block",
        b"set k 0 0 40\r\naaaaaaaaaa\r\n%next\r\nbbbbbbbbbbbbbbbbbbbbb\r\n%next\r\nget a\r\n",
        b"set k 0 0 40\r\naaaaaaaaaa\r\n%next\r\nbbbbbbbbbbbbbbbbbbbbb\r\n|get a\r\n|",
    ),
    (
        "behind a block of another end",
        b"set a 0 0 1\r\nxyz\n%next\n",
        b"set a 0 0 1\r\nxyz\n||",
    ),
    (
        "an unfinished block",
        b"get a\n%next\nset k 0 0 9\r\n%next\r\n%n",
        b"get a\n|set k 0 0 9\r\n%next\r\n%n|",
    ),
    (
        "an unfinished skipped block",
        b"set k 0 0 40\r\n%next\r\n%next\r\n",
        b"set k 0 0 40\r\n%next\r\n%next\r\n|",
    ),
];

#[test]
fn a_next_within_a_block_is_part_of_it(rt: HostRuntime) {
    compare(
        &rt,
        rt.alloc(),
        A_NEXT_WITHIN_A_BLOCK_IS_PART_OF_IT.as_slice(),
    );
}

// So many bytes `a`, and then these.
fn long(rt: &impl Abort, alloc: Global, count: usize, after: &[u8]) -> Vec<u8> {
    let mut input = Vec::new(alloc);
    input.resize(count, b'a').expect(rt, "memory");
    input.extend_from_slice(after).expect(rt, "memory");
    input
}

// A line of so many bytes `a` with others behind it, in pieces of so many bytes.
fn check_long(
    rt: &impl Abort,
    alloc: Global,
    count: usize,
    after: &[u8],
    want: &[u8],
    size: usize,
) {
    let input = long(rt, alloc, count, after);
    let wanted = long(rt, alloc, count, want);
    check_pieces(
        rt,
        alloc,
        "a long line",
        input.as_slice(),
        wanted.as_slice(),
        size,
    );
}

#[test]
fn no_script_begins_behind_a_line_that_is_too_long(rt: HostRuntime) {
    let after = b"\n%next\nget a\n%next\n".as_slice();
    let one = b"\n%next\nget a\n%next\n|".as_slice();
    let three = b"\n|get a\n||".as_slice();
    for size in [1_000, 100_000] {
        check_long(&rt, rt.alloc(), 65_537, after, one, size);
        check_long(&rt, rt.alloc(), 65_536, after, three, size);
    }
}

static PIECES: [&[u8]; 6] = [
    b"get a\r\nget",
    b"",
    b" b\r\n%",
    b"next\r\nset k 0 0 9\r\n%next",
    b"\r\nxx\r\n%next\n%next\nget c\r\n",
    b"get d",
];

#[test]
fn pieces_move_to_their_scripts(rt: HostRuntime) {
    let alloc = rt.alloc();
    let mut input = VecDeque::new(alloc);
    for piece in PIECES.as_slice() {
        push_piece(&rt, alloc, &mut input, *piece);
    }
    let seen = split_in(&rt, alloc, input);
    let want = b"get a\r\nget b\r\n|set k 0 0 9\r\n%next\r\nxx\r\n||get c\r\nget d|".as_slice();
    same(&rt, seen.as_slice(), want, "six pieces", 0);
}
