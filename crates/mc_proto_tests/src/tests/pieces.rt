//! One stream at every cut, and the limits of lines and keys.
use crate::tests::show::{feed, limits, read, read_given, same};
use mc_proto::Reader;
use std::alloc::Global;
use std::process::Abort;

static EACH_KIND: &[u8] =
    b"set a 7 -3 4 noreply\r\nx\r\ny\r\n  get   a b  \r\ngets a\r\n\r\nadd a 0 0 37\r\n0123456789012345678901234567890123456\r\nset a 0 0 1\r\nxyz\nincr a x\r\ntouch a x noreply\r\ndelete a\r\ngat x a\r\ngats -1 a b\r\nappend a 1 2 2\r\nx\n\r\nprepend a 0 0 36 noreply\r\n012345678901234567890123456789012345\r\n%at 5\r\n%juggle all\r\n%crawl 2\r\n%next\r\nquit\r\nset b 0 0 9\r\n1234";

static EACH_KIND_READ: &[u8] =
    b"~set a 7 -3 x\r\ny;get a b;gets a;error;huge add a;chunk;error;delta;~exptime;delete a;exptime;gats -1 a b;append a 1 2 x\n;~huge prepend a;at 5;juggle all;crawl 2;next;quit;a block is left";

fn check_lent(rt: &impl Abort, alloc: Global, size: usize) {
    let seen = read(rt, alloc, EACH_KIND, size.max(1));
    same(rt, seen.as_slice(), EACH_KIND_READ, "in pieces of", size);
}

#[test]
fn pieces_of_any_size_read_alike(rt: HostRuntime) {
    for size in 1..=EACH_KIND.len() {
        check_lent(&rt, rt.alloc(), size);
    }
}

static GIVEN: &[u8] =
    b"set a 7 0 5\r\nhello\r\nget a\r\nset b 0 0 2 noreply\r\n\r\n\r\nset c 0 0 1\r\nxyz\nadd d 0 0 0\r\n\r\nset e 0 0 3\r\nab";

static GIVEN_READ: &[u8] =
    b"set a 7 0 hello;get a;~set b 0 0 \r\n;chunk;error;add d 0 0 ;a block is left";

fn check_given(rt: &impl Abort, alloc: Global, size: usize) {
    let seen = read_given(rt, alloc, GIVEN, size.max(1));
    same(rt, seen.as_slice(), GIVEN_READ, "in pieces of", size);
}

#[test]
fn pieces_that_are_given_away_read_alike(rt: HostRuntime) {
    for size in 1..=GIVEN.len() {
        check_given(&rt, rt.alloc(), size);
    }
}

// What stands before so many bytes `a`, and what behind them; what is read, and what is left.
type Row = (&'static [u8], usize, &'static [u8], &'static [u8]);

// So many bytes `a` between others.
fn long(rt: &impl Abort, alloc: Global, before: &[u8], count: usize, after: &[u8]) -> Vec<u8> {
    let mut middle = Vec::new(alloc);
    middle.resize(count, b'a').expect(rt, "memory");
    let mut input = Vec::from_slice(alloc, before).expect(rt, "memory");
    input
        .extend_from_slice(middle.as_slice())
        .expect(rt, "memory");
    input.extend_from_slice(after).expect(rt, "memory");
    input
}

fn check_long(rt: &impl Abort, alloc: Global, row: &Row, place: usize) {
    let input = long(rt, alloc, row.0, row.1, row.2);
    let seen = read(rt, alloc, input.as_slice(), 1000);
    same(rt, seen.as_slice(), row.3, "at row", place);
}

fn check_rows(rt: &impl Abort, alloc: Global, rows: &[Row]) {
    for (place, row) in rows.iter().enumerate() {
        check_long(rt, alloc, row, place);
    }
}

static LONG_LINES: [Row; 6] = [
    (
        b"",
        65_535,
        b"\r\nget b\r\nget",
        b"error;get b;a line is left",
    ),
    (
        b"",
        65_536,
        b"\nget b\r\nget",
        b"error;get b;a line is left",
    ),
    (b"", 65_536, b"\r\nget b\r\nget", b"long;nothing is left"),
    (b"", 65_537, b"\nget b\r\nget", b"long;nothing is left"),
    (b"", 65_536, b"", b"a line is left"),
    (b"", 65_537, b"", b"long;nothing is left"),
];

#[test]
fn a_line_is_too_long_from_65537_bytes_on(rt: HostRuntime) {
    check_rows(&rt, rt.alloc(), LONG_LINES.as_slice());
}

static KEYS_OF_251_BYTES: [Row; 5] = [
    (b"get ", 251, b"\r\n", b"format;nothing is left"),
    (b"gat 0 ", 251, b"\r\n", b"format;nothing is left"),
    (b"gats 0 a ", 251, b" b\r\n", b"format;nothing is left"),
    (b"gat x ", 251, b"\r\n", b"exptime;nothing is left"),
    (
        b"append ",
        251,
        b" 0 0 1 noreply\r\n",
        b"~format;nothing is left",
    ),
];

#[test]
fn a_key_has_at_most_250_bytes(rt: HostRuntime) {
    let alloc = rt.alloc();
    check_rows(&rt, alloc, KEYS_OF_251_BYTES.as_slice());
    let line = long(&rt, alloc, b"delete ".as_slice(), 250, b"\r\n".as_slice());
    let seen = read(&rt, alloc, line.as_slice(), 1000);
    let after = b";nothing is left".as_slice();
    let wanted = long(&rt, alloc, b"delete ".as_slice(), 250, after);
    same(&rt, seen.as_slice(), wanted.as_slice(), "bytes", 250);
}

static BLOCKS: [Row; 3] = [
    (
        b"set k 0 0 35\r\n",
        35,
        b"\r\n",
        b"set k 0 0 aaaaaaaaaaaaaaaaaaaaaaaaaaaaaaaaaaa;nothing is left",
    ),
    (
        b"set k 0 0 36 noreply\r\n",
        38,
        b"\r\n",
        b"~huge set k;error;nothing is left",
    ),
    (b"set k 0 0 36\r\n", 37, b"", b"a block is left"),
];

#[test]
fn a_block_is_skipped_where_no_class_holds_it(rt: HostRuntime) {
    check_rows(&rt, rt.alloc(), BLOCKS.as_slice());
}

#[test]
fn a_closed_reader_answers_nothing(rt: HostRuntime) {
    let alloc = rt.alloc();
    let mut line = Vec::new(alloc);
    line.resize(65_537, 0).expect(&rt, "memory");
    let mut reader = Reader::new(alloc, limits());
    let mut seen = Vec::new(alloc);
    feed(&rt, &mut reader, &mut seen, line.as_slice());
    feed(&rt, &mut reader, &mut seen, b"\r\n".as_slice());
    feed(
        &rt,
        &mut reader,
        &mut seen,
        b"%next\r\nget a\r\n".as_slice(),
    );
    same(&rt, seen.as_slice(), b"long;".as_slice(), "piece", 3);
}
