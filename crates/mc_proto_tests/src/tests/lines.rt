//! Lines of each verb, with the requests that the rules give them.
use crate::tests::show::{requests_of, same};
use std::alloc::Global;
use std::process::Abort;

/// An input, and its requests in short.
pub(super) type Case = (&'static [u8], &'static [u8]);

fn check_case(rt: &impl Abort, alloc: Global, case: &Case, place: usize) {
    let whole = requests_of(rt, alloc, case.0, 4096);
    same(rt, whole.as_slice(), case.1, "whole, at row", place);
    let bytes = requests_of(rt, alloc, case.0, 1);
    same(rt, bytes.as_slice(), case.1, "byte by byte, at row", place);
}

/// Reads each input whole, and byte by byte, and compares what is shown.
pub(super) fn compare(rt: &impl Abort, alloc: Global, cases: &[Case]) {
    for (place, case) in cases.iter().enumerate() {
        check_case(rt, alloc, case, place);
    }
}

static LINES_AND_GETS: [Case; 19] = [
    (b"get a\r\n", b"get a;"),
    (b"get a\n", b"get a;"),
    (b"  get   a  \r\n", b"get a;"),
    (b"get a noreply\r\n", b"get a noreply;"),
    (b"gets a b a\r\n", b"gets a b a;"),
    (
        b"get a b c d e f\r\nget a b c d e f g\r\n",
        b"get a b c d e f;get a b c d e f g;",
    ),
    (
        b"gets a b c d e f g h i j k\r\n",
        b"gets a b c d e f g h i j k;",
    ),
    (b"get a\x80\xff\r\n", b"get a\x80\xff;"),
    (b"get\r\n", b"error;"),
    (b"gets \r\n", b"error;"),
    (b"GET a\r\n", b"error;"),
    (b"get\ta\r\n", b"error;"),
    (b"\r\n\n   \r\n\r\r\n", b"error;error;error;error;"),
    (b"get a\rb\r\nget a\r\r\n", b"format;format;"),
    (b"get \0\r\n", b"format;"),
    (b"get a b\0 c\r\nget a\r\n", b"format;get a;"),
    (b"noreply\r\nstats\r\nmg a v\r\n", b"error;error;error;"),
    (b"\xff\xff\xff\r\nget a\r\n", b"error;get a;"),
    (b"get a\r\nget b", b"get a;"),
];

#[test]
fn get_lines_are_read(rt: HostRuntime) {
    compare(&rt, rt.alloc(), LINES_AND_GETS.as_slice());
}

static GATS: [Case; 21] = [
    (b"gat 0 a\r\n", b"gat 0 a;"),
    (b"gats 0 a\n", b"gats 0 a;"),
    (b"  gat   0   a  \r\n", b"gat 0 a;"),
    (b"gats 100 a b\r\n", b"gats 100 a b;"),
    (b"gat -1 a\r\n", b"gat -1 a;"),
    (b"gat 0 a noreply\r\n", b"gat 0 a noreply;"),
    (b"gat 0 noreply\r\n", b"gat 0 noreply;"),
    (
        b"gat 5  a\r\ngat 5 a \r\ngats  5 a\r\n",
        b"gat 5 a;gat 5 a;gats 5 a;",
    ),
    (
        b"gat 5 a b c d e f\r\ngats -5 a b c d e f g h i j\r\n",
        b"gat 5 a b c d e f;gats -5 a b c d e f g h i j;",
    ),
    (
        b"gat 999999999999999999 a\r\ngats -999999999999999999 a\r\n",
        b"gat 999999999999999999 a;gats -999999999999999999 a;",
    ),
    (b"gat\r\ngats\r\n", b"error;error;"),
    (b"gat 0\r\ngats 0 \r\n", b"error;error;"),
    (b"gat x\r\ngats \0\r\n", b"error;error;"),
    (b"gat x a\r\ngats x a b\r\n", b"exptime;exptime;"),
    (
        b"gat a 0\r\ngats noreply a noreply\r\n",
        b"exptime;exptime;",
    ),
    (
        b"gat - a\r\ngat --1 a\r\ngat +1 a\r\ngat 1000000000000000000 a\r\n",
        b"exptime;exptime;exptime;exptime;",
    ),
    (b"gat x \0\r\ngats x a \0\r\n", b"exptime;exptime;"),
    (b"gat 0 \0\r\ngats 0 a\rb\r\n", b"format;format;"),
    (
        b"gat 0 a \0 b\r\ngats 0 \0 noreply\r\nget a\r\n",
        b"format;format;get a;",
    ),
    (
        b"GAT 0 a\r\ngatt 0 a\r\nga 0 a\r\ngat\t0 a\r\n",
        b"error;error;error;error;",
    ),
    (b"gat 0 a\r\ngat 0 b", b"gat 0 a;"),
];

#[test]
fn gat_lines_are_read(rt: HostRuntime) {
    compare(&rt, rt.alloc(), GATS.as_slice());
}

static STORAGE_LINES: [Case; 18] = [
    (b"set a 0 0 1\r\nx\r\n", b"set a 0 0 x;"),
    (b"set  a  0  0  1 \nx\r\n", b"set a 0 0 x;"),
    (b"add a 1 2 0\r\n\r\n", b"add a 1 2 ;"),
    (
        b"replace a 4294967295 -5 2\r\n\r\n\r\n",
        b"replace a 4294967295 -5 \r\n;",
    ),
    (b"cas a 0 0 1 7\r\nx\r\n", b"cas 7 a 0 0 x;"),
    (
        b"cas a 0 0 1 18446744073709551615\r\nx\r\n",
        b"cas 18446744073709551615 a 0 0 x;",
    ),
    (b"set a 0 0 1 noreply\r\nx\r\n", b"~set a 0 0 x;"),
    (b"cas a 0 0 1 7 noreply\r\nx\r\n", b"~cas 7 a 0 0 x;"),
    (
        b"set a 00000000000000000001 -0 01\r\nx\r\n",
        b"set a 1 0 x;",
    ),
    (
        b"set a 0 999999999999999999 0\r\n\r\n",
        b"set a 0 999999999999999999 ;",
    ),
    (
        b"set a 0 -999999999999999999 0\r\n\r\n",
        b"set a 0 -999999999999999999 ;",
    ),
    (b"set noreply 0 0 0\r\n\r\n", b"set noreply 0 0 ;"),
    (b"set a 0 0 0\r\nget a\r\n", b"chunk;error;"),
    (b"set a 0 0 1\r\nxy\r\n", b"chunk;error;"),
    (b"set a 0 0 1 noreply\r\nxy\r\n", b"~chunk;error;"),
    (b"set a 0 0 1\nx\n\n", b"chunk;"),
    (b"set a 0 0 1\n\r\n\r", b"chunk;"),
    (b"set a 0 0 2147483645\r\nxyz", b""),
];

#[test]
fn storage_lines_are_read(rt: HostRuntime) {
    compare(&rt, rt.alloc(), STORAGE_LINES.as_slice());
}

static REFUSED_STORAGE_LINES: [Case; 16] = [
    (b"set\r\n", b"error;"),
    (b"set a 0 0 1 2\r\n", b"error;"),
    (b"set a 0 0 1 noreply x\r\n", b"error;"),
    (b"cas a 0 0 1 1 1\r\n", b"error;"),
    (b"set \0 x 0 0 0 0\r\n", b"error;"),
    (b"set a 0 0 noreply\r\n", b"format;"),
    (b"set a 4294967296 0 1\r\nx\r\n", b"format;error;"),
    (b"set a 000000000000000000001 0 1\r\n", b"format;"),
    (b"set a 99999999999999999999 0 1\r\n", b"format;"),
    (b"set a 0 - 1\r\n", b"format;"),
    (b"set a 0 --1 1\r\n", b"format;"),
    (b"set a 0 +1 1\r\n", b"format;"),
    (b"set a 0 1000000000000000000 1\r\n", b"format;"),
    (b"set a 0 0 2147483646\r\n", b"format;"),
    (b"set a 0 0 -1\r\n", b"format;"),
    (b"cas a 0 0 1 18446744073709551616\r\n", b"format;"),
];

#[test]
fn bad_storage_lines_are_refused(rt: HostRuntime) {
    compare(&rt, rt.alloc(), REFUSED_STORAGE_LINES.as_slice());
}

static OTHER_COMMANDS: [Case; 15] = [
    (b"incr a 1\r\n", b"incr a 1;"),
    (
        b"decr a 18446744073709551615 noreply\r\n",
        b"~decr a 18446744073709551615;",
    ),
    (b"incr a 18446744073709551616\r\n", b"delta;"),
    (b"decr a 000000000000000000001\r\n", b"delta;"),
    (b"incr a noreply\r\n", b"delta;"),
    (b"decr a -1\r\n", b"delta;"),
    (b"incr\r\nincr a 1 2\r\n", b"error;error;"),
    (b"touch a -1 noreply\r\n", b"~touch a -1;"),
    (b"touch a 0\r\n", b"touch a 0;"),
    (b"touch a noreply\r\n", b"exptime;"),
    (b"touch a 1 2\r\n", b"error;"),
    (b"delete a\r\n", b"delete a;"),
    (b"delete noreply\r\n", b"delete noreply;"),
    (b"delete noreply noreply\r\n", b"~delete noreply;"),
    (b"delete a 0\r\n", b"error;"),
];

#[test]
fn other_lines_are_read(rt: HostRuntime) {
    compare(&rt, rt.alloc(), OTHER_COMMANDS.as_slice());
}

static DIRECTIVES: [Case; 16] = [
    (b"%at 0\r\n", b"at 0;"),
    (b"%at 4611686018427387904\r\n", b"at 4611686018427387904;"),
    (b"%at 4611686018427387905\r\n", b"format;"),
    (b"%at -1\r\n", b"format;"),
    (b"%at\r\n%at 1 noreply\r\n", b"error;error;"),
    (b"%juggle all\r\n", b"juggle all;"),
    (b"%juggle 43\r\n", b"juggle 43;"),
    (b"%juggle 44\r\n", b"format;"),
    (b"%juggle 0\r\n", b"format;"),
    (b"%crawl 01\r\n", b"crawl 1;"),
    (b"%crawl ALL\r\n", b"format;"),
    (b"%crawl all noreply\r\n", b"error;"),
    (b"%crawl\r\n%juggle 1 2\r\n", b"error;error;"),
    (b"%next\r\nquit\r\n", b"next;quit;"),
    (b"%next 1\r\nquit noreply\r\n", b"error;error;"),
    (b"% at 1\r\n%AT 1\r\n", b"error;error;"),
];

#[test]
fn directives_are_read(rt: HostRuntime) {
    compare(&rt, rt.alloc(), DIRECTIVES.as_slice());
}

static LIMITS_OF_CHUNKS: [Case; 16] = [
    (b"%chunks 1 5\r\n", b"chunks 1 5;"),
    (b"%chunks 43 1048576\r\n", b"chunks 43 1048576;"),
    (b"%chunks 01 0000001\r\n", b"chunks 1 1;"),
    (b"%chunks all 5\r\n", b"format;"),
    (b"%chunks 0 5\r\n", b"format;"),
    (b"%chunks 44 5\r\n", b"format;"),
    (b"%chunks x 5\r\n", b"format;"),
    (b"%chunks 1 0\r\n", b"format;"),
    (b"%chunks 1 1048577\r\n", b"format;"),
    (b"%chunks 1 x\r\n", b"format;"),
    (b"%chunks 1 noreply\r\n", b"format;"),
    (b"%chunks\r\n", b"error;"),
    (b"%chunks 1\r\n%chunks 0\r\n", b"error;error;"),
    (b"%chunks 1 2 3\r\n", b"error;"),
    (b"%chunks all 0 noreply\r\n", b"error;"),
    (b"%CHUNKS 1 5\r\n%chunk 1 5\r\n", b"error;error;"),
];

#[test]
fn limits_of_chunks(rt: HostRuntime) {
    compare(&rt, rt.alloc(), LIMITS_OF_CHUNKS.as_slice());
}
