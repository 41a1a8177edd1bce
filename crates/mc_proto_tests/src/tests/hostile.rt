//! Hostile lines: too few tokens and too many, and what is no key, number, verb or block.
use super::lines::{Case, compare};

static LINES_WITH_TOO_FEW_OR_TOO_MANY_TOKENS: [Case; 15] = [
    (b"add\r\nadd a\r\nadd a 0\r\n", b"error;error;error;"),
    (
        b"add a 0 0 1 x y\r\nadd a 0 0 1 noreply noreply\r\n",
        b"error;error;",
    ),
    (
        b"replace\r\nreplace a\r\nreplace a 0\r\n",
        b"error;error;error;",
    ),
    (
        b"replace a 0 0 1 x y\r\nreplace a 0 0 1 x y z\r\n",
        b"error;error;",
    ),
    (
        b"set a\r\nset a 0\r\nset a 0 0 1 x y z\r\n",
        b"error;error;error;",
    ),
    (
        b"cas\r\ncas a\r\ncas a 0\r\ncas a 0 0\r\ncas a 0 0 1 2 x y\r\n",
        b"error;error;error;error;error;",
    ),
    (
        b"append\r\nappend a\r\nappend a 0\r\nappend a 0 0 1 x y z\r\n",
        b"error;error;error;error;",
    ),
    (
        b"prepend\r\nprepend a\r\nprepend a 0\r\nprepend a 0 0 1 x noreply\r\n",
        b"error;error;error;error;",
    ),
    (
        b"incr a 1 x y\r\nincr a 1 noreply noreply\r\nincr a 1 2 3 4 5 6\r\n",
        b"error;error;error;",
    ),
    (
        b"decr\r\ndecr a 1 x y\r\ndecr a 1 x y z\r\n",
        b"error;error;error;",
    ),
    (
        b"touch\r\ntouch a 1 x y\r\ntouch a 1 x y z\r\n",
        b"error;error;error;",
    ),
    (b"delete a b c\r\ndelete a b c d e\r\n", b"error;error;"),
    (
        b"%at 1 2\r\n%at 1 2 3\r\n%at noreply noreply\r\n",
        b"error;error;error;",
    ),
    (
        b"%juggle all all\r\n%crawl 1 2 3\r\nquit now\r\n",
        b"error;error;error;",
    ),
    (b"gets a b c d e f g\r\n", b"gets a b c d e f g;"),
];

#[test]
fn a_wrong_number_of_tokens_is_an_error(rt: HostRuntime) {
    compare(
        &rt,
        rt.alloc(),
        LINES_WITH_TOO_FEW_OR_TOO_MANY_TOKENS.as_slice(),
    );
}

static KEYS_THAT_ARE_NONE: [Case; 5] = [
    (b"gets \0 a\r\ngets a b\0c\r\n", b"format;format;"),
    (
        b"replace a\0 0 0 1\r\ncas \0a 0 0 1 1\r\n",
        b"format;format;",
    ),
    (b"delete a\0\r\n", b"format;"),
    (
        b"set a\rb 0 0 1\r\nincr a\rb 1\r\ndelete \r\r\n",
        b"format;format;format;",
    ),
    (
        b"get a\x7f\r\nget \x01\r\nget a\tb\r\n",
        b"get a\x7f;get \x01;get a\tb;",
    ),
];

#[test]
fn tokens_that_are_no_key_are_refused(rt: HostRuntime) {
    compare(&rt, rt.alloc(), KEYS_THAT_ARE_NONE.as_slice());
}

static NUMBERS_THAT_ARE_NONE: [Case; 10] = [
    (
        b"set a -1 0 1\r\nset a 0x1 0 1\r\nset a 1.0 0 1\r\nset a \xb9 0 1\r\n",
        b"format;format;format;format;",
    ),
    (
        b"set a 0 1e3 1\r\nset a 0 0000000000000000001 1\r\nset a 0 -0000000000000000000 1\r\n",
        b"format;format;format;",
    ),
    (
        b"set a 0 0 1.\r\nset a 0 0 +1\r\nset a 0 0 18446744073709551616\r\nset a 0 0 000000000000000000001\r\n",
        b"format;format;format;format;",
    ),
    (
        b"cas a 0 0 1 -1\r\ncas a 0 0 1 000000000000000000007\r\n",
        b"format;format;",
    ),
    (
        b"set a 0 000000000000000001 00000000000000000001\r\nx\r\n",
        b"set a 0 1 x;",
    ),
    (
        b"cas a 0 0 1 00000000000000000007\r\nx\r\n",
        b"cas 7 a 0 0 x;",
    ),
    (
        b"incr a +1\r\nincr a 1.5\r\nincr a 0x10\r\nincr a \xb9\r\ndecr a 99999999999999999999\r\n",
        b"delta;delta;delta;delta;delta;",
    ),
    (b"incr a 00000000000000000001\r\n", b"incr a 1;"),
    (
        b"touch a --1\r\ntouch a 1000000000000000000\r\ntouch a -\r\ntouch a 1x\r\n",
        b"exptime;exptime;exptime;exptime;",
    ),
    (
        b"touch a 999999999999999999\r\n",
        b"touch a 999999999999999999;",
    ),
];

#[test]
fn tokens_that_are_no_number_are_refused(rt: HostRuntime) {
    compare(&rt, rt.alloc(), NUMBERS_THAT_ARE_NONE.as_slice());
}

static VERBS_THAT_ARE_NONE: [Case; 5] = [
    (
        b"Set a 0 0 1\r\nset\0 a 0 0 1\r\nsett a\r\nge a\r\n\0\r\n",
        b"error;error;error;error;error;",
    ),
    (
        b"get\xa0a\r\n\tget a\r\ngetget a\r\nget,a\r\n",
        b"error;error;error;error;",
    ),
    (
        b"appends a 0 0 1\r\nx\r\nPrepend a 0 0 1\r\nx\r\ngatss 0 a\r\n",
        b"error;error;error;error;error;",
    ),
    (
        b"flush_all\r\nversion\r\nverbosity 1\r\nstats items\r\nms a 1\r\nmn\r\n",
        b"error;error;error;error;error;error;",
    ),
    (
        b"%at1\r\n%\r\n%%at 1\r\n%next%next\r\n%juggle\tall\r\n",
        b"error;error;error;error;error;",
    ),
];

#[test]
fn words_that_are_no_verb_are_errors(rt: HostRuntime) {
    compare(&rt, rt.alloc(), VERBS_THAT_ARE_NONE.as_slice());
}

static NOREPLY_IN_EACH_PLACE: [Case; 3] = [
    (
        b"set noreply a 0 0 1\r\ndelete a NOREPLY\r\ndecr a 1 noreply2\r\n",
        b"error;error;error;",
    ),
    (
        b"set a noreply 0 1\r\nset a 0 noreply 1\r\ncas a 0 noreply 1 1\r\n",
        b"format;format;format;",
    ),
    (
        b"incr noreply 1\r\ntouch noreply 0 noreply\r\nget a noreply noreply\r\n",
        b"incr noreply 1;~touch noreply 0;get a noreply noreply;",
    ),
];

#[test]
fn noreply_in_each_place(rt: HostRuntime) {
    compare(&rt, rt.alloc(), NOREPLY_IN_EACH_PLACE.as_slice());
}

static BLOCKS_OF_ANOTHER_LENGTH: [Case; 5] = [
    (b"set a 0 0 2\r\nx\r\nget a\r\n", b"chunk;error;"),
    (b"set a 0 0 1\r\nx\nget a\r\n", b"chunk;error;"),
    (b"set a 0 0 1\r\nx\r\rget a\r\n", b"chunk;get a;"),
    (
        b"set a 0 0 5\r\nget b\r\nget a\r\n",
        b"set a 0 0 get b;get a;",
    ),
    (
        b"   set   a 0 0 1   \r\nx\r\ndelete  a \r\n",
        b"set a 0 0 x;delete a;",
    ),
];

#[test]
fn a_block_of_another_length_is_a_bad_chunk(rt: HostRuntime) {
    compare(&rt, rt.alloc(), BLOCKS_OF_ANOTHER_LENGTH.as_slice());
}
