//! Each row of the table of lines: each token wrong in its place, one token fewer and one more, and noreply in each place.
use super::lines::{Case, compare};

static EACH_TOKEN_WRONG_IN_ITS_PLACE: [Case; 10] = [
    (
        b"get \0\r\ngets \0\r\ngets a \0\r\nget a \0 b\r\n",
        b"format;format;format;format;",
    ),
    (
        b"set \0 0 0 1\r\nset a x 0 1\r\nset a 0 x 1\r\nset a 0 0 x\r\n",
        b"format;format;format;format;",
    ),
    (
        b"add \0 0 0 1\r\nadd a x 0 1\r\nadd a 0 x 1\r\nadd a 0 0 x\r\n",
        b"format;format;format;format;",
    ),
    (
        b"replace \0 0 0 1\r\nreplace a x 0 1\r\nreplace a 0 x 1\r\nreplace a 0 0 x\r\n",
        b"format;format;format;format;",
    ),
    (
        b"cas \0 0 0 1 1\r\ncas a x 0 1 1\r\ncas a 0 x 1 1\r\ncas a 0 0 x 1\r\ncas a 0 0 1 x\r\n",
        b"format;format;format;format;format;",
    ),
    (
        b"append \0 0 0 1\r\nappend a x 0 1\r\nprepend a 0 x 1\r\nprepend a 0 0 x\r\n",
        b"format;format;format;format;",
    ),
    (
        b"gat x a\r\ngat 0 \0\r\ngats x a b\r\ngats 0 a \0\r\n",
        b"exptime;format;exptime;format;",
    ),
    (
        b"incr \0 1\r\nincr a x\r\ndecr \0 1\r\ndecr a x\r\n",
        b"format;delta;format;delta;",
    ),
    (
        b"touch \0 0\r\ntouch a x\r\ndelete \0\r\n",
        b"format;exptime;format;",
    ),
    (
        b"%at x\r\n%juggle x\r\n%crawl x\r\n%juggle -1\r\n%crawl 0\r\n",
        b"format;format;format;format;format;",
    ),
];

#[test]
fn each_token_wrong_in_its_place(rt: HostRuntime) {
    compare(&rt, rt.alloc(), EACH_TOKEN_WRONG_IN_ITS_PLACE.as_slice());
}

static EACH_TOKEN_WRONG_IN_A_QUIET_LINE: [Case; 9] = [
    (
        b"set \0 0 0 1 noreply\r\nset a x 0 1 noreply\r\nset a 0 x 1 noreply\r\nset a 0 0 x noreply\r\n",
        b"~format;~format;~format;~format;",
    ),
    (
        b"add \0 0 0 1 noreply\r\nadd a x 0 1 noreply\r\nadd a 0 x 1 noreply\r\nadd a 0 0 x noreply\r\n",
        b"~format;~format;~format;~format;",
    ),
    (
        b"replace \0 0 0 1 noreply\r\nreplace a x 0 1 noreply\r\nreplace a 0 x 1 noreply\r\nreplace a 0 0 x noreply\r\n",
        b"~format;~format;~format;~format;",
    ),
    (
        b"cas \0 0 0 1 1 noreply\r\ncas a x 0 1 1 noreply\r\ncas a 0 x 1 1 noreply\r\ncas a 0 0 x 1 noreply\r\ncas a 0 0 1 x noreply\r\n",
        b"~format;~format;~format;~format;~format;",
    ),
    (
        b"append \0 0 0 1 noreply\r\nappend a x 0 1 noreply\r\nprepend a 0 x 1 noreply\r\nprepend a 0 0 x noreply\r\n",
        b"~format;~format;~format;~format;",
    ),
    (
        b"incr \0 1 noreply\r\nincr a x noreply\r\ndecr \0 1 noreply\r\ndecr a x noreply\r\n",
        b"~format;~delta;~format;~delta;",
    ),
    (
        b"touch \0 0 noreply\r\ntouch a x noreply\r\ndelete \0 noreply\r\n",
        b"~format;~exptime;~format;",
    ),
    (
        b"set a 4294967296 0 1 noreply\r\nadd a 0 0 2147483646 noreply\r\ncas a 0 0 1 18446744073709551616 noreply\r\n",
        b"~format;~format;~format;",
    ),
    (
        b"decr a 18446744073709551616 noreply\r\ntouch a 1000000000000000000 noreply\r\n",
        b"~delta;~exptime;",
    ),
];

#[test]
fn each_token_wrong_in_a_quiet_line(rt: HostRuntime) {
    compare(&rt, rt.alloc(), EACH_TOKEN_WRONG_IN_A_QUIET_LINE.as_slice());
}

static OF_TWO_WRONG_TOKENS_THE_FIRST_NAMES_THE_FAULT: [Case; 6] = [
    (
        b"incr \0 x\r\ndecr \0 x\r\ntouch \0 x\r\n",
        b"format;format;format;",
    ),
    (
        b"incr \0 x noreply\r\ndecr \0 x noreply\r\ntouch \0 x noreply\r\n",
        b"~format;~format;~format;",
    ),
    (
        b"set \0 x 0 1\r\nadd a x x 1\r\nreplace a 0 x x\r\nset \0 0 0 x\r\n",
        b"format;format;format;format;",
    ),
    (
        b"cas \0 0 0 1 x\r\ncas a x 0 1 x\r\ncas a 0 x 1 x\r\ncas a 0 0 x x\r\ncas \0 x x x x noreply\r\n",
        b"format;format;format;format;~format;",
    ),
    (b"get \0 \0\r\n", b"format;"),
    (
        b"gat x \0\r\ngats - a \0\r\nappend \0 x 0 1\r\nprepend a x x 1\r\n",
        b"exptime;exptime;format;format;",
    ),
];

#[test]
fn of_two_wrong_tokens_the_first_names_the_fault(rt: HostRuntime) {
    compare(
        &rt,
        rt.alloc(),
        OF_TWO_WRONG_TOKENS_THE_FIRST_NAMES_THE_FAULT.as_slice(),
    );
}

static ANOTHER_NUMBER_OF_TOKENS_COMES_BEFORE_A_WRONG_ONE: [Case; 7] = [
    (
        b"set \0 0 0\r\nset \0 0 0 1 x\r\nadd a x 0\r\nadd a x 0 1 y\r\n",
        b"error;error;error;error;",
    ),
    (
        b"replace \0\r\nreplace a 0 x 1 y noreply\r\ncas \0 0 0 1\r\ncas a 0 0 1 x y\r\n",
        b"error;error;error;error;",
    ),
    (
        b"incr \0\r\nincr \0 x y\r\ndecr \0\r\ndecr a x y\r\n",
        b"error;error;error;error;",
    ),
    (
        b"touch \0\r\ntouch \0 x y\r\ndelete \0 x\r\ndelete \0 noreply x\r\n",
        b"error;error;error;error;",
    ),
    (
        b"%at x y\r\n%juggle x all\r\n%crawl 0 noreply\r\n%next \0\r\nquit \0\r\n",
        b"error;error;error;error;error;",
    ),
    (b"foo \0 noreply\r\nfoo noreply\r\n", b"error;error;"),
    (
        b"gat x\r\ngats \0\r\nappend \0 0 0\r\nprepend a x 0 1 y\r\n",
        b"error;error;error;error;",
    ),
];

#[test]
fn another_number_of_tokens_comes_before_a_wrong_one(rt: HostRuntime) {
    compare(
        &rt,
        rt.alloc(),
        ANOTHER_NUMBER_OF_TOKENS_COMES_BEFORE_A_WRONG_ONE.as_slice(),
    );
}

static ONE_TOKEN_FEWER_AND_ONE_MORE: [Case; 8] = [
    (
        b"get\r\ngets\r\nset a 0 0\r\nadd a 0 0\r\nreplace a 0 0\r\ncas a 0 0 1\r\n",
        b"error;error;error;error;error;error;",
    ),
    (
        b"incr a\r\ndecr a\r\ntouch a\r\ndelete\r\n%at\r\n%juggle\r\n%crawl\r\n",
        b"error;error;error;error;error;error;error;",
    ),
    (
        b"set a 0 0 1 x\r\nadd a 0 0 1 x\r\nreplace a 0 0 1 x\r\ncas a 0 0 1 1 x\r\n",
        b"error;error;error;error;",
    ),
    (
        b"incr a 1 x\r\ndecr a 1 x\r\ntouch a 0 x\r\ndelete a x\r\n",
        b"error;error;error;error;",
    ),
    (
        b"%at 1 x\r\n%juggle 1 x\r\n%crawl 1 x\r\n%next x\r\nquit x\r\n",
        b"error;error;error;error;error;",
    ),
    (
        b"incr a 1 noreply x\r\nincr a 1 x noreply\r\ntouch a 0 noreply x\r\ntouch a 0 x noreply\r\n",
        b"error;error;error;error;",
    ),
    (
        b"gat 0\r\ngats 0\r\nappend a 0 0\r\nprepend a 0 0\r\nappend a 0 0 1 x\r\nprepend a 0 0 1 x\r\n",
        b"error;error;error;error;error;error;",
    ),
    (
        b"set a 0 0 1 x noreply\r\ncas a 0 0 1 1 noreply x\r\ncas a 0 0 1 1 x noreply\r\ndelete a x noreply\r\n",
        b"error;error;error;error;",
    ),
];

#[test]
fn one_token_fewer_and_one_more(rt: HostRuntime) {
    compare(&rt, rt.alloc(), ONE_TOKEN_FEWER_AND_ONE_MORE.as_slice());
}

static NOREPLY_WHERE_A_TOKEN_IS_DUE: [Case; 11] = [
    (
        b"get noreply\r\ngets noreply a\r\nget a noreply b\r\n",
        b"get noreply;gets noreply a;get a noreply b;",
    ),
    (
        b"gat 0 noreply\r\ngats 0 a noreply\r\ngat noreply a\r\ngats noreply\r\n",
        b"gat 0 noreply;gats 0 a noreply;exptime;error;",
    ),
    (
        b"append noreply 0 0 1\r\nx\r\nprepend a 0 noreply 1\r\nprepend a 0 0 noreply noreply\r\n",
        b"append noreply 0 0 x;format;~format;",
    ),
    (
        b"add noreply 0 0 1\r\nx\r\ncas noreply 0 0 1 1 noreply\r\nx\r\n",
        b"add noreply 0 0 x;~cas 1 noreply 0 0 x;",
    ),
    (
        b"add a noreply 0 1\r\nadd a 0 noreply 1\r\nadd a 0 0 noreply\r\n",
        b"format;format;format;",
    ),
    (
        b"replace a noreply 0 1 noreply\r\nreplace a 0 noreply 1 noreply\r\nreplace a 0 0 noreply noreply\r\n",
        b"~format;~format;~format;",
    ),
    (
        b"cas a noreply 0 1 1\r\ncas a 0 0 noreply 1\r\ncas a 0 0 1 noreply\r\ncas a 0 0 1 noreply noreply\r\n",
        b"format;format;format;~format;",
    ),
    (
        b"incr noreply noreply\r\ndecr noreply 1\r\ndecr a noreply\r\nincr a noreply noreply\r\n",
        b"delta;decr noreply 1;delta;~delta;",
    ),
    (
        b"touch noreply noreply\r\ntouch noreply 0\r\ntouch a noreply noreply\r\n",
        b"exptime;touch noreply 0;~exptime;",
    ),
    (
        b"%at noreply\r\n%juggle noreply\r\n%crawl noreply\r\n%next noreply\r\nquit noreply\r\n",
        b"format;format;format;error;error;",
    ),
    (
        b"set a 0 noreply\r\ncas a 0 0 noreply\r\nincr noreply\r\ntouch noreply\r\nnoreply a\r\n",
        b"error;error;error;error;error;",
    ),
];

#[test]
fn noreply_where_a_token_is_due(rt: HostRuntime) {
    compare(&rt, rt.alloc(), NOREPLY_WHERE_A_TOKEN_IS_DUE.as_slice());
}

static EACH_VERB_IN_A_QUIET_LINE: [Case; 5] = [
    (
        b"set a 1 2 1 noreply\r\nx\r\nadd a 1 2 1 noreply\r\nx\r\nreplace a 1 -2 1 noreply\r\nx\r\n",
        b"~set a 1 2 x;~add a 1 2 x;~replace a 1 -2 x;",
    ),
    (
        b"cas a 1 2 1 3 noreply\r\nx\r\nincr a 1 noreply\r\ndecr a 2 noreply\r\n",
        b"~cas 3 a 1 2 x;~incr a 1;~decr a 2;",
    ),
    (
        b"append a 1 2 1 noreply\r\nx\r\nprepend a 1 -2 1 noreply\r\nx\r\n",
        b"~append a 1 2 x;~prepend a 1 -2 x;",
    ),
    (
        b"touch a 7 noreply\r\ndelete a noreply\r\n",
        b"~touch a 7;~delete a;",
    ),
    (
        b"incr a 1 noreply \r\n incr  a  1  noreply\r\ndelete a noreply\n",
        b"~incr a 1;~incr a 1;~delete a;",
    ),
];

#[test]
fn each_verb_in_a_quiet_line(rt: HostRuntime) {
    compare(&rt, rt.alloc(), EACH_VERB_IN_A_QUIET_LINE.as_slice());
}
