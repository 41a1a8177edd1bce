//! Lines with one space behind the verb, which are read in one pass, and beside them those with more spaces or with a token
//! that is odd.
use super::lines::{Case, compare};

static PLAIN_LINES_ADD_AND_REPLACE: [Case; 8] = [
    (
        b"add a 1 2 1\r\nx\r\nreplace a 3 4 2\r\nxy\r\n",
        b"add a 1 2 x;replace a 3 4 xy;",
    ),
    (
        b"add a 4294967295 0 0 noreply\r\n\r\nreplace a 0 999999999999999999 1 noreply\nx\r\n",
        b"~add a 4294967295 0 ;~replace a 0 999999999999999999 x;",
    ),
    (
        b"add  a  1  2  1\r\nx\r\n replace a 3 4 1  noreply\r\nx\r\nadd a 1 2 1 \r\nx\r\n",
        b"add a 1 2 x;~replace a 3 4 x;add a 1 2 x;",
    ),
    (b"add a 1 -2 1\r\nx\r\n", b"add a 1 -2 x;"),
    (
        b"add a 0 0 36\r\n012345678901234567890123456789012345\r\nreplace a 0 0 35\r\n01234567890123456789012345678901234\r\n",
        b"huge add a;replace a 0 0 01234567890123456789012345678901234;",
    ),
    (
        b"add \0 1 2 1\r\nadd \0 1 2 1 noreply\r\nreplace \0 1 2 1\r\nreplace \0 1 2 1 noreply\r\n",
        b"format;~format;format;~format;",
    ),
    (
        b"add a 4294967296 0 1\r\nadd a 0 0 2147483646\r\nreplace a 4294967296 0 1\r\nreplace a 0 0 2147483646 noreply\r\n",
        b"format;format;format;~format;",
    ),
    (
        b"add a 1 2 1 noreplyx\r\nreplace a 1 2 1 noreply noreply\r\nadda 1 2 1\r\nreplaced a 1 2 1\r\nadd\ta 1 2 1\r\n",
        b"error;error;error;error;error;",
    ),
];

#[test]
fn plain_lines_add_and_replace(rt: HostRuntime) {
    compare(&rt, rt.alloc(), PLAIN_LINES_ADD_AND_REPLACE.as_slice());
}

static PLAIN_LINES_APPEND_AND_PREPEND: [Case; 9] = [
    (
        b"append a 0 0 1\r\nx\r\nprepend a 3 4 2\r\nxy\r\n",
        b"append a 0 0 x;prepend a 3 4 xy;",
    ),
    (
        b"append a 0 0 1 noreply\r\nx\r\nprepend a 4294967295 999999999999999999 0 noreply\n\r\n",
        b"~append a 0 0 x;~prepend a 4294967295 999999999999999999 ;",
    ),
    (
        b"append  a  1  2  1\r\nx\r\n prepend a 3 4 1  noreply\r\nx\r\nappend a 1 2 1 \r\nx\r\n",
        b"append a 1 2 x;~prepend a 3 4 x;append a 1 2 x;",
    ),
    (b"append a 1 -2 1\r\nx\r\n", b"append a 1 -2 x;"),
    (
        b"append a 0 0 36\r\n012345678901234567890123456789012345\r\nprepend a 0 0 35\r\n01234567890123456789012345678901234\r\n",
        b"huge append a;prepend a 0 0 01234567890123456789012345678901234;",
    ),
    (
        b"prepend  a 0 0 36 noreply\r\n012345678901234567890123456789012345\r\nappend a 0 0 1\r\nxy\r\n",
        b"~huge prepend a;chunk;error;",
    ),
    (
        b"append \0 1 2 1\r\nappend \0 1 2 1 noreply\r\nprepend \0 1 2 1\r\nprepend \0 1 2 1 noreply\r\n",
        b"format;~format;format;~format;",
    ),
    (
        b"append a 4294967296 0 1\r\nappend a 0 0 2147483646\r\nprepend a 0 0 2147483646 noreply\r\n",
        b"format;format;~format;",
    ),
    (
        b"prepend a 1 2 1 noreplyx\r\nappend a 1 2 1 noreply noreply\r\nappends a 1 2 1\r\nprepen a 1 2 1\r\nappend\ta 1 2 1\r\n",
        b"error;error;error;error;error;",
    ),
];

#[test]
fn plain_lines_append_and_prepend(rt: HostRuntime) {
    compare(&rt, rt.alloc(), PLAIN_LINES_APPEND_AND_PREPEND.as_slice());
}

static PLAIN_LINES_WITHOUT_A_BLOCK: [Case; 8] = [
    (
        b"incr a 5\r\nincr a 5 noreply\r\ndecr a 5\r\ndecr a 5 noreply\n",
        b"incr a 5;~incr a 5;decr a 5;~decr a 5;",
    ),
    (
        b"touch a 5\r\ntouch a 5 noreply\r\n",
        b"touch a 5;~touch a 5;",
    ),
    (
        b"touch  a  5\r\n touch a 5  noreply\r\ndelete  a\r\ndelete a  noreply\r\ndelete a \r\n",
        b"touch a 5;~touch a 5;delete a;~delete a;delete a;",
    ),
    (b"touch \0 5\r\ntouch \0 5 noreply\r\n", b"format;~format;"),
    (
        b"touch a -1\r\ntouch a 5x\r\ntouch a 5 6\r\n",
        b"touch a -1;exptime;error;",
    ),
    (
        b"incr a 1000000000000000000 noreply\r\n",
        b"~incr a 1000000000000000000;",
    ),
    (
        b"delete a noreply noreply\r\ndelete a noreplyx\r\n",
        b"error;error;",
    ),
    (
        b"deleted a\r\ntouches a 5\r\ndelete\ta\r\ndelete \r\ntouch \r\n",
        b"error;error;error;error;error;",
    ),
];

#[test]
fn plain_lines_without_a_block(rt: HostRuntime) {
    compare(&rt, rt.alloc(), PLAIN_LINES_WITHOUT_A_BLOCK.as_slice());
}
