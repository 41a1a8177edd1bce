//! Several stripes through the program.
use super::{Example, all_hold};

// The stripe of a key is that of its hash, so a version's cas number tells which: with four stripes 1 is the first one
// of stripe 0, 2 of stripe 1, and 3 of stripe 2.
pub(super) static EXAMPLES: [Example; 4] = [
    Example {
        name: "three keys of three stripes",
        words: &["mcseg", "--stripes", "4"],
        input: "set a 0 0 1|1|set b 0 0 1|2|set c 0 0 1|3|gets a b c|",
        output: "STORED|STORED|STORED|VALUE a 0 1 1|1|VALUE b 0 1 2|2|VALUE c 0 1 3|3|END|",
        status: 0,
        errors: "",
    },
    Example {
        name: "a set takes the chunk of another stripe's item that was juggled to COLD",
        words: &["mcseg", "--stripes", "4", "--sizes", "96", "--chunks", "2"],
        input: "set a 0 0 1|1|set b 0 0 1|2|%juggle 1|set c 0 0 1|3|get a b c|",
        output: "STORED|STORED|JUGGLED 0 2|STORED|VALUE b 0 1|2|VALUE c 0 1|3|END|",
        status: 0,
        errors: "",
    },
    Example {
        name: "the third set takes the chunk of the oldest item, which is of another stripe",
        words: &["mcseg", "--stripes", "4", "--sizes", "96", "--chunks", "2"],
        input: "set a 0 0 1|1|set b 0 0 1|2|set c 0 0 1|3|get a b c|",
        output: "STORED|STORED|STORED|VALUE b 0 1|2|VALUE c 0 1|3|END|",
        status: 0,
        errors: "",
    },
    Example {
        name: "juggling of 64 stripes goes by size, then by age",
        words: &["mcseg", "--stripes", "64", "--sizes", "96", "--chunks", "8"],
        input: "set a 0 0 1|1|set b 0 0 1|1|set c 0 0 1|1|set d 0 0 1|1|set e 0 0 1|1|%juggle 1|%juggle 1|%at 1001|%juggle 1|",
        output: "STORED|STORED|STORED|STORED|STORED|JUGGLED 0 4|JUGGLED 0 0|JUGGLED 0 1|",
        status: 0,
        errors: "",
    },
];

#[test]
fn several_stripes_hold(rt: HostRuntime) {
    all_hold(&rt, rt.alloc(), EXAMPLES.as_slice());
}

// Each command, where nothing is full, and no cas number is asked for.
const SCRIPT: &str =
    "set a 1 0 1|1|set b 2 0 2|22|set c 3 0 3|333|add a 0 0 1|x|add d 0 0 1|9|replace b 5 0 1|7|replace e 0 0 1|x|\
cas f 0 0 1 1|x|incr a 5|incr d 1|decr b 3|decr zz 1|get a b c d e|touch c 10|touch e 0|%at 1010|get c|delete a|delete a|\
get a b c d|set k 0 0 2 noreply|hi|get k b|%juggle 43|set a 0 100 1|z|get a a|%at 1110|get a k|bogus|incr k 1|\
append k 9 1 1|!|prepend k 9 1 1 noreply|>|append zz 0 0 1|x|gat 100 k zz|%at 1210|gat 0 k|";

const REPLIES: &str =
    "STORED|STORED|STORED|NOT_STORED|STORED|STORED|NOT_STORED|NOT_FOUND|6|10|4|NOT_FOUND|\
VALUE a 1 1|6|VALUE b 5 1|4|VALUE c 3 3|333|VALUE d 0 2|10|END|TOUCHED|NOT_FOUND|END|DELETED|NOT_FOUND|\
VALUE b 5 1|4|VALUE d 0 2|10|END|VALUE k 0 2|hi|VALUE b 5 1|4|END|JUGGLED 0 0|STORED|VALUE a 0 1|z|VALUE a 0 1|z|END|\
VALUE k 0 2|hi|END|ERROR|CLIENT_ERROR cannot increment or decrement non-numeric value|\
STORED|NOT_STORED|VALUE k 0 4|>hi!|END|END|";

static STRIPES: [Example; 4] = [
    Example {
        name: "one stripe",
        words: &["mcseg", "--stripes", "1"],
        input: SCRIPT,
        output: REPLIES,
        status: 0,
        errors: "",
    },
    Example {
        name: "two stripes",
        words: &["mcseg", "--stripes", "2"],
        input: SCRIPT,
        output: REPLIES,
        status: 0,
        errors: "",
    },
    Example {
        name: "four stripes",
        words: &["mcseg", "--stripes", "4"],
        input: SCRIPT,
        output: REPLIES,
        status: 0,
        errors: "",
    },
    Example {
        name: "64 stripes",
        words: &["mcseg", "--stripes", "64"],
        input: SCRIPT,
        output: REPLIES,
        status: 0,
        errors: "",
    },
];

#[test]
fn no_reply_depends_on_the_stripes_where_nothing_is_full(rt: HostRuntime) {
    all_hold(&rt, rt.alloc(), STRIPES.as_slice());
}
