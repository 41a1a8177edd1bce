//! A slab class's limit of chunks changes while the program runs.
use super::{Example, all_hold};

// An item of one byte under a key of one costs 66, so it is of class 1, whose items have at most 96; one of 60 bytes costs 125.
pub(super) static EXAMPLES: [Example; 8] = [
    Example {
        name: "a set in a class whose limit was lowered makes room for its own item",
        words: &["mcseg", "--sizes", "96", "--chunks", "3"],
        input: "set a 0 0 1|1|set b 0 0 1|2|set c 0 0 1|3|%chunks 1 1|set d 0 0 1|4|get a b c d|",
        output: "STORED|STORED|STORED|CHUNKS 1 1|STORED|VALUE d 0 1|4|END|",
        status: 0,
        errors: "",
    },
    Example {
        name: "a set may find too little room below a limit that was lowered by much",
        words: &["mcseg", "--sizes", "96", "--chunks", "6"],
        input: "set a 0 0 1|1|set b 0 0 1|2|set c 0 0 1|3|set d 0 0 1|4|set e 0 0 1|5|set f 0 0 1|6|%chunks 1 1|set g 0 0 1|7|get a b c d e f|set g 0 0 1|7|",
        output: "STORED|STORED|STORED|STORED|STORED|STORED|CHUNKS 1 1|SERVER_ERROR out of memory storing object|VALUE f 0 1|6|END|STORED|",
        status: 0,
        errors: "",
    },
    Example {
        name: "a change whose own item is evicted for it stores nothing",
        words: &["mcseg", "--sizes", "96", "--chunks", "7"],
        input: "set a 0 0 1|1|set b 0 0 1|2|set c 0 0 1|3|set d 0 0 1|4|set e 0 0 1|5|set f 0 0 1|6|set g 0 0 1|7|%chunks 1 1|append a 0 0 1|x|get a b c d e f g|",
        output: "STORED|STORED|STORED|STORED|STORED|STORED|STORED|CHUNKS 1 1|NOT_STORED|VALUE f 0 1|6|VALUE g 0 1|7|END|",
        status: 0,
        errors: "",
    },
    Example {
        name: "a class whose limit was raised has room for more",
        words: &["mcseg", "--sizes", "96", "--chunks", "1"],
        input: "set a 0 0 1|1|%chunks 1 2|set b 0 0 1|2|get a b|",
        output: "STORED|CHUNKS 1 2|STORED|VALUE a 0 1|1|VALUE b 0 1|2|END|",
        status: 0,
        errors: "",
    },
    Example {
        name: "a lower limit evicts nothing by itself",
        words: &["mcseg", "--sizes", "96", "--chunks", "3"],
        input: "set a 0 0 1|1|set b 0 0 1|2|set c 0 0 1|3|%chunks 1 1|get a b c|",
        output: "STORED|STORED|STORED|CHUNKS 1 1|VALUE a 0 1|1|VALUE b 0 1|2|VALUE c 0 1|3|END|",
        status: 0,
        errors: "",
    },
    Example {
        name: "the limit of a class leaves the other classes alone",
        words: &["mcseg", "--sizes", "96,192", "--chunks", "2"],
        input: "%chunks 1 1|set a 0 0 60|aaaaaaaaaaaaaaaaaaaaaaaaaaaaaaaaaaaaaaaaaaaaaaaaaaaaaaaaaaaa|set b 0 0 60|bbbbbbbbbbbbbbbbbbbbbbbbbbbbbbbbbbbbbbbbbbbbbbbbbbbbbbbbbbbb|set c 0 0 1|3|set d 0 0 1|4|get a b c d|",
        output: "CHUNKS 1 1|STORED|STORED|STORED|STORED|VALUE a 0 60|aaaaaaaaaaaaaaaaaaaaaaaaaaaaaaaaaaaaaaaaaaaaaaaaaaaaaaaaaaaa|VALUE b 0 60|bbbbbbbbbbbbbbbbbbbbbbbbbbbbbbbbbbbbbbbbbbbbbbbbbbbbbbbbbbbb|VALUE d 0 1|4|END|",
        status: 0,
        errors: "",
    },
    Example {
        name: "a class and a limit that are out of bounds, and lines of too few and too many words",
        words: &["mcseg"],
        input: "%chunks all 5|%chunks 0 5|%chunks 44 5|%chunks 1 0|%chunks 1 1048577|%chunks 1 x|%chunks 1|%chunks 1 2 3|%chunks 43 1048576|",
        output: "CLIENT_ERROR bad command line format|CLIENT_ERROR bad command line format|CLIENT_ERROR bad command line format|CLIENT_ERROR bad command line format|CLIENT_ERROR bad command line format|CLIENT_ERROR bad command line format|ERROR|ERROR|CHUNKS 43 1048576|",
        status: 0,
        errors: "",
    },
    Example {
        name: "a new limit counts as a call",
        words: &["mcseg", "--sizes", "96", "--events", "16"],
        input: "%chunks 1 5|%chunks 1 5|%chunks 1 5|%chunks 1 5|%chunks 1 5|%chunks 1 5|%chunks 1 5|%chunks 1 5|%chunks 1 5|%chunks 1 5|%chunks 1 5|%chunks 1 5|%chunks 1 5|%chunks 1 5|%chunks 1 5|%chunks 1 5|%chunks 1 5|",
        output: "CHUNKS 1 5|CHUNKS 1 5|CHUNKS 1 5|CHUNKS 1 5|CHUNKS 1 5|CHUNKS 1 5|CHUNKS 1 5|CHUNKS 1 5|CHUNKS 1 5|CHUNKS 1 5|CHUNKS 1 5|CHUNKS 1 5|CHUNKS 1 5|CHUNKS 1 5|CHUNKS 1 5|CHUNKS 1 5|",
        status: 1,
        errors: "mcseg: history full\n",
    },
];

#[test]
fn changed_limits_hold(rt: HostRuntime) {
    all_hold(&rt, rt.alloc(), EXAMPLES.as_slice());
}
