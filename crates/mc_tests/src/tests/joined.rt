//! Appends, prepends and gats through the program, worked out by hand from protocol.txt and the rules of classes. An item costs 64
//! bytes and those of its key and value.
use super::{Example, all_hold};

pub(super) static EXAMPLES: [Example; 14] = [
    Example {
        name: "data goes behind the old value and before it",
        words: &["mcseg"],
        input: "append a 0 0 1|x|set a 5 0 2|bc|append a 9 1 1|d|prepend a 0 0 1|a|gets a|",
        output: "NOT_STORED|STORED|STORED|STORED|VALUE a 5 4 3|abcd|END|",
        status: 0,
        errors: "",
    },
    Example {
        name: "a gat reads and sets the exptime",
        words: &["mcseg"],
        input: "set a 0 10 1|x|gat 0 a b|%at 1011|gats -1 a|get a|",
        output: "STORED|VALUE a 0 1|x|END|VALUE a 0 1 1|x|END|END|",
        status: 0,
        errors: "",
    },
    Example {
        name: "a gat without a key, and one of a bad exptime",
        words: &["mcseg"],
        input: "gat 0|gat x a|",
        output: "ERROR|CLIENT_ERROR invalid exptime argument|",
        status: 0,
        errors: "",
    },
    Example {
        name: "a joined value that is too large leaves the old one",
        words: &["mcseg", "--sizes", "96"],
        input: "set a 0 0 31|vvvvvvvvvvvvvvvvvvvvvvvvvvvvvvv|append a 0 0 1|z|get a|",
        output: "STORED|SERVER_ERROR object too large for cache|VALUE a 0 31|vvvvvvvvvvvvvvvvvvvvvvvvvvvvvvv|END|",
        status: 0,
        errors: "",
    },
    Example {
        name: "a block that no class can hold is too large without an item too",
        words: &["mcseg", "--sizes", "96"],
        input: "append a 0 0 31|vvvvvvvvvvvvvvvvvvvvvvvvvvvvvvv|prepend a 0 0 32|vvvvvvvvvvvvvvvvvvvvvvvvvvvvvvvv|get a|",
        output: "NOT_STORED|SERVER_ERROR object too large for cache|END|",
        status: 0,
        errors: "",
    },
    Example {
        name: "nothing is joined to a dead item",
        words: &["mcseg"],
        input: "set a 0 10 1|x|%at 1010|append a 0 0 1|y|get a|",
        output: "STORED|NOT_STORED|END|",
        status: 0,
        errors: "",
    },
    Example {
        name: "a joined value keeps flags and exptime",
        words: &["mcseg"],
        input: "set a 7 10 1|x|append a 1 1000 1|y|get a|%at 1010|get a|",
        output: "STORED|STORED|VALUE a 7 2|xy|END|END|",
        status: 0,
        errors: "",
    },
    Example {
        name: "a joined cost of 120 fits a size of 120",
        words: &["mcseg", "--sizes", "96,120"],
        input: "set a 0 0 31|vvvvvvvvvvvvvvvvvvvvvvvvvvvvvvv|append a 0 0 1|z|append a 0 0 23|wwwwwwwwwwwwwwwwwwwwwww|append a 0 0 1|x|get a|",
        output: "STORED|STORED|STORED|SERVER_ERROR object too large for cache|VALUE a 0 55|vvvvvvvvvvvvvvvvvvvvvvvvvvvvvvvzwwwwwwwwwwwwwwwwwwwwwww|END|",
        status: 0,
        errors: "",
    },
    Example {
        name: "an append takes the chunk of another item",
        words: &["mcseg", "--sizes", "96", "--chunks", "2"],
        input: "set a 0 0 1|1|set b 0 0 1|2|%juggle 1|append b 0 0 1|3|get a b|",
        output: "STORED|STORED|JUGGLED 0 2|STORED|VALUE b 0 2|23|END|",
        status: 0,
        errors: "",
    },
    Example {
        name: "an append loses its own item",
        words: &["mcseg", "--sizes", "96", "--chunks", "1"],
        input: "set a 0 0 1|9|append a 0 0 1|x|get a|",
        output: "STORED|NOT_STORED|END|",
        status: 0,
        errors: "",
    },
    Example {
        name: "an append that needs a chunk of a class whose only one is in TEMP",
        words: &["mcseg", "--sizes", "96", "--chunks", "1", "--temp"],
        input: "set a 0 30 1|9|append a 0 0 1|1|get a|",
        output: "STORED|SERVER_ERROR out of memory storing object|VALUE a 0 1|9|END|",
        status: 0,
        errors: "",
    },
    Example {
        name: "a gats shows a cas number, which a joined value has anew",
        words: &["mcseg"],
        input: "set a 0 0 1|x|gats 100 a|append a 0 0 1|y|gats 0 a|",
        output: "STORED|VALUE a 0 1 1|x|END|STORED|VALUE a 0 2 2|xy|END|",
        status: 0,
        errors: "",
    },
    Example {
        name: "a quiet append and a bad block of one",
        words: &["mcseg"],
        input: "set a 0 0 1|x|append a 0 0 1 noreply|y|get a|append a 0 0 1 noreply|yy|get a|",
        output: "STORED|VALUE a 0 2|xy|END|ERROR|VALUE a 0 2|xy|END|",
        status: 0,
        errors: "",
    },
    Example {
        name: "a joined number is counted",
        words: &["mcseg"],
        input: "set a 0 0 1|9|append a 0 0 1|9|incr a 1|prepend a 0 0 1|-|incr a 1|get a|",
        output: "STORED|STORED|100|STORED|CLIENT_ERROR cannot increment or decrement non-numeric value|VALUE a 0 4|-100|END|",
        status: 0,
        errors: "",
    },
];

#[test]
fn joined_values_and_gats_hold(rt: HostRuntime) {
    all_hold(&rt, rt.alloc(), EXAMPLES.as_slice());
}
