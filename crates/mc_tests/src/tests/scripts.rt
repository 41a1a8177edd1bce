//! Several scripts through the program, with and without upkeep.
use super::{Example, all_hold};

pub(super) static EXAMPLES: [Example; 11] = [
    Example {
        name: "two scripts and upkeep on four stripes",
        words: &["mcseg", "--stripes", "4", "--upkeep", "1000,1001,1002"],
        input: "set a 0 0 1|1|get a|incr a 5|gets a|%next|set b 0 0 1|7|gets b|delete b|get b|",
        output: "STORED|VALUE a 0 1|1|END|6|VALUE a 0 1 5|6|END|STORED|VALUE b 0 1 2|7|END|DELETED|END|",
        status: 0,
        errors: "",
    },
    Example {
        name: "two scripts and upkeep on four stripes and one class",
        words: &[
            "mcseg",
            "--stripes",
            "4",
            "--upkeep",
            "1000,1001,1002",
            "--sizes",
            "96",
        ],
        input: "set a 0 0 1|1|get a|incr a 5|gets a|%next|set b 0 0 1|7|gets b|delete b|get b|",
        output: "STORED|VALUE a 0 1|1|END|6|VALUE a 0 1 5|6|END|STORED|VALUE b 0 1 2|7|END|DELETED|END|",
        status: 0,
        errors: "",
    },
    Example {
        name: "quit ends a script, and the next one is done",
        words: &["mcseg"],
        input: "get a|quit|get a|%next|get b|",
        output: "END|END|",
        status: 0,
        errors: "",
    },
    Example {
        name: "two empty scripts",
        words: &["mcseg"],
        input: "%next|",
        output: "",
        status: 0,
        errors: "",
    },
    Example {
        name: "two empty scripts before one",
        words: &["mcseg"],
        input: "%next|%next|get a|",
        output: "END|",
        status: 0,
        errors: "",
    },
    Example {
        name: "a line without its end begins no script, and is dropped",
        words: &["mcseg"],
        input: "get a|%next",
        output: "END|",
        status: 0,
        errors: "",
    },
    Example {
        name: "a word too many begins no script",
        words: &["mcseg"],
        input: "%next x|",
        output: "ERROR|",
        status: 0,
        errors: "",
    },
    Example {
        name: "a block that reads as the line begins no script",
        words: &["mcseg"],
        input: "set a 0 0 7|%next||get a|",
        output: "STORED|VALUE a 0 7|%next||END|",
        status: 0,
        errors: "",
    },
    Example {
        name: "the second script begins at moment 1000",
        words: &["mcseg"],
        input: "%at 5000|%next|set b 0 5 1|y|%at 1004|get b|%at 1005|get b|",
        output: "STORED|VALUE b 0 1|y|END|END|",
        status: 0,
        errors: "",
    },
    Example {
        name: "a caller has as many turns as a history has places: the maintainer needs 43, and has 16",
        words: &["mcseg", "--events", "16", "--upkeep", "1000"],
        input: "",
        output: "",
        status: 1,
        errors: "mcseg: history full\n",
    },
    Example {
        name: "a script's turns count for all its stripes together",
        words: &["mcseg", "--stripes", "2", "--events", "16"],
        input: "get a|get b|get a|get b|get a|get b|get a|get b|get a|get b|get a|get b|get a|get b|get a|get b|get a|get b|",
        output: "END|END|END|END|END|END|END|END|END|END|END|END|END|END|END|END|",
        status: 1,
        errors: "mcseg: history full\n",
    },
];

#[test]
fn scripts_answer_each_for_itself(rt: HostRuntime) {
    all_hold(&rt, rt.alloc(), EXAMPLES.as_slice());
}
