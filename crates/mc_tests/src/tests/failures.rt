//! Readers and writers that fail, under the program.
use super::faulty::{ERRORS, FLUSH, Fails, READ, WRITE, run_faulty};
use super::{Wanted, asserts_ran, lines};
use std::alloc::Global;
use std::process::Abort;
use std::random::RandomSource;
use std::sync::Wait;
use std::thread::Threads;

// A run of the program in which something fails, and what is wanted of it.
struct Failure {
    name: &'static str,
    fails: Fails,
    words: &'static [&'static str],
    input: &'static str,
    output: &'static str,
    status: u8,
    errors: &'static str,
}

static FAILURES: [Failure; 13] = [
    Failure {
        name: "a reader that fails at once",
        fails: READ,
        words: &["mcseg"],
        input: "",
        output: "",
        status: 3,
        errors: "mcseg: input failed\n",
    },
    Failure {
        name: "a reader that fails behind a command, which isn't run",
        fails: READ,
        words: &["mcseg"],
        input: "get a|",
        output: "",
        status: 3,
        errors: "mcseg: input failed\n",
    },
    Failure {
        name: "a reader that `--version` doesn't ask",
        fails: READ,
        words: &["mcseg", "--version"],
        input: "",
        output: "mcseg 0.1.0\n",
        status: 0,
        errors: "",
    },
    Failure {
        name: "a writer that fails",
        fails: WRITE,
        words: &["mcseg"],
        input: "get a|",
        output: "",
        status: 3,
        errors: "mcseg: output failed\n",
    },
    Failure {
        name: "a writer that fails after a full history",
        fails: WRITE,
        words: &["mcseg", "--events", "16"],
        input: "get a|get a|get a|get a|get a|get a|get a|get a|get a|get a|get a|get a|get a|get a|get a|get a|get a|",
        output: "",
        status: 3,
        errors: "mcseg: output failed\n",
    },
    Failure {
        name: "a writer that fails at the version",
        fails: WRITE,
        words: &["mcseg", "--version"],
        input: "",
        output: "",
        status: 3,
        errors: "mcseg: output failed\n",
    },
    Failure {
        name: "a flush that fails",
        fails: FLUSH,
        words: &["mcseg"],
        input: "get a|",
        output: "END|",
        status: 3,
        errors: "mcseg: output failed\n",
    },
    Failure {
        name: "a flush that fails at the version",
        fails: FLUSH,
        words: &["mcseg", "--version"],
        input: "",
        output: "mcseg 0.1.0\n",
        status: 3,
        errors: "mcseg: output failed\n",
    },
    Failure {
        name: "errors that fail at words that are no options",
        fails: ERRORS,
        words: &["mcseg", "--color"],
        input: "",
        output: "",
        status: 2,
        errors: "",
    },
    Failure {
        name: "errors that fail at a bad list",
        fails: ERRORS,
        words: &["mcseg", "--sizes", ","],
        input: "",
        output: "",
        status: 2,
        errors: "",
    },
    Failure {
        name: "errors that fail at a bad configuration",
        fails: ERRORS,
        words: &["mcseg", "--events", "15"],
        input: "",
        output: "",
        status: 2,
        errors: "",
    },
    Failure {
        name: "errors that fail at a full history",
        fails: ERRORS,
        words: &["mcseg", "--events", "16"],
        input: "get a|get a|get a|get a|get a|get a|get a|get a|get a|get a|get a|get a|get a|get a|get a|get a|get a|",
        output: "END|END|END|END|END|END|END|END|END|END|END|END|END|END|END|END|",
        status: 1,
        errors: "",
    },
    Failure {
        name: "errors to which nothing is said",
        fails: ERRORS,
        words: &["mcseg"],
        input: "get a|",
        output: "END|",
        status: 0,
        errors: "",
    },
];

fn check_failure<R: Abort + RandomSource + Threads + Wait + Sync>(
    rt: &R,
    alloc: Global,
    failure: &Failure,
) {
    let input = lines(rt, alloc, failure.input);
    let output = lines(rt, alloc, failure.output);
    let ran = run_faulty(rt, alloc, failure.words, input.as_slice(), failure.fails);
    let wanted = Wanted {
        name: failure.name,
        status: failure.status,
        output: output.as_slice(),
        errors: failure.errors.as_bytes(),
    };
    asserts_ran(rt, &ran, &wanted, 0);
}

#[test]
fn each_failure_has_its_status_and_its_line(rt: HostRuntime) {
    for failure in FAILURES.as_slice() {
        check_failure(&rt, rt.alloc(), failure);
    }
}
