//! The words of the command line: help and version, and what is refused.
use super::{Example, Ran, all_hold, run_program};
use std::alloc::Global;
use std::process::Abort;
use std::random::RandomSource;
use std::str;
use std::sync::Wait;
use std::thread::Threads;

pub(super) static EXAMPLES: [Example; 18] = [
    Example {
        name: "the version",
        words: &["mcseg", "--version"],
        input: "get a|",
        output: "mcseg 0.1.0\n",
        status: 0,
        errors: "",
    },
    Example {
        name: "a comma too many",
        words: &["mcseg", "--sizes", "96,"],
        input: "get a|",
        output: "",
        status: 2,
        errors: "mcseg: bad list\n",
    },
    Example {
        name: "an empty list",
        words: &["mcseg", "--sizes", ""],
        input: "get a|",
        output: "",
        status: 2,
        errors: "mcseg: bad list\n",
    },
    Example {
        name: "a sign in a list",
        words: &["mcseg", "--sizes", "+96"],
        input: "get a|",
        output: "",
        status: 2,
        errors: "mcseg: bad list\n",
    },
    Example {
        name: "a number of 2^64 in a list, before a bad limit of events",
        words: &["mcseg", "--sizes", "18446744073709551616", "--events", "15"],
        input: "get a|",
        output: "",
        status: 2,
        errors: "mcseg: bad list\n",
    },
    Example {
        name: "moments with a space, before a bad limit of events",
        words: &["mcseg", "--events", "15", "--upkeep", "1000, 1001"],
        input: "get a|",
        output: "",
        status: 2,
        errors: "mcseg: bad list\n",
    },
    Example {
        name: "a moment below 0, and sizes that fall",
        words: &["mcseg", "--upkeep=-1", "--sizes", "96,80"],
        input: "get a|",
        output: "",
        status: 2,
        errors: "mcseg: bad list\n",
    },
    Example {
        name: "a size below 0, and moments",
        words: &["mcseg", "--upkeep", "1000", "--sizes=-1"],
        input: "get a|",
        output: "",
        status: 2,
        errors: "mcseg: bad list\n",
    },
    Example {
        name: "a moment above 2^62",
        words: &["mcseg", "--upkeep", "4611686018427387905"],
        input: "get a|",
        output: "",
        status: 2,
        errors: "mcseg: bad list\n",
    },
    Example {
        name: "moments, and too few events",
        words: &["mcseg", "--upkeep", "1000,1001", "--events", "15"],
        input: "get a|",
        output: "",
        status: 2,
        errors: "mcseg: bad configuration 7\n",
    },
    Example {
        name: "sizes that fall",
        words: &["mcseg", "--sizes", "96,80"],
        input: "get a|",
        output: "",
        status: 2,
        errors: "mcseg: bad configuration 2\n",
    },
    Example {
        name: "a size of 64, before a bad limit of events",
        words: &["mcseg", "--sizes", "64", "--events", "15"],
        input: "get a|",
        output: "",
        status: 2,
        errors: "mcseg: bad configuration 2\n",
    },
    Example {
        name: "too few events",
        words: &["mcseg", "--events", "15"],
        input: "get a|",
        output: "",
        status: 2,
        errors: "mcseg: bad configuration 7\n",
    },
    Example {
        name: "too many events",
        words: &["mcseg", "--events", "4294967297"],
        input: "get a|",
        output: "",
        status: 2,
        errors: "mcseg: bad configuration 7\n",
    },
    Example {
        name: "leading zeros, and the most events",
        words: &[
            "mcseg",
            "--sizes",
            "00096,1048576",
            "--events",
            "4294967296",
        ],
        input: "get a|",
        output: "END|",
        status: 0,
        errors: "",
    },
    Example {
        name: "three stripes",
        words: &["mcseg", "--stripes", "3"],
        input: "get a|",
        output: "",
        status: 2,
        errors: "mcseg: bad configuration 1\n",
    },
    Example {
        name: "no stripes",
        words: &["mcseg", "--stripes", "0"],
        input: "get a|",
        output: "",
        status: 2,
        errors: "mcseg: bad configuration 1\n",
    },
    Example {
        name: "more stripes than 64",
        words: &["mcseg", "--stripes", "65"],
        input: "get a|",
        output: "",
        status: 2,
        errors: "mcseg: bad configuration 1\n",
    },
];

#[test]
fn words_are_taken_or_refused_with_a_reason(rt: HostRuntime) {
    all_hold(&rt, rt.alloc(), EXAMPLES.as_slice());
}

static REFUSED: [&[&str]; 7] = [
    &["mcseg", "--color"],
    &["mcseg", "96"],
    &["mcseg", "--sizes"],
    &["mcseg", "--events", "x"],
    &["mcseg", "--stripes", "x"],
    &["mcseg", "--stripes", "4294967296"],
    &["mcseg", "--sizes", "96", "--sizes", "96"],
];

fn asserts_refused<R: Abort>(rt: &R, ran: &Ran) {
    assert_eq!(rt; ran.status, 2);
    assert!(rt; ran.output.is_empty());
    assert!(rt; ran.errors.as_slice().starts_with(b"error: "));
}

fn check_refused<R: Abort + RandomSource + Threads + Wait + Sync>(
    rt: &R,
    alloc: Global,
    words: &[&str],
) {
    let ran = run_program(rt, alloc, words, b"get a\r\n");
    asserts_refused(rt, &ran);
}

#[test]
fn words_that_are_no_options_are_refused(rt: HostRuntime) {
    for words in REFUSED.as_slice() {
        check_refused(&rt, rt.alloc(), words);
    }
}

// What a person has to find in the help: each line on standard error, each number, each limit.
static HELP: [&str; 38] = [
    "%juggle <class>",
    "%crawl <class>",
    "%chunks <class> <n>",
    "%next",
    "--stripes",
    "[default: 1]",
    "--sizes",
    "--chunks",
    "from 1 to 1,048,576",
    "[default: 1,024]",
    "--temp ",
    "--temp-ttl",
    "[default: 61]",
    "--events",
    "--upkeep",
    "at most 1,000, each",
    "--follow ",
    "--version",
    "mcseg: out of memory\n",
    "mcseg: history full",
    "mcseg: bad list",
    "mcseg: too many scripts",
    "mcseg: bad configuration <number>",
    "1 stripes ",
    "2 sizes ",
    "3 chunks ",
    "4 percents ",
    "5 factors ",
    "6 callers ",
    "7 events ",
    "mcseg: input failed\n",
    "mcseg: output failed\n",
    "mcseg: no words of the command line: <why>\n",
    "mcseg: no random numbers: <why>\n",
    "1 to 250 bytes",
    "65,536 bytes before its LF",
    "noreply",
    "| mcseg\n",
];

fn asserts_shown<R: Abort>(rt: &R, ran: &Ran) {
    assert_eq!(rt; ran.status, 0);
    assert!(rt; ran.errors.is_empty());
}

fn asserts_parts<R: Abort>(rt: &R, text: &str) {
    for part in HELP.as_slice() {
        assert!(rt; text.contains(*part), "{part}");
    }
}

fn asserts_widths<R: Abort>(rt: &R, text: &str) {
    for line in text.lines() {
        assert!(rt; line.len() <= 100, "{line}");
    }
}

fn asserts_help<R: Abort>(rt: &R, short: &Ran, long: &Ran) {
    asserts_shown(rt, short);
    asserts_shown(rt, long);
    assert_eq!(rt; short.output.as_slice(), long.output.as_slice());
    let text = str::from_utf8(long.output.as_slice()).expect(rt, "text");
    asserts_parts(rt, text);
    asserts_widths(rt, text);
}

#[test]
fn help_names_each_line_and_limit(rt: HostRuntime) {
    let short = run_program(&rt, rt.alloc(), &["mcseg", "-h"], b"get a\r\n");
    let long = run_program(&rt, rt.alloc(), &["mcseg", "--help"], b"");
    asserts_help(&rt, &short, &long);
}
