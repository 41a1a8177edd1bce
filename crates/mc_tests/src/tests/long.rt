//! Inputs of many lines, or of a long one, through the program.
use super::beginnings::check_beginnings;
use super::{Wanted, add_lines, asserts_ran, run_program};
use std::alloc::Global;
use std::process::Abort;
use std::random::RandomSource;
use std::sync::Wait;
use std::thread::Threads;

// A text, behind it another one so many times, and behind those a third. A bar stands for CR LF. In the second one `#` stands
// for three digits, which count.
struct Text {
    front: &'static str,
    again: &'static str,
    count: u32,
    end: &'static str,
}

struct Long {
    name: &'static str,
    words: &'static [&'static str],
    input: Text,
    output: Text,
    status: u8,
    errors: &'static str,
}

static LONG: [Long; 5] = [
    Long {
        name: "a line that is too long closes the reader",
        words: &["mcseg"],
        input: Text {
            front: "",
            again: "x",
            count: 65_537,
            end: "|get a|",
        },
        output: Text {
            front: "CLIENT_ERROR line too long|",
            again: "",
            count: 0,
            end: "",
        },
        status: 0,
        errors: "",
    },
    Long {
        name: "no script begins behind a line that is too long, since nothing there is read as a request",
        words: &["mcseg"],
        input: Text {
            front: "",
            again: "x",
            count: 65_537,
            end: "|%next|get a|",
        },
        output: Text {
            front: "CLIENT_ERROR line too long|",
            again: "",
            count: 0,
            end: "",
        },
        status: 0,
        errors: "",
    },
    Long {
        name: "62 scripts are run",
        words: &["mcseg"],
        input: Text {
            front: "get a|",
            again: "%next|get a|",
            count: 61,
            end: "",
        },
        output: Text {
            front: "",
            again: "END|",
            count: 62,
            end: "",
        },
        status: 0,
        errors: "",
    },
    Long {
        name: "63 scripts are too many",
        words: &["mcseg"],
        input: Text {
            front: "get a|",
            again: "%next|get a|",
            count: 62,
            end: "",
        },
        output: Text {
            front: "",
            again: "",
            count: 0,
            end: "",
        },
        status: 2,
        errors: "mcseg: too many scripts\n",
    },
    // The key of each set has four bytes, so its item costs 69.
    Long {
        name: "juggling stops after 500 rounds",
        words: &["mcseg", "--sizes", "96"],
        input: Text {
            front: "",
            again: "set k# 0 0 1|1|",
            count: 700,
            end: "%juggle 1|%juggle 1|",
        },
        output: Text {
            front: "",
            again: "STORED|",
            count: 700,
            end: "JUGGLED 0 500|JUGGLED 0 60|",
        },
        status: 0,
        errors: "",
    },
];

// Adds a number's last three digits.
fn add_digits<R: Abort>(rt: &R, alloc: Global, bytes: &mut Vec<u8>, number: u32) {
    let digits = format!(in alloc; "{}{}{}", number / 100 % 10, number / 10 % 10, number % 10);
    add_lines(rt, bytes, digits.expect(rt, "memory").as_str());
}

fn add_counted<R: Abort>(rt: &R, alloc: Global, bytes: &mut Vec<u8>, text: &str, number: u32) {
    match text.split_once('#') {
        Some((front, behind)) => {
            add_lines(rt, bytes, front);
            add_digits(rt, alloc, bytes, number);
            add_lines(rt, bytes, behind);
        }
        None => add_lines(rt, bytes, text),
    }
}

// The bytes of a text.
fn bytes_of<R: Abort>(rt: &R, alloc: Global, text: &Text) -> Vec<u8> {
    let mut bytes = Vec::new(alloc);
    add_lines(rt, &mut bytes, text.front);
    for number in 0..text.count {
        add_counted(rt, alloc, &mut bytes, text.again, number);
    }
    add_lines(rt, &mut bytes, text.end);
    bytes
}

fn wanted<'a>(long: &Long, output: &'a [u8]) -> Wanted<'a> {
    Wanted {
        name: long.name,
        status: long.status,
        output,
        errors: long.errors.as_bytes(),
    }
}

fn check_long<R: Abort + RandomSource + Threads + Wait + Sync>(rt: &R, alloc: Global, long: &Long) {
    let input = bytes_of(rt, alloc, &long.input);
    let output = bytes_of(rt, alloc, &long.output);
    let ran = run_program(rt, alloc, long.words, input.as_slice());
    asserts_ran(rt, &ran, &wanted(long, output.as_slice()), 0);
}

#[test]
fn long_lines_many_scripts_and_many_items_hold(rt: HostRuntime) {
    for long in LONG.as_slice() {
        check_long(&rt, rt.alloc(), long);
    }
}

#[test]
fn the_last_beginnings_of_a_line_that_is_too_long_hold(rt: HostRuntime) {
    let long = &LONG[0];
    let input = bytes_of(&rt, rt.alloc(), &long.input);
    let output = bytes_of(&rt, rt.alloc(), &long.output);
    let whole = wanted(long, output.as_slice());
    let bytes = input.len().saturating_sub(20);
    check_beginnings(&rt, rt.alloc(), long.words, input.as_slice(), &whole, bytes);
}
