//! Conversations: the program with `--follow`, which answers each request as it comes.
use super::examples::EXAMPLES;
use super::faulty::{Fails, NOTHING, READ, WRITE, run_faulty};
use super::{Example, Wanted, asserts_ran, lines, run_program};
use std::alloc::Global;
use std::process::Abort;
use std::random::RandomSource;
use std::sync::Wait;
use std::thread::Threads;

// An example's words, and `--follow` behind them.
fn followed<'a, R: Abort>(rt: &R, alloc: Global, words: &[&'a str]) -> Vec<&'a str> {
    let mut all = Vec::from_slice(alloc, words).expect(rt, "memory");
    all.push("--follow").expect(rt, "memory");
    all
}

// The program answers in a conversation what an example wants.
fn holds_followed<R: Abort + RandomSource + Threads + Wait + Sync>(
    rt: &R,
    alloc: Global,
    example: &Example,
) {
    let words = followed(rt, alloc, example.words);
    let input = lines(rt, alloc, example.input);
    let output = lines(rt, alloc, example.output);
    let ran = run_program(rt, alloc, words.as_slice(), input.as_slice());
    let wanted = Wanted {
        name: example.name,
        status: example.status,
        output: output.as_slice(),
        errors: example.errors.as_bytes(),
    };
    asserts_ran(rt, &ran, &wanted, 0);
}

#[test]
fn the_worked_examples_hold_as_conversations(rt: HostRuntime) {
    for example in &EXAMPLES {
        holds_followed(&rt, rt.alloc(), example);
    }
}

const INPUT: &str = "set a 0 0 2|10|incr a 1|get a|bogus|";

const OUTPUT: &str = "STORED|11|VALUE a 0 2|11|END|ERROR|";

// What fails in a conversation, and how it ends then.
struct Failing {
    fails: Fails,
    output: &'static str,
    errors: &'static [u8],
}

static FAILING: [Failing; 3] = [
    Failing {
        fails: READ,
        output: OUTPUT,
        errors: b"mcseg: input failed\n",
    },
    Failing {
        fails: WRITE,
        output: "",
        errors: b"mcseg: output failed\n",
    },
    Failing {
        fails: Fails {
            output: 8,
            ..NOTHING
        },
        output: "STORED|",
        errors: b"mcseg: output failed\n",
    },
];

#[test]
fn a_conversation_that_fails_ends_with_status_3(rt: HostRuntime) {
    let input = lines(&rt, rt.alloc(), INPUT);
    for (place, failing) in FAILING.iter().enumerate() {
        let output = lines(&rt, rt.alloc(), failing.output);
        let ran = run_faulty(
            &rt,
            rt.alloc(),
            &["mcseg", "--follow"],
            input.as_slice(),
            failing.fails,
        );
        let wanted = Wanted {
            name: "a conversation that fails",
            status: 3,
            output: output.as_slice(),
            errors: failing.errors,
        };
        asserts_ran(&rt, &ran, &wanted, place);
    }
}
