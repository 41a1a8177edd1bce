//! Scripts in pieces.
use super::examples::EXAMPLES;
use super::runs::{Supply, WHOLE, config_of, first_of, one_script, output_of, run_of, writes_of};
use super::{Example, lines, same_bytes};
use mc_driver::Outcome;
use std::alloc::Global;
use std::process::Abort;
use std::random::RandomSource;
use std::sync::Wait;
use std::thread::Threads;

/// How a script ended, what was printed, and how much of it after each write.
#[derive(Drop)]
pub(super) struct Ended {
    pub(super) outcome: Outcome,
    pub(super) output: Vec<u8>,
    pub(super) writes: Vec<usize>,
}

/// A script on a store that words ask for, and what is wanted of it.
#[derive(Clone, Copy)]
pub(super) struct Case<'a> {
    pub(super) name: &'a str,
    pub(super) words: &'a [&'a str],
    pub(super) input: &'a [u8],
    pub(super) outcome: Outcome,
    pub(super) output: &'a [u8],
}

/// Runs one script.
pub(super) fn run_one<R: Abort + RandomSource + Threads + Wait + Sync>(
    rt: &R,
    alloc: Global,
    words: &[&str],
    input: &[u8],
    supply: Supply<'_>,
) -> Ended {
    let config = config_of(rt, alloc, words);
    let scripts = one_script(rt, alloc, input, supply);
    let run = run_of(rt, alloc, config, scripts, &[]);
    Ended {
        outcome: first_of(rt, run.outcomes.as_slice()),
        output: output_of(rt, alloc, run.ends.as_slice()),
        writes: writes_of(rt, alloc, run.ends.as_slice()),
    }
}

/// Asserts that a script ended as it is wanted to.
pub(super) fn same_outcome<R: Abort>(rt: &R, got: Outcome, case: &Case<'_>, place: usize) {
    assert_eq!(rt; got, case.outcome, "{}, at {place}", case.name);
}

/// Asserts that a script ends as it is wanted to, and that all its output comes.
pub(super) fn check_whole<R: Abort + RandomSource + Threads + Wait + Sync>(
    rt: &R,
    alloc: Global,
    case: &Case<'_>,
    supply: Supply<'_>,
    place: usize,
) {
    let ended = run_one(rt, alloc, case.words, case.input, supply);
    same_outcome(rt, ended.outcome, case, place);
    same_bytes(rt, ended.output.as_slice(), case.output, case.name, place);
}

/// A script of commands of all kinds, and of lines and blocks that are wrong.
pub(super) static ALL: Example = Example {
    name: "all commands",
    words: &["mcseg"],
    input: "set a 7 0 5|hello|get a|set b 0 0 2|10|decr b 1|gets a b|get|set a 0 0 3|abcd|delete b noreply|get b|",
    output: "STORED|VALUE a 7 5|hello|END|STORED|9|VALUE a 7 5 1|hello|VALUE b 0 2 3|9 |END|ERROR|CLIENT_ERROR bad data chunk|ERROR|END|",
    status: 0,
    errors: "",
};

// Asserts that a case ends so in pieces of each size.
fn check_sizes<R: Abort + RandomSource + Threads + Wait + Sync>(
    rt: &R,
    alloc: Global,
    case: &Case<'_>,
) {
    for place in 0..case.input.len() {
        let sizes = [place + 1];
        let supply = Supply {
            sizes: sizes.as_slice(),
            ..WHOLE
        };
        check_whole(rt, alloc, case, supply, place);
    }
}

// Asserts that a case ends so if it is cut once, behind each number of bytes.
fn check_cuts<R: Abort + RandomSource + Threads + Wait + Sync>(
    rt: &R,
    alloc: Global,
    case: &Case<'_>,
) {
    for place in 0..case.input.len() {
        let sizes = [place, case.input.len()];
        let supply = Supply {
            sizes: sizes.as_slice(),
            ..WHOLE
        };
        check_whole(rt, alloc, case, supply, place);
    }
}

// How the script of an example ends that has this status.
fn outcome_for(status: u8) -> Outcome {
    if status == 0 {
        Outcome::Done
    } else {
        Outcome::HistoryFull
    }
}

/// The case of an example of one script, with the bytes of its input and output.
pub(super) fn case_of<'a>(example: &'a Example, input: &'a [u8], output: &'a [u8]) -> Case<'a> {
    Case {
        name: example.name,
        words: example.words,
        input,
        outcome: outcome_for(example.status),
        output,
    }
}

// Asserts that an example ends so in pieces of each size, or if it is cut once.
fn check_example<R: Abort + RandomSource + Threads + Wait + Sync>(
    rt: &R,
    alloc: Global,
    example: &Example,
    once: bool,
) {
    let input = lines(rt, alloc, example.input);
    let output = lines(rt, alloc, example.output);
    let case = case_of(example, input.as_slice(), output.as_slice());
    if once {
        check_cuts(rt, alloc, &case);
    } else {
        check_sizes(rt, alloc, &case);
    }
}

#[test]
fn the_cutting_does_not_matter(rt: HostRuntime) {
    check_example(&rt, rt.alloc(), &ALL, false);
    check_example(&rt, rt.alloc(), &ALL, true);
}

#[test]
fn no_cut_changes_a_worked_example(rt: HostRuntime) {
    for example in EXAMPLES.as_slice() {
        check_example(&rt, rt.alloc(), example, true);
    }
}

#[test]
fn no_size_of_pieces_changes_a_worked_example(rt: HostRuntime) {
    for example in EXAMPLES.as_slice() {
        check_example(&rt, rt.alloc(), example, false);
    }
}
