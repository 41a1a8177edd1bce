//! No cut changes what a drawn script prints.
use super::SEED;
use super::drawing::{bytes_of, script_of, sizes_of};
use super::pieces::{Case, check_whole, run_one};
use super::runs::{Supply, WHOLE};
use mc_testing::Dice;
use std::alloc::Global;
use std::process::Abort;
use std::random::RandomSource;
use std::sync::Wait;
use std::thread::Threads;

// Two classes of few chunks, so that some items are too large, and some are pulled.
static WORDS: [&str; 5] = ["mcseg", "--sizes", "96,192", "--chunks", "2"];

// So many bytes a short input has at most.
const SHORT: usize = 400;

// Sizes of pieces that are drawn, or one byte each if the input is short.
fn cut_of<R: Abort>(rt: &R, alloc: Global, dice: &mut Dice, short: bool) -> Vec<usize> {
    if short {
        Vec::from_slice(alloc, &[1]).expect(rt, "memory")
    } else {
        sizes_of(rt, alloc, dice)
    }
}

// Asserts that an input prints the same in pieces.
fn check_pieces<R: Abort + RandomSource + Threads + Wait + Sync>(
    rt: &R,
    alloc: Global,
    dice: &mut Dice,
    case: &Case<'_>,
    place: usize,
) {
    let short = case.input.len() <= SHORT;
    for each in [false, short] {
        let sizes = cut_of(rt, alloc, dice, each);
        let supply = Supply {
            sizes: sizes.as_slice(),
            ..WHOLE
        };
        check_whole(rt, alloc, case, supply, place);
    }
}

// Asserts that an input prints the same in pieces as in one.
fn check_input<R: Abort + RandomSource + Threads + Wait + Sync>(
    rt: &R,
    alloc: Global,
    dice: &mut Dice,
    input: &[u8],
    place: usize,
) {
    let whole = run_one(rt, alloc, WORDS.as_slice(), input, WHOLE);
    let case = Case {
        name: "drawn",
        words: WORDS.as_slice(),
        input,
        outcome: whole.outcome,
        output: whole.output.as_slice(),
    };
    check_pieces(rt, alloc, dice, &case, place);
}

// So many scripts are drawn, and so many times bytes.
const MANY: usize = 150;

// Draws scripts and bytes by a seed, and asserts that each prints the same in pieces as in one.
fn check_drawn<R: Abort + RandomSource + Threads + Wait + Sync>(rt: &R, alloc: Global, seed: u64) {
    let mut dice = Dice::new(seed);
    for place in 0..MANY {
        let script = script_of(rt, alloc, &mut dice);
        check_input(rt, alloc, &mut dice, script.as_slice(), place);
        let bytes = bytes_of(rt, alloc, &mut dice);
        check_input(rt, alloc, &mut dice, bytes.as_slice(), place);
    }
}

#[test]
fn no_cut_changes_what_is_drawn(rt: HostRuntime) {
    check_drawn(&rt, rt.alloc(), SEED);
}
