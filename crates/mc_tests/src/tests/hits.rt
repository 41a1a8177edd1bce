//! Hits that wait in the queue of their class until it is juggled, through the program.
use super::runs::{WHOLE, asserts_outcomes, asserts_output, config_of, one_script, run_of};
use super::{Example, all_hold, lines};
use mc_driver::Outcome;
use mc_item::{ClassNo, Seg};
use mc_segment::ClassState;
use std::process::Abort;

// An item of one byte under a key of one costs 66. HOT may have a fifth of the bytes of its class, and WARM two fifths.
pub(super) static EXAMPLES: [Example; 2] = [
    // The item of `a` is active and at COLD's tail, from which the set takes a chunk.
    Example {
        name: "a hit still queued saves nothing",
        words: &["mcseg", "--sizes", "96", "--chunks", "2"],
        input: "set a 0 0 1|1|set b 0 0 1|2|%juggle 1|get a a|set c 0 0 1|3|get a b c|",
        output: "STORED|STORED|JUGGLED 0 2|VALUE a 0 1|1|VALUE a 0 1|1|END|STORED|VALUE b 0 1|2|VALUE c 0 1|3|END|",
        status: 0,
        errors: "",
    },
    // By its hit `a` goes to WARM, and from there, over the limit, to COLD's head. So `b` is at COLD's tail.
    Example {
        name: "a hit that was taken saves its item",
        words: &["mcseg", "--sizes", "96", "--chunks", "2"],
        input: "set a 0 0 1|1|set b 0 0 1|2|%juggle 1|get a a|%juggle 1|set c 0 0 1|3|get a b c|",
        output: "STORED|STORED|JUGGLED 0 2|VALUE a 0 1|1|VALUE a 0 1|1|END|JUGGLED 0 1|STORED|VALUE a 0 1|1|VALUE c 0 1|3|END|",
        status: 0,
        errors: "",
    },
];

#[test]
fn a_hit_saves_its_item_once_it_is_taken(rt: HostRuntime) {
    all_hold(&rt, rt.alloc(), EXAMPLES.as_slice());
}

static WORDS: [&str; 5] = ["mcseg", "--sizes", "96", "--chunks", "8"];

// The first juggling moves four to COLD. The second takes the hit, which moves `a` to WARM and isn't counted, and moves nothing.
const SCRIPT: &str =
    "set a 0 0 1|1|set b 0 0 1|2|set c 0 0 1|3|set d 0 0 1|4|set e 0 0 1|5|%juggle 1|get a a|%juggle 1|";

const REPLIES: &str =
    "STORED|STORED|STORED|STORED|STORED|JUGGLED 0 4|VALUE a 0 1|1|VALUE a 0 1|1|END|JUGGLED 0 0|";

// Asserts that the segments have these bytes, HOT first, and the history so many events.
fn asserts_class<R: Abort>(rt: &R, class: &ClassState, bytes: [u64; 4], events: usize) {
    let found = [
        class.bytes(Seg::Hot),
        class.bytes(Seg::Warm),
        class.bytes(Seg::Cold),
        class.bytes(Seg::Temp),
    ];
    assert_eq!(rt; found, bytes);
    assert_eq!(rt; class.history().len(), events);
}

#[test]
fn a_queued_hit_moves_its_entry_when_the_class_is_juggled(rt: HostRuntime) {
    let input = lines(&rt, rt.alloc(), SCRIPT);
    let config = config_of(&rt, rt.alloc(), WORDS.as_slice());
    let scripts = one_script(&rt, rt.alloc(), input.as_slice(), WHOLE);
    let run = run_of(&rt, rt.alloc(), config, scripts, &[]);
    asserts_outcomes(&rt, run.outcomes.as_slice(), &[Outcome::Done; 3]);
    asserts_output(&rt, rt.alloc(), run.ends.as_slice(), REPLIES);
    asserts_class(&rt, run.ledger.class(ClassNo(1)), [66, 66, 198, 0], 12);
}
