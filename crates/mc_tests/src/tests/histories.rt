//! The histories that a script leaves, event by event.
ghost use Rattle.std.specs.Prelude.{◌≤◌, length};

use super::lines;
use super::runs::{Supply, WHOLE, asserts_outcomes, config_of, one_script, run_of};
use mc_driver::{Final, Outcome};
use mc_item::{ClassEvent, ClassNo, StripeEvent, StripeNo};
use std::alloc::{AllocError, Global};
use std::process::Abort;
use std::random::RandomSource;
use std::sync::Wait;
use std::thread::Threads;

// A script on a store that words ask for, and the events of its first stripe and its first slab class.
struct Left {
    words: &'static [&'static str],
    script: &'static str,
    stripe: &'static [&'static str],
    class: &'static [&'static str],
}

static LEFT: [Left; 3] = [
    // The item of `a` costs 64 and 2 bytes, that of `bb` 64 and 4: both are of class 1, whose items have at most 96. Each call
    // has the next turn, and each new item the next link of its class. `a` dies ten seconds after moment 1000.
    Left {
        words: &["mcseg"],
        script: "set a 7 10 1|x|bogus|incr a 1|gets a b|%at 1010|touch a 0 noreply|set bb 0 0 2 noreply|19|incr bb 1|quit|get a|",
        stripe: &[
            "caller 0, turn 0, moment 1000: Store { verb: Set, key: Key { bytes: [97] }, flags: 7, exptime: 10, value: Value { bytes: [120] } }; Stored; At(Link { class: ClassNo(1), number: 0 })",
            "caller 0, turn 1, moment 1000: Incr(Key { bytes: [97] }, 1); NonNumeric; Keep",
            "caller 0, turn 2, moment 1000: Get(Key { bytes: [97] }); Value { flags: 7, value: Value { bytes: [120] }, cas: 1 }; Keep",
            "caller 0, turn 3, moment 1000: Get(Key { bytes: [98] }); Miss; Keep",
            "caller 0, turn 4: Key { bytes: [97] } lost, Expired(1010)",
            "caller 0, turn 4, moment 1010: Touch(Key { bytes: [97] }, 0); NotFound; Keep",
            "caller 0, turn 5, moment 1010: Store { verb: Set, key: Key { bytes: [98, 98] }, flags: 0, exptime: 0, value: Value { bytes: [49, 57] } }; Stored; At(Link { class: ClassNo(1), number: 1 })",
            "caller 0, turn 6, moment 1010: Incr(Key { bytes: [98, 98] }, 1); Number(20); Keep",
        ],
        class: &[
            "turn 0: 0 linked in Hot",
            "turn 4: 0 reclaimed",
            "turn 5: 1 linked in Hot",
        ],
    },
    // With one chunk, `a` is forced from HOT to COLD, and taken there for `b`, which is linked then. `%juggle` finds `b`
    // alone: its 66 bytes are over the fifth of 66 that HOT may have.
    Left {
        words: &["mcseg", "--sizes", "96", "--chunks", "1"],
        script: "set a 0 0 1|1|set b 0 0 1|2|%juggle 1|",
        stripe: &[
            "caller 0, turn 0, moment 1000: Store { verb: Set, key: Key { bytes: [97] }, flags: 0, exptime: 0, value: Value { bytes: [49] } }; Stored; At(Link { class: ClassNo(1), number: 0 })",
            "caller 0, turn 1: Key { bytes: [97] } lost, Taken { class: ClassNo(1), place: 2 }",
            "caller 0, turn 1, moment 1000: Store { verb: Set, key: Key { bytes: [98] }, flags: 0, exptime: 0, value: Value { bytes: [50] } }; Stored; At(Link { class: ClassNo(1), number: 1 })",
        ],
        class: &[
            "turn 0: 0 linked in Hot",
            "turn 1: 0 to Cold, Forced",
            "turn 1: 0 evicted",
            "turn 1: 1 linked in Hot",
            "turn 2: 66 bytes surveyed",
            "turn 2: 1 to Cold, Over(4)",
        ],
    },
    // An append's event has its own data, and a gat makes a call for each of its keys. The joined item dies at 1020.
    Left {
        words: &["mcseg"],
        script: "set a 7 10 1|x|append a 1 0 1|y|gats 20 a b|%at 1020|gat 0 a|",
        stripe: &[
            "caller 0, turn 0, moment 1000: Store { verb: Set, key: Key { bytes: [97] }, flags: 7, exptime: 10, value: Value { bytes: [120] } }; Stored; At(Link { class: ClassNo(1), number: 0 })",
            "caller 0, turn 1, moment 1000: Store { verb: Append, key: Key { bytes: [97] }, flags: 1, exptime: 0, value: Value { bytes: [121] } }; Stored; At(Link { class: ClassNo(1), number: 1 })",
            "caller 0, turn 2, moment 1000: Gat(Key { bytes: [97] }, 20); Value { flags: 7, value: Value { bytes: [120, 121] }, cas: 2 }; Keep",
            "caller 0, turn 3, moment 1000: Gat(Key { bytes: [98] }, 20); Miss; Keep",
            "caller 0, turn 4: Key { bytes: [97] } lost, Expired(1020)",
            "caller 0, turn 4, moment 1020: Gat(Key { bytes: [97] }, 0); Miss; Keep",
        ],
        class: &[
            "turn 0: 0 linked in Hot",
            "turn 1: 1 linked in Hot",
            "turn 1: 0 unlinked",
            "turn 4: 1 reclaimed",
        ],
    },
];

// An event of a stripe in short.
fn stripe_text(alloc: Global, event: &StripeEvent) -> Result<String, AllocError> {
    match event {
        StripeEvent::Did(did) => format!(in alloc;
            "caller {}, turn {}, moment {}: {:?}; {:?}; {:?}",
            did.who.caller, did.who.turn, did.moment, did.command, did.reply, did.room
        ),
        StripeEvent::Lost(lost) => format!(in alloc;
            "caller {}, turn {}: {:?} lost, {:?}",
            lost.who.caller, lost.who.turn, lost.key, lost.cause
        ),
        StripeEvent::Cooled(cooled) => format!(in alloc; "{:?} cooled", cooled.key),
    }
}

// An event of a class in short.
fn class_text(alloc: Global, event: &ClassEvent) -> Result<String, AllocError> {
    match event {
        ClassEvent::Linked(e) => {
            format!(in alloc; "turn {}: {} linked in {:?}", e.who.turn, e.number, e.seg)
        }
        ClassEvent::Shifted(e) => {
            format!(in alloc;
                "turn {}: {} to {:?}, {:?}",
                e.who.turn, e.number, e.to_seg, e.why
            )
        }
        ClassEvent::Evicted(e) => format!(in alloc; "turn {}: {} evicted", e.who.turn, e.number),
        ClassEvent::Surveyed(e) => {
            format!(in alloc; "turn {}: {} bytes surveyed", e.who.turn, e.total)
        }
        ClassEvent::Unlinked(e) => format!(in alloc; "turn {}: {} unlinked", e.who.turn, e.number),
        ClassEvent::Reclaimed(e) => {
            format!(in alloc; "turn {}: {} reclaimed", e.who.turn, e.number)
        }
        ClassEvent::Refused(e) => format!(in alloc; "turn {}: refused", e.who.turn),
        ClassEvent::Limited(e) => format!(in alloc; "turn {}: limited to {}", e.who.turn, e.chunks),
    }
}

// The text of the stripe's event at a place.
fn stripe_at<R: Abort>(rt: &R, alloc: Global, ledger: &Final, place: usize) -> String
    requires { 1 ≤ length ledger.now.stripes }
{
    let history = ledger.stripe(StripeNo(0)).history();
    let event = history.get(place).expect(rt, "an event");
    stripe_text(alloc, event).expect(rt, "memory")
}

// The text of the class's event at a place.
fn class_at<R: Abort>(rt: &R, alloc: Global, ledger: &Final, place: usize) -> String
    requires { 1 ≤ length ledger.now.classes }
{
    let history = ledger.class(ClassNo(1)).history();
    let event = history.get(place).expect(rt, "an event");
    class_text(alloc, event).expect(rt, "memory")
}

fn asserts_stripe<R: Abort>(rt: &R, alloc: Global, ledger: &Final, wanted: &[&str])
    requires { 1 ≤ length ledger.now.stripes }
{
    let history = ledger.stripe(StripeNo(0)).history();
    assert_eq!(rt; history.len(), wanted.len());
    for (place, want) in wanted.iter().enumerate() {
        let text = stripe_at(rt, alloc, ledger, place);
        assert_eq!(rt; text.as_str(), *want);
    }
}

fn asserts_class<R: Abort>(rt: &R, alloc: Global, ledger: &Final, wanted: &[&str])
    requires { 1 ≤ length ledger.now.classes }
{
    let history = ledger.class(ClassNo(1)).history();
    assert_eq!(rt; history.len(), wanted.len());
    for (place, want) in wanted.iter().enumerate() {
        let text = class_at(rt, alloc, ledger, place);
        assert_eq!(rt; text.as_str(), *want);
    }
}

fn check_left<R: Abort + RandomSource + Threads + Wait + Sync>(rt: &R, alloc: Global, left: &Left) {
    let input = lines(rt, alloc, left.script);
    let config = config_of(rt, alloc, left.words);
    let supply = Supply {
        sizes: &[5],
        taken: 5,
        ..WHOLE
    };
    let scripts = one_script(rt, alloc, input.as_slice(), supply);
    let run = run_of(rt, alloc, config, scripts, &[]);
    asserts_outcomes(rt, run.outcomes.as_slice(), &[Outcome::Done; 3]);
    asserts_stripe(rt, alloc, &run.ledger, left.stripe);
    asserts_class(rt, alloc, &run.ledger, left.class);
}

#[test]
fn histories_hold_each_call_each_dead_item_and_each_move(rt: HostRuntime) {
    for left in LEFT.as_slice() {
        check_left(&rt, rt.alloc(), left);
    }
}
