//! What stands in a history, how many events it holds, and which keys are of a stripe.
use super::Asked::{Get, Store, Touch};
use super::rows::Ask::{
    Answer, Cool, Events, GetAndCool, Last, Misses, Number, Owns, Reserve, Turn,
};
use super::rows::{Row, play};
use mc_item::Verb;

const FIVE: &str = "Value { flags: 7, value: Value { bytes: [53] }, cas: 2 }";

const BURIAL: &str = "Burial(Link { class: ClassNo(1), number: 0 })";

// What is wanted doesn't stand there.
static STANDING: [Row; 13] = [
    (Last, "none"),
    (Answer(Store(Verb::Set, "5")), "Stored"),
    (Last, "Stored"),
    (Answer(Touch(100)), "Touched"),
    (Last, "Touched"),
    (Answer(Get), FIVE),
    (Answer(Get), FIVE),
    (Last, FIVE),
    (Turn(100, Get), BURIAL),
    (Events, "4"),
    (Last, FIVE),
    (Cool(1), "cooled"),
    (Last, "none"),
];

#[test]
fn a_reply_stands_in_the_history(rt: HostRuntime) {
    play(&rt, rt.alloc(), STANDING.as_slice());
}

static SEVENTEEN: [Row; 7] = [
    (Reserve(17), "Err(HistoryFull)"),
    (Reserve(16), "Ok(())"),
    (Misses(16), "16"),
    (Turn(0, Get), "HistoryFull"),
    (Reserve(0), "Ok(())"),
    (Reserve(1), "Err(HistoryFull)"),
    (Events, "16"),
];

#[test]
fn the_seventeenth_event_is_refused(rt: HostRuntime) {
    play(&rt, rt.alloc(), SEVENTEEN.as_slice());
}

// The keys of one letter that are of stripe 1 of 4: FNV-1a of `a` is e40c292c, of `b` e70c2de5, and of `c` e60c2c52.
static OWNED: [Row; 3] = [
    (Owns(b'a'), "false"),
    (Owns(b'b'), "true"),
    (Owns(b'c'), "false"),
];

#[test]
fn a_stripe_owns_the_keys_of_its_number(rt: HostRuntime) {
    play(&rt, rt.alloc(), OWNED.as_slice());
}

static ROOM_BEFORE: [Row; 5] = [
    (Number, "1"),
    (Answer(Store(Verb::Set, "9")), "Stored"),
    (
        Answer(Get),
        "Value { flags: 7, value: Value { bytes: [57] }, cas: 2 }",
    ),
    (GetAndCool, "cooled"),
    (Events, "4"),
];

#[test]
fn a_hit_and_its_cooling_find_room_made_before(rt: HostRuntime) {
    play(&rt, rt.alloc(), ROOM_BEFORE.as_slice());
}
