//! Each kind of event, read back from a history.
use super::Asked::{Decr, Delete, Gat, Get, Huge, Incr, StoreUntil, Touch};
use super::rows::Ask::{Cool, Event, Events, Expire, FullTurn, Take, Turn};
use super::rows::{Row, play};
use super::texts::{reply_text, text};
use mc_item::{Command, Cooled, Did, Lost, Reply, Room, StripeEvent, Verb};
use mc_stripe::{StripeState, Turn as Called};
use std::alloc::Global;
use std::process::Abort;

/// The event of a command, in short: who asked it when, its reply, and the room that it took.
pub(super) fn command_text<R: Abort>(
    rt: &R,
    alloc: Global,
    turn: Called,
    command: &Command,
    reply: &Reply,
    room: Room,
) -> String {
    let Called { who, moment } = turn;
    format!(in alloc;
        "caller {}, turn {}, moment {moment}: {command:?}; {reply:?}; {room:?}",
        who.caller, who.turn
    )
    .expect(rt, "a text")
}

fn did_text<R: Abort>(rt: &R, alloc: Global, did: &Did) -> String {
    let turn = Called {
        who: did.who,
        moment: did.moment,
    };
    command_text(rt, alloc, turn, &did.command, &did.reply, did.room)
}

fn lost_text<R: Abort>(rt: &R, alloc: Global, lost: &Lost) -> String {
    format!(in alloc;
        "caller {}, turn {}: {:?} lost, {:?}",
        lost.who.caller, lost.who.turn, lost.key, lost.cause
    )
    .expect(rt, "a text")
}

fn cooled_text<R: Abort>(rt: &R, alloc: Global, cooled: &Cooled) -> String {
    format!(in alloc;
        "caller {}, turn {}: {:?} cooled",
        cooled.who.caller, cooled.who.turn, cooled.key
    )
    .expect(rt, "a text")
}

// An event in short.
fn event_text<R: Abort>(rt: &R, alloc: Global, event: &StripeEvent) -> String {
    match event {
        StripeEvent::Did(did) => did_text(rt, alloc, did),
        StripeEvent::Lost(lost) => lost_text(rt, alloc, lost),
        StripeEvent::Cooled(cooled) => cooled_text(rt, alloc, cooled),
    }
}

/// The reply that an event notes, where it is a command's.
pub(super) fn reply_in<R: Abort>(rt: &R, alloc: Global, event: &StripeEvent) -> String {
    match event {
        StripeEvent::Did(did) => reply_text(rt, alloc, &did.reply),
        StripeEvent::Lost(_) => text(rt, alloc, "none"),
        StripeEvent::Cooled(_) => text(rt, alloc, "none"),
    }
}

/// The event at a place of the history, in short.
pub(super) fn text_of_event<R: Abort>(
    rt: &R,
    alloc: Global,
    stripe: &StripeState,
    place: usize,
) -> String {
    let event = stripe.history().get(place).expect(rt, "an event");
    event_text(rt, alloc, event)
}

// The turns of caller 9 begin at the moment 1001: what happens to the key `b`, and the events that say so.
static TURNS: [Row; 33] = [
    (Turn(1, Get), "Miss"),
    (Turn(2, StoreUntil(Verb::Add, "5", 100)), "Stored"),
    (Turn(3, StoreUntil(Verb::Cas(3), "6", 0)), "Exists"),
    (FullTurn(4, StoreUntil(Verb::Replace, "6", -1)), "NoRoom"),
    (
        Turn(5, Get),
        "Value { flags: 7, value: Value { bytes: [53] }, cas: 2 }",
    ),
    (
        Turn(6, Get),
        "Value { flags: 7, value: Value { bytes: [53] }, cas: 2 }",
    ),
    (Cool(7), "cooled"),
    (Turn(8, Incr(1)), "Number(6)"),
    (Turn(9, Touch(50)), "Touched"),
    (Take(10, 12), "taken"),
    (Turn(11, Delete), "NotFound"),
    (Turn(12, StoreUntil(Verb::Set, "9", 10)), "Stored"),
    (Turn(13, Huge(Verb::Cas(8))), "TooLarge"),
    (Turn(14, Decr(2)), "Number(7)"),
    (Turn(15, Incr(93)), "Number(100)"),
    (Expire(16, 1022), "expired"),
    (Events, "16"),
    (
        Event(0),
        "caller 9, turn 1, moment 1001: Get(Key { bytes: [98] }); Miss; Keep",
    ),
    (
        Event(1),
        "caller 9, turn 2, moment 1002: Store { verb: Add, key: Key { bytes: [98] }, flags: 7, exptime: 100, value: Value { bytes: [53] } }; Stored; At(Link { class: ClassNo(1), number: 1 })",
    ),
    (
        Event(2),
        "caller 9, turn 3, moment 1003: Store { verb: Cas(3), key: Key { bytes: [98] }, flags: 7, exptime: 0, value: Value { bytes: [54] } }; Exists; Keep",
    ),
    (
        Event(3),
        "caller 9, turn 4, moment 1004: Store { verb: Replace, key: Key { bytes: [98] }, flags: 7, exptime: -1, value: Value { bytes: [54] } }; NoRoom; Refused { class: ClassNo(1), place: 77 }",
    ),
    (
        Event(4),
        "caller 9, turn 5, moment 1005: Get(Key { bytes: [98] }); Value { flags: 7, value: Value { bytes: [53] }, cas: 2 }; Keep",
    ),
    (
        Event(5),
        "caller 9, turn 6, moment 1006: Get(Key { bytes: [98] }); Value { flags: 7, value: Value { bytes: [53] }, cas: 2 }; Keep",
    ),
    (Event(6), "caller 9, turn 7: Key { bytes: [98] } cooled"),
    (
        Event(7),
        "caller 9, turn 8, moment 1008: Incr(Key { bytes: [98] }, 1); Number(6); Keep",
    ),
    (
        Event(8),
        "caller 9, turn 9, moment 1009: Touch(Key { bytes: [98] }, 50); Touched; Keep",
    ),
    (
        Event(9),
        "caller 9, turn 10: Key { bytes: [98] } lost, Taken { class: ClassNo(1), place: 12 }",
    ),
    (
        Event(10),
        "caller 9, turn 11, moment 1011: Delete(Key { bytes: [98] }); NotFound; Keep",
    ),
    (
        Event(11),
        "caller 9, turn 12, moment 1012: Store { verb: Set, key: Key { bytes: [98] }, flags: 7, exptime: 10, value: Value { bytes: [57] } }; Stored; At(Link { class: ClassNo(1), number: 11 })",
    ),
    (
        Event(12),
        "caller 9, turn 13, moment 1013: Huge { verb: Cas(8), key: Key { bytes: [98] } }; TooLarge; Keep",
    ),
    (
        Event(13),
        "caller 9, turn 14, moment 1014: Decr(Key { bytes: [98] }, 2); Number(7); Keep",
    ),
    (
        Event(14),
        "caller 9, turn 15, moment 1015: Incr(Key { bytes: [98] }, 93); Number(100); At(Link { class: ClassNo(2), number: 14 })",
    ),
    (
        Event(15),
        "caller 9, turn 16: Key { bytes: [98] } lost, Expired(1022)",
    ),
];

#[test]
fn each_event_is_read_as_it_was_noted(rt: HostRuntime) {
    play(&rt, rt.alloc(), TURNS.as_slice());
}

// An event has the data of an append or prepend alone.
static JOINS: [Row; 11] = [
    (Turn(1, Gat(5)), "Miss"),
    (Turn(2, StoreUntil(Verb::Set, "5", 100)), "Stored"),
    (Turn(3, StoreUntil(Verb::Append, "6", 9)), "Stored"),
    (
        Turn(4, Gat(-1)),
        "Value { flags: 7, value: Value { bytes: [53, 54] }, cas: 6 }",
    ),
    (Expire(5, 1005), "expired"),
    (FullTurn(6, StoreUntil(Verb::Prepend, "7", 0)), "NotStored"),
    (Events, "6"),
    (
        Event(0),
        "caller 9, turn 1, moment 1001: Gat(Key { bytes: [98] }, 5); Miss; Keep",
    ),
    (
        Event(2),
        "caller 9, turn 3, moment 1003: Store { verb: Append, key: Key { bytes: [98] }, flags: 7, exptime: 9, value: Value { bytes: [54] } }; Stored; At(Link { class: ClassNo(2), number: 2 })",
    ),
    (
        Event(3),
        "caller 9, turn 4, moment 1004: Gat(Key { bytes: [98] }, -1); Value { flags: 7, value: Value { bytes: [53, 54] }, cas: 6 }; Keep",
    ),
    (
        Event(5),
        "caller 9, turn 6, moment 1006: Store { verb: Prepend, key: Key { bytes: [98] }, flags: 7, exptime: 0, value: Value { bytes: [55] } }; NotStored; Keep",
    ),
];

#[test]
fn a_gat_and_what_is_joined_are_noted(rt: HostRuntime) {
    play(&rt, rt.alloc(), JOINS.as_slice());
}
