//! What becomes of an item: marks, expiries, and items that go.
use super::Asked::{Decr, Gat, Get, Store, StoreUntil, Touch};
use super::rows::Ask::{Active, Answer, Cool, Dead, Events, Expire, Item, Take};
use super::rows::{Row, play};
use mc_item::Verb;

const STORED: &str =
    "Item { flags: 7, value: Value { bytes: [53] }, expiry: Never, cas: 2, link: Link { class: ClassNo(1), number: 0 }, marks: Marks { fetched: false, active: false } }";

const HIT: &str =
    "Item { flags: 7, value: Value { bytes: [52] }, expiry: At(1100), cas: 6, link: Link { class: ClassNo(1), number: 0 }, marks: Marks { fetched: true, active: true } }";

const COOLED: &str =
    "Item { flags: 7, value: Value { bytes: [52] }, expiry: At(1100), cas: 6, link: Link { class: ClassNo(1), number: 0 }, marks: Marks { fetched: true, active: false } }";

static HITS: [Row; 9] = [
    (Answer(Store(Verb::Set, "5")), "Stored"),
    (Item, STORED),
    (Answer(Touch(100)), "Touched"),
    (Active, "false"),
    (
        Answer(Get),
        "Value { flags: 7, value: Value { bytes: [53] }, cas: 2 }",
    ),
    (Answer(Decr(1)), "Number(4)"),
    (Item, HIT),
    (Cool(1), "cooled"),
    (Item, COOLED),
];

#[test]
fn hits_leave_marks_and_a_touch_keeps_the_cas_number(rt: HostRuntime) {
    play(&rt, rt.alloc(), HITS.as_slice());
}

const UNTIL: &str =
    "Item { flags: 7, value: Value { bytes: [53] }, expiry: At(1100), cas: 2, link: Link { class: ClassNo(1), number: 0 }, marks: Marks { fetched: true, active: false } }";

const JOINED: &str =
    "Item { flags: 7, value: Value { bytes: [53, 54] }, expiry: At(1100), cas: 6, link: Link { class: ClassNo(2), number: 2 }, marks: Marks { fetched: false, active: false } }";

const FOR_EVER: &str =
    "Item { flags: 7, value: Value { bytes: [53, 54] }, expiry: Never, cas: 6, link: Link { class: ClassNo(2), number: 2 }, marks: Marks { fetched: true, active: false } }";

static JOINS: [Row; 8] = [
    (Answer(Store(Verb::Set, "5")), "Stored"),
    (
        Answer(Gat(100)),
        "Value { flags: 7, value: Value { bytes: [53] }, cas: 2 }",
    ),
    (Item, UNTIL),
    (Answer(StoreUntil(Verb::Append, "6", 7)), "Stored"),
    (Item, JOINED),
    (
        Answer(Gat(0)),
        "Value { flags: 7, value: Value { bytes: [53, 54] }, cas: 6 }",
    ),
    (Item, FOR_EVER),
    (Events, "4"),
];

#[test]
fn a_gat_sets_the_expiry_that_an_append_keeps(rt: HostRuntime) {
    play(&rt, rt.alloc(), JOINS.as_slice());
}

static GONE: [Row; 10] = [
    (Answer(Store(Verb::Set, "5")), "Stored"),
    (Take(1, 3), "taken"),
    (Item, "none"),
    (Answer(Store(Verb::Add, "6")), "Stored"),
    (Answer(Touch(100)), "Touched"),
    (Dead(1099), "false"),
    (Dead(1100), "true"),
    (Expire(2, 1100), "expired"),
    (Item, "none"),
    (Events, "5"),
];

#[test]
fn dead_and_taken_items_go(rt: HostRuntime) {
    play(&rt, rt.alloc(), GONE.as_slice());
}
