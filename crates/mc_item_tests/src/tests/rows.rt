//! Parts of the table of commands that can be called alone, each after five versions of stripe 1 of 4: what a count needs and its
//! answer, a new version in an item's place, and a count in place.
use crate::tests::{
    AT, GROWN, NO_MARKS, REFUSED, item, key, same, same_bytes, site, text_of, value,
};
use mc_item::{
    ClassNo, Content, Expiry, Item, Key, Link, Making, Marks, Need, Offer, Room, Step, Value,
};
use std::alloc::Global;
use std::process::Abort;

// What is stored: this value, with flags 7 and an expiry.
fn content(value: &Value) -> Content<'_> {
    Content {
        flags: 7,
        value,
        expiry: Expiry::At(1010),
    }
}

// A step, the value of the item if there is one, the room, and the reply and change.
type CountRow = (Step, Option<&'static [u8]>, Room, &'static str);

static COUNTS: [CountRow; 5] = [
    (Step::Up(1), None, Room::Keep, "NotFound; Stays"),
    (Step::Down(1), Some(b"x"), Room::Keep, "NonNumeric; Stays"),
    (
        Step::Down(1),
        Some(b"10"),
        Room::Keep,
        "Number(9); Counted(Value { bytes: [57, 32] }, 22)",
    ),
    (Step::Up(1), Some(b"9"), AT, GROWN),
    (Step::Up(1), Some(b"9"), REFUSED, "NoSpace; Stays"),
];

// The item with this value, if there is a value.
fn found_of(rt: &impl Abort, alloc: Global, value: Option<&'static [u8]>) -> Option<Item> {
    match value {
        None => None,
        Some(bytes) => Some(item(rt, alloc, bytes, NO_MARKS)),
    }
}

fn text_of_count(
    rt: &impl Abort,
    alloc: Global,
    key: &Key,
    found: Option<&Item>,
    step: Step,
    room: Room,
) -> String {
    let making = Making { alloc, versions: 5 };
    let offer = Offer { class: None, room };
    let answer = site()
        .count_answer(making, key, step, found, offer)
        .expect(rt, "memory");
    text_of(rt, alloc, &answer)
}

fn check_count(rt: &impl Abort, alloc: Global, row: &CountRow, place: usize) {
    let key = key(rt, alloc, b"k");
    let found = found_of(rt, alloc, row.1);
    let answer = text_of_count(rt, alloc, &key, found.as_ref(), row.0, row.2);
    same(rt, answer.as_str(), row.3, place);
}

fn check_counts(rt: &impl Abort, alloc: Global, rows: &[CountRow]) {
    for (place, row) in rows.iter().enumerate() {
        check_count(rt, alloc, row, place);
    }
}

#[test]
fn count_answers_by_step_and_value(rt: HostRuntime) {
    check_counts(&rt, rt.alloc(), COUNTS.as_slice());
}

// A step, the value of the item if there is one, and what the count needs.
type NeedRow = (Step, Option<&'static [u8]>, Need);

static NEEDS: [NeedRow; 4] = [
    (Step::Up(1), None, Need::Nothing),
    (Step::Up(1), Some(b"x"), Need::Nothing),
    (Step::Down(1), Some(b"10"), Need::Same),
    (Step::Up(1), Some(b"9"), Need::Fresh(ClassNo(1))),
];

fn same_need(rt: &impl Abort, seen: Need, wanted: Need, place: usize) {
    assert_eq!(rt; seen, wanted, "at row {place}");
}

fn check_need(rt: &impl Abort, alloc: Global, row: &NeedRow, place: usize) {
    let key = key(rt, alloc, b"k");
    let found = found_of(rt, alloc, row.1);
    let need = site().count_need(&key, row.0, found.as_ref());
    same_need(rt, need, row.2, place);
}

fn check_needs(rt: &impl Abort, alloc: Global, rows: &[NeedRow]) {
    for (place, row) in rows.iter().enumerate() {
        check_need(rt, alloc, row, place);
    }
}

#[test]
fn a_count_needs_a_chunk_if_the_number_is_longer(rt: HostRuntime) {
    check_needs(&rt, rt.alloc(), NEEDS.as_slice());
}

const BOTH: Marks = Marks {
    fetched: true,
    active: true,
};

const OTHER: Link = Link {
    class: ClassNo(2),
    number: 9,
};

fn renew(rt: &impl Abort, held: &mut Item, value: &Value, link: Link) {
    let content = content(value);
    site().renew(5, held, &content, link).expect(rt, "memory");
}

fn text_of_item(rt: &impl Abort, alloc: Global, item: &Item) -> String {
    format!(in alloc; "{item:?}").expect(rt, "memory")
}

#[test]
fn a_renewed_item_is_the_new_version(rt: HostRuntime) {
    let alloc = rt.alloc();
    let mut held = item(&rt, alloc, b"old", BOTH);
    let value = value(&rt, alloc, b"1");
    renew(&rt, &mut held, &value, OTHER);
    let shown = text_of_item(&rt, alloc, &held);
    same(
        &rt,
        shown.as_str(),
        "Item { flags: 7, value: Value { bytes: [49] }, expiry: At(1010), cas: 22, link: Link { class: ClassNo(2), number: 9 }, marks: Marks { fetched: false, active: false } }",
        0,
    );
}

// The value of an item, a step, and what counting it in place answers, the bytes and the cas number then.
type InPlaceRow = (&'static [u8], Step, &'static str);

static IN_PLACE: [InPlaceRow; 4] = [
    (b"10", Step::Down(1), "Some(9), [57, 32], 22"),
    (b"9 ", Step::Up(1), "Some(10), [49, 48], 22"),
    (b"9", Step::Up(1), "None, [57], 6"),
    (b"x", Step::Up(1), "None, [120], 6"),
];

// Counts an item in place.
fn text_in_place(rt: &impl Abort, alloc: Global, held: &mut Item, step: Step) -> String {
    let number = held.count(step, 22);
    let bytes = held.value.bytes();
    let cas = held.cas;
    format!(in alloc; "{number:?}, {bytes:?}, {cas}").expect(rt, "memory")
}

fn check_in_place(rt: &impl Abort, alloc: Global, row: &InPlaceRow, place: usize) {
    let mut held = item(rt, alloc, row.0, NO_MARKS);
    let counted = text_in_place(rt, alloc, &mut held, row.1);
    same(rt, counted.as_str(), row.2, place);
}

fn check_all_in_place(rt: &impl Abort, alloc: Global, rows: &[InPlaceRow]) {
    for (place, row) in rows.iter().enumerate() {
        check_in_place(rt, alloc, row, place);
    }
}

#[test]
fn items_count_in_place_where_the_number_fits(rt: HostRuntime) {
    check_all_in_place(&rt, rt.alloc(), IN_PLACE.as_slice());
}

fn copy_of(rt: &impl Abort, value: &Value) -> Value {
    value.copy().expect(rt, "memory")
}

#[test]
fn a_shared_value_is_not_counted_in_place(rt: HostRuntime) {
    let alloc = rt.alloc();
    let mut held = item(&rt, alloc, b"9 ", NO_MARKS);
    let copy = copy_of(&rt, &held.value);
    let counted = text_in_place(&rt, alloc, &mut held, Step::Up(1));
    same(&rt, counted.as_str(), "None, [57, 32], 6", 0);
    same_bytes(&rt, copy.bytes(), b"9 ".as_slice(), 0);
}
