//! The table of commands, row by row, after five versions of stripe 1 of 4, at the moment 1000: what a command wants, its reply,
//! and the item that it leaves. Each row was worked out by hand from protocol.txt. An item of the key `b` costs 65 bytes and
//! those of its value; class 1 has 66 bytes, class 2 has 70.
use super::Asked::{self, Decr, Delete, Gat, Get, Huge, Incr, StoreUntil, Touch};
use super::answering::{NOTHING, Row, There, check_rows};
use super::trying::Held::{self, Both, Home, Nothing, Other};
use super::trying::Lent::{Link, Refusal};
use mc_item::{ClassNo, Verb};
use mc_stripe::Classes;

const ABSENT: There = None;

const OLD: There = Some(("o", false));

// A chunk of class 1, and one of class 2, in place of no item or one of the same class.
const CHUNK: Classes = Classes {
    home: Some(ClassNo(1)),
    other: None,
};

const LARGER: Classes = Classes {
    home: Some(ClassNo(2)),
    other: None,
};

// A chunk of class 2 in place of an item of class 1.
const LARGER_OVER: Classes = Classes {
    home: Some(ClassNo(2)),
    other: Some(ClassNo(1)),
};

// The class of an item that goes.
const ITEM: Classes = Classes {
    home: None,
    other: Some(ClassNo(1)),
};

// The class of a new version: it lends the link 5, or refuses.
const AT: Held = Home(1, Link, 2);

const REFUSED: Held = Home(1, Refusal, 2);

const REFUSED_LARGER: Held = Home(2, Refusal, 2);

// The class of an item.
const HELD: Held = Other(1, 2);

// Storage commands of flags 7 and ten seconds, of a value that fills a chunk of class 1.
const SET: Asked = StoreUntil(Verb::Set, "1", 10);

const ADD: Asked = StoreUntil(Verb::Add, "1", 10);

const REPLACE: Asked = StoreUntil(Verb::Replace, "1", 10);

const CAS_6: Asked = StoreUntil(Verb::Cas(6), "1", 10);

const CAS_7: Asked = StoreUntil(Verb::Cas(7), "1", 10);

const STORED: &str =
    "Stored; Item { flags: 7, value: Value { bytes: [49] }, expiry: At(1010), cas: 22, link: Link { class: ClassNo(1), number: 5 }, marks: Marks { fetched: false, active: false } }";

// Sets of a value of one byte more than a chunk of class 1 holds, and of as many as one of class 2 holds.
const LONG_SET: Asked = StoreUntil(Verb::Set, "12", 10);

const LONGEST_SET: Asked = StoreUntil(Verb::Set, "12345", 10);

static STORAGE: [Row; 16] = [
    (ABSENT, SET, AT, CHUNK, STORED),
    (OLD, SET, AT, CHUNK, STORED),
    (OLD, SET, REFUSED, CHUNK, "NoRoom; none"),
    (ABSENT, SET, REFUSED, CHUNK, "NoRoom; none"),
    (ABSENT, LONG_SET, REFUSED_LARGER, LARGER, "NoRoom; none"),
    (ABSENT, LONGEST_SET, REFUSED_LARGER, LARGER, "NoRoom; none"),
    (OLD, ADD, Nothing, NOTHING, "NotStored; the same"),
    (ABSENT, ADD, AT, CHUNK, STORED),
    (ABSENT, ADD, REFUSED, CHUNK, "NoRoom; none"),
    (ABSENT, REPLACE, Nothing, NOTHING, "NotStored; none"),
    (OLD, REPLACE, AT, CHUNK, STORED),
    (OLD, REPLACE, REFUSED, CHUNK, "NoRoom; the same"),
    (ABSENT, CAS_6, Nothing, NOTHING, "NotFound; none"),
    (OLD, CAS_7, Nothing, NOTHING, "Exists; the same"),
    (OLD, CAS_6, AT, CHUNK, STORED),
    (OLD, CAS_6, REFUSED, CHUNK, "NoRoom; the same"),
];

#[test]
fn storage_commands_follow_the_table(rt: HostRuntime) {
    check_rows(&rt, rt.alloc(), STORAGE.as_slice());
}

// A value of one byte more than a chunk of class 2 holds.
const SIX: &str = "123456";

const LEFT: &str = "TooLarge; the same";

// A block too large for each class is read or skipped.
static LARGE: [Row; 10] = [
    (
        ABSENT,
        StoreUntil(Verb::Set, SIX, 10),
        REFUSED,
        NOTHING,
        "TooLarge; none",
    ),
    (
        OLD,
        StoreUntil(Verb::Set, SIX, 10),
        HELD,
        ITEM,
        "TooLarge; none",
    ),
    (OLD, Huge(Verb::Set), HELD, ITEM, "TooLarge; none"),
    (OLD, StoreUntil(Verb::Add, SIX, 10), Nothing, NOTHING, LEFT),
    (OLD, Huge(Verb::Add), Nothing, NOTHING, LEFT),
    (
        OLD,
        StoreUntil(Verb::Replace, SIX, 10),
        Nothing,
        NOTHING,
        LEFT,
    ),
    (OLD, Huge(Verb::Replace), Nothing, NOTHING, LEFT),
    (
        OLD,
        StoreUntil(Verb::Cas(7), SIX, 10),
        Nothing,
        NOTHING,
        LEFT,
    ),
    (
        OLD,
        StoreUntil(Verb::Cas(6), SIX, 10),
        Nothing,
        NOTHING,
        LEFT,
    ),
    (OLD, Huge(Verb::Cas(7)), Nothing, NOTHING, LEFT),
];

#[test]
fn what_is_too_large_is_refused_and_a_set_removes_the_item(rt: HostRuntime) {
    check_rows(&rt, rt.alloc(), LARGE.as_slice());
}

const APPEND: Asked = StoreUntil(Verb::Append, "1", 10);

const PREPEND: Asked = StoreUntil(Verb::Prepend, "1", 10);

const HIT: There = Some(("o", true));

const FOUR: There = Some(("2345", false));

const FIVE: There = Some(("23456", false));

// Data goes behind the old value or before it, and the new version keeps the old flags and expiry. A hit of the item is an event.
static JOINED: [Row; 13] = [
    (ABSENT, APPEND, Nothing, NOTHING, "NotStored; none"),
    (ABSENT, PREPEND, AT, NOTHING, "NotStored; none"),
    (
        ABSENT,
        StoreUntil(Verb::Prepend, SIX, 10),
        AT,
        NOTHING,
        "NotStored; none",
    ),
    (
        ABSENT,
        Huge(Verb::Append),
        Nothing,
        NOTHING,
        "TooLarge; none",
    ),
    (OLD, Huge(Verb::Prepend), Nothing, NOTHING, LEFT),
    (
        OLD,
        StoreUntil(Verb::Append, "", 10),
        AT,
        CHUNK,
        "Stored; Item { flags: 5, value: Value { bytes: [111] }, expiry: Never, cas: 22, link: Link { class: ClassNo(1), number: 5 }, marks: Marks { fetched: false, active: false } }",
    ),
    (
        HIT,
        APPEND,
        Both(2, Link, 2, 1, 2),
        LARGER_OVER,
        "Stored; Item { flags: 5, value: Value { bytes: [111, 49] }, expiry: Never, cas: 22, link: Link { class: ClassNo(2), number: 6 }, marks: Marks { fetched: false, active: false } }",
    ),
    (
        OLD,
        PREPEND,
        Both(2, Link, 2, 1, 2),
        LARGER_OVER,
        "Stored; Item { flags: 5, value: Value { bytes: [49, 111] }, expiry: Never, cas: 22, link: Link { class: ClassNo(2), number: 5 }, marks: Marks { fetched: false, active: false } }",
    ),
    (
        FOUR,
        PREPEND,
        Home(2, Link, 2),
        LARGER,
        "Stored; Item { flags: 5, value: Value { bytes: [49, 50, 51, 52, 53] }, expiry: Never, cas: 22, link: Link { class: ClassNo(2), number: 5 }, marks: Marks { fetched: false, active: false } }",
    ),
    (FIVE, APPEND, Home(2, Link, 2), NOTHING, LEFT),
    (
        OLD,
        StoreUntil(Verb::Append, "23456", 10),
        Nothing,
        NOTHING,
        LEFT,
    ),
    (
        HIT,
        APPEND,
        Both(2, Refusal, 2, 1, 2),
        LARGER_OVER,
        "NoRoom; the same",
    ),
    (FOUR, PREPEND, REFUSED_LARGER, LARGER, "NoRoom; the same"),
];

#[test]
fn joined_values_are_new_versions(rt: HostRuntime) {
    check_rows(&rt, rt.alloc(), JOINED.as_slice());
}

const X: There = Some(("x", false));

const ONE_X: There = Some(("1x", false));

const NINE: There = Some(("9", false));

static COUNTS: [Row; 10] = [
    (X, Incr(1), Nothing, NOTHING, "NonNumeric; the same"),
    (X, Decr(1), Nothing, NOTHING, "NonNumeric; the same"),
    (ONE_X, Incr(1), Nothing, NOTHING, "NonNumeric; the same"),
    (
        NINE,
        Incr(1),
        Both(2, Link, 2, 1, 2),
        LARGER_OVER,
        "Number(10); Item { flags: 5, value: Value { bytes: [49, 48] }, expiry: Never, cas: 22, link: Link { class: ClassNo(2), number: 5 }, marks: Marks { fetched: false, active: false } }",
    ),
    (
        Some(("99", false)),
        Incr(1),
        Home(2, Link, 2),
        LARGER,
        "Number(100); Item { flags: 5, value: Value { bytes: [49, 48, 48] }, expiry: Never, cas: 22, link: Link { class: ClassNo(2), number: 5 }, marks: Marks { fetched: false, active: false } }",
    ),
    (
        NINE,
        Incr(1),
        Both(2, Refusal, 2, 1, 2),
        LARGER_OVER,
        "NoSpace; the same",
    ),
    (
        Some(("9 ", false)),
        Incr(1),
        Nothing,
        NOTHING,
        "Number(10); Item { flags: 5, value: Value { bytes: [49, 48] }, expiry: Never, cas: 22, link: Link { class: ClassNo(2), number: 1 }, marks: Marks { fetched: false, active: false } }",
    ),
    (
        Some(("10", false)),
        Decr(1),
        Nothing,
        NOTHING,
        "Number(9); Item { flags: 5, value: Value { bytes: [57, 32] }, expiry: Never, cas: 22, link: Link { class: ClassNo(2), number: 1 }, marks: Marks { fetched: false, active: false } }",
    ),
    (
        Some(("3", false)),
        Decr(5),
        Nothing,
        NOTHING,
        "Number(0); Item { flags: 5, value: Value { bytes: [48] }, expiry: Never, cas: 22, link: Link { class: ClassNo(1), number: 1 }, marks: Marks { fetched: false, active: false } }",
    ),
    (
        Some(("2", false)),
        Incr(18_446_744_073_709_551_615),
        Nothing,
        NOTHING,
        "Number(1); Item { flags: 5, value: Value { bytes: [49] }, expiry: Never, cas: 22, link: Link { class: ClassNo(1), number: 1 }, marks: Marks { fetched: false, active: false } }",
    ),
];

#[test]
fn numbers_are_padded_and_grow(rt: HostRuntime) {
    check_rows(&rt, rt.alloc(), COUNTS.as_slice());
}

// A value of five bytes costs 70, and one of six costs 71.
static LONGER: [Row; 1] = [(
    Some(("99999", false)),
    Incr(1),
    Nothing,
    NOTHING,
    "NoSpace; the same",
)];

#[test]
fn a_number_too_long_for_each_class_finds_no_space(rt: HostRuntime) {
    check_rows(&rt, rt.alloc(), LONGER.as_slice());
}

const FETCHED: There = Some(("x", true));

static FOUND: [Row; 7] = [
    (
        X,
        Get,
        Nothing,
        NOTHING,
        "Value { flags: 5, value: Value { bytes: [120] }, cas: 6 }; Item { flags: 5, value: Value { bytes: [120] }, expiry: Never, cas: 6, link: Link { class: ClassNo(1), number: 1 }, marks: Marks { fetched: true, active: false } }",
    ),
    (
        FETCHED,
        Get,
        Nothing,
        NOTHING,
        "Value { flags: 5, value: Value { bytes: [120] }, cas: 6 }; Item { flags: 5, value: Value { bytes: [120] }, expiry: Never, cas: 6, link: Link { class: ClassNo(1), number: 1 }, marks: Marks { fetched: true, active: true } }",
    ),
    (
        X,
        Touch(10),
        Nothing,
        NOTHING,
        "Touched; Item { flags: 5, value: Value { bytes: [120] }, expiry: At(1010), cas: 6, link: Link { class: ClassNo(1), number: 1 }, marks: Marks { fetched: true, active: false } }",
    ),
    (
        FETCHED,
        Touch(10),
        Nothing,
        NOTHING,
        "Touched; Item { flags: 5, value: Value { bytes: [120] }, expiry: At(1010), cas: 6, link: Link { class: ClassNo(1), number: 1 }, marks: Marks { fetched: true, active: true } }",
    ),
    (
        X,
        Gat(10),
        Nothing,
        NOTHING,
        "Value { flags: 5, value: Value { bytes: [120] }, cas: 6 }; Item { flags: 5, value: Value { bytes: [120] }, expiry: At(1010), cas: 6, link: Link { class: ClassNo(1), number: 1 }, marks: Marks { fetched: true, active: false } }",
    ),
    (
        FETCHED,
        Gat(10),
        Nothing,
        NOTHING,
        "Value { flags: 5, value: Value { bytes: [120] }, cas: 6 }; Item { flags: 5, value: Value { bytes: [120] }, expiry: At(1010), cas: 6, link: Link { class: ClassNo(1), number: 1 }, marks: Marks { fetched: true, active: true } }",
    ),
    (X, Delete, HELD, ITEM, "Deleted; none"),
];

#[test]
fn each_command_answers_by_the_item_that_is_there(rt: HostRuntime) {
    check_rows(&rt, rt.alloc(), FOUND.as_slice());
}
