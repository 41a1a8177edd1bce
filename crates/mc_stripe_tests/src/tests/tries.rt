//! Tries of commands on an absent item and on a live one: each reply, what is wanted, and what becomes of chunks was worked out
//! by hand from the table of commands. An item of the key `b` costs 65 bytes and those of its value; class 1 has 66 bytes,
//! class 2 has 70.
use super::Asked::{self, Decr, Delete, Gat, Get, Huge, Incr, Store, Touch};
use super::trying::Held::{Both, Home, Nothing, Other};
use super::trying::Lent::{Link as Chunk, Nothing as Keep, Refusal};
use super::trying::Told::{Fails, Made, Wants};
use super::trying::{Row, Told, check_tries, opened};
use mc_item::{ClassNo, Expiry, Fault, Link, Verb};
use mc_stripe::Fate::{Goes, Renewed, Untouched};
use mc_stripe::Want::{Place, Room};
use mc_stripe::{Classes, Fate, StripeState, Want};
use std::alloc::Global;
use std::process::Abort;
use std::random::RandomSource;

/// The link of the item that the first event of a test stores.
pub(super) const OLD: Link = Link {
    class: ClassNo(1),
    number: 0,
};

/// A first version with a value of one byte, and of two.
pub(super) const NEW_1: Fate = Renewed {
    cost: 66,
    expiry: Expiry::Never,
    old: None,
};

pub(super) const NEW_2: Fate = Renewed {
    cost: 67,
    expiry: Expiry::Never,
    old: None,
};

/// The same in place of an item.
pub(super) const OVER_1: Fate = Renewed {
    cost: 66,
    expiry: Expiry::Never,
    old: Some(OLD),
};

pub(super) const OVER_2: Fate = Renewed {
    cost: 67,
    expiry: Expiry::Never,
    old: Some(OLD),
};

/// A value of two bytes in place of an item that dies at the moment 1100.
pub(super) const GROWN: Fate = Renewed {
    cost: 67,
    expiry: Expiry::At(1100),
    old: Some(OLD),
};

// What is wanted: the classes of a new version and of the item.
const FIRST: Want = Want::Classes(Classes {
    home: Some(ClassNo(1)),
    other: None,
});

const SECOND: Want = Want::Classes(Classes {
    home: Some(ClassNo(2)),
    other: None,
});

const SECOND_OVER: Want = Want::Classes(Classes {
    home: Some(ClassNo(2)),
    other: Some(ClassNo(1)),
});

const ITEM: Want = Want::Classes(Classes {
    home: None,
    other: Some(ClassNo(1)),
});

const SECOND_ITEM: Want = Want::Classes(Classes {
    home: None,
    other: Some(ClassNo(2)),
});

/// The first event of a test: a set of an item that never dies.
pub(super) const NINE: Row = (
    Store(Verb::Set, "9"),
    Home(1, Chunk, 1),
    Made("Stored", Chunk, NEW_1),
);

/// A get of an absent key.
pub(super) const MISS: Row = (Get, Nothing, Made("Miss", Keep, Untouched));

static ABSENT: [Row; 20] = [
    MISS,
    (Gat(100), Nothing, Made("Miss", Keep, Untouched)),
    (Touch(100), Nothing, Made("NotFound", Keep, Untouched)),
    (Delete, Nothing, Made("NotFound", Keep, Untouched)),
    (Incr(1), Nothing, Made("NotFound", Keep, Untouched)),
    (Decr(1), Nothing, Made("NotFound", Keep, Untouched)),
    (
        Store(Verb::Replace, "9"),
        Nothing,
        Made("NotStored", Keep, Untouched),
    ),
    (
        Store(Verb::Cas(2), "9"),
        Home(1, Chunk, 0),
        Made("NotFound", Keep, Untouched),
    ),
    (
        Store(Verb::Append, "123456"),
        Home(1, Chunk, 0),
        Made("NotStored", Keep, Untouched),
    ),
    (Huge(Verb::Set), Nothing, Made("TooLarge", Keep, Untouched)),
    (
        Store(Verb::Set, "123456"),
        Nothing,
        Made("TooLarge", Keep, Untouched),
    ),
    (Store(Verb::Set, "9"), Nothing, Wants(FIRST)),
    (Store(Verb::Add, "12"), Home(1, Chunk, 9), Wants(SECOND)),
    (Store(Verb::Set, "9"), Home(1, Keep, 9), Wants(Room)),
    (
        Store(Verb::Set, "9"),
        Home(1, Chunk, 0),
        Wants(Place(ClassNo(1))),
    ),
    (
        Store(Verb::Set, "9"),
        Home(1, Refusal, 0),
        Made("NoRoom", Refusal, Untouched),
    ),
    (
        Store(Verb::Add, "9"),
        Home(1, Refusal, 0),
        Made("NoRoom", Refusal, Untouched),
    ),
    (
        Store(Verb::Add, "12"),
        Home(2, Chunk, 1),
        Made("Stored", Chunk, NEW_2),
    ),
    (Delete, Nothing, Wants(SECOND_ITEM)),
    (Incr(1), Nothing, Made("Number(13)", Keep, Untouched)),
];

#[test]
fn an_absent_key_wants_a_class_only_for_what_is_stored(rt: HostRuntime) {
    let mut stripe = opened(&rt, rt.alloc());
    check_tries(&rt, rt.alloc(), &mut stripe, 1000, ABSENT.as_slice());
}

// Nothing happens before the last row: the item of class 1 stays as it was.
static OVER: [Row; 26] = [
    NINE,
    (Store(Verb::Set, "8"), Nothing, Wants(FIRST)),
    (Store(Verb::Set, "12"), Nothing, Wants(SECOND_OVER)),
    (
        Store(Verb::Set, "12"),
        Home(2, Chunk, 9),
        Wants(SECOND_OVER),
    ),
    (Store(Verb::Set, "12"), Other(1, 9), Wants(SECOND_OVER)),
    (
        Store(Verb::Cas(2), "12"),
        Both(1, Chunk, 9, 1, 9),
        Wants(SECOND_OVER),
    ),
    (Store(Verb::Replace, "8"), Home(1, Keep, 9), Wants(Room)),
    (Store(Verb::Set, "12"), Both(2, Keep, 9, 1, 9), Wants(Room)),
    (
        Store(Verb::Set, "8"),
        Home(1, Chunk, 1),
        Wants(Place(ClassNo(1))),
    ),
    (
        Store(Verb::Set, "8"),
        Home(1, Refusal, 0),
        Wants(Place(ClassNo(1))),
    ),
    (
        Store(Verb::Set, "12"),
        Both(2, Chunk, 0, 1, 9),
        Wants(Place(ClassNo(2))),
    ),
    (
        Store(Verb::Set, "12"),
        Both(2, Chunk, 9, 1, 0),
        Wants(Place(ClassNo(1))),
    ),
    (Incr(1), Nothing, Wants(SECOND_OVER)),
    (Incr(1), Both(2, Keep, 9, 1, 9), Wants(Room)),
    (Incr(1), Both(2, Chunk, 9, 1, 0), Wants(Place(ClassNo(1)))),
    (Store(Verb::Append, ""), Nothing, Wants(FIRST)),
    (
        Store(Verb::Append, ""),
        Home(1, Chunk, 1),
        Wants(Place(ClassNo(1))),
    ),
    (
        Store(Verb::Prepend, "1"),
        Home(1, Chunk, 9),
        Wants(SECOND_OVER),
    ),
    (
        Store(Verb::Prepend, "1"),
        Home(2, Chunk, 9),
        Wants(SECOND_OVER),
    ),
    (
        Store(Verb::Append, "1"),
        Both(2, Keep, 9, 1, 9),
        Wants(Room),
    ),
    (
        Store(Verb::Append, "1"),
        Both(2, Chunk, 9, 1, 0),
        Wants(Place(ClassNo(1))),
    ),
    (Delete, Home(1, Chunk, 9), Wants(ITEM)),
    (Delete, Other(1, 0), Wants(Place(ClassNo(1)))),
    (Huge(Verb::Set), Nothing, Wants(ITEM)),
    (
        Store(Verb::Set, "123456"),
        Other(1, 0),
        Wants(Place(ClassNo(1))),
    ),
    (
        Store(Verb::Set, "12"),
        Both(2, Chunk, 1, 1, 1),
        Made("Stored", Chunk, OVER_2),
    ),
];

#[test]
fn over_an_item_both_classes_a_room_and_places_are_wanted(rt: HostRuntime) {
    let mut stripe = opened(&rt, rt.alloc());
    check_tries(&rt, rt.alloc(), &mut stripe, 1000, OVER.as_slice());
}

// The least that each command on an item of class 1 needs, which the first event of a stripe of its own stores.
static LEAST: [Row; 17] = [
    (
        Store(Verb::Set, "8"),
        Home(1, Chunk, 2),
        Made("Stored", Chunk, OVER_1),
    ),
    (
        Store(Verb::Cas(2), "8"),
        Home(1, Chunk, 2),
        Made("Stored", Chunk, OVER_1),
    ),
    (
        Store(Verb::Replace, "12"),
        Both(2, Chunk, 1, 1, 1),
        Made("Stored", Chunk, OVER_2),
    ),
    (
        Incr(1),
        Both(2, Chunk, 1, 1, 1),
        Made("Number(10)", Chunk, OVER_2),
    ),
    (
        Incr(1),
        Both(2, Refusal, 0, 1, 0),
        Made("NoSpace", Refusal, Untouched),
    ),
    (
        Store(Verb::Replace, "8"),
        Home(1, Refusal, 0),
        Made("NoRoom", Refusal, Untouched),
    ),
    (
        Store(Verb::Set, "8"),
        Home(1, Refusal, 1),
        Made("NoRoom", Refusal, Goes(OLD)),
    ),
    (
        Store(Verb::Set, "12"),
        Both(2, Refusal, 0, 1, 1),
        Made("NoRoom", Refusal, Goes(OLD)),
    ),
    (
        Huge(Verb::Set),
        Other(1, 1),
        Made("TooLarge", Keep, Goes(OLD)),
    ),
    (
        Store(Verb::Set, "123456"),
        Other(1, 1),
        Made("TooLarge", Keep, Goes(OLD)),
    ),
    (
        Store(Verb::Append, ""),
        Home(1, Chunk, 2),
        Made("Stored", Chunk, OVER_1),
    ),
    (
        Store(Verb::Prepend, "1"),
        Both(2, Chunk, 1, 1, 1),
        Made("Stored", Chunk, OVER_2),
    ),
    (
        Store(Verb::Append, "1"),
        Both(2, Refusal, 0, 1, 0),
        Made("NoRoom", Refusal, Untouched),
    ),
    (
        Store(Verb::Append, "12345"),
        Nothing,
        Made("TooLarge", Keep, Untouched),
    ),
    (
        Huge(Verb::Prepend),
        Nothing,
        Made("TooLarge", Keep, Untouched),
    ),
    (Delete, Other(1, 1), Made("Deleted", Keep, Goes(OLD))),
    (Touch(100), Nothing, Made("Touched", Keep, Untouched)),
];

// Ends the test where a row tells something else of an item.
fn check_alone<R: Abort + RandomSource>(rt: &R, alloc: Global, row: Row) {
    let mut stripe = opened(rt, alloc);
    let rows = [NINE, row];
    check_tries(rt, alloc, &mut stripe, 1000, rows.as_slice());
}

#[test]
fn the_least_that_a_command_needs_suffices(rt: HostRuntime) {
    for row in LEAST.as_slice() {
        check_alone(&rt, rt.alloc(), *row);
    }
}

static ALL: [Asked; 16] = [
    Get,
    Gat(100),
    Touch(100),
    Delete,
    Incr(1),
    Decr(1),
    Store(Verb::Set, "8"),
    Store(Verb::Add, "8"),
    Store(Verb::Replace, "8"),
    Store(Verb::Cas(2), "8"),
    Store(Verb::Append, "8"),
    Store(Verb::Prepend, "123456"),
    Store(Verb::Set, "123456"),
    Huge(Verb::Set),
    Huge(Verb::Add),
    Huge(Verb::Append),
];

/// Ends the test where a command that is given all it may need tells something else at this moment.
pub(super) fn check_all<R: Abort>(
    rt: &R,
    alloc: Global,
    stripe: &mut StripeState,
    moment: u64,
    got: Told,
) {
    for asked in ALL.as_slice() {
        let rows = [(*asked, Both(1, Chunk, 9, 1, 9), got)];
        check_tries(rt, alloc, stripe, moment, rows.as_slice());
    }
}

const DECLINED: Row = (
    Store(Verb::Add, "8"),
    Nothing,
    Made("NotStored", Keep, Untouched),
);

// Ends the test where something is made once a first event and fifteen others fill the history.
fn check_full<R: Abort + RandomSource>(rt: &R, alloc: Global, first: Row, other: Row) {
    let mut stripe = opened(rt, alloc);
    check_tries(rt, alloc, &mut stripe, 1000, &[first]);
    for _ in 0..15 {
        check_tries(rt, alloc, &mut stripe, 1000, &[other]);
    }
    check_all(rt, alloc, &mut stripe, 1000, Fails(Fault::HistoryFull));
}

// Whether the key is absent or not.
#[test]
fn a_full_history_makes_nothing(rt: HostRuntime) {
    check_full(&rt, rt.alloc(), MISS, MISS);
    check_full(&rt, rt.alloc(), NINE, DECLINED);
}
