//! Tries of commands that hit an item, and of commands on one that dies at the moment 1100: each reply, what is wanted, and what
//! becomes of chunks was worked out by hand from the table of commands.
use super::Asked::{Decr, Gat, Get, Huge, Incr, Store, StoreUntil, Touch};
use super::calls::expire;
use super::tries::{GROWN, MISS, NEW_1, NINE, OLD, OVER_1, check_all};
use super::trying::Held::{Both, Home, Nothing, Other};
use super::trying::Lent::{Link as Chunk, Nothing as Keep};
use super::trying::Told::{Made, Wants};
use super::trying::{Row, check_tries, opened};
use mc_item::{Expiry, Link, Verb};
use mc_stripe::Fate;
use mc_stripe::Fate::{Goes, Renewed, Untouched, Woken};
use mc_stripe::Want::Burial;
use mc_testing::WHO;

const NINE_SHOWN: &str = "Value { flags: 7, value: Value { bytes: [57] }, cas: 10 }";

// The first hit leaves the mark FETCHED, the second one ACTIVE; no more does a third. What is held is of no matter to a hit.
static LIVE: [Row; 13] = [
    NINE,
    (
        Store(Verb::Add, "8"),
        Home(1, Keep, 0),
        Made("NotStored", Keep, Untouched),
    ),
    (
        Store(Verb::Cas(3), "8"),
        Nothing,
        Made("Exists", Keep, Untouched),
    ),
    (Huge(Verb::Add), Nothing, Made("TooLarge", Keep, Untouched)),
    (
        Store(Verb::Replace, "123456"),
        Nothing,
        Made("TooLarge", Keep, Untouched),
    ),
    (Incr(999_991), Nothing, Made("NoSpace", Keep, Untouched)),
    (Decr(1), Nothing, Made("Number(8)", Keep, Untouched)),
    (Incr(1), Nothing, Made("Number(9)", Keep, Untouched)),
    (Get, Nothing, Made(NINE_SHOWN, Keep, Untouched)),
    (Get, Nothing, Made(NINE_SHOWN, Keep, Woken(OLD))),
    (Get, Home(1, Chunk, 0), Made(NINE_SHOWN, Keep, Untouched)),
    (Touch(0), Other(1, 0), Made("Touched", Keep, Untouched)),
    (Touch(100), Nothing, Made("Touched", Keep, Untouched)),
];

#[test]
fn the_hit_that_wakes_an_item_wants_no_class(rt: HostRuntime) {
    let mut stripe = opened(&rt, rt.alloc());
    check_tries(&rt, rt.alloc(), &mut stripe, 1000, LIVE.as_slice());
}

// What becomes of an item and its chunk, and the link that is told.
static FATES: [(Fate, Option<Link>); 4] = [
    (Woken(OLD), Some(OLD)),
    (Goes(OLD), None),
    (Untouched, None),
    (OVER_1, None),
];

#[test]
fn only_a_woken_item_tells_its_link(rt: HostRuntime) {
    for (fate, wanted) in FATES.as_slice() {
        assert_eq!(rt; fate.woken(), *wanted, "{fate:?}");
    }
}

// A set of an item that dies at the moment 1100.
const NINE_UNTIL: Row = (
    StoreUntil(Verb::Set, "9", 100),
    Home(1, Chunk, 1),
    Made(
        "Stored",
        Chunk,
        Renewed {
            cost: 66,
            expiry: Expiry::At(1100),
            old: None,
        },
    ),
);

static DIES: [Row; 1] = [NINE_UNTIL];

static BURIED: [Row; 2] = [
    MISS,
    (
        Store(Verb::Add, "8"),
        Home(1, Chunk, 1),
        Made("Stored", Chunk, NEW_1),
    ),
];

#[test]
fn a_dead_item_has_to_be_buried_first(rt: HostRuntime) {
    let mut stripe = opened(&rt, rt.alloc());
    check_tries(&rt, rt.alloc(), &mut stripe, 1000, DIES.as_slice());
    check_all(&rt, rt.alloc(), &mut stripe, 1100, Wants(Burial(OLD)));
    expire(&rt, rt.alloc(), &mut stripe, WHO, 1100);
    check_tries(&rt, rt.alloc(), &mut stripe, 1100, BURIED.as_slice());
}

static GROWS: [Row; 2] = [
    NINE_UNTIL,
    (
        Incr(1),
        Both(2, Chunk, 1, 1, 1),
        Made("Number(10)", Chunk, GROWN),
    ),
];

#[test]
fn a_grown_number_dies_with_the_old_one(rt: HostRuntime) {
    let mut stripe = opened(&rt, rt.alloc());
    check_tries(&rt, rt.alloc(), &mut stripe, 1000, GROWS.as_slice());
}

static JOINS: [Row; 2] = [
    NINE_UNTIL,
    (
        StoreUntil(Verb::Append, "1", 5),
        Both(2, Chunk, 1, 1, 1),
        Made("Stored", Chunk, GROWN),
    ),
];

#[test]
fn a_joined_value_dies_with_the_old_one(rt: HostRuntime) {
    let mut stripe = opened(&rt, rt.alloc());
    check_tries(&rt, rt.alloc(), &mut stripe, 1000, JOINS.as_slice());
}

const NINE_FIRST: &str = "Value { flags: 7, value: Value { bytes: [57] }, cas: 2 }";

static HIT: [Row; 2] = [
    NINE_UNTIL,
    (Touch(100), Nothing, Made("Touched", Keep, Untouched)),
];

static HIT_TOO_LATE: [Row; 2] = [
    (Touch(100), Nothing, Wants(Burial(OLD))),
    (Get, Nothing, Wants(Burial(OLD))),
];

static HIT_IN_TIME: [Row; 3] = [
    (Touch(100), Nothing, Made("Touched", Keep, Woken(OLD))),
    (Touch(100), Nothing, Made("Touched", Keep, Untouched)),
    (Get, Nothing, Made(NINE_FIRST, Keep, Untouched)),
];

// The item dies at the moment 1100.
#[test]
fn the_second_hit_of_a_live_item_wakes_it(rt: HostRuntime) {
    let mut stripe = opened(&rt, rt.alloc());
    check_tries(&rt, rt.alloc(), &mut stripe, 1000, HIT.as_slice());
    check_tries(&rt, rt.alloc(), &mut stripe, 1100, HIT_TOO_LATE.as_slice());
    check_tries(&rt, rt.alloc(), &mut stripe, 1099, HIT_IN_TIME.as_slice());
}

// What is held is of no matter to a gat.
static GATS: [Row; 4] = [
    NINE,
    (Gat(100), Nothing, Made(NINE_FIRST, Keep, Untouched)),
    (Gat(0), Other(1, 0), Made(NINE_FIRST, Keep, Woken(OLD))),
    (
        Gat(100),
        Home(1, Chunk, 0),
        Made(NINE_FIRST, Keep, Untouched),
    ),
];

#[test]
fn the_second_gat_wakes_an_item(rt: HostRuntime) {
    let mut stripe = opened(&rt, rt.alloc());
    check_tries(&rt, rt.alloc(), &mut stripe, 1000, GATS.as_slice());
}
