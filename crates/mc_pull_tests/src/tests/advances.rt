//! Hits that are taken to a class later, and what they move. A hit says whether it moved its entry, and after how many looks.
use super::by_list::Walked::Evict;
use super::hitting::Taken;
use super::judging::Judged::{Delete, Get, Tail, Touch};
use super::rows::Ask::{Hit, Judge, See, Store, Walk};
use super::rows::{Row, SIX, SIX_AND_A_DIES, play};
use super::seeing::Seen::{Item, LastOfClass, LastOfStripe, Lengths, List, Time};
use mc_item::Seg::{Cold, Hot, Temp, Warm};
use mc_testing::one_class;
use std::test::Fail;

// The items of `a` and `b` are ACTIVE from their second hits on. Both entries are in COLD until they are moved.
static ACTIVE_IN_COLD: [Row; 20] = [
    (Judge(Get(b'a')), "asked"),
    (Judge(Get(b'a')), "asked"),
    (Judge(Get(b'b')), "asked"),
    (Judge(Get(b'b')), "asked"),
    (See(Lengths), "12 10"),
    (Hit(Taken(0, 1007, &[true])), "true after 1"),
    (
        See(LastOfClass),
        "moves 0 from Cold to Warm for Hit past [] at 10",
    ),
    (See(LastOfStripe), "cools [97]"),
    (See(Lengths), "13 11"),
    (See(Time(0)), "1007"),
    (Hit(Taken(1, 1008, &[true])), "true after 1"),
    (
        See(LastOfClass),
        "moves 1 from Cold to Warm for Hit past [] at 11",
    ),
    (See(LastOfStripe), "cools [98]"),
    (See(Time(1)), "1008"),
    (See(Time(0)), "1007"),
    (See(List(Cold)), "[2, 3, 4]"),
    (See(List(Warm)), "[0, 1]"),
    (See(List(Hot)), "[5]"),
    // The mark was cleared: the walk finds nothing to move. It has made a survey.
    (Judge(Tail(Warm, 1008)), "Stayed"),
    (See(Lengths), "15 12"),
];

#[test]
fn a_hit_moves_an_active_entry_from_cold_to_warms_head(rt: HostRuntime) -> Result<(), Fail> {
    let alloc = rt.alloc();
    play(
        &rt,
        alloc,
        one_class(alloc, 6)?,
        SIX.as_slice(),
        ACTIVE_IN_COLD.as_slice(),
    )
}

static TWO_HITS: [Row; 8] = [
    (Judge(Get(b'a')), "asked"),
    (Judge(Get(b'a')), "asked"),
    (Hit(Taken(0, 1007, &[true])), "true after 1"),
    (Hit(Taken(0, 1007, &[true])), "false after 0"),
    (See(Lengths), "13 9"),
    // In WARM it is ACTIVE again, and a hit moves nothing.
    (Judge(Get(b'a')), "asked"),
    (Hit(Taken(0, 1009, &[true])), "false after 0"),
    (See(Time(0)), "1007"),
];

#[test]
fn the_second_hit_of_an_entry_finds_it_in_warm(rt: HostRuntime) -> Result<(), Fail> {
    let alloc = rt.alloc();
    play(
        &rt,
        alloc,
        one_class(alloc, 6)?,
        SIX.as_slice(),
        TWO_HITS.as_slice(),
    )
}

static IN_HOT: [Row; 5] = [
    (Judge(Get(b'f')), "asked"),
    (Judge(Get(b'f')), "asked"),
    (Hit(Taken(5, 1007, &[true])), "false after 0"),
    (See(List(Hot)), "[5]"),
    (See(Lengths), "12 8"),
];

#[test]
fn a_hit_moves_nothing_of_hot(rt: HostRuntime) -> Result<(), Fail> {
    let alloc = rt.alloc();
    play(
        &rt,
        alloc,
        one_class(alloc, 6)?,
        SIX.as_slice(),
        IN_HOT.as_slice(),
    )
}

static IN_TEMP: [Row; 6] = [
    (Store(b'a', 61, 1000), "stored"),
    (Judge(Get(b'a')), "asked"),
    (Judge(Get(b'a')), "asked"),
    (Hit(Taken(0, 1007, &[true])), "false after 0"),
    (See(List(Temp)), "[0]"),
    (See(Lengths), "1 3"),
];

#[test]
fn a_hit_moves_nothing_of_temp(rt: HostRuntime) -> Result<(), Fail> {
    let alloc = rt.alloc();
    let mut config = one_class(alloc, 6)?;
    config.temp = true;
    play(&rt, alloc, config, &[], IN_TEMP.as_slice())
}

static GONE: [Row; 12] = [
    // No entry has had this number.
    (Hit(Taken(6, 1007, &[true])), "false after 0"),
    // The entry is there, its item isn't.
    (Judge(Delete(b'a')), "asked"),
    (Hit(Taken(0, 1007, &[true])), "false after 1"),
    // The key's item has another link, and is ACTIVE.
    (Store(b'a', 0, 1000), "stored"),
    (Judge(Get(b'a')), "asked"),
    (Judge(Get(b'a')), "asked"),
    (Hit(Taken(0, 1007, &[true])), "false after 1"),
    (See(List(Cold)), "[0, 1, 2, 3, 4]"),
    (See(List(Hot)), "[5, 6]"),
    (See(List(Warm)), "[]"),
    (See(Time(0)), "1000"),
    (See(Lengths), "13 10"),
];

#[test]
fn a_hit_moves_no_entry_whose_item_is_gone(rt: HostRuntime) -> Result<(), Fail> {
    let alloc = rt.alloc();
    play(
        &rt,
        alloc,
        one_class(alloc, 7)?,
        SIX.as_slice(),
        GONE.as_slice(),
    )
}

static EVICTED: [Row; 5] = [
    (Judge(Get(b'a')), "asked"),
    (Judge(Get(b'a')), "asked"),
    (
        Walk(Evict(1006, &[true])),
        "0 reclaimed, 0 moved, 1 evicted, 0 passed",
    ),
    (Hit(Taken(0, 1007, &[true])), "false after 0"),
    (See(Lengths), "13 9"),
];

#[test]
fn a_hit_of_an_evicted_entry_asks_for_no_stripe(rt: HostRuntime) -> Result<(), Fail> {
    let alloc = rt.alloc();
    play(
        &rt,
        alloc,
        one_class(alloc, 6)?,
        SIX.as_slice(),
        EVICTED.as_slice(),
    )
}

// One hit sets FETCHED alone.
static NOT_ACTIVE: [Row; 5] = [
    (Hit(Taken(0, 1007, &[true])), "false after 1"),
    (Judge(Get(b'a')), "asked"),
    (Hit(Taken(0, 1007, &[true])), "false after 1"),
    (See(List(Cold)), "[0, 1, 2, 3, 4]"),
    (See(Lengths), "12 7"),
];

#[test]
fn a_hit_moves_no_item_that_is_not_active(rt: HostRuntime) -> Result<(), Fail> {
    let alloc = rt.alloc();
    play(
        &rt,
        alloc,
        one_class(alloc, 6)?,
        SIX.as_slice(),
        NOT_ACTIVE.as_slice(),
    )
}

static DEAD: [Row; 8] = [
    (Judge(Get(b'a')), "asked"),
    (Judge(Get(b'a')), "asked"),
    (Hit(Taken(0, 1001, &[true])), "false after 1"),
    (See(Item(b'a')), "there"),
    (See(List(Cold)), "[0, 1, 2, 3, 4]"),
    (See(Lengths), "12 8"),
    // In the last second of its life it moves.
    (Hit(Taken(0, 1000, &[true])), "true after 1"),
    (See(Lengths), "13 9"),
];

#[test]
fn a_hit_moves_no_dead_item_and_reclaims_none(rt: HostRuntime) -> Result<(), Fail> {
    let alloc = rt.alloc();
    play(
        &rt,
        alloc,
        one_class(alloc, 6)?,
        SIX_AND_A_DIES.as_slice(),
        DEAD.as_slice(),
    )
}

// A touch with an exptime below 0 leaves the item dead.
static TOUCHED_DEAD: [Row; 7] = [
    (Judge(Get(b'a')), "asked"),
    (Judge(Get(b'a')), "asked"),
    (Judge(Touch(b'a', -1)), "asked"),
    (Hit(Taken(0, 1000, &[true])), "false after 1"),
    (See(Item(b'a')), "there"),
    (See(List(Cold)), "[0, 1, 2, 3, 4]"),
    (See(Lengths), "12 9"),
];

#[test]
fn a_hit_moves_no_item_that_was_touched_dead(rt: HostRuntime) -> Result<(), Fail> {
    let alloc = rt.alloc();
    play(
        &rt,
        alloc,
        one_class(alloc, 6)?,
        SIX.as_slice(),
        TOUCHED_DEAD.as_slice(),
    )
}

static NOT_HAD: [Row; 7] = [
    (Judge(Get(b'a')), "asked"),
    (Judge(Get(b'a')), "asked"),
    (Hit(Taken(0, 1007, &[])), "false after 1"),
    (See(Lengths), "12 8"),
    (See(List(Cold)), "[0, 1, 2, 3, 4]"),
    (See(Time(0)), "1000"),
    (Hit(Taken(0, 1008, &[true])), "true after 1"),
];

// The stripe is asked for once, and the hit is dropped. The next one of the item moves it.
#[test]
fn a_hit_whose_stripe_is_not_lent_is_dropped(rt: HostRuntime) -> Result<(), Fail> {
    let alloc = rt.alloc();
    play(
        &rt,
        alloc,
        one_class(alloc, 6)?,
        SIX.as_slice(),
        NOT_HAD.as_slice(),
    )
}

// The class has 12 events and four surveys, of 16.
static FULL_CLASS: [Row; 11] = [
    (Judge(Tail(Cold, 1000)), "Stayed"),
    (Judge(Tail(Cold, 1000)), "Stayed"),
    (Judge(Tail(Cold, 1000)), "Stayed"),
    (Judge(Tail(Cold, 1000)), "Stayed"),
    (Hit(Taken(0, 1007, &[true])), "false after 1"),
    (Judge(Get(b'a')), "asked"),
    (Judge(Get(b'a')), "asked"),
    (Hit(Taken(0, 1007, &[true])), "HistoryFull"),
    (See(List(Cold)), "[0, 1, 2, 3, 4]"),
    (See(Time(0)), "1000"),
    (See(Lengths), "16 8"),
];

#[test]
fn a_hit_needs_a_place_of_its_class_only_where_it_moves(rt: HostRuntime) -> Result<(), Fail> {
    let alloc = rt.alloc();
    let mut config = one_class(alloc, 6)?;
    config.max_events = 16;
    play(&rt, alloc, config, SIX.as_slice(), FULL_CLASS.as_slice())
}

// The stripe has six events and nine gets, of 16; the class has 12.
static FULL_STRIPE: [Row; 16] = [
    (Judge(Get(b'a')), "asked"),
    (Judge(Get(b'a')), "asked"),
    (Judge(Get(b'b')), "asked"),
    (Judge(Get(b'b')), "asked"),
    (Judge(Get(b'z')), "asked"),
    (Judge(Get(b'z')), "asked"),
    (Judge(Get(b'z')), "asked"),
    (Judge(Get(b'z')), "asked"),
    (Judge(Get(b'z')), "asked"),
    // One place is left.
    (Hit(Taken(0, 1007, &[true])), "true after 1"),
    (See(Lengths), "13 16"),
    (Hit(Taken(1, 1007, &[true])), "HistoryFull"),
    (See(List(Cold)), "[1, 2, 3, 4]"),
    (See(List(Warm)), "[0]"),
    (See(Lengths), "13 16"),
    (Hit(Taken(2, 1007, &[true])), "false after 1"),
];

#[test]
fn a_hit_needs_a_place_of_its_stripe_only_where_it_moves(rt: HostRuntime) -> Result<(), Fail> {
    let alloc = rt.alloc();
    let mut config = one_class(alloc, 6)?;
    config.max_events = 16;
    play(&rt, alloc, config, SIX.as_slice(), FULL_STRIPE.as_slice())
}
