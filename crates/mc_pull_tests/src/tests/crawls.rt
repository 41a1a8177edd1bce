//! Snapshots of a class's links, and crawls of these.
use super::by_list::Walked::Juggle;
use super::crawling::Crawled;
use super::judging::Judged::{Delete, Get};
use super::rows::Ask::{Crawl, Judge, Limit, See, Store, Unlink, Walk};
use super::rows::{Row, play};
use super::seeing::Seen::{LastOfClass, LastOfStripe, Lengths, Links};
use mc_testing::one_class;
use std::test::Fail;

static NO_ENTRIES: [Row; 1] = [(See(Links), "[]")];

#[test]
fn an_empty_class_has_no_links(rt: HostRuntime) -> Result<(), Fail> {
    let alloc = rt.alloc();
    play(
        &rt,
        alloc,
        one_class(alloc, 10)?,
        &[],
        NO_ENTRIES.as_slice(),
    )
}

// Six items of 66 bytes without an expiry and one in TEMP: a fifth of 396 bytes is 79, so that HOT keeps 5 and COLD has 0
// to 4 from its tail. Then 0 is ACTIVE and goes to WARM.
static FOUR_LISTS: [Row; 12] = [
    (Store(b'a', 0, 1000), "stored"),
    (Store(b'b', 0, 1000), "stored"),
    (Store(b'c', 0, 1000), "stored"),
    (Store(b'd', 0, 1000), "stored"),
    (Store(b'e', 0, 1000), "stored"),
    (Store(b'f', 0, 1000), "stored"),
    (Store(b'g', 10, 1000), "stored"),
    (Walk(Juggle(1000)), "0 reclaimed, 5 moved"),
    (Judge(Get(b'a')), "asked"),
    (Judge(Get(b'a')), "asked"),
    (Walk(Juggle(1000)), "0 reclaimed, 1 moved"),
    (
        See(Links),
        "[(1, 5), (1, 0), (1, 1), (1, 2), (1, 3), (1, 4), (1, 6)]",
    ),
];

#[test]
fn a_snapshot_has_hot_warm_cold_and_temp_from_their_tails(rt: HostRuntime) -> Result<(), Fail> {
    let mut config = one_class(rt.alloc(), 10)?;
    config.temp = true;
    config.temp_ttl = 61;
    play(&rt, rt.alloc(), config, &[], FOUR_LISTS.as_slice())
}

const EIGHT: &[u64] = &[0, 1, 2, 3, 4, 5, 6, 7];

const YES: &[bool] = &[true; 8];

// Eight items: one is dead at 1000, one never dies, and the others die at the borders of minutes. At 1059 a has been dead
// for long, b dies, c and d have a second and two, e has 3540 and f 3541.
static KINDS: [Row; 17] = [
    (Store(b'g', 1, 999), "stored"),
    (Store(b'a', 1, 1000), "stored"),
    (Store(b'b', 59, 1000), "stored"),
    (Store(b'c', 60, 1000), "stored"),
    (Store(b'd', 61, 1000), "stored"),
    (Store(b'e', 3599, 1000), "stored"),
    (Store(b'f', 3600, 1000), "stored"),
    (Store(b'h', 0, 1000), "stored"),
    (
        See(Links),
        "[(1, 0), (1, 1), (1, 2), (1, 3), (1, 4), (1, 5), (1, 6), (1, 7)]",
    ),
    (
        Crawl(Crawled(1000, EIGHT, YES)),
        "[8, 1, 0, 0, 1, 1] [(0, 2), (1, 2), (59, 1)] after 8",
    ),
    (See(Lengths), "9 9"),
    (See(LastOfClass), "reclaims 0 dead at 1000, at 8"),
    (See(LastOfStripe), "loses [103] dead at 1000"),
    (
        Crawl(Crawled(1059, EIGHT, YES)),
        "[8, 2, 0, 1, 1, 0] [(0, 2), (59, 2)] after 7",
    ),
    (See(LastOfClass), "reclaims 2 dead at 1059, at 10"),
    (See(LastOfStripe), "loses [98] dead at 1059"),
    (See(Lengths), "11 11"),
];

#[test]
fn a_crawl_counts_items_by_minutes_left(rt: HostRuntime) -> Result<(), Fail> {
    let alloc = rt.alloc();
    play(&rt, alloc, one_class(alloc, 10)?, &[], KINDS.as_slice())
}

static REPLACED: [Row; 7] = [
    (Store(b'a', 0, 1000), "stored"),
    (See(Links), "[(1, 0)]"),
    (Store(b'a', 3600, 1000), "stored"),
    (Unlink(0), "unlinked"),
    (
        Crawl(Crawled(1000, &[0], YES)),
        "[1, 0, 0, 1, 0, 0] [] after 0",
    ),
    (See(Links), "[(1, 1)]"),
    (
        Crawl(Crawled(1000, &[1], YES)),
        "[1, 0, 0, 0, 0, 1] [] after 1",
    ),
];

// The entry of a replaced item has another number; that of the snapshot is gone.
#[test]
fn a_number_that_was_replaced_is_gone(rt: HostRuntime) -> Result<(), Fail> {
    let alloc = rt.alloc();
    play(&rt, alloc, one_class(alloc, 10)?, &[], REPLACED.as_slice())
}

static WITHOUT_AN_ITEM: [Row; 4] = [
    (Store(b'a', 1, 1000), "stored"),
    (Judge(Delete(b'a')), "asked"),
    (
        Crawl(Crawled(1001, &[0], YES)),
        "[1, 0, 1, 0, 0, 0] [] after 1",
    ),
    (See(Lengths), "1 2"),
];

// The entry is there still, and its item isn't: nothing happens to it.
#[test]
fn an_entry_without_an_item_is_passed(rt: HostRuntime) -> Result<(), Fail> {
    let alloc = rt.alloc();
    play(
        &rt,
        alloc,
        one_class(alloc, 10)?,
        &[],
        WITHOUT_AN_ITEM.as_slice(),
    )
}

static NOT_HAD: [Row; 6] = [
    (Store(b'a', 0, 1000), "stored"),
    (Store(b'b', 0, 1000), "stored"),
    (See(Links), "[(1, 0), (1, 1)]"),
    (Judge(Delete(b'b')), "asked"),
    (Unlink(1), "unlinked"),
    (
        Crawl(Crawled(1000, &[0, 1], &[])),
        "[2, 0, 1, 1, 0, 0] [] after 1",
    ),
];

// Two items, of which one goes before the crawl; the gate is asked for the stripe of the other alone.
#[test]
fn an_entry_that_is_not_had_is_passed(rt: HostRuntime) -> Result<(), Fail> {
    let alloc = rt.alloc();
    play(&rt, alloc, one_class(alloc, 10)?, &[], NOT_HAD.as_slice())
}

// An item that is dead at 1001, and 15 further events of its class.
static SIXTEEN_EVENTS: [Row; 16] = [
    (Store(b'a', 1, 1000), "stored"),
    (Limit(10), "limited"),
    (Limit(10), "limited"),
    (Limit(10), "limited"),
    (Limit(10), "limited"),
    (Limit(10), "limited"),
    (Limit(10), "limited"),
    (Limit(10), "limited"),
    (Limit(10), "limited"),
    (Limit(10), "limited"),
    (Limit(10), "limited"),
    (Limit(10), "limited"),
    (Limit(10), "limited"),
    (Limit(10), "limited"),
    (Limit(10), "limited"),
    (Limit(10), "limited"),
];

static REFUSED: [Row; 3] = [
    (
        Crawl(Crawled(1000, &[0], YES)),
        "[1, 0, 0, 0, 0, 0] [(0, 1)] after 1",
    ),
    (
        Crawl(Crawled(1001, &[0], YES)),
        "[0, 0, 0, 0, 0, 0] [] after 0: HistoryFull",
    ),
    (See(Lengths), "16 1"),
];

// The class has 16 events of 16: a dead item can't go, nothing is counted, and one that is alive is counted.
#[test]
fn a_refused_crawl_counts_nothing(rt: HostRuntime) -> Result<(), Fail> {
    let mut config = one_class(rt.alloc(), 10)?;
    config.max_events = 16;
    play(
        &rt,
        rt.alloc(),
        config,
        SIXTEEN_EVENTS.as_slice(),
        REFUSED.as_slice(),
    )
}
