//! Judgements by direct calls: what no walk of a store meets.
use super::judging::Judged::{Delete, Get, IsDead, IsHit, Set, Tail};
use super::rows::Ask::{Judge, See, Store};
use super::rows::{Row, SIX, SIX_AND_A_DIES, play};
use super::seeing::Seen::{LastOfClass, LastOfStripe, Lengths, List, Time};
use mc_item::Seg::{Cold, Hot, Warm};
use mc_testing::one_class;
use std::test::Fail;

static ACTIVE_IN_COLD: [Row; 8] = [
    (Judge(Get(b'a')), "asked"),
    (Judge(Get(b'a')), "asked"),
    (Judge(Tail(Cold, 1007)), "ToWarm"),
    (
        See(LastOfClass),
        "moves 0 from Cold to Warm for Active past [] at 8",
    ),
    (See(LastOfStripe), "cools [97]"),
    (See(List(Warm)), "[0]"),
    (See(Time(0)), "1007"),
    (Judge(Tail(Cold, 1007)), "Stayed"),
];

#[test]
fn an_active_entry_of_cold_goes_to_warm(rt: HostRuntime) -> Result<(), Fail> {
    let alloc = rt.alloc();
    play(
        &rt,
        alloc,
        one_class(alloc, 6)?,
        SIX.as_slice(),
        ACTIVE_IN_COLD.as_slice(),
    )
}

static STRANGERS: [Row; 7] = [
    (Judge(Delete(b'a')), "asked"),
    (Judge(Tail(Cold, 1000)), "Stranger"),
    (Judge(Set(b'a')), "asked"),
    (Judge(Tail(Cold, 1000)), "Stranger"),
    (Judge(IsDead(1000)), "Stranger"),
    (See(List(Cold)), "[0, 1, 2, 3, 4]"),
    (See(Lengths), "14 8"),
];

// An entry whose item has gone, and one whose item has another chunk.
#[test]
fn a_stranger_changes_nothing(rt: HostRuntime) -> Result<(), Fail> {
    let alloc = rt.alloc();
    play(
        &rt,
        alloc,
        one_class(alloc, 6)?,
        SIX.as_slice(),
        STRANGERS.as_slice(),
    )
}

static DEAD_OR_ALIVE: [Row; 4] = [
    (Judge(IsDead(1000)), "Alive(At(1001))"),
    (Judge(IsDead(1001)), "Reclaimed"),
    (See(LastOfClass), "reclaims 0 dead at 1001, at 6"),
    (Judge(IsDead(1001)), "Alive(Never)"),
];

#[test]
fn a_dead_item_is_reclaimed_and_a_living_one_stays(rt: HostRuntime) -> Result<(), Fail> {
    let alloc = rt.alloc();
    play(
        &rt,
        alloc,
        one_class(alloc, 6)?,
        SIX_AND_A_DIES.as_slice(),
        DEAD_OR_ALIVE.as_slice(),
    )
}

static BY_A_HIT: [Row; 19] = [
    (Judge(IsHit(1000)), "Stayed"),
    // One hit sets FETCHED alone.
    (Judge(Get(b'a')), "asked"),
    (Judge(IsHit(1000)), "Stayed"),
    // It is ACTIVE, and dead at 1001.
    (Judge(Get(b'a')), "asked"),
    (Judge(IsHit(1001)), "Stayed"),
    (See(Lengths), "12 8"),
    (Judge(IsHit(1000)), "ToWarm"),
    (
        See(LastOfClass),
        "moves 0 from Cold to Warm for Hit past [] at 8",
    ),
    (See(LastOfStripe), "cools [97]"),
    (See(Lengths), "13 9"),
    // The tail's item has gone, then its key has an ACTIVE item with another link.
    (Judge(Delete(b'b')), "asked"),
    (Judge(IsHit(1000)), "Stranger"),
    (Store(b'b', 0, 1000), "stored"),
    (Judge(Get(b'b')), "asked"),
    (Judge(Get(b'b')), "asked"),
    (Judge(IsHit(1000)), "Stranger"),
    (See(List(Cold)), "[1, 2, 3, 4]"),
    (See(List(Warm)), "[0]"),
    (See(Lengths), "14 13"),
];

#[test]
fn a_hit_is_judged_by_the_items_mark_death_and_link(rt: HostRuntime) -> Result<(), Fail> {
    let alloc = rt.alloc();
    play(
        &rt,
        alloc,
        one_class(alloc, 7)?,
        SIX_AND_A_DIES.as_slice(),
        BY_A_HIT.as_slice(),
    )
}

static FULL_HISTORY: [Row; 8] = [
    (Judge(Tail(Cold, 1000)), "Stayed"),
    (Judge(Tail(Hot, 1000)), "Stayed"),
    (Judge(Tail(Cold, 1000)), "Stayed"),
    (Judge(Tail(Cold, 1000)), "Stayed"),
    (Judge(IsDead(1000)), "Alive(At(1001))"),
    (Judge(IsDead(1001)), "HistoryFull"),
    (See(List(Cold)), "[0, 1, 2, 3, 4]"),
    (See(Lengths), "16 6"),
];

// The class has 12 events and four surveys, of 16.
#[test]
fn a_full_history_refuses_events_alone(rt: HostRuntime) -> Result<(), Fail> {
    let alloc = rt.alloc();
    let mut config = one_class(alloc, 6)?;
    config.max_events = 16;
    play(
        &rt,
        alloc,
        config,
        SIX_AND_A_DIES.as_slice(),
        FULL_HISTORY.as_slice(),
    )
}
