//! What a walk from a tail reads: entries by number, the next newer one, and the numbers that were passed.
use super::rows::Ask::{Do, LinkUntil, See, UnlinkBut};
use super::rows::Deed::{Link, Unlink};
use super::rows::Sight::{Cost, Count, IsFull, Key, Len, Newer, Passed, Segment};
use super::rows::{Row, Start, play};
use mc_item::Expiry::Never;
use mc_item::Seg::{Cold, Hot};
use std::test::Fail;

// A class of so many chunks without TEMP, and a history of so many events, which are kept.
const fn of(chunks: u64, max_events: u64) -> Start {
    Start {
        chunks,
        temp: false,
        max_events,
        keeps_events: true,
    }
}

static NEWER: [Row; 10] = [
    (LinkUntil(5), "5"),
    (See(Passed(0)), "[]"),
    (See(Passed(4)), "[0, 1, 2, 3]"),
    (See(Newer(0)), "1"),
    (See(Newer(4)), "none"),
    (See(Newer(5)), "none"),
    (Do(Unlink(1)), "1"),
    (See(Newer(0)), "2"),
    (See(Newer(1)), "none"),
    (See(Passed(2)), "[0, 2]"),
];

#[test]
fn a_walk_goes_on_to_newer_entries(rt: HostRuntime) -> Result<(), Fail> {
    play(&rt, rt.alloc(), of(5, 16), NEWER.as_slice())
}

static BY_NUMBER: [Row; 10] = [
    (Do(Link("a", 66, 1000, Never)), "0"),
    (See(IsFull), "not full"),
    (Do(Link("b", 67, 1001, Never)), "1"),
    (See(IsFull), "full"),
    (See(Len(Hot)), "2"),
    (See(Len(Cold)), "0"),
    (See(Cost(1)), "67"),
    (See(Segment(1)), "Some(Hot)"),
    (See(Key(1)), "[98]"),
    (See(Cost(2)), "none"),
];

#[test]
fn an_entry_has_its_number(rt: HostRuntime) -> Result<(), Fail> {
    play(&rt, rt.alloc(), of(2, 16), BY_NUMBER.as_slice())
}

// Numbers of one block of places after the other come and go: 64 share a block.
static FEW: [Row; 11] = [
    (LinkUntil(131), "131"),
    (UnlinkBut(129, 70), "128"),
    (See(Count), "3"),
    (See(Passed(3)), "[70, 129, 130]"),
    (See(Newer(70)), "129"),
    (Do(Unlink(70)), "70"),
    (See(Segment(70)), "None"),
    (See(Segment(0)), "None"),
    (LinkUntil(200), "69"),
    (See(Count), "71"),
    (See(Newer(191)), "192"),
];

#[test]
fn few_entries_stay_of_many(rt: HostRuntime) -> Result<(), Fail> {
    play(&rt, rt.alloc(), of(200, 1000), FEW.as_slice())
}
