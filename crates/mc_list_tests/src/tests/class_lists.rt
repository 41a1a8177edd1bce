//! Small classes by calls: lists, sums and surveys were worked out by hand.
ghost use Rattle.std.specs.Prelude.{◌≡◌, IfOk};

use super::rows::Ask::{Do, Hit, KeepActive, Reserve, See, SetChunks, Survey, Surveys};
use super::rows::Deed::{Evict, Force, Link, Reclaim, Refuse, Unlink};
use super::rows::Sight::{
    Bytes, Chunks, Count, Events, Figures, HasPlaces, IsFull, NextNumber, Number, Segment, Tail,
    TailKey, Time,
};
use super::rows::{Row, Start, play};
use mc_item::Expiry::{At, Never};
use mc_item::Seg::{Cold, Hot, Temp, Warm};
use mc_item::{ClassNo, Config, Numbers};
use mc_segment::ClassState;
use std::alloc::Global;
use std::test::Fail;

/// A class that begins so. HOT may have a fifth of the bytes, and a fifth of COLD's age.
pub(super) fn class_of(alloc: Global, start: Start) -> Result<ClassState, Fail>
    ensures { IfOk result (λ c. (c.rule.hot_percent ≡ 20) × (c.rule.hot_factor ≡ 20)) }
{
    let sizes = Numbers::from_vec(Vec::from_slice(alloc, &[96])?);
    let chunks = Numbers::from_vec(Vec::from_slice(alloc, &[start.chunks])?);
    let usual = Config::usual(alloc, 3)?;
    let config = Config {
        sizes,
        chunks,
        temp: start.temp,
        max_events: start.max_events,
        keeps_events: start.keeps_events,
        ..usual
    };
    Ok(ClassState::new(alloc, ClassNo(1), &config.check()?))
}

// A class of so many chunks without TEMP; its history holds 16 events, and keeps them.
const fn of(chunks: u64) -> Start {
    Start {
        chunks,
        temp: false,
        max_events: 16,
        keeps_events: true,
    }
}

// The same, which lets its events go.
const fn letting_go(chunks: u64) -> Start {
    Start {
        keeps_events: false,
        ..of(chunks)
    }
}

// A worked example in room that was made for its eight events: two entries, a forced move, an eviction, a third entry and two
// surveys.
static OLDEST: [Row; 22] = [
    (Reserve(8), "Ok(())"),
    (See(Figures), "[0, 0, 0, 0, 0, 0, 0, 0]"),
    (Do(Link("a", 66, 1000, Never)), "0"),
    (Do(Link("b", 66, 1000, Never)), "1"),
    (See(Bytes(Hot)), "132"),
    (See(Count), "2"),
    (See(Figures), "[132, 0, 0, 0, 2, 0, 0, 0]"),
    (See(IsFull), "full"),
    (Do(Force(1000)), "0"),
    (See(Bytes(Hot)), "66"),
    (See(Bytes(Cold)), "66"),
    (See(Figures), "[66, 0, 66, 0, 1, 0, 1, 0]"),
    (Survey(1003), "[3, 132, 3]"),
    (Do(Evict), "0"),
    (See(IsFull), "not full"),
    (See(Count), "1"),
    (See(Figures), "[66, 0, 0, 0, 1, 0, 0, 0]"),
    (Do(Link("c", 66, 1004, Never)), "2"),
    (Do(Unlink(1)), "1"),
    (See(Segment(1)), "None"),
    (Survey(1005), "[7, 66, 0]"),
    (See(Events), "8"),
];

#[test]
fn the_oldest_is_forced_out(rt: HostRuntime) -> Result<(), Fail> {
    play(&rt, rt.alloc(), of(2), OLDEST.as_slice())
}

static TIMES: [Row; 9] = [
    (Do(Link("a", 66, 1000, Never)), "0"),
    (Do(Force(1010)), "0"),
    (See(Time(Cold)), "1000"),
    (Hit(0, 1020), "0"),
    (See(Time(Warm)), "1020"),
    (See(Figures), "[0, 66, 0, 0, 0, 1, 0, 0]"),
    (KeepActive(1030), "0"),
    (See(Time(Warm)), "1030"),
    (See(Segment(0)), "Some(Warm)"),
];

#[test]
fn hits_set_the_time_and_forced_moves_keep_it(rt: HostRuntime) -> Result<(), Fail> {
    play(&rt, rt.alloc(), of(1), TIMES.as_slice())
}

// TEMP isn't counted by a survey.
static DYING: [Row; 9] = [
    (Do(Link("a", 66, 1000, At(1061))), "0"),
    (Do(Link("b", 67, 1000, At(1062))), "1"),
    (Do(Link("c", 68, 1000, At(1000))), "2"),
    (Do(Link("d", 69, 1000, Never)), "3"),
    (See(Bytes(Temp)), "66"),
    (See(Bytes(Hot)), "204"),
    (See(Figures), "[204, 0, 0, 66, 3, 0, 0, 1]"),
    (See(NextNumber), "4"),
    (Survey(1000), "[4, 204, 0]"),
];

#[test]
fn what_dies_soon_goes_to_temp(rt: HostRuntime) -> Result<(), Fail> {
    let start = Start {
        temp: true,
        ..of(4)
    };
    play(&rt, rt.alloc(), start, DYING.as_slice())
}

static TAILS: [Row; 11] = [
    (Do(Link("a", 66, 1000, Never)), "0"),
    (Do(Link("b", 66, 1001, Never)), "1"),
    (Do(Link("c", 66, 1002, Never)), "2"),
    (See(Number), "1"),
    (See(Chunks), "3"),
    (Do(Refuse), "3"),
    (Do(Reclaim(1, 1003)), "1"),
    (See(Tail(Hot, 0)), "0"),
    (See(Tail(Hot, 1)), "2"),
    (See(TailKey(Hot, 1)), "[99]"),
    (See(Tail(Hot, 2)), "none"),
];

#[test]
fn lists_are_read_from_their_tails(rt: HostRuntime) -> Result<(), Fail> {
    play(&rt, rt.alloc(), of(3), TAILS.as_slice())
}

// Three entries stay under a limit of one chunk, and under a limit of five two more find room.
static LIMITS: [Row; 17] = [
    (Do(Link("a", 66, 1000, Never)), "0"),
    (Do(Link("b", 66, 1001, Never)), "1"),
    (Do(Link("c", 66, 1002, Never)), "2"),
    (See(IsFull), "full"),
    (SetChunks(1), "Ok(())"),
    (See(Chunks), "1"),
    (See(Count), "3"),
    (See(IsFull), "full"),
    (Do(Refuse), "4"),
    (SetChunks(5), "Ok(())"),
    (See(Chunks), "5"),
    (See(IsFull), "not full"),
    (Do(Link("d", 66, 1003, Never)), "3"),
    (Do(Link("e", 66, 1004, Never)), "4"),
    (See(IsFull), "full"),
    (See(Count), "5"),
    (See(Events), "8"),
];

#[test]
fn a_class_is_full_by_its_last_limit(rt: HostRuntime) -> Result<(), Fail> {
    play(&rt, rt.alloc(), of(3), LIMITS.as_slice())
}

// The survey's moment is before the entry's time, and then a second after it.
static LATER: [Row; 4] = [
    (Do(Link("a", 66, 1000, Never)), "0"),
    (Do(Force(1000)), "0"),
    (Survey(999), "[2, 66, 0]"),
    (Survey(1001), "[3, 66, 1]"),
];

#[test]
fn an_entry_of_a_later_time_has_the_age_0(rt: HostRuntime) -> Result<(), Fail> {
    play(&rt, rt.alloc(), of(1), LATER.as_slice())
}

#[test]
fn a_class_that_lets_its_events_go_answers_as_one_that_keeps_them(
    rt: HostRuntime,
) -> Result<(), Fail> {
    play(&rt, rt.alloc(), letting_go(2), OLDEST.as_slice())?;
    play(&rt, rt.alloc(), letting_go(1), TIMES.as_slice())?;
    play(&rt, rt.alloc(), letting_go(3), TAILS.as_slice())?;
    play(&rt, rt.alloc(), letting_go(3), LIMITS.as_slice())
}

static FULL: [Row; 11] = [
    (See(HasPlaces(17)), "false"),
    (See(HasPlaces(16)), "true"),
    (Reserve(17), "Err(HistoryFull)"),
    (Reserve(16), "Ok(())"),
    (Surveys(16), "16"),
    (See(HasPlaces(1)), "false"),
    (See(HasPlaces(0)), "true"),
    (Survey(1000), "Err(HistoryFull)"),
    (SetChunks(2), "Err(HistoryFull)"),
    (See(Chunks), "1"),
    (See(Events), "16"),
];

#[test]
fn a_full_history_refuses(rt: HostRuntime) -> Result<(), Fail> {
    play(&rt, rt.alloc(), of(1), FULL.as_slice())
}
