//! Histories longer than a piece: each event stands where it came, and none moves or is lost as more come. One that lets
//! its events go counts them.
ghost use Rattle.std.specs.Prelude.{◌≡◌, ◌<◌, ◌+◌, Some, true};

use mc_history::{History, Shows};
use std::process::Abort;
use std::snapshot::Snapshot;

// What a history is shown of a number that it lets go.
#[derive(Drop)]
struct ShownNumber(Snapshot<u64>);

impl Shows<u64> for ShownNumber {
    ghost event = { λ s. s.0.value };
}

type Numbers = History<u64, ShownNumber>;

// The number, if the history keeps its events.
fn given(history: &Numbers, number: u64) -> Option<u64>
    ensures { history.now.kept ≡ true → result ≡ Some number }
{
    if history.keeps() { Some(number) } else { None }
}

// One number more, in room that was made.
fn push(history: &mut Numbers, number: u64)
    requires { 0 < history.old.room }
    ensures { history.old.room ≡ history.new.room + 1 }
{
    let event = given(history, number);
    history.push_reserved(&ShownNumber(Snapshot::of(&number)), event);
}

// A history with events numbered from 0 to a number, each in room made for it alone.
fn counted<R: Abort>(rt: &R, history: Numbers, many: u64) -> Numbers {
    let mut history = history;
    for number in 0..many {
        history.reserve(1).expect(rt, "room");
        push(&mut history, number);
    }
    history
}

// The history has so many events.
fn asserts_len<R: Abort>(rt: &R, history: &Numbers, wanted: usize) {
    assert_eq!(rt; history.len(), wanted);
}

// The event at a place has this number, where one is there.
fn asserts_at<R: Abort>(rt: &R, history: &Numbers, place: usize, wanted: Option<u64>) {
    assert_eq!(rt; history.get(place).copied(), wanted, "at place {place}");
}

// Each event below a place has that place for its number.
fn asserts_order<R: Abort>(rt: &R, history: &Numbers, end: usize) {
    for place in 0..end {
        asserts_at(rt, history, place, Some(place as u64));
    }
}

#[test]
fn events_of_three_pieces_stand_in_order(rt: HostRuntime) {
    let history = counted(&rt, History::new(rt.alloc()), 10_000);
    asserts_len(&rt, &history, 10_000);
    asserts_order(&rt, &history, 10_000);
    asserts_at(&rt, &history, 10_000, None);
    asserts_at(&rt, &history, usize::MAX, None);
}

#[test]
fn a_history_begins_with_no_event(rt: HostRuntime) {
    let history = Numbers::new(rt.alloc());
    asserts_len(&rt, &history, 0);
    asserts_at(&rt, &history, 0, None);
}

// Room for 5,000 events after 4,095 takes two more pieces of 4,096. All 5,000 then go in without another reservation.
#[test]
fn room_for_many_is_made_at_once(rt: HostRuntime) {
    let mut history = counted(&rt, History::new(rt.alloc()), 4_095);
    history.reserve(5_000).expect(&rt, "room");
    for number in 4_095..9_095u64 {
        push(&mut history, number);
    }
    asserts_len(&rt, &history, 9_095);
    asserts_order(&rt, &history, 9_095);
}

// Room for so many events is refused.
fn asserts_refused<R: Abort>(rt: &R, history: &mut Numbers, events: usize) {
    assert!(rt; history.reserve(events).is_err());
}

// More events than there are numbers for are refused, and the history stays.
#[test]
fn room_for_too_many_is_refused(rt: HostRuntime) {
    let mut history = counted(&rt, History::new(rt.alloc()), 1);
    asserts_refused(&rt, &mut history, usize::MAX);
    asserts_len(&rt, &history, 1);
    asserts_at(&rt, &history, 0, Some(0));
}

#[test]
fn events_that_are_let_go_are_counted(rt: HostRuntime) {
    let mut history = counted(&rt, History::keeping(rt.alloc(), false), 10_000);
    asserts_len(&rt, &history, 10_000);
    asserts_at(&rt, &history, 0, None);
    asserts_at(&rt, &history, 9_999, None);
    asserts_refused(&rt, &mut history, usize::MAX);
    asserts_len(&rt, &history, 10_000);
}
