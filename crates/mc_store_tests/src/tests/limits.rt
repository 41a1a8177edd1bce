//! A class's limit of chunks is set: what commands leave there, worked out by hand, and threads that set it and items at once.
ghost use Rattle.std.specs.Prelude.{◌≡◌, length};
ghost use Rattle.mc_store.specs.Opening.{AreParts};

use super::asking::Ask::{Get, Store as Put};
use super::asking::{Ask, answer, command_of, limit};
use super::class_checker::check_classes;
use super::ends::{End, Ended, class_event};
use super::opening::{Parts, opened, parts_for, two_classes};
use super::running::Act::{Limit, OfClass, On, Places, Turn, Value};
use super::running::{Row, check_script};
use mc_item::Verb::Set;
use mc_item::{ClassEvent, ClassNo};
use mc_segment::ClassState;
use mc_store::{Named, Pass, Store};
use std::alloc::Global;
use std::marker::Brand;
use std::process::Abort;
use std::sync::Wait;
use std::thread;
use std::thread::Threads;

// A class of one chunk gets a second one.
static RAISED: [Row; 5] = [
    (0, 1000, On(b'a', Put(Set, 0, "1")), "Stored"),
    (0, 1000, Limit(1, 2), "2"),
    (0, 1000, On(b'b', Put(Set, 0, "2")), "Stored"),
    (0, 1000, Value(b'a'), "1"),
    (0, 1000, Value(b'b'), "2"),
];

static BOTH: [Ended; 2] = [(End::Entries(1), 2), (End::OfClass(1), 3)];

#[test]
fn a_higher_limit_lets_both_items_stay(rt: HostRuntime) {
    let alloc = rt.alloc();
    let config = two_classes(&rt, alloc, 1, [1, 1], 1);
    check_script(&rt, alloc, config, RAISED.as_slice(), BOTH.as_slice());
}

// A class of three chunks, all taken, may have one.
static LOWERED: [Row; 11] = [
    (0, 1000, On(b'a', Put(Set, 0, "1")), "Stored"),
    (0, 1000, On(b'b', Put(Set, 0, "2")), "Stored"),
    (0, 1000, On(b'c', Put(Set, 0, "3")), "Stored"),
    (0, 1000, Limit(1, 1), "1"),
    (0, 1000, Value(b'a'), "1"),
    (0, 1000, Value(b'b'), "2"),
    (0, 1000, Value(b'c'), "3"),
    (0, 1000, On(b'd', Put(Set, 0, "4")), "Stored"),
    (0, 1000, Value(b'a'), "-"),
    (0, 1000, Value(b'c'), "-"),
    (0, 1000, Value(b'd'), "4"),
];

// Six rounds force each of the three to COLD and evict it: with the links and the limit there are eleven events.
static LAST: [Ended; 2] = [(End::Entries(1), 1), (End::OfClass(1), 11)];

#[test]
fn a_lower_limit_evicts_nothing_by_itself(rt: HostRuntime) {
    let alloc = rt.alloc();
    let config = two_classes(&rt, alloc, 1, [3, 1], 1);
    check_script(&rt, alloc, config, LOWERED.as_slice(), LAST.as_slice());
}

// A limit of one class leaves the other alone, and takes a turn, which has no place.
static OF_ONE: [Row; 7] = [
    (0, 1000, On(b'a', Put(Set, 0, "1")), "Stored"),
    (0, 1000, Limit(2, 9), "9"),
    (0, 1000, OfClass(1), "1"),
    (0, 1000, OfClass(2), "1"),
    (0, 1000, On(b'a', Get), "0 1"),
    (0, 1000, Turn, "0 3"),
    (0, 1000, Places, "0 0 0;2 0 1;"),
];

#[test]
fn a_limit_is_of_one_class_and_takes_a_turn(rt: HostRuntime) {
    let alloc = rt.alloc();
    let config = two_classes(&rt, alloc, 1, [1, 1], 1);
    check_script(&rt, alloc, config, OF_ONE.as_slice(), &[]);
}

// Each class opens with this limit, and no limit that is set is above it.
const MOST: u64 = 8;

// Sets items of 26 keys, one after another. A set may find no room while the limit is low.
fn set_often<N: Named, R: Abort + Wait>(
    rt: &R,
    alloc: Global,
    store: &Store<N>,
    pass: &mut Pass<N>,
) {
    for number in 0..1000u32 {
        let letter = b'a' + (number % 26) as u8;
        let set = command_of(rt, alloc, letter, Ask::Store(Set, 0, "x"), 0);
        answer(rt, alloc, store, pass, set, 1000);
    }
}

// Sets class 1's limit of chunks to 8, to 7, and so on to 1, then again.
fn limit_often<N: Named, R: Abort + Wait>(rt: &R, store: &Store<N>, pass: &mut Pass<N>)
    requires { length N.config.sizes ≡ 2 }
{
    for round in 0..400u64 {
        limit(rt, store, pass, ClassNo(1), MOST - round % MOST);
        thread::yield_now();
    }
}

// One thread sets items, and another the limit.
fn set_both<N: Named + Send + Sync, R: Threads + Abort + Wait + Sync>(
    rt: &R,
    alloc: Global,
    store: &Store<N>,
    first: &mut Pass<N>,
    second: &mut Pass<N>,
)
    requires { length N.config.sizes ≡ 2 }
{
    thread::join(
        rt,
        || set_often(rt, alloc, store, first),
        || limit_often(rt, store, second),
    );
}

// How many entries a class has after an event.
fn entries_after(entries: u64, event: &ClassEvent) -> u64 {
    match event {
        ClassEvent::Linked(_) => entries.wrapping_add(1),
        ClassEvent::Unlinked(_) => entries.wrapping_sub(1),
        ClassEvent::Evicted(_) => entries.wrapping_sub(1),
        ClassEvent::Reclaimed(_) => entries.wrapping_sub(1),
        _ => entries,
    }
}

// Ends the test where a class had more entries than the limit with which it opened.
fn check_counts<R: Abort>(rt: &R, class: &ClassState) {
    let history = class.history();
    let mut entries = 0u64;
    for place in 0..history.len() {
        entries = entries_after(entries, class_event(rt, history, place));
        assert!(rt; entries <= MOST, "at event {place}");
    }
}

fn limit_at_once<N: Named + Send + Sync, R: Threads + Abort + Wait + Sync>(
    rt: &R,
    alloc: Global,
    parts: Parts,
)
    requires named { (parts.tokens.board ≡ N.board) × (parts.config ≡ N.config) × (parts.tokens.queues ≡ N.queues) }
    requires fit { AreParts N.board N.config N.queues parts.tokens }
    requires shape { (N.config.stripes ≡ 4) × (length N.config.sizes ≡ 2) }
{
    let (store, mut passes) = opened::<N, R>(rt, alloc, parts);
    let mut first = passes.pop().expect(rt, "a pass");
    let mut second = passes.pop().expect(rt, "a second pass");
    set_both(rt, alloc, &store, &mut first, &mut second);
    let mut ledger = store.close();
    ledger.compare(&mut first);
    ledger.compare(&mut second);
    check_counts(rt, ledger.class(ClassNo(1)));
    check_classes(rt, alloc, &ledger, 4, [MOST, MOST]);
}

// Each event of the class is lawful by the limit before it.
#[test]
fn a_class_is_lowered_while_items_are_set(rt: HostRuntime) {
    let alloc = rt.alloc();
    let config = two_classes(&rt, alloc, 4, [MOST, MOST], 2);
    let parts = parts_for(&rt, alloc, config);
    limit_at_once::<Brand, HostRuntime>(&rt, alloc, parts);
}
