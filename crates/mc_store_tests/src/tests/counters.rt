//! Threads that count on the same keys: no count is lost, and each thread's own numbers rise.
use super::asking::Ask::{Get, Incr, Store as Put};
use super::asking::{Ask, command_of};
use super::opening::{four_stripes, two_classes};
use super::running::Act::{Juggle, On};
use super::running::Row;
use super::sharing::{Call, Task, Work, make_call, share};
use mc_item::Reply;
use mc_item::Verb::Set;
use mc_store::{Named, Store};
use std::alloc::Global;
use std::process::Abort;
use std::sync::Wait;

// Each thread adds so often to each key.
const TIMES: usize = 500;

/// Adds one to each key, again and again.
pub(super) fn count<N: Named, R: Abort + Wait>(
    rt: &R,
    alloc: Global,
    store: &Store<N>,
    work: &mut Work<N>,
    letters: &[u8],
) {
    for _ in 0..TIMES {
        for letter in letters {
            let command = command_of(rt, alloc, *letter, Ask::Incr(1), 0);
            make_call(rt, alloc, store, work, command, 1000);
        }
    }
}

// The number that a call on the key of one letter was answered. What is no number is 0.
fn number_of(call: &Call, letter: u8) -> Option<u64> {
    if call.command.key().bytes() != [letter].as_slice() {
        return None;
    }
    match call.reply {
        Reply::Number(number) => Some(number),
        _ => Some(0),
    }
}

// The numbers of one key.
fn numbers_of<R: Abort>(rt: &R, alloc: Global, calls: &Vec<Call>, letter: u8) -> Vec<u64> {
    let mut numbers = Vec::new(alloc);
    for call in calls {
        if let Some(number) = number_of(call, letter) {
            numbers.push(number).ok().expect(rt, "room for a number");
        }
    }
    numbers
}

// Whether each number is larger than the one before.
fn is_rising(numbers: &[u64]) -> bool {
    let mut last = 0;
    for number in numbers {
        if *number <= last {
            return false;
        }
        last = *number;
    }
    true
}

// Adds a thread's numbers of a key to all of them, and ends the test where they don't rise.
fn check_rise<R: Abort>(rt: &R, numbers: &Vec<u64>, all: &mut Vec<u64>) {
    assert_eq!(rt; numbers.len(), TIMES);
    assert!(rt; is_rising(numbers.as_slice()));
    all.extend_from_slice(numbers.as_slice())
        .expect(rt, "room for all");
}

// Whether the numbers are those from 1, each once.
fn are_all(numbers: &[u64]) -> bool {
    let mut wanted = 0u64;
    for number in numbers {
        wanted = wanted.wrapping_add(1);
        if *number != wanted {
            return false;
        }
    }
    true
}

// Ends the test where so many threads' numbers aren't those from 1 to their number, each once.
fn check_all<R: Abort>(rt: &R, all: &mut Vec<u64>, threads: usize) {
    all.sort().expect(rt, "room to sort");
    assert_eq!(rt; all.len(), threads.wrapping_mul(TIMES));
    assert!(rt; are_all(all.as_slice()));
}

// Ends the test where a thread's numbers of a key don't rise, or where the threads' numbers of it aren't those from 1 on,
// each once.
fn check_key<R: Abort>(rt: &R, alloc: Global, threads: &Vec<Vec<Call>>, letter: u8) {
    let mut all = Vec::new(alloc);
    for calls in threads {
        let numbers = numbers_of(rt, alloc, calls, letter);
        check_rise(rt, &numbers, &mut all);
    }
    check_all(rt, &mut all, threads.len());
}

/// The same of each key.
pub(super) fn check_counts<R: Abort>(
    rt: &R,
    alloc: Global,
    threads: &Vec<Vec<Call>>,
    letters: &[u8],
) {
    for letter in letters {
        check_key(rt, alloc, threads, *letter);
    }
}

static ZERO: [Row; 1] = [(0, 1000, On(b'a', Put(Set, 0, "0000")), "Stored")];

static SUM: [Row; 1] = [(0, 1000, On(b'a', Get), "0 2000")];

static ZEROS: [Row; 4] = [
    (0, 1000, On(b'a', Put(Set, 0, "0000")), "Stored"),
    (0, 1000, On(b'b', Put(Set, 0, "0000")), "Stored"),
    (0, 1000, On(b'c', Put(Set, 0, "0000")), "Stored"),
    (0, 1000, On(b'd', Put(Set, 0, "0000")), "Stored"),
];

static SUMS: [Row; 4] = [
    (0, 1000, On(b'a', Get), "0 2000"),
    (0, 1000, On(b'b', Get), "0 2000"),
    (0, 1000, On(b'c', Get), "0 2000"),
    (0, 1000, On(b'd', Get), "0 2000"),
];

static PADDED: [Row; 1] = [(0, 1000, On(b'n', Put(Set, 0, "0   ")), "Stored")];

static PADDED_SUM: [Row; 1] = [(0, 1000, On(b'n', Get), "0 2000")];

// Four threads add 500 times one to a key, then to each of four keys, one of each stripe, and then to a number that is padded
// to four bytes.
#[test]
fn counters_of_four_threads_add_up(rt: HostRuntime) {
    let alloc = rt.alloc();
    let one = two_classes(&rt, alloc, 1, [8, 8], 5);
    share(
        &rt,
        alloc,
        one,
        Task::Count(b"a"),
        ZERO.as_slice(),
        SUM.as_slice(),
    );
    let four = two_classes(&rt, alloc, 4, [8, 8], 5);
    share(
        &rt,
        alloc,
        four,
        Task::Count(b"abcd"),
        ZEROS.as_slice(),
        SUMS.as_slice(),
    );
    let padded = two_classes(&rt, alloc, 1, [8, 8], 5);
    share(
        &rt,
        alloc,
        padded,
        Task::Count(b"n"),
        PADDED.as_slice(),
        PADDED_SUM.as_slice(),
    );
}

static FLAGGED: [Row; 1] = [(0, 1000, On(b'n', Put(Set, 7, "0")), "Stored")];

// HOT may hold a fifth of its class's bytes, so that its only entry, which was never read, goes to COLD.
static ONE_MORE: [Row; 3] = [
    (0, 1000, Juggle(1), "reclaimed 0, moved 1"),
    (0, 1000, On(b'n', Incr(1)), "Number(1001)"),
    (0, 1000, On(b'n', Get), "7 1001"),
];

// No count is lost: 500 by each of two threads, and one more, are 1001.
#[test]
fn a_counter_of_two_threads_keeps_its_flags(rt: HostRuntime) {
    let alloc = rt.alloc();
    let config = four_stripes(&rt, alloc);
    share(
        &rt,
        alloc,
        config,
        Task::Count(b"n"),
        FLAGGED.as_slice(),
        ONE_MORE.as_slice(),
    );
}
