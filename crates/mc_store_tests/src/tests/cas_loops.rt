//! Threads that add to one number by reading it and a cas, each again and again until its cas is stored.
use super::asking::Ask::{Get, Store as Put};
use super::asking::{Ask, command_of};
use super::opening::two_classes;
use super::running::Act::On;
use super::running::Row;
use super::sharing::{Call, Task, Work, make_call, share};
use mc_item::{Reply, Verb};
use mc_store::{Named, Store};
use mc_testing::try_storage;
use std::alloc::Global;
use std::process::Abort;
use std::sync::Wait;

// Each thread adds so many.
const TIMES: u32 = 200;

// A thread gives up after so many tries, and so ends in any case.
const TRIES: u32 = 1_000_000;

// The number of some digits.
fn number_in(text: &[u8]) -> u64 {
    let mut number = 0u64;
    for digit in text {
        number = number
            .wrapping_mul(10)
            .wrapping_add(u64::from(digit.wrapping_sub(b'0')));
    }
    number
}

// The number that the last call read, and its cas number.
fn last_read(calls: &Vec<Call>) -> (u64, u64) {
    match calls.as_slice().last() {
        None => (0, 0),
        Some(call) => match &call.reply {
            Reply::Value { value, cas, .. } => (number_in(value.bytes()), *cas),
            _ => (0, 0),
        },
    }
}

// One where a call stored by a cas.
fn stored_by(call: &Call) -> u32 {
    match call.reply {
        Reply::Stored => 1,
        _ => 0,
    }
}

// One where the last call stored.
fn last_stored(calls: &Vec<Call>) -> u32 {
    match calls.as_slice().last() {
        None => 0,
        Some(call) => stored_by(call),
    }
}

// Stores a number where nobody has stored since this cas number was shown.
fn store_next<N: Named, R: Abort + Wait>(
    rt: &R,
    alloc: Global,
    store: &Store<N>,
    work: &mut Work<N>,
    number: u64,
    cas: u64,
) {
    let text = number.to_string(alloc).expect(rt, "digits");
    let bytes = text.as_str().as_bytes();
    let command = try_storage(alloc, Verb::Cas(cas), b'n', 0, 0, bytes).expect(rt, "a command");
    make_call(rt, alloc, store, work, command, 1000);
}

// Reads the number and stores the next one, where nobody has stored another meanwhile.
fn add_one<N: Named, R: Abort + Wait>(rt: &R, alloc: Global, store: &Store<N>, work: &mut Work<N>) {
    let command = command_of(rt, alloc, b'n', Ask::Get, 0);
    make_call(rt, alloc, store, work, command, 1000);
    let (number, cas) = last_read(&work.calls);
    store_next(rt, alloc, store, work, number.wrapping_add(1), cas);
}

/// Adds one, and again, as often as is wanted.
pub(super) fn add_all<N: Named, R: Abort + Wait>(
    rt: &R,
    alloc: Global,
    store: &Store<N>,
    work: &mut Work<N>,
) {
    let mut added = 0u32;
    for _ in 0..TRIES {
        if added == TIMES {
            break;
        }
        add_one(rt, alloc, store, work);
        added = added.wrapping_add(last_stored(&work.calls));
    }
}

// How many calls stored.
fn many_stored(calls: &Vec<Call>) -> u32 {
    let mut many = 0u32;
    for call in calls {
        many = many.wrapping_add(stored_by(call));
    }
    many
}

/// Ends the test where a thread didn't add as often as is wanted.
pub(super) fn check_added<R: Abort>(rt: &R, threads: &Vec<Vec<Call>>) {
    for calls in threads {
        assert_eq!(rt; many_stored(calls), TIMES);
    }
}

static ZERO: [Row; 1] = [(0, 1000, On(b'n', Put(Verb::Set, 0, "0")), "Stored")];

static SUM: [Row; 1] = [(0, 1000, On(b'n', Get), "0 600")];

// Each of 600 additions by three threads is in the number, though each thread's cas is refused where another was quicker.
#[test]
fn no_cas_of_three_threads_is_lost(rt: HostRuntime) {
    let alloc = rt.alloc();
    let config = two_classes(&rt, alloc, 1, [8, 8], 4);
    share(
        &rt,
        alloc,
        config,
        Task::Cas,
        ZERO.as_slice(),
        SUM.as_slice(),
    );
}
