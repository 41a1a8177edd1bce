//! A class's figures are read without its lock: rows worked out by hand, and a reader beside threads that write.
ghost use Rattle.std.specs.Prelude.{◌≡◌, length};

use super::READS;
use super::asking::Ask::{Delete, Store as Put};
use super::asking::{self, answer, juggle};
use super::many_hits::set_of;
use super::opening::two_classes;
use super::running::Act::{self, Juggle, Limit, On};
use super::running::{Row, check_script};
use super::sharing::{Task, share};
use mc_board::Figures;
use mc_item::ClassNo;
use mc_item::Verb::Set;
use mc_store::{Named, Pass, Store};
use std::alloc::Global;
use std::process::Abort;
use std::sync::Wait;
use std::sync::atomic::{AtomicU64, Ordering};

// Five items of 66 bytes each. HOT may have a fifth of their bytes, so juggling leaves the last one there and moves four to COLD:
// a survey and four moves. The second caller has seen nothing when it reads.
static READ: [Row; 14] = [
    (0, 1000, On(b'a', Put(Set, 0, "1")), "Stored"),
    (0, 1000, On(b'b', Put(Set, 0, "2")), "Stored"),
    (0, 1000, On(b'c', Put(Set, 0, "3")), "Stored"),
    (0, 1000, On(b'd', Put(Set, 0, "4")), "Stored"),
    (0, 1000, On(b'e', Put(Set, 0, "5")), "Stored"),
    (
        0,
        1000,
        Act::Figures(1),
        "events 5; bytes 330 0 0 0; items 5 0 0 0",
    ),
    (0, 1000, Juggle(1), "reclaimed 0, moved 4"),
    (
        1,
        1000,
        Act::Figures(1),
        "events 10; bytes 66 0 264 0; items 1 0 4 0",
    ),
    (0, 1000, Limit(1, 5), "5"),
    (
        1,
        1000,
        Act::Figures(1),
        "events 11; bytes 66 0 264 0; items 1 0 4 0",
    ),
    (0, 1000, On(b'a', Delete), "Deleted"),
    (
        1,
        1000,
        Act::Figures(1),
        "events 12; bytes 66 0 198 0; items 1 0 3 0",
    ),
    (
        0,
        1000,
        Act::Figures(1),
        "events 12; bytes 66 0 198 0; items 1 0 3 0",
    ),
    (
        1,
        1000,
        Act::Figures(2),
        "events 0; bytes 0 0 0 0; items 0 0 0 0",
    ),
];

#[test]
fn figures_are_those_after_the_last_event(rt: HostRuntime) {
    let alloc = rt.alloc();
    let config = two_classes(&rt, alloc, 1, [8, 1], 2);
    check_script(&rt, alloc, config, READ.as_slice(), &[]);
}

// So many threads set the same keys of four digits.
const WRITERS: u32 = 4;

const KEYS: u32 = 1000;

// The cost of each item: 64, the key's 4 bytes and the value's one.
const COST: u64 = 69;

// The writers set the keys at most so often, and so end in any case.
const ROUNDS: u32 = 1_000_000;

// Sets all keys, and juggles after some.
fn set_all<N: Named, R: Abort + Wait>(rt: &R, alloc: Global, store: &Store<N>, pass: &mut Pass<N>)
    requires { length N.config.sizes ≡ 2 }
{
    for number in 0..KEYS {
        answer(rt, alloc, store, pass, set_of(rt, alloc, number), 1000);
        if number % 100 == 0 {
            juggle(rt, store, pass, ClassNo(1), 1000);
        }
    }
}

// Sets all keys again and again, until the reader has ended.
fn write<N: Named, R: Abort + Wait>(
    rt: &R,
    alloc: Global,
    store: &Store<N>,
    pass: &mut Pass<N>,
    ended: &AtomicU64,
)
    requires { length N.config.sizes ≡ 2 }
{
    for _ in 0..ROUNDS {
        set_all(rt, alloc, store, pass);
        if ended.load(Ordering::SeqCst) > 0 {
            break;
        }
    }
}

// Ends the test where a list's bytes aren't what so many items cost.
fn check_costs<R: Abort>(rt: &R, figures: Figures) {
    let Figures {
        events,
        bytes,
        counts,
    } = figures;
    for list in 0..4 {
        let wanted = counts[list].wrapping_mul(COST);
        assert_eq!(rt; bytes[list], wanted, "after {events} events");
    }
}

// Reads class 1's figures so often.
fn read<N: Named, R: Abort>(rt: &R, store: &Store<N>, pass: &mut Pass<N>)
    requires { length N.config.sizes ≡ 2 }
{
    for _ in 0..READS {
        check_costs(rt, asking::figures(rt, store, pass, ClassNo(1)));
    }
}

/// What a thread does, by the number of its caller: the first one reads, and the others write meanwhile.
pub(super) fn work<N: Named, R: Abort + Wait>(
    rt: &R,
    alloc: Global,
    store: &Store<N>,
    pass: &mut Pass<N>,
    ended: &AtomicU64,
)
    requires { length N.config.sizes ≡ 2 }
{
    if pass.next_who().caller == 0 {
        read(rt, store, pass);
        ended.fetch_add(1, Ordering::SeqCst);
    } else {
        write(rt, alloc, store, pass, ended);
    }
}

static AFTERWARDS: [Row; 1] = [(0, 1000, Act::Items(1), "1000")];

// Each list's bytes are of the same moment as its items. In the end each key has one item.
#[test]
fn figures_beside_writers_are_of_one_moment(rt: HostRuntime) {
    let alloc = rt.alloc();
    let mut config = two_classes(&rt, alloc, 4, [1024, 8], WRITERS + 2);
    config.keeps_events = false;
    config.max_events = 1 << 32;
    share(&rt, alloc, config, Task::Read, &[], AFTERWARDS.as_slice());
}
