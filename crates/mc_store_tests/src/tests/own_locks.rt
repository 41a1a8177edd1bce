//! A stripe's lock stands alone: what is answered while one stripe of four is held, of which `a` is stripe 0 and `b`
//! stripe 1.
ghost use Rattle.std.specs.Prelude.{◌≡◌, length};
ghost use Rattle.mc_store.specs.Opening.{AreParts};

use super::asking::Ask::{Get, Incr, Store as Put};
use super::opening::{Parts, Shape, four_stripes, last_of, opened, parts_for};
use super::running::Act::{On, Visit};
use super::running::{Row, check_rows};
use mc_item::StripeNo;
use mc_item::Verb::Set;
use mc_store::{Named, Pass, Store};
use std::alloc::Global;
use std::marker::Brand;
use std::process::Abort;
use std::sync::Wait;
use std::sync::atomic::{AtomicBool, Ordering};
use std::thread;
use std::thread::Threads;

// Whoever waits for another thread yields so many turns at most.
const TURNS: u32 = 10_000_000;

// What the threads tell each other: that stripe 0 is held, and which stripe's commands were answered.
#[derive(Drop)]
struct Signs {
    held: AtomicBool,
    other: AtomicBool,
    same: AtomicBool,
}

// Whether the flag is set before the turns run out.
fn is_set_in_time(flag: &AtomicBool) -> bool {
    for _turn in 0..TURNS {
        if flag.load(Ordering::SeqCst) {
            return true;
        }
        thread::yield_now();
    }
    false
}

// Holds stripe 0 until another stripe's commands were answered: whether they were in time, and whether one on stripe 0 was
// before its lock is let go.
fn hold<N: Named>(rt: &impl Wait, store: &Store<N>, signs: &Signs) -> (bool, bool)
    requires { N.config.stripes ≡ 4 }
{
    store.visit_stripe(rt, StripeNo(0), |_state| {
        signs.held.store(true, Ordering::SeqCst);
        let other = is_set_in_time(&signs.other);
        (other, signs.same.load(Ordering::SeqCst))
    })
}

// What is asked of other stripes while stripe 0 is held; a further one is visited.
static OTHER: [Row; 4] = [
    (0, 1000, On(b'b', Put(Set, 0, "1")), "Stored"),
    (0, 1000, On(b'b', Incr(5)), "Number(6)"),
    (0, 1000, On(b'b', Get), "0 6"),
    (0, 1000, Visit(3), "0"),
];

// What is asked of the stripe that is held.
static SAME: [Row; 1] = [(0, 1000, On(b'a', Get), "Miss")];

// Makes rows while stripe 0 is held.
fn ask_while_held<N: Named, R: Abort + Wait>(
    rt: &R,
    alloc: Global,
    store: &Store<N>,
    passes: &mut Vec<Pass<N>>,
    rows: &[Row],
    held: &AtomicBool,
)
    requires four { N.config.stripes ≡ 4 }
    requires two { length N.config.sizes ≡ 2 }
{
    assert!(rt; is_set_in_time(held));
    let shape = Shape {
        stripes: 4,
        classes: 2,
    };
    check_rows(rt, alloc, store, passes, shape, rows);
}

// Asks other stripes, and says so once they have answered.
fn ask_others<N: Named, R: Abort + Wait>(
    rt: &R,
    alloc: Global,
    store: &Store<N>,
    passes: &mut Vec<Pass<N>>,
    signs: &Signs,
)
    requires four { N.config.stripes ≡ 4 }
    requires two { length N.config.sizes ≡ 2 }
{
    ask_while_held(rt, alloc, store, passes, OTHER.as_slice(), &signs.held);
    signs.other.store(true, Ordering::SeqCst);
}

// Asks the stripe that is held, and says so once it has answered.
fn ask_same<N: Named, R: Abort + Wait>(
    rt: &R,
    alloc: Global,
    store: &Store<N>,
    passes: &mut Vec<Pass<N>>,
    signs: &Signs,
)
    requires four { N.config.stripes ≡ 4 }
    requires two { length N.config.sizes ≡ 2 }
{
    ask_while_held(rt, alloc, store, passes, SAME.as_slice(), &signs.held);
    signs.same.store(true, Ordering::SeqCst);
}

// Two threads ask, one for `b` and one for `a`.
fn ask_both<N: Named + Send + Sync, R: Threads + Abort + Wait + Sync>(
    rt: &R,
    alloc: Global,
    store: &Store<N>,
    first: &mut Vec<Pass<N>>,
    second: &mut Vec<Pass<N>>,
    signs: &Signs,
)
    requires four { N.config.stripes ≡ 4 }
    requires two { length N.config.sizes ≡ 2 }
{
    thread::join(
        rt,
        || ask_others(rt, alloc, store, first, signs),
        || ask_same(rt, alloc, store, second, signs),
    );
}

// One thread holds stripe 0, and two ask for another key and for one of its own: whether the first was answered in time, and
// whether the second was before the lock was let go.
fn asked_under_a_lock<N: Named + Send + Sync, R: Threads + Abort + Wait + Sync>(
    rt: &R,
    alloc: Global,
    store: &Store<N>,
    first: &mut Vec<Pass<N>>,
    second: &mut Vec<Pass<N>>,
) -> (bool, bool)
    requires four { N.config.stripes ≡ 4 }
    requires two { length N.config.sizes ≡ 2 }
{
    let signs = Signs {
        held: AtomicBool::new(false),
        other: AtomicBool::new(false),
        same: AtomicBool::new(false),
    };
    let (held, ()) = thread::join(
        rt,
        || hold(rt, store, &signs),
        ||
            requires four { N.config.stripes ≡ 4 }
            requires two { length N.config.sizes ≡ 2 }
        { ask_both(rt, alloc, store, first, second, &signs) },
    );
    held
}

// Ends the test where commands on another stripe weren't answered while one was held, or those on it were.
fn check_held<R: Abort>(rt: &R, held: (bool, bool)) {
    assert_eq!(rt; held, (true, false));
}

// The same of a new store.
fn ask_under_a_lock<N: Named + Send + Sync, R: Threads + Abort + Wait + Sync>(
    rt: &R,
    alloc: Global,
    parts: Parts,
)
    requires named { (parts.tokens.board ≡ N.board) × (parts.config ≡ N.config) × (parts.tokens.queues ≡ N.queues) }
    requires fit { AreParts N.board N.config N.queues parts.tokens }
    requires four { N.config.stripes ≡ 4 }
    requires two { length N.config.sizes ≡ 2 }
{
    let (store, mut passes) = opened::<N, R>(rt, alloc, parts);
    let mut own = last_of(rt, alloc, &mut passes);
    let held = asked_under_a_lock(rt, alloc, &store, &mut own, &mut passes);
    check_held(rt, held);
}

// While one stripe is held commands on another are answered and a third is visited, and commands on it wait.
#[test]
fn another_stripe_answers_while_one_is_held(rt: HostRuntime) {
    let alloc = rt.alloc();
    let config = four_stripes(&rt, alloc);
    let parts = parts_for(&rt, alloc, config);
    ask_under_a_lock::<Brand, HostRuntime>(&rt, alloc, parts);
}
