//! As many hits as a class's queue has room for, and more. Of 640 items of the same cost HOT may have a fifth, and WARM two
//! fifths. So juggling leaves 128 in HOT and moves 512 to COLD, and the 256 that hits move to WARM may stay there.
ghost use Rattle.std.specs.Prelude.{◌≡◌, length};
ghost use Rattle.mc_store.specs.Opening.{AreParts};

use super::asking::{answer, juggle};
use super::ends::{End, check_ends};
use super::opening::{Parts, Shape, opened, parts_for, two_classes};
use mc_item::{ClassNo, Command, Key, Reply, Value, Verb};
use mc_store::{Named, Pass, Store};
use std::alloc::Global;
use std::marker::Brand;
use std::ops::Range;
use std::process::Abort;
use std::sync::Wait;
use std::thread;
use std::thread::Threads;

// So many items are set.
const ITEMS: u32 = 640;

// The key of an item: four digits.
fn key_of<R: Abort>(rt: &R, alloc: Global, number: u32) -> Key {
    let text = format!(in alloc; "{}", 1000u32.wrapping_add(number)).expect(rt, "a text");
    Key::of(alloc, text.as_str().as_bytes()).expect(rt, "a key")
}

/// A set of one byte.
pub(super) fn set_of<R: Abort>(rt: &R, alloc: Global, number: u32) -> Command {
    let bytes = Vec::from_slice(alloc, b"x").expect(rt, "a byte");
    let value = Value::of(alloc, bytes).expect(rt, "a value");
    Command::Store {
        verb: Verb::Set,
        key: key_of(rt, alloc, number),
        flags: 0,
        exptime: 0,
        value,
    }
}

fn check_stored<R: Abort>(rt: &R, reply: &Reply) {
    assert!(rt; matches!(reply, Reply::Stored));
}

fn check_value<R: Abort>(rt: &R, reply: &Reply) {
    assert!(rt; matches!(reply, Reply::Value { .. }));
}

fn set_all<N: Named, R: Abort + Wait>(rt: &R, alloc: Global, store: &Store<N>, pass: &mut Pass<N>) {
    for number in 0..ITEMS {
        let reply = answer(rt, alloc, store, pass, set_of(rt, alloc, number), 1000);
        check_stored(rt, &reply);
    }
}

// Gets items twice, so that the second hit makes each active.
fn hit_each<N: Named, R: Abort + Wait>(
    rt: &R,
    alloc: Global,
    store: &Store<N>,
    pass: &mut Pass<N>,
    numbers: Range<u32>,
) {
    for number in numbers {
        for _hit in 0..2 {
            let get = Command::Get(key_of(rt, alloc, number));
            let reply = answer(rt, alloc, store, pass, get, 1000);
            check_value(rt, &reply);
        }
    }
}

// Juggles class 1 so often.
fn juggle_often<N: Named, R: Abort + Wait>(
    rt: &R,
    alloc: Global,
    store: &Store<N>,
    pass: &mut Pass<N>,
    times: u32,
)
    requires { length N.config.sizes ≡ 2 }
{
    for _time in 0..times {
        juggle(rt, store, pass, ClassNo(1), 1000);
    }
}

// Sets all items, juggles until 512 are in COLD, and hits those of these numbers. COLD's tail is the item with number 0.
fn queue_hits<N: Named, R: Abort + Wait>(
    rt: &R,
    alloc: Global,
    store: &Store<N>,
    pass: &mut Pass<N>,
    numbers: Range<u32>,
)
    requires { length N.config.sizes ≡ 2 }
{
    set_all(rt, alloc, store, pass);
    juggle_often(rt, alloc, store, pass, 3);
    hit_each(rt, alloc, store, pass, numbers);
}

// Closes a store. Ends the test where hits moved other than 256 entries of class 1.
fn check_moves<N: Named, R: Abort + Wait>(
    rt: &R,
    alloc: Global,
    store: Store<N>,
    first: &mut Pass<N>,
    second: &mut Pass<N>,
)
    requires { (N.config.stripes ≡ 4) × (length N.config.sizes ≡ 2) }
{
    let mut ledger = store.close();
    ledger.compare(first);
    ledger.compare(second);
    let shape = Shape {
        stripes: 4,
        classes: 2,
    };
    check_ends(rt, alloc, &ledger, shape, &[(End::ByHits(1), 256)]);
}

// 300 hits are offered to a queue of 256. If it kept the others, the second juggling would take them: their entries are active
// in COLD, and none is at its tail.
fn overfill<N: Named, R: Abort + Wait>(rt: &R, alloc: Global, parts: Parts)
    requires named { (parts.tokens.board ≡ N.board) × (parts.config ≡ N.config) × (parts.tokens.queues ≡ N.queues) }
    requires fit { AreParts N.board N.config N.queues parts.tokens }
    requires shape { (N.config.stripes ≡ 4) × (length N.config.sizes ≡ 2) }
{
    let (store, mut passes) = opened::<N, R>(rt, alloc, parts);
    let mut first = passes.pop().expect(rt, "a pass");
    let mut second = passes.pop().expect(rt, "a second pass");
    queue_hits(rt, alloc, &store, &mut first, 100..400);
    juggle_often(rt, alloc, &store, &mut second, 2);
    check_moves(rt, alloc, store, &mut first, &mut second);
}

#[test]
fn a_full_queue_drops_hits(rt: HostRuntime) {
    let alloc = rt.alloc();
    let config = two_classes(&rt, alloc, 4, [1024, 8], 2);
    let parts = parts_for(&rt, alloc, config);
    overfill::<Brand, HostRuntime>(&rt, alloc, parts);
}

// Two threads juggle class 1 at once.
fn juggle_both<N: Named + Send + Sync, R: Threads + Abort + Wait + Sync>(
    rt: &R,
    alloc: Global,
    store: &Store<N>,
    first: &mut Pass<N>,
    second: &mut Pass<N>,
)
    requires { length N.config.sizes ≡ 2 }
{
    thread::join(
        rt,
        || juggle_often(rt, alloc, store, first, 8),
        || juggle_often(rt, alloc, store, second, 8),
    );
}

// Each of 256 hits is taken by one of two jugglers, and moves its entry once.
fn take_at_once<N: Named + Send + Sync, R: Threads + Abort + Wait + Sync>(
    rt: &R,
    alloc: Global,
    parts: Parts,
)
    requires named { (parts.tokens.board ≡ N.board) × (parts.config ≡ N.config) × (parts.tokens.queues ≡ N.queues) }
    requires fit { AreParts N.board N.config N.queues parts.tokens }
    requires shape { (N.config.stripes ≡ 4) × (length N.config.sizes ≡ 2) }
{
    let (store, mut passes) = opened::<N, R>(rt, alloc, parts);
    let mut first = passes.pop().expect(rt, "a pass");
    let mut second = passes.pop().expect(rt, "a second pass");
    queue_hits(rt, alloc, &store, &mut first, 100..356);
    juggle_both(rt, alloc, &store, &mut first, &mut second);
    check_moves(rt, alloc, store, &mut first, &mut second);
}

#[test]
fn two_jugglers_take_each_hit_once(rt: HostRuntime) {
    let alloc = rt.alloc();
    let config = two_classes(&rt, alloc, 4, [1024, 8], 2);
    let parts = parts_for(&rt, alloc, config);
    take_at_once::<Brand, HostRuntime>(&rt, alloc, parts);
}
