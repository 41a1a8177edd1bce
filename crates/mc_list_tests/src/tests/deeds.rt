//! Calls of a class, each of which tells the number of its entry, or the place of the event. Where what a call requires
//! doesn't hold, the test ends.
ghost use Rattle.std.specs.Prelude.{◌≡◌, ◌≤◌, ◌^◌, Some, true};

use super::WHO;
use mc_item::{Expiry, Fault, Key, Passed, Seg, Shifted, Who, Why};
use mc_segment::{ClassState, EntryKey};
use std::alloc::Global;
use std::process::Abort;

/// Who calls, and the place that the event cites.
#[derive(Clone, Copy)]
pub(super) struct Call {
    pub who: Who,
    pub at: u64,
}

/// A new entry: the bytes of its key, its cost, and the moment and the expiry of its item.
#[derive(Clone, Copy)]
pub(super) struct New<'a> {
    pub key: &'a [u8],
    pub cost: u64,
    pub moment: u64,
    pub expiry: Expiry,
}

// The key of these bytes for a new entry of the class.
fn key_for<R: Abort>(rt: &R, alloc: Global, class: &ClassState, bytes: &[u8]) -> EntryKey
    ensures { class.now.keeps_events ≡ true → result.copy ≡ Some result.key }
{
    let key = Key::of(alloc, bytes).expect(rt, "a key");
    let copy = if class.keeps_events() {
        Some(key.copy(alloc).expect(rt, "a copy"))
    } else {
        None
    };
    EntryKey { key, copy }
}

// The test goes on where an entry of this cost may be linked.
fn asserts_cost<R: Abort>(rt: &R, cost: u64)
    ensures { cost ≤ 2 ^ 20 }
{
    assert!(rt; cost <= 1 << 20);
}

/// A new entry in a class with a free chunk.
pub(super) fn link<R: Abort>(
    rt: &R,
    alloc: Global,
    class: &mut ClassState,
    who: Who,
    new: New,
) -> u64
    ensures { class.new.rule ≡ class.old.rule }
{
    asserts_cost(rt, new.cost);
    assert!(rt; class.count() < class.chunks());
    let key = key_for(rt, alloc, class, new.key);
    class
        .link(who, key, new.cost, new.moment, new.expiry)
        .expect(rt, "a link")
}

/// The entry at a place from HOT's tail goes to COLD in a full class.
pub(super) fn force<R: Abort>(
    rt: &R,
    class: &mut ClassState,
    call: Call,
    j: u64,
    moment: u64,
) -> u64
    ensures { class.new.rule ≡ class.old.rule }
{
    let (who, at) = (call.who, call.at);
    assert!(rt; class.is_full() && j <= 4 && j < class.len(Seg::Hot));
    let number = class.from_tail(Seg::Hot, j).expect(rt, "an entry").number;
    let passed = class.passed(Seg::Hot, j);
    let shifted = Shifted {
        who,
        number,
        from_seg: Seg::Hot,
        to_seg: Seg::Cold,
        why: Why::Forced,
        moment,
        passed,
        at,
    };
    class.shift(shifted).expect(rt, "a forced move");
    number
}

/// The entry at a place from HOT's tail is found active.
pub(super) fn wake<R: Abort>(rt: &R, class: &mut ClassState, call: Call, j: u64, moment: u64) -> u64
    ensures { class.new.rule ≡ class.old.rule }
{
    let (who, at) = (call.who, call.at);
    assert!(rt; j <= 4 && j < class.len(Seg::Hot));
    let number = class.from_tail(Seg::Hot, j).expect(rt, "an entry").number;
    let passed = class.passed(Seg::Hot, j);
    let shifted = Shifted {
        who,
        number,
        from_seg: Seg::Hot,
        to_seg: Seg::Warm,
        why: Why::Active,
        moment,
        passed,
        at,
    };
    class.shift(shifted).expect(rt, "a move");
    number
}

/// An entry of COLD is hit.
pub(super) fn hit<R: Abort>(
    rt: &R,
    class: &mut ClassState,
    call: Call,
    number: u64,
    moment: u64,
) -> u64
    ensures { class.new.rule ≡ class.old.rule }
{
    let (who, at) = (call.who, call.at);
    assert!(rt; class.segment_of(number) == Some(Seg::Cold));
    let passed = class.passed(Seg::Cold, 0);
    let shifted = Shifted {
        who,
        number,
        from_seg: Seg::Cold,
        to_seg: Seg::Warm,
        why: Why::Hit,
        moment,
        passed,
        at,
    };
    class.shift(shifted).expect(rt, "a hit");
    number
}

/// WARM's tail is found active.
pub(super) fn keep_active<R: Abort>(rt: &R, class: &mut ClassState, moment: u64) -> u64 {
    let tail = class.from_tail(Seg::Warm, 0).expect(rt, "a tail").number;
    let shifted = Shifted {
        who: WHO,
        number: tail,
        from_seg: Seg::Warm,
        to_seg: Seg::Warm,
        why: Why::Active,
        moment,
        passed: Passed::of(&[]),
        at: 0,
    };
    class.shift(shifted).expect(rt, "a move");
    tail
}

/// The entry at a place from COLD's tail is taken in a full class.
pub(super) fn evict<R: Abort>(rt: &R, class: &mut ClassState, call: Call, j: u64) -> u64
    ensures { class.new.rule ≡ class.old.rule }
{
    let (who, at) = (call.who, call.at);
    assert!(rt; class.is_full() && j <= 4 && j < class.len(Seg::Cold));
    let number = class.from_tail(Seg::Cold, j).expect(rt, "an entry").number;
    let passed = class.passed(Seg::Cold, j);
    class
        .evict(who, number, passed, at)
        .expect(rt, "an eviction");
    number
}

/// An entry goes with its item.
pub(super) fn unlink<R: Abort>(rt: &R, class: &mut ClassState, who: Who, number: u64) -> u64
    ensures { class.new.rule ≡ class.old.rule }
{
    assert!(rt; class.segment_of(number).is_some());
    class.unlink(who, number).expect(rt, "a removal");
    number
}

/// An entry goes whose item is dead.
pub(super) fn reclaim<R: Abort>(
    rt: &R,
    class: &mut ClassState,
    call: Call,
    number: u64,
    moment: u64,
) -> u64
    ensures { class.new.rule ≡ class.old.rule }
{
    let (who, at) = (call.who, call.at);
    assert!(rt; class.segment_of(number).is_some());
    class
        .reclaim(who, number, moment, at)
        .expect(rt, "a removal");
    number
}

/// A full class has no chunk: the place of its event.
pub(super) fn refuse<R: Abort>(rt: &R, class: &mut ClassState, who: Who) -> u64
    ensures { class.new.rule ≡ class.old.rule }
{
    assert!(rt; class.is_full());
    class.refuse(who).expect(rt, "a refusal")
}

// The test goes on where a class may have this limit of chunks.
fn asserts_limit<R: Abort>(rt: &R, chunks: u64)
    ensures { (1 ≤ chunks) × (chunks ≤ 2 ^ 20) }
{
    assert!(rt; 1 <= chunks && chunks <= 1 << 20);
}

/// The class gets a new limit of chunks.
pub(super) fn try_set_chunks<R: Abort>(
    rt: &R,
    class: &mut ClassState,
    who: Who,
    chunks: u64,
) -> Result<(), Fault> {
    asserts_limit(rt, chunks);
    class.set_chunks(who, chunks)
}

/// New entries of one key until this many were linked: how many of them have the number that was next.
pub(super) fn link_until<R: Abort>(
    rt: &R,
    alloc: Global,
    class: &mut ClassState,
    count: u64,
) -> u64 {
    let mut right = 0u64;
    let new = New {
        key: b"a",
        cost: 66,
        moment: 1000,
        expiry: Expiry::Never,
    };
    for number in class.next_number()..count {
        if link(rt, alloc, class, WHO, new) == number {
            right = right.saturating_add(1);
        }
    }
    right
}

/// The entries below a number go again, but for one: how many went.
pub(super) fn unlink_but<R: Abort>(rt: &R, class: &mut ClassState, until: u64, kept: u64) -> u64 {
    let mut gone = 0u64;
    for number in 0..until {
        if number != kept {
            unlink(rt, class, WHO, number);
            gone = gone.saturating_add(1);
        }
    }
    gone
}
