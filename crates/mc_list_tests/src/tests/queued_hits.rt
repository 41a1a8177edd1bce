//! Hits that callers tell each other by queues: one after another, up to a queue's room, and from another thread.
ghost use Rattle.std.specs.Prelude.{◌≡◌, ◌<◌, length};
ghost use Rattle.mc_hits.specs.Views.{tables_of, no_hits};

use mc_hits::{Hands, Hit, Queues};
use mc_item::Who;
use std::alloc::Global;
use std::process::Abort;
use std::sync::Wait;
use std::test::Fail;
use std::thread;
use std::thread::Threads;

// This many queues with room for so many hits, and the hands of two callers.
fn opened<R: Abort>(rt: &R, alloc: Global, queues: usize, room: usize) -> (Queues, Hands, Hands)
    requires room { 0 < room }
    ensures queues { length result.0 ≡ queues }
    ensures hands { (result.1.tables ≡ tables_of result.0) × (result.2.tables ≡ tables_of result.0) }
    ensures untouched { (result.1.offers ≡ no_hits result.1.tables) × (result.2.offers ≡ no_hits result.2.tables) }
{
    let (queues, mut all) = Queues::open(alloc, queues, room, 2).expect(rt, "queues");
    let second = all.pop().expect(rt, "the second caller's hands");
    let first = all.pop().expect(rt, "the first caller's hands");
    (queues, first, second)
}

// Offers hits of these entries to a queue, one in each turn from 0 on, and says how many there was room for.
fn offer_all<R: Wait>(
    rt: &R,
    queues: &Queues,
    hands: &mut Hands,
    queue: usize,
    numbers: &[u64],
) -> usize
    requires hands { hands.old.tables ≡ tables_of queues.now }
    requires queue { queue < length queues.now }
    requires untouched { hands.old.offers ≡ no_hits hands.old.tables }
    ensures same { hands.new.tables ≡ hands.old.tables }
{
    let mut told = 0;
    for turn in 0..numbers.len() {
        if queues.offer(rt, hands, queue, turn as u64, numbers[turn]) {
            told += 1;
        }
    }
    told
}

// The entry of the oldest hit of a queue, which is taken.
fn taken<R: Wait>(rt: &R, queues: &Queues, hands: &mut Hands, queue: usize) -> Option<u64>
    requires hands { hands.old.tables ≡ tables_of queues.now }
    requires queue { queue < length queues.now }
    ensures same { hands.new.tables ≡ hands.old.tables }
{
    let hit = queues.take(rt, hands, queue)?;
    Some(hit.number)
}

// What three takings of a queue give.
fn three_taken<R: Wait>(
    rt: &R,
    queues: &Queues,
    hands: &mut Hands,
    queue: usize,
) -> [Option<u64>; 3]
    requires hands { hands.old.tables ≡ tables_of queues.now }
    requires queue { queue < length queues.now }
    ensures same { hands.new.tables ≡ hands.old.tables }
{
    [
        taken(rt, queues, hands, queue),
        taken(rt, queues, hands, queue),
        taken(rt, queues, hands, queue),
    ]
}

// One caller offers two hits to a queue, and the other takes from it and from the next one.
fn tell<R: Wait>(
    rt: &R,
    queues: &Queues,
    first: &mut Hands,
    second: &mut Hands,
) -> (usize, [Option<u64>; 3], [Option<u64>; 3])
    requires hands { (first.old.tables ≡ tables_of queues.now) × (second.old.tables ≡ tables_of queues.now) }
    requires queues { length queues.now ≡ 2 }
    requires untouched { first.old.offers ≡ no_hits first.old.tables }
{
    let told = offer_all(rt, queues, first, 0, &[7, 8]);
    let next = three_taken(rt, queues, second, 1);
    let taken = three_taken(rt, queues, second, 0);
    (told, taken, next)
}

#[test]
fn hits_are_taken_in_order_from_their_own_queue(rt: HostRuntime) {
    let (queues, mut first, mut second) = opened(&rt, rt.alloc(), 2, 4);
    let (told, taken, next) = tell(&rt, &queues, &mut first, &mut second);
    assert_eq!(rt; told, 2);
    assert_eq!(rt; taken, [Some(7), Some(8), None]);
    assert_eq!(rt; next, [None, None, None]);
}

// One caller offers three hits, and the other takes from that queue.
fn tell_three<R: Wait>(
    rt: &R,
    queues: &Queues,
    first: &mut Hands,
    second: &mut Hands,
) -> (usize, [Option<u64>; 3])
    requires hands { (first.old.tables ≡ tables_of queues.now) × (second.old.tables ≡ tables_of queues.now) }
    requires queues { length queues.now ≡ 1 }
    requires untouched { first.old.offers ≡ no_hits first.old.tables }
{
    let told = offer_all(rt, queues, first, 0, &[7, 8, 9]);
    (told, three_taken(rt, queues, second, 0))
}

#[test]
fn a_full_queue_says_so(rt: HostRuntime) {
    let (queues, mut first, mut second) = opened(&rt, rt.alloc(), 1, 2);
    let (told, taken) = tell_three(&rt, &queues, &mut first, &mut second);
    assert_eq!(rt; told, 2);
    assert_eq!(rt; taken, [Some(7), Some(8), None]);
}

// How many of so many takings from a queue gave just these entries, in their order.
fn takings_of<R: Wait>(
    rt: &R,
    queues: &Queues,
    hands: &mut Hands,
    queue: usize,
    numbers: &[u64],
) -> usize
    requires hands { hands.old.tables ≡ tables_of queues.now }
    requires queue { queue < length queues.now }
    ensures same { hands.new.tables ≡ hands.old.tables }
{
    let mut same = 0;
    for place in 0..numbers.len() {
        if taken(rt, queues, hands, queue) == Some(numbers[place]) {
            same += 1;
        }
    }
    same
}

// One caller offers hits of these entries, and the other takes as many. How many there was room for, how many were taken in
// order, and what is left.
fn tell_many<R: Wait>(
    rt: &R,
    queues: &Queues,
    first: &mut Hands,
    second: &mut Hands,
    numbers: &[u64],
) -> (usize, usize, [Option<u64>; 3])
    requires hands { (first.old.tables ≡ tables_of queues.now) × (second.old.tables ≡ tables_of queues.now) }
    requires queues { length queues.now ≡ 1 }
    requires untouched { first.old.offers ≡ no_hits first.old.tables }
{
    let offered = offer_all(rt, queues, first, 0, numbers);
    let same = takings_of(rt, queues, second, 0, numbers);
    (offered, same, three_taken(rt, queues, second, 0))
}

// The queue of a class has room for 256 hits.
#[test]
fn of_300_hits_on_one_queue_the_last_44_are_dropped(rt: HostRuntime) -> Result<(), Fail> {
    let alloc = rt.alloc();
    let mut numbers = Vec::new(alloc);
    for number in 1000..1300 {
        numbers.push(number)?;
    }
    let (queues, mut first, mut second) = opened(&rt, alloc, 1, 256);
    let (offered, same, left) = tell_many(
        &rt,
        &queues,
        &mut first,
        &mut second,
        numbers.as_slice(),
    );
    assert_eq!(rt; offered, 256);
    assert_eq!(rt; same, 256);
    assert_eq!(rt; left, [None, None, None]);
    Ok(())
}

// Both callers offer a hit of one entry. The second one takes three times.
fn tell_both<R: Wait>(
    rt: &R,
    queues: &Queues,
    first: &mut Hands,
    second: &mut Hands,
) -> (usize, usize, [Option<Hit>; 3])
    requires hands { (first.old.tables ≡ tables_of queues.now) × (second.old.tables ≡ tables_of queues.now) }
    requires queues { length queues.now ≡ 1 }
    requires untouched { (first.old.offers ≡ no_hits first.old.tables) × (second.old.offers ≡ no_hits second.old.tables) }
{
    let by_first = offer_all(rt, queues, first, 0, &[7]);
    let by_second = offer_all(rt, queues, second, 0, &[7]);
    let got = [
        queues.take(rt, second, 0),
        queues.take(rt, second, 0),
        queues.take(rt, second, 0),
    ];
    (by_first, by_second, got)
}

// The hit of entry 7 in a caller's turn 0.
fn hit_by(caller: u32) -> Option<Hit> {
    Some(Hit {
        who: Who { caller, turn: 0 },
        number: 7,
    })
}

#[test]
fn two_callers_hits_of_one_entry_name_their_callers(rt: HostRuntime) {
    let (queues, mut first, mut second) = opened(&rt, rt.alloc(), 1, 256);
    let (by_first, by_second, got) = tell_both(&rt, &queues, &mut first, &mut second);
    assert_eq!(rt; by_first, 1);
    assert_eq!(rt; by_second, 1);
    assert_eq!(rt; got, [hit_by(0), hit_by(1), None]);
}

// A caller's hands go to another thread, which offers two hits. Then the other caller takes them.
fn tell_from_a_thread<R: Threads + Wait + Sync>(
    rt: &R,
    queues: &Queues,
    first: Hands,
    second: &mut Hands,
) -> (usize, [Option<u64>; 3])
    requires hands { (first.tables ≡ tables_of queues.now) × (second.old.tables ≡ tables_of queues.now) }
    requires queues { length queues.now ≡ 1 }
    requires untouched { first.offers ≡ no_hits first.tables }
{
    let (told, _) = thread::join(
        rt,
        move || -> usize
            requires hands { first.tables ≡ tables_of queues.now }
            requires queues { length queues.now ≡ 1 }
            requires untouched { first.offers ≡ no_hits first.tables }
        {
            let mut hands = first;
            offer_all(rt, queues, &mut hands, 0, &[7, 8])
        },
        || thread::yield_now(),
    );
    (told, three_taken(rt, queues, second, 0))
}

#[test]
fn hands_go_to_another_thread(rt: HostRuntime) {
    let (queues, first, mut second) = opened(&rt, rt.alloc(), 1, 256);
    let (told, taken) = tell_from_a_thread(&rt, &queues, first, &mut second);
    assert_eq!(rt; told, 2);
    assert_eq!(rt; taken, [Some(7), Some(8), None]);
}
